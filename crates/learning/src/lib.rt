// A run, a discharge from full, and the full capacity that its close teaches. Only our own crates call these.
#![tactic(auto)]

ghost use Rattle.std.specs.Prelude.{◌≡◌, ◌*◌, ◌≤◌};
ghost use Rattle.learning.specs.Learning.{closes, counts_on, drawn_in, run_after, learned};
ghost use Rattle.capacity.specs.Capacity.{milliamp_ms};

use pack::{RUN_MOST, Run};

// What a run sees of a sample: whether it leaves the pack full, whether its current is above 0, whether it has
// TERMINATE_DISCHARGE set, and the charge that it draws.
#[derive(Clone, Copy)]
pub struct Seen {
    pub filled: bool,
    pub rises: bool,
    pub ends: bool,
    pub drawn: u64,
}

pub fn run_closes(u: Run, v: Seen) -> bool
    ensures { result ≡ closes u v }
{
    u.opened & !v.filled & v.ends
}

fn counts_on(u: Run, v: Seen) -> bool
    ensures { result ≡ counts_on u v }
{
    u.opened & !v.filled & !v.rises & !v.ends
}

fn drawn_in(u: Run, v: Seen) -> u64
    requires { (u.drawn ≤ milliamp_ms 65535) × (v.drawn ≤ 32768 * 4294967295) }
    ensures { result ≡ drawn_in u v }
{
    (u.drawn + v.drawn).min(RUN_MOST)
}

pub fn run_after(u: Run, v: Seen) -> Run
    requires { (u.drawn ≤ milliamp_ms 65535) × (v.drawn ≤ 32768 * 4294967295) }
    ensures { result ≡ run_after u v }
{
    let on = counts_on(u, v);
    Run {
        opened: v.filled | on,
        drawn: if on { drawn_in(u, v) } else { 0 },
    }
}

pub fn full_learned(u: Run, v: Seen) -> u16
    requires { (u.drawn ≤ milliamp_ms 65535) × (v.drawn ≤ 32768 * 4294967295) }
    ensures { result ≡ learned u v }
{
    (drawn_in(u, v) / 3600000).max(1) as u16
}
