// What a sample makes of the recent minute: its current is shared among the seconds that its milliseconds cross.
#![tactic(auto)]

ghost use Rattle.std.specs.Prelude.{◌≡◌, ◌≤◌, true, ◌∷◌, ◌++◌, take, replicate, pos, ◌*ℤ◌};
ghost use Rattle.std.specs.Int.{w16};
ghost use Rattle.std.proofs.Common.{to_z};
ghost use Rattle.recent.specs.Recent.{recent_sound, total_sound};
ghost use Rattle.seconds.specs.Seconds.{flowed_of, recent_after};

use recent::Recent;

// A signed word by a number of milliseconds.
fn signed_product(current: u16, ms: u16) -> i32
    requires { ms ≤ 1000 }
    ensures { result ≡ to_z w16 current *ℤ pos ms }
{
    let size = capacity::product16(words::size(current) as u16, ms) as i32;
    if words::falls(current) { -size } else { size }
}

// A total after a current flowed for so many milliseconds more.
fn flowed(total: u32, current: u16, ms: u32) -> u32
    requires short { ms ≤ 1000 }
    requires sound { total_sound 1000 total ≡ true }
    ensures { result ≡ flowed_of total current ms }
{
    let flow = signed_product(current, ms as u16);
    (total.cast_signed() + flow).cast_unsigned()
}

// Before the old totals come that of the second just full and those of n whole ones.
fn shifted(old: &[u32; 60], n: usize, full: u32, whole: u32) -> [u32; 60]
    ensures { result ≡ take 60 (replicate n whole ++ (full ∷ old.now)) }
{
    let mut totals = [whole; 60];
    if n < 60 {
        totals[n] = full;
        totals[n + 1..].copy_from_slice(&old[..59 - n]);
    }
    totals
}

// A sample more: its current counts for the milliseconds since the sample before.
pub fn sampled(r: Recent, current: u16, elapsed: u32) -> Recent
    requires { recent_sound r ≡ true }
    ensures { result ≡ recent_after r current elapsed }
{
    let begun = u32::from(r.begun);
    let lacking = 1000 - begun;
    if elapsed < lacking {
        return Recent {
            begun: (begun + elapsed) as u16,
            total: flowed(r.total, current, elapsed),
            ..r
        };
    }
    let full = flowed(r.total, current, lacking);
    let whole = flowed(0, current, 1000);
    let beyond = elapsed - lacking;
    let n = (beyond / 1000) as usize;
    let rest = beyond % 1000;
    Recent {
        totals: shifted(&r.totals, n, full, whole),
        count: (r.count + 1 + n).min(60),
        begun: rest as u16,
        total: flowed(0, current, rest),
    }
}
