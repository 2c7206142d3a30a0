// What a sample does to charge, cycles, the run, full and bit 4. Only our own crates call it.
#![tactic(auto)]

ghost use Rattle.std.specs.Prelude.{◌≡◌, true, cond, ◌+◌, ◌-◌, ◌*◌, ◌<◌, ◌≤◌, min};
ghost use Rattle.tank.specs.Tank.{tank_after};
ghost use Rattle.learning.specs.Learning.{learned};
ghost use Rattle.pack.specs.Sound.{tank_sound, toward_sound, run_sound};
ghost use Rattle.capacity.specs.Capacity.{milliamp_ms};
ghost use Rattle.words.specs.Words.{size_of};

use learning::Seen;
use pack::{Latest, Run, Settings, Tank};

// Charge and full, which a close sets together.
#[derive(Clone, Copy)]
struct Level {
    charge: u64,
    full: u16,
}

// What flows: current × elapsed, in mA·ms.
pub fn flowed(current: u16, elapsed: u32) -> u64
    ensures is { result ≡ size_of current * elapsed }
    ensures small { result ≤ 32768 * 4294967295 }
{
    capacity::product(u64::from(elapsed), words::size(current) as u16)
}

// Charge after what flows, between 0 and the top.
pub fn moved(charge: u64, top: u64, falls: bool, flow: u64) -> u64
    requires { charge ≤ top }
    ensures { result ≡ cond falls (charge - flow) (min top (charge + flow)) }
{
    if falls {
        charge.saturating_sub(flow)
    } else {
        charge.saturating_add(flow).min(top)
    }
}

// A close sets full to what was learned, and charge to 0.
fn left(closed: bool, u: Run, v: Seen, charge: u64, full: u16) -> Level
    requires { (u.drawn ≤ milliamp_ms 65535) × (v.drawn ≤ 32768 * 4294967295) }
    ensures charge { result.charge ≡ cond closed 0 charge }
    ensures full { result.full ≡ cond closed (learned u v) full }
{
    if closed {
        return Level {
            charge: 0,
            full: learning::full_learned(u, v),
        };
    }
    Level { charge, full }
}

// In the rule's order: charge; charge drawn and cycles; the run and its close; bit 4.
pub fn sampled(s: Settings, t: Tank, x: Latest, elapsed: u32) -> Tank
    requires { (tank_sound t ≡ true) × (toward_sound s.DesignCapacity t.toward ≡ true) × (run_sound t.run ≡ true) }
    ensures { result ≡ tank_after s t x elapsed }
{
    let flow = flowed(x.current, elapsed);
    let falls = words::falls(x.current);
    let top = capacity::milliamp_ms(t.full);
    let charge = moved(t.charge, top, falls, flow);
    let drawn = cycles::drawn(falls, flow);
    let cycles = cycles::counted(s.DesignCapacity, t.CycleCount, t.toward, drawn);
    let seen = Seen {
        filled: charge == top,
        rises: words::rises(x.current),
        ends: pack::discharge_ends(x.voltage, x.current, s.DischargeLimit),
        drawn,
    };
    let closed = learning::run_closes(t.run, seen);
    let level = left(closed, t.run, seen, charge, t.full);
    let run = learning::run_after(t.run, seen);
    let empty = capacity::fully_discharged(t.FullyDischarged, level.charge, level.full);
    Tank {
        charge: level.charge,
        full: level.full,
        CycleCount: cycles.count,
        FullyDischarged: empty,
        toward: cycles.toward,
        run,
    }
}
