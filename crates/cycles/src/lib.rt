// The charge that a sample draws, and the cycles that it makes. Only our own crates call these.
#![tactic(auto)]

ghost use Rattle.std.specs.Prelude.{◌≡◌, cond, ◌*◌, ◌<◌, ◌≤◌};
ghost use Rattle.cycles.specs.Cycles.{cycles_after, toward_after};
ghost use Rattle.capacity.specs.Capacity.{milliamp_ms};

// The cycle number, and what is kept toward the next.
#[derive(Clone, Copy)]
pub struct Cycles {
    pub count: u16,
    pub toward: u64,
}

// What is drawn of what flows, by whether the current is below 0.
pub fn drawn(falls: bool, flow: u64) -> u64
    ensures is { result ≡ cond falls flow 0 }
    ensures most { result ≤ flow }
{
    if falls { flow } else { 0 }
}

// A sample may draw many design capacities at once.
pub fn counted(design: u16, cycles: u16, toward: u64, drawn: u64) -> Cycles
    requires { (toward < milliamp_ms design) × (drawn ≤ 32768 * 4294967295) }
    ensures count { result.count ≡ cycles_after design cycles toward drawn }
    ensures toward { result.toward ≡ toward_after design toward drawn }
{
    let one = capacity::milliamp_ms(design);
    let total = toward + drawn;
    let count = capacity::capped(u64::from(cycles) + total / one);
    Cycles {
        count,
        toward: total % one,
    }
}
