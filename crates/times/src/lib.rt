// The times of 05, 06 and 11 to 13, and AtRateOK: pure functions of the pack. Only our own crates call these.
#![tactic(auto)]

ghost use Rattle.std.specs.Prelude.{◌≡◌, true, ◌≤◌};
ghost use Rattle.times.specs.Times.{missing, at_rate_time_to_empty, at_rate_time_to_full, present_discharge, covers, at_rate_ok, rate_of, time_to_empty_at, run_time_to_empty, average_time_to_empty, average_time_to_full};
ghost use Rattle.pack.specs.Sound.{tank_sound};
ghost use Rattle.recent.specs.Recent.{recent_sound};

use minutes::{Given, Time};
use pack::Pack;

// 06 AtRateTimeToEmpty.
pub fn at_rate_time_to_empty(p: Pack) -> Time
    requires { tank_sound p.tank ≡ true }
    ensures { result ≡ at_rate_time_to_empty p }
{
    let flows = words::falls(p.host.AtRate);
    let remaining = registers::remaining_capacity(p);
    let rate = words::size(p.host.AtRate);
    minutes::by_rate(flows, remaining, rate)
}

// Full minus remaining, of the words 10 and 0F.
fn missing_capacity(p: Pack) -> u16
    requires { tank_sound p.tank ≡ true }
    ensures { result ≡ missing p }
{
    let full = registers::full_charge_capacity(p);
    let remaining = registers::remaining_capacity(p);
    full - remaining
}

// 05 AtRateTimeToFull.
pub fn at_rate_time_to_full(p: Pack) -> Given
    requires { tank_sound p.tank ≡ true }
    ensures { result ≡ at_rate_time_to_full p }
{
    if p.host.CapacityMode {
        return Given::NoTime;
    }
    let flows = words::rises(p.host.AtRate);
    let left = missing_capacity(p);
    let rate = words::size(p.host.AtRate);
    Given::Until(minutes::by_rate(flows, left, rate))
}

// The present discharge in mA.
fn present_discharge(p: Pack) -> u32
    ensures is { result ≡ present_discharge p }
    ensures small { result ≤ 32768 }
{
    if words::falls(p.latest.current) {
        return words::size(p.latest.current);
    }
    0
}

// Whether charge covers 10 s of the rate beside the present discharge.
fn covers_it(p: Pack) -> bool
    requires { tank_sound p.tank ≡ true }
    ensures { result ≡ covers p }
{
    let rate = words::size(p.host.AtRate);
    let drawn = present_discharge(p);
    if p.host.CapacityMode {
        let used = capacity::product16(drawn as u16, p.settings.DesignVoltage);
        let held = capacity::product(p.tank.charge, p.settings.DesignVoltage);
        let asked = capacity::product16(rate as u16, 10000) + used;
        return capacity::product(u64::from(asked), 10000) <= held;
    }
    capacity::product(u64::from(rate + drawn), 10000) <= p.tank.charge
}

// 07 AtRateOK.
pub fn at_rate_ok(p: Pack) -> u16
    requires { tank_sound p.tank ≡ true }
    ensures { result ≡ at_rate_ok p }
{
    if words::falls(p.host.AtRate) {
        return registers::flag(covers_it(p), 1);
    }
    1
}

// A current as a rate: mA, in power mode 10 mW.
fn rate_of(p: Pack, current: u16) -> u32
    ensures { result ≡ rate_of p current }
{
    let size = words::size(current);
    if p.host.CapacityMode {
        return capacity::power(u64::from(size), p.latest.voltage) as u32;
    }
    size
}

// The time until empty at a current.
fn time_to_empty_at(p: Pack, current: u16) -> Time
    requires { tank_sound p.tank ≡ true }
    ensures { result ≡ time_to_empty_at p current }
{
    let flows = words::falls(current);
    let remaining = registers::remaining_capacity(p);
    let rate = rate_of(p, current);
    minutes::by_rate(flows, remaining, rate)
}

// 11 RunTimeToEmpty.
pub fn run_time_to_empty(p: Pack) -> Time
    requires { tank_sound p.tank ≡ true }
    ensures { result ≡ run_time_to_empty p }
{
    time_to_empty_at(p, p.latest.current)
}

// 12 AverageTimeToEmpty.
pub fn average_time_to_empty(p: Pack) -> Time
    requires { (tank_sound p.tank ≡ true) × (recent_sound p.recent ≡ true) }
    ensures { result ≡ average_time_to_empty p }
{
    time_to_empty_at(p, registers::average_current(p))
}

// 13 AverageTimeToFull.
pub fn average_time_to_full(p: Pack) -> Time
    requires { (tank_sound p.tank ≡ true) × (recent_sound p.recent ≡ true) }
    ensures { result ≡ average_time_to_full p }
{
    let current = registers::average_current(p);
    let flows = words::rises(current);
    let left = missing_capacity(p);
    let rate = rate_of(p, current);
    minutes::by_rate(flows, left, rate)
}
