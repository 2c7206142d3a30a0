// The words of modes, average, capacities and percents: pure functions of the pack. Only our own crates call these.
#![tactic(auto)]

ghost use Rattle.std.specs.Prelude.{◌≡◌, true, cond, ◌≤◌};
ghost use Rattle.registers.specs.Registers.{battery_mode, average_current, capacity_of, remaining_capacity, full_charge_capacity, design_capacity, relative_state_of_charge, absolute_state_of_charge};
ghost use Rattle.recent.specs.Recent.{recent_sound};
ghost use Rattle.pack.specs.Sound.{settings_sound, tank_sound};

use pack::{Host, Pack};

// What a bit of this weight adds to a word.
pub fn flag(on: bool, weight: u16) -> u16
    ensures is { result ≡ cond on weight 0 }
    ensures small { result ≤ weight }
{
    if on { weight } else { 0 }
}

// 03 BatteryMode.
pub fn battery_mode(h: Host) -> u16
    ensures { result ≡ battery_mode h }
{
    flag(h.AlarmMode, 8192) + flag(h.ChargerMode, 16384) + flag(h.CapacityMode, 32768)
}

// 0B AverageCurrent.
pub fn average_current(p: Pack) -> u16
    requires { recent_sound p.recent ≡ true }
    ensures { result ≡ average_current p }
{
    recent::average(p.recent, p.latest.current)
}

// A capacity in mAh, in power mode in 10 mWh.
fn capacity_of(p: Pack, capacity: u16) -> u16
    ensures { result ≡ capacity_of p capacity }
{
    if p.host.CapacityMode {
        return capacity::capped(capacity::power(u64::from(capacity), p.settings.DesignVoltage));
    }
    capacity
}

// 0F RemainingCapacity.
pub fn remaining_capacity(p: Pack) -> u16
    requires { tank_sound p.tank ≡ true }
    ensures { result ≡ remaining_capacity p }
{
    if p.host.CapacityMode {
        return capacity::capped(capacity::energy(p.tank.charge, p.settings.DesignVoltage));
    }
    (p.tank.charge / 3600000) as u16
}

// 10 FullChargeCapacity.
pub fn full_charge_capacity(p: Pack) -> u16
    ensures { result ≡ full_charge_capacity p }
{
    capacity_of(p, p.tank.full)
}

// 18 DesignCapacity.
pub fn design_capacity(p: Pack) -> u16
    ensures { result ≡ design_capacity p }
{
    capacity_of(p, p.settings.DesignCapacity)
}

// 0D RelativeStateOfCharge.
pub fn relative_state_of_charge(p: Pack) -> u16
    requires { tank_sound p.tank ≡ true }
    ensures { result ≡ relative_state_of_charge p }
{
    capacity::relative(p.tank.charge, p.tank.full)
}

// 0E AbsoluteStateOfCharge.
pub fn absolute_state_of_charge(p: Pack) -> u16
    requires { (settings_sound p.settings ≡ true) × (tank_sound p.tank ≡ true) }
    ensures { result ≡ absolute_state_of_charge p }
{
    capacity::capped(capacity::percent(p.tank.charge, p.settings.DesignCapacity))
}
