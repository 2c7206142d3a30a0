// What sets the bits of 16 BatteryStatus, 14 ChargingCurrent, which one of them cuts off, and the alarms that samples broadcast. Only our own crates call these.
#![tactic(auto)]

ghost use Rattle.std.specs.Prelude.{◌≡◌, true};
ghost use Rattle.pack.specs.Sound.{tank_sound};
ghost use Rattle.recent.specs.Recent.{recent_sound};
ghost use Rattle.alarms.specs.Alarms.{charge_full, over_temp, terminate_charge, terminate_discharge, remaining_capacity_low, remaining_time_low, discharging, charging_current, charger_alarm, any_alarm};

use pack::Pack;

// Bit 5.
pub fn charge_full(p: Pack) -> bool
    ensures { result ≡ charge_full p }
{
    p.tank.charge == capacity::milliamp_ms(p.tank.full)
}

// Bit 12.
pub fn over_temp(p: Pack) -> bool
    ensures { result ≡ over_temp p }
{
    p.settings.TemperatureLimit < p.latest.temperature
}

// Bit 14.
pub fn terminate_charge(p: Pack) -> bool
    ensures { result ≡ terminate_charge p }
{
    words::rises(p.latest.current) & (charge_full(p) | over_temp(p))
}

// Bit 11.
pub fn terminate_discharge(p: Pack) -> bool
    ensures { result ≡ terminate_discharge p }
{
    pack::discharge_ends(
        p.latest.voltage,
        p.latest.current,
        p.settings.DischargeLimit,
    )
}

// Bit 9.
pub fn remaining_capacity_low(p: Pack) -> bool
    requires { tank_sound p.tank ≡ true }
    ensures { result ≡ remaining_capacity_low p }
{
    let limit = p.host.RemainingCapacityAlarm;
    (limit != 0) & (registers::remaining_capacity(p) < limit)
}

// Bit 8.
pub fn remaining_time_low(p: Pack) -> bool
    requires { (tank_sound p.tank ≡ true) × (recent_sound p.recent ≡ true) }
    ensures { result ≡ remaining_time_low p }
{
    let limit = p.host.RemainingTimeAlarm;
    let left = minutes::time_word(times::average_time_to_empty(p));
    (limit != 0) & (left < limit)
}

// Bit 6.
pub fn discharging_now(p: Pack) -> bool
    ensures { result ≡ discharging p }
{
    !words::rises(p.latest.current)
}

// 14 ChargingCurrent.
pub fn charging_current(p: Pack) -> u16
    ensures { result ≡ charging_current p }
{
    if terminate_charge(p) {
        return 0;
    }
    p.settings.ChargingCurrent
}

// Whether bit 15, 14 or 12 is set: the charger hears of it too.
pub fn charger_alarm(p: Pack) -> bool
    ensures { result ≡ charger_alarm p }
{
    terminate_charge(p) | over_temp(p)
}

// Whether any alarm bit is set.
pub fn any_alarm(p: Pack) -> bool
    requires { (tank_sound p.tank ≡ true) × (recent_sound p.recent ≡ true) }
    ensures { result ≡ any_alarm p }
{
    charger_alarm(p) | terminate_discharge(p) | remaining_capacity_low(p) | remaining_time_low(p)
}
