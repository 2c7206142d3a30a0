// 16 BatteryStatus bit by bit, and the word of an alarm. Only our own crates call these.
#![tactic(auto)]

ghost use Rattle.std.specs.Prelude.{◌≡◌, true, ◌≤◌};
ghost use Rattle.pack.specs.Sound.{tank_sound};
ghost use Rattle.recent.specs.Recent.{recent_sound};
ghost use Rattle.status.specs.Status.{status_bits, battery_status, alarm_word};

use pack::Pack;

// 16 without its error code; bits 15, 13 and 10 are 0.
fn status_bits(p: Pack) -> u16
    requires { (tank_sound p.tank ≡ true) × (recent_sound p.recent ≡ true) }
    ensures is { result ≡ status_bits p }
    ensures small { result ≤ 23536 }
{
    let terminate_charge = registers::flag(alarms::terminate_charge(p), 16384);
    let over_temp = registers::flag(alarms::over_temp(p), 4096);
    let terminate_discharge = registers::flag(alarms::terminate_discharge(p), 2048);
    let capacity = registers::flag(alarms::remaining_capacity_low(p), 512);
    let time = registers::flag(alarms::remaining_time_low(p), 256);
    let discharging = registers::flag(alarms::discharging_now(p), 64);
    let charged = registers::flag(alarms::charge_full(p), 32);
    let discharged = registers::flag(p.tank.FullyDischarged, 16);
    terminate_charge
        + over_temp
        + terminate_discharge
        + capacity
        + time
        + 128
        + discharging
        + charged
        + discharged
}

// 16 BatteryStatus.
pub fn battery_status(p: Pack, code: u8) -> u16
    requires { (tank_sound p.tank ≡ true) × (recent_sound p.recent ≡ true) }
    ensures { result ≡ battery_status p code }
{
    status_bits(p) + u16::from(code)
}

// The word of an AlarmWarning.
pub fn alarm_word(p: Pack) -> u16
    requires { (tank_sound p.tank ≡ true) × (recent_sound p.recent ≡ true) }
    ensures { result ≡ alarm_word p }
{
    battery_status(p, 15)
}
