// The word of every register, with its answer. Only our own crates call these.
#![tactic(auto)]

ghost use Rattle.std.specs.Prelude.{◌≡◌, true};
ghost use Rattle.gauge.specs.Word.{given_of, shown_of};
ghost use Rattle.pack.specs.Sound.{sound_of};
ghost use Rattle.registers.specs.Registers.{battery_mode};

use minutes::{Given, Shown};
use pack::{Pack, State};

// 03 BatteryMode.
fn mode(p: Pack) -> u16
    ensures { result ≡ battery_mode p.host }
{
    let host = p.host;
    registers::battery_mode(host)
}

// What a read-word command's register gives; the word 0 for a command that has none.
fn register(s: State, command: u8) -> Given
    requires { sound_of s ≡ true }
    ensures { result ≡ given_of s command }
{
    let p = s.pack;
    match command {
        0x00 => Given::Word(p.host.ManufacturerAccess),
        0x01 => Given::Word(p.host.RemainingCapacityAlarm),
        0x02 => Given::Word(p.host.RemainingTimeAlarm),
        0x03 => Given::Word(mode(p)),
        0x04 => Given::Word(p.host.AtRate),
        0x05 => times::at_rate_time_to_full(p),
        0x06 => Given::Until(times::at_rate_time_to_empty(p)),
        0x07 => Given::Word(times::at_rate_ok(p)),
        0x08 => Given::Word(p.latest.temperature),
        0x09 => Given::Word(p.latest.voltage),
        0x0A => Given::Word(p.latest.current),
        0x0B => Given::Word(registers::average_current(p)),
        0x0C => Given::Word(p.settings.MaxError),
        0x0D => Given::Word(registers::relative_state_of_charge(p)),
        0x0E => Given::Word(registers::absolute_state_of_charge(p)),
        0x0F => Given::Word(registers::remaining_capacity(p)),
        0x10 => Given::Word(registers::full_charge_capacity(p)),
        0x11 => Given::Until(times::run_time_to_empty(p)),
        0x12 => Given::Until(times::average_time_to_empty(p)),
        0x13 => Given::Until(times::average_time_to_full(p)),
        0x14 => Given::Word(alarms::charging_current(p)),
        0x15 => Given::Word(p.settings.ChargingVoltage),
        0x16 => Given::Word(status::battery_status(p, s.error)),
        0x17 => Given::Word(p.tank.CycleCount),
        0x18 => Given::Word(registers::design_capacity(p)),
        0x19 => Given::Word(p.settings.DesignVoltage),
        0x1A => Given::Word(0x0031),
        0x1B => Given::Word(p.settings.ManufactureDate),
        0x1C => Given::Word(p.settings.SerialNumber),
        _ => Given::Word(0),
    }
}

// The answer and the word of a read-word command.
pub fn show(s: State, command: u8) -> Shown
    requires { sound_of s ≡ true }
    ensures { result ≡ shown_of s command }
{
    Shown::from(register(s, command))
}
