// What a served write leaves of the charger.
#![tactic(auto)]

ghost use Rattle.std.specs.Prelude.{◌≡◌, ◌/◌, ◌%◌, ◌<◌, eqb};
ghost use Rattle.charger_written.specs.Written.{taken_as, zeroed_if, awaited_if, mode_written, alarm_written, charger_written};

use charger_state::{Asked, Charger};

// Whether the bit of this weight is set.
fn has(word: u16, weight: u16) -> bool
    requires { 0 < weight }
    ensures { result ≡ eqb (word / weight % 2) 1 }
{
    word / weight % 2 == 1
}

fn taken_as(word: u16) -> Asked
    ensures { result ≡ taken_as word }
{
    Asked {
        taken: true,
        word,
        awaited: false,
    }
}

fn zeroed_if(zero: bool, a: Asked) -> Asked
    ensures { result ≡ zeroed_if zero a }
{
    Asked {
        word: if zero { 0 } else { a.word },
        ..a
    }
}

fn awaited_if(again: bool, a: Asked) -> Asked
    ensures { result ≡ awaited_if again a }
{
    Asked {
        awaited: a.awaited | again,
        ..a
    }
}

// ChargerMode. The count goes on.
#[tactic(auto, unfolding(crate::specs::Written::mode_written))]
fn mode_written(s: Charger, word: u16) -> Charger
    ensures { result ≡ mode_written s word }
{
    if has(word, 0x0004) {
        return Charger {
            ChargingCurrent: charger_state::not_yet(),
            ChargingVoltage: charger_state::not_yet(),
            inhibited: false,
            ..s
        };
    }
    let zero = has(word, 0x0008);
    Charger {
        ChargingCurrent: zeroed_if(zero, s.ChargingCurrent),
        ChargingVoltage: zeroed_if(zero, s.ChargingVoltage),
        inhibited: has(word, 0x0001),
        ..s
    }
}

// AlarmWarning: with bit 15, 14, 13 or 12 both requests must come again.
fn alarm_written(s: Charger, word: u16) -> Charger
    ensures { result ≡ alarm_written s word }
{
    let ends = has(word, 0x8000) | has(word, 0x4000) | has(word, 0x2000) | has(word, 0x1000);
    Charger {
        ChargingCurrent: awaited_if(ends, s.ChargingCurrent),
        ChargingVoltage: awaited_if(ends, s.ChargingVoltage),
        ..s
    }
}

// The state after a served write.
#[tactic(auto, unfolding(crate::specs::Written::charger_written))]
pub fn written(s: Charger, command: u8, word: u16) -> Charger
    ensures { result ≡ charger_written s command word }
{
    match command {
        0x12 => mode_written(s, word),
        0x14 => Charger {
            ChargingCurrent: taken_as(word),
            count: 0,
            ..s
        },
        0x15 => Charger {
            ChargingVoltage: taken_as(word),
            count: 0,
            ..s
        },
        0x16 => alarm_written(s, word),
        _ => s,
    }
}
