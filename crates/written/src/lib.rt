// What a served write leaves of the pack. Only our own crates call this.
#![tactic(auto)]

ghost use Rattle.std.specs.Prelude.{◌≡◌};
ghost use Rattle.written.specs.Written.{host_written, timers_written, pack_written};

use pack::{Host, Pack, Timers};

// What the host wrote, after one more write.
#[tactic(auto, unfolding(crate::specs::Written::host_written))]
fn host_written(h: Host, command: u8, word: u16) -> Host
    ensures { result ≡ host_written h command word }
{
    match command {
        0x00 => Host {
            ManufacturerAccess: word,
            ..h
        },
        0x01 => Host {
            RemainingCapacityAlarm: word,
            ..h
        },
        0x02 => Host {
            RemainingTimeAlarm: word,
            ..h
        },
        0x03 => Host {
            AlarmMode: word / 0x2000 % 2 == 1,
            ChargerMode: word / 0x4000 % 2 == 1,
            CapacityMode: word / 0x8000 % 2 == 1,
            ..h
        },
        0x04 => Host { AtRate: word, ..h },
        _ => h,
    }
}

// A write to 03 starts or ends the hold; with CHARGER_MODE set the charger timer stands at 0.
#[tactic(auto, unfolding(crate::specs::Written::timers_written))]
fn timers_written(t: Timers, command: u8, word: u16) -> Timers
    ensures { result ≡ timers_written t command word }
{
    if command != 0x03 {
        return t;
    }
    Timers {
        hold: if word / 0x2000 % 2 == 1 { 60000 } else { 0 },
        charger: if word / 0x4000 % 2 == 1 { 0 } else { t.charger },
        ..t
    }
}

// The pack after a served write.
#[tactic(auto, unfolding(crate::specs::Written::pack_written))]
pub fn pack_written(p: Pack, command: u8, word: u16) -> Pack
    ensures { result ≡ pack_written p command word }
{
    Pack {
        host: host_written(p.host, command, word),
        timers: timers_written(p.timers, command, word),
        ..p
    }
}
