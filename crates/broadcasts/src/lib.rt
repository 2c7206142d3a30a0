// What a sample broadcasts, and whether it goes (document 01, Clock and broadcasts). Only our own crates call these.
#![tactic(auto)]

ghost use Rattle.std.specs.Prelude.{◌≡◌, true, cond, [], ◌+◌, ◌*◌, ◌≤◌, length};
ghost use Rattle.std.proofs.lemmas.List.Edits.{sets};
ghost use Rattle.broadcasts.specs.Broadcasts.{alarm_goes, charger_goes, alarms_of, charger_words_of, least_room};
ghost use Rattle.frame.specs.Broadcasts.{sent_as, message_size, all_sent};
ghost use Rattle.pack.specs.Sound.{tank_sound};
ghost use Rattle.recent.specs.Recent.{recent_sound};

use frame::Message;
use pack::Pack;

pub fn alarm_goes(p: Pack) -> bool
    requires { (tank_sound p.tank ≡ true) × (recent_sound p.recent ≡ true) }
    ensures { result ≡ alarm_goes p }
{
    alarms::any_alarm(p) & !p.host.AlarmMode & (10000 <= p.timers.alarm)
}

pub fn charger_goes(p: Pack) -> bool
    ensures { result ≡ charger_goes p }
{
    !p.host.ChargerMode & (30000 <= p.timers.charger)
}

// The room that broadcasts need.
pub fn least_room(plain: bool) -> usize
    ensures { result ≡ least_room plain }
{
    if plain { 16 } else { 20 }
}

// A message where it goes; the place after it.
fn put_if(goes: bool, room: &mut [u8], at: usize, plain: bool, m: Message) -> usize
    requires { at + message_size plain ≤ length room.old }
    ensures length { result ≡ at + length (cond goes (sent_as plain m) []) }
    ensures memory { room.new ≡ sets room.old at (cond goes (sent_as plain m) []) }
{
    if goes {
        return frame::put_message(room, at, plain, m);
    }
    at
}

// The host hears of every alarm, the charger of those that concern it.
pub fn send_alarms(p: Pack, goes: bool, room: &mut [u8]) -> usize
    requires { (tank_sound p.tank ≡ true) × (recent_sound p.recent ≡ true) × (goes ≡ alarm_goes p) × (least_room p.settings.plain ≤ length room.old) }
    ensures length { result ≡ length (all_sent p.settings.plain (alarms_of p)) }
    ensures memory { room.new ≡ sets room.old 0 (all_sent p.settings.plain (alarms_of p)) }
{
    if !goes {
        return 0;
    }
    let plain = p.settings.plain;
    let word = status::alarm_word(p);
    let host = Message {
        address: 0x10,
        command: 0x16,
        word: word,
    };
    let charger = Message {
        address: 0x12,
        command: 0x16,
        word: word,
    };
    let next = frame::put_message(room, 0, plain, host);
    put_if(alarms::charger_alarm(p), room, next, plain, charger)
}

pub fn send_charger_words(p: Pack, goes: bool, room: &mut [u8], at: usize) -> usize
    requires { (goes ≡ charger_goes p) × (at + 2 * message_size p.settings.plain ≤ length room.old) }
    ensures length { result ≡ at + length (all_sent p.settings.plain (charger_words_of p)) }
    ensures memory { room.new ≡ sets room.old at (all_sent p.settings.plain (charger_words_of p)) }
{
    if !goes {
        return at;
    }
    let plain = p.settings.plain;
    let current = Message {
        address: 0x12,
        command: 0x14,
        word: alarms::charging_current(p),
    };
    let voltage = Message {
        address: 0x12,
        command: 0x15,
        word: p.settings.ChargingVoltage,
    };
    let next = frame::put_message(room, at, plain, current);
    frame::put_message(room, next, plain, voltage)
}
