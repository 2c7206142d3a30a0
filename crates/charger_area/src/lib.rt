// The charger's state in a lent area of bytes: stored, tested and loaded.
#![tactic(auto)]

ghost use Rattle.std.specs.Prelude.{◌≡◌, length};
ghost use Rattle.numbers.specs.Numbers.{bytes_taken};
ghost use Rattle.charger_area.specs.Area.{asked_widths, asked_bytes, asked_in, is_asked, charger_length, charger_area_of, charger_in, is_charger_area, zero_charger, loaded, loaded_of, stored_of, stored_room};
ghost use Rattle.charger_area.specs.Laws.{ChargerFits};

use area_parts::{latest_in, put_latest};
use charger_state::{Asked, Charger};
use numbers::{number_at, put_number};
use pack::{Answered, Latest};

// Where each part behind the first starts, and the bytes that an area has.
const VOLTAGE: usize = 4;

const INHIBITED: usize = VOLTAGE + 4;

const COUNT: usize = INHIBITED + 1;

const LATEST: usize = COUNT + 4;

pub const LENGTH: usize = LATEST + 10;

// ---- a request

fn put_asked(part: &mut [u8], a: Asked)
    requires { length part.old ≡ bytes_taken asked_widths }
    ensures { part.new ≡ asked_bytes a }
{
    put_number(part, 0, 2, u64::from(a.word));
    part[2] = u8::from(a.taken);
    part[3] = u8::from(a.awaited);
}

fn asked_in(part: &[u8]) -> Asked
    requires { length part.now ≡ bytes_taken asked_widths }
    ensures { result ≡ asked_in part.now }
{
    Asked {
        taken: number_at::<u8>(part, 2) == 1,
        word: number_at(part, 0),
        awaited: number_at::<u8>(part, 3) == 1,
    }
}

fn is_asked(part: &[u8]) -> bool
    requires { length part.now ≡ bytes_taken asked_widths }
    ensures { result ≡ is_asked part.now }
{
    (number_at::<u8>(part, 2) <= 1) & (number_at::<u8>(part, 3) <= 1)
}

// ---- the whole

fn put_state(area: &mut [u8], s: Charger)
    requires { length area.old ≡ charger_length }
    ensures memory { area.new ≡ charger_area_of s }
    ensures fit { ChargerFits s }
{
    put_asked(&mut area[0..VOLTAGE], s.ChargingCurrent);
    put_asked(&mut area[VOLTAGE..INHIBITED], s.ChargingVoltage);
    put_number(area, INHIBITED, 1, u64::from(s.inhibited));
    put_number(area, COUNT, 4, u64::from(s.count));
    put_latest(&mut area[LATEST..LENGTH], s.latest);
}

// A state into room for an area: answer 0; or 1, and the room stays.
pub fn store(s: Charger, room: &mut [u8]) -> u8
    ensures answer { result ≡ stored_of room.old }
    ensures memory { room.new ≡ stored_room s room.old }
    ensures back { result ≡ 0 → loaded_of room.new ≡ loaded s }
{
    if room.len() != LENGTH {
        return 1;
    }
    put_state(room, s);
    0
}

// Whether bytes are an area.
pub fn is_area(area: &[u8]) -> bool
    ensures { result ≡ is_charger_area area.now }
{
    if area.len() != LENGTH {
        return false;
    }
    is_asked(&area[0..VOLTAGE])
        & is_asked(&area[VOLTAGE..INHIBITED])
        & (number_at::<u8>(area, INHIBITED) <= 1)
}

fn state_in(area: &[u8]) -> Charger
    requires { length area.now ≡ charger_length }
    ensures { result ≡ charger_in area.now }
{
    Charger {
        ChargingCurrent: asked_in(&area[0..VOLTAGE]),
        ChargingVoltage: asked_in(&area[VOLTAGE..INHIBITED]),
        inhibited: number_at::<u8>(area, INHIBITED) == 1,
        count: number_at(area, COUNT),
        latest: latest_in(&area[LATEST..LENGTH]),
    }
}

// The all-zero state.
fn zero() -> Charger
    ensures { result ≡ zero_charger }
{
    let none = Asked {
        taken: false,
        word: 0,
        awaited: false,
    };
    let latest = Latest {
        voltage: 0,
        current: 0,
        temperature: 0,
        counter: 0,
    };
    Charger {
        ChargingCurrent: none,
        ChargingVoltage: none,
        inhibited: false,
        count: 0,
        latest: latest,
    }
}

// The state of an area: answer 0; or 1 and the all-zero state.
pub fn load(area: &[u8]) -> Answered<Charger>
    ensures is { result ≡ loaded_of area.now }
    ensures back { result.answer ≡ 0 → charger_area_of result.state ≡ area.now }
{
    if is_area(area) {
        let state = state_in(area);
        return Answered {
            answer: 0,
            state: state,
        };
    }
    let none = zero();
    Answered {
        answer: 1,
        state: none,
    }
}
