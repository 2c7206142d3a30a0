// The state in a lent area of bytes: stored, tested and loaded, part by part.
#![tactic(auto)]

ghost use Rattle.std.specs.Prelude.{◌≡◌, length};
ghost use Rattle.recent.specs.Fits.{RecentFit};
ghost use Rattle.area.specs.Area.{area_length, area_of, state_in, is_area, loaded, loaded_of, stored_of, stored_room};

use area_parts::{
    host_in, is_host, is_settings, is_tank, latest_in, put_host, put_latest, put_recent,
    put_settings, put_tank, put_timers, recent_in, settings_in, tank_in, timers_in,
};
use numbers::{number_at, put_number};
use pack::{Answered, Pack, State};

// Where each part starts, and the bytes that an area has.
const SETTINGS: usize = 1;

pub const HOST: usize = SETTINGS + 19;

pub const LATEST: usize = HOST + 11;

const TANK: usize = LATEST + 10;

pub const TIMERS: usize = TANK + 30;

pub const RECENT: usize = TIMERS + 12;

pub const LENGTH: usize = RECENT + 247;

// The whole area.
fn put_state(area: &mut [u8], s: State)
    requires { length area.old ≡ area_length }
    ensures memory { area.new ≡ area_of s }
    ensures fit { RecentFit s.pack.recent }
{
    put_number(area, 0, 1, u64::from(s.error));
    put_settings(&mut area[SETTINGS..HOST], s.pack.settings);
    put_host(&mut area[HOST..LATEST], s.pack.host);
    put_latest(&mut area[LATEST..TANK], s.pack.latest);
    put_tank(&mut area[TANK..TIMERS], s.pack.tank);
    put_timers(&mut area[TIMERS..RECENT], s.pack.timers);
    put_recent(&mut area[RECENT..LENGTH], s.pack.recent);
}

// A state into room for an area: answer 0; or 1, and the room stays.
pub fn store(s: State, room: &mut [u8]) -> u8
    ensures answer { result ≡ stored_of s room.old }
    ensures memory { room.new ≡ stored_room s room.old }
    ensures back { result ≡ 0 → loaded_of room.new ≡ loaded s }
{
    if room.len() != LENGTH {
        return 1;
    }
    if 255 < s.pack.recent.count {
        return 1;
    }
    put_state(room, s);
    0
}

// Whether bytes are an area.
pub fn is_area(area: &[u8]) -> bool
    ensures { result ≡ is_area area.now }
{
    if area.len() != LENGTH {
        return false;
    }
    is_settings(&area[SETTINGS..HOST]) & is_host(&area[HOST..LATEST]) & is_tank(&area[TANK..TIMERS])
}

// The whole state.
fn state_in(area: &[u8]) -> State
    requires { length area.now ≡ area_length }
    ensures { result ≡ state_in area.now }
{
    let pack = Pack {
        settings: settings_in(&area[SETTINGS..HOST]),
        host: host_in(&area[HOST..LATEST]),
        latest: latest_in(&area[LATEST..TANK]),
        recent: recent_in(&area[RECENT..LENGTH]),
        tank: tank_in(&area[TANK..TIMERS]),
        timers: timers_in(&area[TIMERS..RECENT]),
    };
    State {
        error: number_at(area, 0),
        pack: pack,
    }
}

// The state of an area: answer 0; or 1 and the all-zero state.
pub fn load(area: &[u8]) -> Answered<State>
    ensures is { result ≡ loaded_of area.now }
    ensures back { result.answer ≡ 0 → area_of result.state ≡ area.now }
{
    if is_area(area) {
        let state = state_in(area);
        return Answered {
            answer: 0,
            state: state,
        };
    }
    let none = start::zero();
    Answered {
        answer: 1,
        state: none,
    }
}
