// The thirteen-cell pack's state in a lent area of bytes: stored, tested and loaded, part by part.
#![tactic(auto)]

ghost use Rattle.std.specs.Prelude.{◌≡◌, length};
ghost use Rattle.numbers.specs.Numbers.{bytes_taken};
ghost use Rattle.thirteen_area.specs.Area.{fixed_widths, fixed_bytes, fixed_in, cells_widths, cells_bytes, cells_in, level_widths, level_bytes, level_in, is_level, thirteen_length, thirteen_area_of, state_in, is_thirteen_area, loaded, loaded_of, stored_of, stored_room};
ghost use Rattle.thirteen_pack.specs.Fits.{CellsFit, Fits};

use area_parts::{latest_in, put_latest, put_recent, recent_in};
use numbers::{number_at, numbers_at, put_number, put_numbers};
use pack::Answered;
use thirteen_pack::{Fixed, Level, Thirteen, ThirteenState};

// Where each part behind the error code starts, and the bytes that an area has.
const FIXED: usize = 1;

const LATEST: usize = FIXED + 6;

const CELLS: usize = LATEST + 10;

const LEVEL: usize = CELLS + 26;

const RECENT: usize = LEVEL + 11;

pub const LENGTH: usize = RECENT + 247;

// ---- what set-up fixes

fn put_fixed(part: &mut [u8], f: Fixed)
    requires { length part.old ≡ bytes_taken fixed_widths }
    ensures { part.new ≡ fixed_bytes f }
{
    put_numbers(
        part,
        0,
        &[f.DesignCapacity, f.DesignVoltage, f.StateOfHealth],
    );
}

fn fixed_in(part: &[u8]) -> Fixed
    requires { length part.now ≡ bytes_taken fixed_widths }
    ensures { result ≡ fixed_in part.now }
{
    Fixed {
        DesignCapacity: number_at(part, 0),
        DesignVoltage: number_at(part, 2),
        StateOfHealth: number_at(part, 4),
    }
}

// ---- the cells

fn put_cells(part: &mut [u8], cells: [u16; 13])
    requires { length part.old ≡ bytes_taken cells_widths }
    ensures memory { part.new ≡ cells_bytes cells }
    ensures fit { CellsFit cells }
{
    put_numbers(part, 0, &cells);
}

fn cells_in(part: &[u8]) -> [u16; 13]
    requires { length part.now ≡ bytes_taken cells_widths }
    ensures { result ≡ cells_in part.now }
{
    let mut cells = [0u16; 13];
    numbers_at(part, 0, &mut cells);
    cells
}

// ---- the level

fn put_level(part: &mut [u8], l: Level)
    requires { length part.old ≡ bytes_taken level_widths }
    ensures { part.new ≡ level_bytes l }
{
    put_number(part, 0, 8, l.charge);
    put_number(part, 8, 2, u64::from(l.full));
    part[10] = u8::from(l.FullyDischarged);
}

fn level_in(part: &[u8]) -> Level
    requires { length part.now ≡ bytes_taken level_widths }
    ensures { result ≡ level_in part.now }
{
    Level {
        charge: number_at(part, 0),
        full: number_at(part, 8),
        FullyDischarged: number_at::<u8>(part, 10) == 1,
    }
}

fn is_level(part: &[u8]) -> bool
    requires { length part.now ≡ bytes_taken level_widths }
    ensures { result ≡ is_level part.now }
{
    number_at::<u8>(part, 10) <= 1
}

// ---- the whole

fn put_state(area: &mut [u8], s: ThirteenState)
    requires { length area.old ≡ thirteen_length }
    ensures memory { area.new ≡ thirteen_area_of s }
    ensures fit { Fits s }
{
    let cells = s.pack.cells;
    put_number(area, 0, 1, u64::from(s.error));
    put_fixed(&mut area[FIXED..LATEST], s.pack.fixed);
    put_latest(&mut area[LATEST..CELLS], s.pack.latest);
    put_cells(&mut area[CELLS..LEVEL], cells);
    put_level(&mut area[LEVEL..RECENT], s.pack.level);
    put_recent(&mut area[RECENT..LENGTH], s.pack.recent);
}

// A state into room for an area: answer 0; or 1, and the room stays.
pub fn store(s: ThirteenState, room: &mut [u8]) -> u8
    ensures answer { result ≡ stored_of s room.old }
    ensures memory { room.new ≡ stored_room s room.old }
    ensures back { result ≡ 0 → loaded_of room.new ≡ loaded s }
{
    if room.len() != LENGTH {
        return 1;
    }
    if 255 < s.pack.recent.count {
        return 1;
    }
    put_state(room, s);
    0
}

// Whether bytes are an area.
pub fn is_area(area: &[u8]) -> bool
    ensures { result ≡ is_thirteen_area area.now }
{
    if area.len() != LENGTH {
        return false;
    }
    is_level(&area[LEVEL..RECENT])
}

fn state_in(area: &[u8]) -> ThirteenState
    requires { length area.now ≡ thirteen_length }
    ensures { result ≡ state_in area.now }
{
    let pack = Thirteen {
        fixed: fixed_in(&area[FIXED..LATEST]),
        latest: latest_in(&area[LATEST..CELLS]),
        cells: cells_in(&area[CELLS..LEVEL]),
        level: level_in(&area[LEVEL..RECENT]),
        recent: recent_in(&area[RECENT..LENGTH]),
    };
    ThirteenState {
        error: number_at(area, 0),
        pack: pack,
    }
}

// The state of an area: answer 0; or 1 and the all-zero state.
pub fn load(area: &[u8]) -> Answered<ThirteenState>
    ensures is { result ≡ loaded_of area.now }
    ensures back { result.answer ≡ 0 → thirteen_area_of result.state ≡ area.now }
{
    if is_area(area) {
        let state = state_in(area);
        return Answered {
            answer: 0,
            state: state,
        };
    }
    let none = thirteen_pack::zero();
    Answered {
        answer: 1,
        state: none,
    }
}
