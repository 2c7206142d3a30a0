// The thirteen-cell pack in a lent area of bytes: what each call answers, and what it leaves in the area and in the room.
#![tactic(auto)]

ghost use Rattle.std.specs.Prelude.{◌≡◌, ◌≤◌, length};
ghost use Rattle.thirteen_area.specs.Area.{thirteen_length};
ghost use Rattle.thirteen_calls.specs.Calls.{start_number, start_area, sound_in, area_after, error_stored, sample_number, sample_area, transact_number, transact_area, transact_room};
ghost use Rattle.thirteen_pack.specs.SetUp.{set_up_of};

use pack::Sample;
use packed::pack_up;
use start::Setup;
use thirteen_pack::ThirteenState;

// What a set-up or a sample leaves in the area: a refusal stores nothing.
fn keep(area: &mut [u8], answer: u8, state: ThirteenState)
    requires { (length area.old ≡ thirteen_length) × (answer ≡ 0 → state.pack.recent.count ≤ 60) }
    ensures { area.new ≡ area_after area.old answer state }
{
    if answer != 0 {
        return;
    }
    thirteen_area::store(state, area);
}

// Set-up refused, or bytes of another size: the area stays.
pub fn set_up(area: &mut [u8], u: Setup, health: u16, first: Sample, cells: [u16; 13]) -> u32
    ensures value { result ≡ start_number area.old (set_up_of u health first cells) }
    ensures area_after { area.new ≡ start_area area.old (set_up_of u health first cells) }
{
    if area.len() != thirteen_area::LENGTH {
        return 1;
    }
    let started = thirteen_pack::set_up(u, health, first, cells);
    keep(area, started.answer, started.state);
    started.answer as u32
}

pub fn sound(area: &[u8]) -> bool
    ensures { result ≡ sound_in area.now }
{
    let held = thirteen_area::load(area);
    if held.answer != 0 {
        return false;
    }
    thirteen_pack::sound(held.state)
}

pub fn sample(area: &mut [u8], x: Sample, cells: [u16; 13]) -> u32
    ensures value { result ≡ sample_number area.old x cells }
    ensures area_after { area.new ≡ sample_area area.old x cells }
{
    let held = thirteen_area::load(area);
    if held.answer != 0 {
        return 1;
    }
    let out = thirteen_pack::sample(held.state, x, cells);
    keep(area, out.answer, out.state);
    out.answer as u32
}

// What a transaction stores, so that no byte of an EEPROM is written for nothing.
fn keep_error(area: &mut [u8], answer: u8, error: u8)
    requires { length area.old ≡ thirteen_length }
    ensures { area.new ≡ error_stored area.old answer error }
{
    if (0 < answer) & (answer <= 3) {
        return;
    }
    area[0] = error;
}

pub fn transact(area: &mut [u8], read: bool, bytes: &[u8], room: &mut [u8]) -> u32
    ensures value { result ≡ transact_number area.old read bytes.now room.old }
    ensures area_after { area.new ≡ transact_area area.old read bytes.now room.old }
    ensures room_after { room.new ≡ transact_room area.old read bytes.now room.old }
{
    let held = thirteen_area::load(area);
    if held.answer != 0 {
        return 1;
    }
    let done = thirteen::transact(held.state, read, bytes, room);
    keep_error(area, done.answer, done.state.error);
    pack_up(done.answer, done.length)
}
