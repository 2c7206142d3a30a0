// The charger in a lent area of bytes: what each call answers, and what it leaves in the area and in the room.
#![tactic(auto)]

ghost use Rattle.std.specs.Prelude.{◌≡◌, length};
ghost use Rattle.charger_area.specs.Area.{charger_length};
ghost use Rattle.charger_calls.specs.Calls.{start_number, start_area, sound_in, area_after, sample_number, sample_area, transact_number, transact_area, transact_room, current_number};

use charger_state::Charger;
use pack::Sample;
use packed::pack_up;

// Bytes of another size: the area stays.
pub fn set_up(area: &mut [u8], first: Sample) -> u32
    ensures value { result ≡ start_number area.old }
    ensures area_after { area.new ≡ start_area area.old first }
{
    let state = charger_state::set_up(first);
    charger_area::store(state, area) as u32
}

pub fn sound(area: &[u8]) -> bool
    ensures { result ≡ sound_in area.now }
{
    let held = charger_area::load(area);
    if held.answer != 0 {
        return false;
    }
    charger_state::sound(held.state)
}

// Stored only where something changes, so that no byte of an EEPROM is written for nothing.
fn keep(area: &mut [u8], stores: bool, state: Charger)
    requires { length area.old ≡ charger_length }
    ensures { area.new ≡ area_after area.old stores state }
{
    if stores {
        charger_area::store(state, area);
    }
}

pub fn sample(area: &mut [u8], sample: Sample) -> u32
    ensures value { result ≡ sample_number area.old sample }
    ensures area_after { area.new ≡ sample_area area.old sample }
{
    let held = charger_area::load(area);
    if held.answer != 0 {
        return 1;
    }
    let out = charger_state::sample(held.state, sample);
    keep(area, out.answer == 0, out.state);
    out.answer as u32
}

pub fn transact(area: &mut [u8], read: bool, bytes: &[u8], room: &mut [u8]) -> u32
    ensures value { result ≡ transact_number area.old read bytes.now room.old }
    ensures area_after { area.new ≡ transact_area area.old read bytes.now room.old }
    ensures room_after { room.new ≡ transact_room area.old read bytes.now room.old }
{
    let held = charger_area::load(area);
    if held.answer != 0 {
        return 1;
    }
    let done = charger::transact(held.state, read, bytes, room);
    keep(area, (done.answer == 0) & !read, done.state);
    pack_up(done.answer, done.length)
}

// The current that the charger gives; 1 where the bytes hold no sound state.
pub fn current(area: &[u8]) -> u32
    ensures { result ≡ current_number area.now }
{
    let held = charger_area::load(area);
    if held.answer != 0 {
        return 1;
    }
    if !charger_state::sound(held.state) {
        return 1;
    }
    pack_up(0, charger_state::current(held.state) as usize)
}
