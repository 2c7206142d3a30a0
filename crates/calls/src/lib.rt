// The pack in a lent area of bytes: what each call answers, and what it leaves in the area and in the room.
#![tactic(auto)]

ghost use Rattle.std.specs.Prelude.{◌≡◌, false, ◌≤◌, length};
ghost use Rattle.area.specs.Area.{area_length};
ghost use Rattle.start.specs.SetUp.{set_up_of};
ghost use Rattle.calls.specs.Calls.{start_number, start_area, sound_in, stays, area_after, sample_number, sample_area, sample_room, transact_number, transact_area, transact_room};
ghost use Rattle.calls.specs.Stores.{error_stored, written_stored, transact_stored};

use area_parts::{put_host, put_timers};
use pack::{Sample, State};
use packed::pack_up;
use start::Setup;

// Set-up refused, or bytes of another size: the area stays.
pub fn set_up(area: &mut [u8], setup: Setup, first: Sample) -> u32
    ensures value { result ≡ start_number area.old (set_up_of setup first) }
    ensures area_after { area.new ≡ start_area area.old (set_up_of setup first) }
{
    if area.len() != area::LENGTH {
        return 1;
    }
    let started = start::set_up(setup, first);
    if started.answer != 0 {
        return pack_up(started.answer, 0);
    }
    area::store(started.state, area);
    0
}

pub fn sound(area: &[u8]) -> bool
    ensures { result ≡ sound_in area.now }
{
    let held = area::load(area);
    if held.answer != 0 {
        return false;
    }
    pack::sound(held.state)
}

// What a sample leaves in the area: 1 and 2 store nothing.
fn keep(area: &mut [u8], answer: u8, state: State)
    requires { (length area.old ≡ area_length) × (stays answer ≡ false → state.pack.recent.count ≤ 60) }
    ensures { area.new ≡ area_after area.old answer state }
{
    if answer == 1 {
        return;
    }
    if answer == 2 {
        return;
    }
    area::store(state, area);
}

pub fn sample(area: &mut [u8], sample: Sample, room: &mut [u8]) -> u32
    ensures value { result ≡ sample_number area.old sample room.old }
    ensures area_after { area.new ≡ sample_area area.old sample room.old }
    ensures room_after { room.new ≡ sample_room area.old sample room.old }
{
    let held = area::load(area);
    if held.answer != 0 {
        return 1;
    }
    let out = clock::sample(held.state, sample, room);
    keep(area, out.answer, out.state);
    pack_up(out.answer, out.length)
}

// The error code alone.
fn keep_error(area: &mut [u8], error: u8)
    requires { length area.old ≡ area_length }
    ensures { area.new ≡ error_stored area.old error }
{
    area[0] = error;
}

// The error code, what the host wrote and the timers.
fn keep_write(area: &mut [u8], state: State)
    requires { length area.old ≡ area_length }
    ensures { area.new ≡ written_stored area.old state }
{
    keep_error(area, state.error);
    put_host(&mut area[area::HOST..area::LATEST], state.pack.host);
    put_timers(&mut area[area::TIMERS..area::RECENT], state.pack.timers);
}

// What a transaction stores, so that no byte of an EEPROM is written for nothing.
fn keep_transacted(area: &mut [u8], read: bool, answer: u8, state: State)
    requires { length area.old ≡ area_length }
    ensures { area.new ≡ transact_stored area.old read answer state }
{
    if (answer == 0) & !read {
        return keep_write(area, state);
    }
    if (0 < answer) & (answer <= 3) {
        return;
    }
    keep_error(area, state.error);
}

pub fn transact<'a>(
    area: &mut [u8],
    service: &'a [u8],
    factory: &'a [u8],
    read: bool,
    bytes: &[u8],
    room: &mut [u8],
) -> u32
    ensures value { result ≡ transact_number area.old service.now factory.now read bytes.now room.old }
    ensures area_after { area.new ≡ transact_area area.old service.now factory.now read bytes.now room.old }
    ensures room_after { room.new ≡ transact_room area.old service.now factory.now read bytes.now room.old }
{
    let held = area::load(area);
    if held.answer != 0 {
        return 1;
    }
    let done = bus::transact(held.state, service, factory, read, bytes, room);
    keep_transacted(area, read, done.answer, done.state);
    pack_up(done.answer, done.length)
}
