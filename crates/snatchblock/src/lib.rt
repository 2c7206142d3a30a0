// The pack for programs in C: include/snatchblock.h says what each function answers, and the crate snatchblock_c exports it.
#![tactic(auto)]

ghost use Rattle.std.specs.Prelude.{◌≡◌};
ghost use Rattle.std.proofs.Math.Option.{none, some};
ghost use Rattle.calls.specs.Calls.{start_number, start_area, sound_in, sample_number, sample_area, sample_room, transact_number, transact_area, transact_room};
ghost use Rattle.capture.specs.Walk.{opened_of, step_at};
ghost use Rattle.charger_calls.specs.Calls as chargers;
ghost use Rattle.key.specs.Key as keys;
ghost use Rattle.key_writer.specs.Writing as writing;
ghost use Rattle.names.specs.Names as names;
ghost use Rattle.start.specs.SetUp.{set_up_of};
ghost use Rattle.packed.specs.Packed.{check_number, comparison_number, wrote_number, opened_number, read_number, located_number, step_number};
ghost use Rattle.pec.specs.Messages.{exchange_check, bit_comparison};
ghost use Rattle.pec.specs.Pec.{pec_of};
ghost use Rattle.sheet.specs.Block.{located_of};
ghost use Rattle.sheet.specs.Sheet.{is_sheet};
ghost use Rattle.sheet_edit.specs.Edit.{edit_of, room_after};
ghost use Rattle.sheet_writer.specs.Writing as sheets;
ghost use Rattle.shelf_table.specs.Table.{table_wrote, table_room};
ghost use Rattle.snatchblock.specs.Given.{given_if, sample_with, setup_with, thirteen_setup_with};
ghost use Rattle.thirteen_calls.specs.Calls as thirteens;
ghost use Rattle.thirteen_pack.specs.SetUp.{set_up_of as thirteen_set_up_of};

use pack::Sample;
use start::Setup;

// ---- messages

#[unsafe(no_mangle)]
pub extern "C" fn snatchblock_pec(bytes: &[u8]) -> u8
    ensures { result ≡ pec_of bytes.now }
{
    pec::pec(bytes)
}

#[unsafe(no_mangle)]
pub extern "C" fn snatchblock_exchange_check(bytes: &[u8]) -> u32
    ensures { result ≡ check_number (exchange_check bytes.now) }
{
    packed::checked(pec::exchange_check(bytes))
}

#[unsafe(no_mangle)]
pub extern "C" fn snatchblock_bit_comparison(a: &[u8], b: &[u8]) -> u32
    ensures { result ≡ comparison_number (bit_comparison a.now b.now) }
{
    packed::compared(pec::bit_comparison(a, b))
}

// ---- keys

#[unsafe(no_mangle)]
pub extern "C" fn snatchblock_write_key(
    maker: &[u8],
    device: &[u8],
    date: u16,
    serial: u16,
    room: &mut [u8],
) -> u32
    ensures value { result ≡ wrote_number (writing.key_wrote maker.now device.now date serial room.old) }
    ensures room_after { room.new ≡ writing.key_room maker.now device.now date serial room.old }
{
    packed::wrote(key_writer::write_key(maker, device, date, serial, room))
}

#[unsafe(no_mangle)]
pub extern "C" fn snatchblock_read_key(key: &[u8]) -> u64
    ensures { result ≡ read_number (keys.read_key key.now) }
{
    packed::key_read(key::find(key))
}

#[unsafe(no_mangle)]
pub extern "C" fn snatchblock_unescape(part: &[u8], room: &mut [u8]) -> u32
    ensures value { result ≡ wrote_number (names.plain_wrote (names.name_in part.now) room.old) }
    ensures room_after { room.new ≡ names.plain_room (names.name_in part.now) room.old }
{
    packed::wrote(names::unescape(part, room))
}

// ---- sheets

#[unsafe(no_mangle)]
pub extern "C" fn snatchblock_write_sheet(
    room: &mut [u8],
    has20: bool,
    body20: &[u8],
    has21: bool,
    body21: &[u8],
    has22: bool,
    body22: &[u8],
    has23: bool,
    body23: &[u8],
) -> u32
    ensures value { result ≡ wrote_number (sheets.sheet_wrote (sheets.choice (given_if has20 body20.now) (given_if has21 body21.now) (given_if has22 body22.now) (given_if has23 body23.now)) room.old) }
    ensures room_after { room.new ≡ sheets.sheet_room (sheets.choice (given_if has20 body20.now) (given_if has21 body21.now) (given_if has22 body22.now) (given_if has23 body23.now)) room.old }
{
    packed::wrote(sheet_writer::write_sheet(
        room,
        has20.then_some(body20),
        has21.then_some(body21),
        has22.then_some(body22),
        has23.then_some(body23),
    ))
}

#[unsafe(no_mangle)]
pub extern "C" fn snatchblock_set_body(room: &mut [u8], stated: usize, tag: u8, body: &[u8]) -> u32
    ensures value { result ≡ wrote_number (edit_of room.old stated tag (some body.now)) }
    ensures room_after { room.new ≡ room_after room.old stated tag (some body.now) }
{
    packed::wrote(sheet_edit::set(room, stated, tag, body))
}

#[unsafe(no_mangle)]
pub extern "C" fn snatchblock_remove_body(room: &mut [u8], stated: usize, tag: u8) -> u32
    ensures value { result ≡ wrote_number (edit_of room.old stated tag none) }
    ensures room_after { room.new ≡ room_after room.old stated tag none }
{
    packed::wrote(sheet_edit::remove(room, stated, tag))
}

#[unsafe(no_mangle)]
pub extern "C" fn snatchblock_is_sheet(bytes: &[u8]) -> bool
    ensures { result ≡ is_sheet bytes.now }
{
    sheet::is_sheet(bytes)
}

#[unsafe(no_mangle)]
pub extern "C" fn snatchblock_block(service: &[u8], factory: &[u8], tag: u8) -> u64
    ensures { result ≡ located_number (located_of service.now factory.now tag) }
{
    packed::located(sheet::locate(service, factory, tag))
}

// ---- captures

#[unsafe(no_mangle)]
pub extern "C" fn snatchblock_open_capture(bytes: &[u8]) -> u32
    ensures { result ≡ opened_number (opened_of bytes.now) }
{
    packed::opened(capture::open(bytes))
}

#[unsafe(no_mangle)]
pub extern "C" fn snatchblock_step_capture(bytes: &[u8], row: usize, place: usize) -> u64
    ensures { result ≡ step_number place (step_at bytes.now row place) }
{
    packed::stepped(place, capture::step_at(bytes, row, place))
}

// ---- the shelf

#[unsafe(no_mangle)]
pub extern "C" fn snatchblock_shelf_report(table: &[u8], room: &mut [u8]) -> u32
    ensures value { result ≡ wrote_number (table_wrote table.now room.old) }
    ensures room_after { room.new ≡ table_room table.now room.old }
{
    packed::wrote(shelf_table::write_report(table, room))
}

// ---- the pack

// A sample of the four numbers that C gives one by one.
fn sample_of(voltage: u16, current: i16, temperature: u16, counter: u32) -> Sample
    ensures { result ≡ sample_with voltage current temperature counter }
{
    Sample {
        voltage,
        current,
        temperature,
        counter,
    }
}

#[unsafe(no_mangle)]
pub extern "C" fn snatchblock_set_up(
    area: &mut [u8],
    DesignCapacity: u16,
    full: u16,
    remaining: u16,
    DesignVoltage: u16,
    MaxError: u16,
    CycleCount: u16,
    ManufactureDate: u16,
    SerialNumber: u16,
    ChargingCurrent: u16,
    ChargingVoltage: u16,
    TemperatureLimit: u16,
    DischargeLimit: u16,
    plain: bool,
    voltage: u16,
    current: i16,
    temperature: u16,
    counter: u32,
) -> u32
    ensures value { result ≡ start_number area.old (set_up_of (setup_with DesignCapacity full remaining DesignVoltage MaxError CycleCount ManufactureDate SerialNumber ChargingCurrent ChargingVoltage TemperatureLimit DischargeLimit plain) (sample_with voltage current temperature counter)) }
    ensures area_after { area.new ≡ start_area area.old (set_up_of (setup_with DesignCapacity full remaining DesignVoltage MaxError CycleCount ManufactureDate SerialNumber ChargingCurrent ChargingVoltage TemperatureLimit DischargeLimit plain) (sample_with voltage current temperature counter)) }
{
    let setup = Setup {
        DesignCapacity,
        full,
        remaining,
        DesignVoltage,
        MaxError,
        CycleCount,
        ManufactureDate,
        SerialNumber,
        ChargingCurrent,
        ChargingVoltage,
        TemperatureLimit,
        DischargeLimit,
        plain,
    };
    let first = sample_of(voltage, current, temperature, counter);
    calls::set_up(area, setup, first)
}

#[unsafe(no_mangle)]
pub extern "C" fn snatchblock_sound(area: &[u8]) -> bool
    ensures { result ≡ sound_in area.now }
{
    calls::sound(area)
}

#[unsafe(no_mangle)]
pub extern "C" fn snatchblock_sample(
    area: &mut [u8],
    voltage: u16,
    current: i16,
    temperature: u16,
    counter: u32,
    room: &mut [u8],
) -> u32
    ensures value { result ≡ sample_number area.old (sample_with voltage current temperature counter) room.old }
    ensures area_after { area.new ≡ sample_area area.old (sample_with voltage current temperature counter) room.old }
    ensures room_after { room.new ≡ sample_room area.old (sample_with voltage current temperature counter) room.old }
{
    let sample = sample_of(voltage, current, temperature, counter);
    calls::sample(area, sample, room)
}

#[unsafe(no_mangle)]
pub extern "C" fn snatchblock_transact<'a>(
    area: &mut [u8],
    service: &'a [u8],
    factory: &'a [u8],
    read: bool,
    bytes: &[u8],
    room: &mut [u8],
) -> u32
    ensures value { result ≡ transact_number area.old service.now factory.now read bytes.now room.old }
    ensures area_after { area.new ≡ transact_area area.old service.now factory.now read bytes.now room.old }
    ensures room_after { room.new ≡ transact_room area.old service.now factory.now read bytes.now room.old }
{
    calls::transact(area, service, factory, read, bytes, room)
}

// ---- the charger

#[unsafe(no_mangle)]
pub extern "C" fn snatchblock_charger_set_up(
    area: &mut [u8],
    voltage: u16,
    current: i16,
    temperature: u16,
    counter: u32,
) -> u32
    ensures value { result ≡ chargers.start_number area.old }
    ensures area_after { area.new ≡ chargers.start_area area.old (sample_with voltage current temperature counter) }
{
    let first = sample_of(voltage, current, temperature, counter);
    charger_calls::set_up(area, first)
}

#[unsafe(no_mangle)]
pub extern "C" fn snatchblock_charger_sound(area: &[u8]) -> bool
    ensures { result ≡ chargers.sound_in area.now }
{
    charger_calls::sound(area)
}

#[unsafe(no_mangle)]
pub extern "C" fn snatchblock_charger_sample(
    area: &mut [u8],
    voltage: u16,
    current: i16,
    temperature: u16,
    counter: u32,
) -> u32
    ensures value { result ≡ chargers.sample_number area.old (sample_with voltage current temperature counter) }
    ensures area_after { area.new ≡ chargers.sample_area area.old (sample_with voltage current temperature counter) }
{
    let sample = sample_of(voltage, current, temperature, counter);
    charger_calls::sample(area, sample)
}

#[unsafe(no_mangle)]
pub extern "C" fn snatchblock_charger_transact(
    area: &mut [u8],
    read: bool,
    bytes: &[u8],
    room: &mut [u8],
) -> u32
    ensures value { result ≡ chargers.transact_number area.old read bytes.now room.old }
    ensures area_after { area.new ≡ chargers.transact_area area.old read bytes.now room.old }
    ensures room_after { room.new ≡ chargers.transact_room area.old read bytes.now room.old }
{
    charger_calls::transact(area, read, bytes, room)
}

#[unsafe(no_mangle)]
pub extern "C" fn snatchblock_charger_current(area: &[u8]) -> u32
    ensures { result ≡ chargers.current_number area.now }
{
    charger_calls::current(area)
}

// ---- the thirteen-cell pack

// What this pack doesn't keep is 0.
fn thirteen_setup(DesignCapacity: u16, full: u16, remaining: u16, DesignVoltage: u16) -> Setup
    ensures { result ≡ thirteen_setup_with DesignCapacity full remaining DesignVoltage }
{
    Setup {
        DesignCapacity,
        full,
        remaining,
        DesignVoltage,
        MaxError: 0,
        CycleCount: 0,
        ManufactureDate: 0,
        SerialNumber: 0,
        ChargingCurrent: 0,
        ChargingVoltage: 0,
        TemperatureLimit: 0,
        DischargeLimit: 0,
        plain: false,
    }
}

#[unsafe(no_mangle)]
pub extern "C" fn snatchblock_thirteen_set_up(
    area: &mut [u8],
    DesignCapacity: u16,
    full: u16,
    remaining: u16,
    DesignVoltage: u16,
    StateOfHealth: u16,
    voltage: u16,
    current: i16,
    temperature: u16,
    counter: u32,
    cells: &[u16; 13],
) -> u32
    ensures value { result ≡ thirteens.start_number area.old (thirteen_set_up_of (thirteen_setup_with DesignCapacity full remaining DesignVoltage) StateOfHealth (sample_with voltage current temperature counter) cells.now) }
    ensures area_after { area.new ≡ thirteens.start_area area.old (thirteen_set_up_of (thirteen_setup_with DesignCapacity full remaining DesignVoltage) StateOfHealth (sample_with voltage current temperature counter) cells.now) }
{
    let setup = thirteen_setup(DesignCapacity, full, remaining, DesignVoltage);
    let first = sample_of(voltage, current, temperature, counter);
    let copy = *cells;
    thirteen_calls::set_up(area, setup, StateOfHealth, first, copy)
}

#[unsafe(no_mangle)]
pub extern "C" fn snatchblock_thirteen_sound(area: &[u8]) -> bool
    ensures { result ≡ thirteens.sound_in area.now }
{
    thirteen_calls::sound(area)
}

#[unsafe(no_mangle)]
pub extern "C" fn snatchblock_thirteen_sample(
    area: &mut [u8],
    voltage: u16,
    current: i16,
    temperature: u16,
    counter: u32,
    cells: &[u16; 13],
) -> u32
    ensures value { result ≡ thirteens.sample_number area.old (sample_with voltage current temperature counter) cells.now }
    ensures area_after { area.new ≡ thirteens.sample_area area.old (sample_with voltage current temperature counter) cells.now }
{
    let sample = sample_of(voltage, current, temperature, counter);
    let copy = *cells;
    thirteen_calls::sample(area, sample, copy)
}

#[unsafe(no_mangle)]
pub extern "C" fn snatchblock_thirteen_transact(
    area: &mut [u8],
    read: bool,
    bytes: &[u8],
    room: &mut [u8],
) -> u32
    ensures value { result ≡ thirteens.transact_number area.old read bytes.now room.old }
    ensures area_after { area.new ≡ thirteens.transact_area area.old read bytes.now room.old }
    ensures room_after { room.new ≡ thirteens.transact_room area.old read bytes.now room.old }
{
    thirteen_calls::transact(area, read, bytes, room)
}
