// Published figures, run through the public entries, a line each with its label: source 001's packets and the CRC-8
// catalogue's figure, every command code's row, the words that 002 packs, document 01's twelve worked examples.
#![tactic(auto)]

ghost use Rattle.std.specs.Prelude.{◌≤◌};

use commands::Transacted;
use pack::{Sample, State};
use start::Setup;
use std::io;

// ---- messages whose last byte is their check byte

// The PEC of all bytes but the last.
fn pec_before_last(message: &[u8]) -> u8 {
    match message.split_last() {
        Some((_, before)) => pec::pec(before),
        None => 0,
    }
}

fn last_byte(message: &[u8]) -> u8 {
    message.last().copied().unwrap_or(0)
}

fn check(rt: &impl Print, message: &[u8]) -> io::Result<()> {
    match pec::exchange_check(message) {
        Ok(true) => println!(rt; ", right"),
        Ok(false) => println!(rt; ", WRONG"),
        Err(_) => println!(rt; ", refused"),
    }
}

// Computed anew, compared, and put through the exchange check.
fn compare(rt: &impl Print, label: &str, message: &[u8]) -> io::Result<()> {
    let computed = pec_before_last(message);
    let published = last_byte(message);
    print!(rt; "{label}: computed {computed:02x}, published {published:02x}")?;
    if computed == published {
        print!(rt; ": same")?;
    } else {
        print!(rt; ": DIFFERENT")?;
    }
    check(rt, message)
}

fn packets(rt: &impl Print) -> io::Result<()> {
    compare(
        rt,
        "firmware packet",
        b"\x16\xa1\x00\x01\x82\x00\x94\x4d\x82\x00\xb0\x8c\x82\x00\xb0\x8c\x82\x00\x99\xb4\
        \x82\x00\xb0\x8c\x82\x00\xb0\x8c\x82\x00\xb0\x8c\x82\x00\x99\xaf\x6f",
    )?;
    compare(rt, "version packet", b"\x16\x80\x17\x4d\x00\x01\x00\x98")?;
    compare(rt, "CRC-8 catalogue, 123456789", b"123456789\xf4")
}

// ---- the pack

// 2,000 of 4,000 mAh left, 14,800 mV, made on 15 March 2021, serial 17.
fn half_full() -> State {
    let setup = Setup {
        DesignCapacity: 4000,
        full: 4000,
        remaining: 2000,
        DesignVoltage: 14800,
        MaxError: 0,
        CycleCount: 0,
        ManufactureDate: 0x526f,
        SerialNumber: 17,
        ChargingCurrent: 0,
        ChargingVoltage: 0,
        TemperatureLimit: 0,
        DischargeLimit: 0,
        plain: false,
    };
    let first = Sample {
        voltage: 14800,
        current: 0,
        temperature: 0,
        counter: 0,
    };
    let started = start::set_up(setup, first);
    started.state
}

// A call of the pack, whose sheets list nothing.
fn call(s: State, read: bool, bytes: &[u8], room: &mut [u8]) -> Transacted<State> {
    let none = [0u8; 1];
    bus::transact(s, &none, &none, read, bytes, room)
}

// The word that a command shows.
fn word_of(s: State, command: u8) -> usize {
    let bytes = [0x16u8, command, 0x17];
    let mut room = [0u8; 34];
    call(s, true, &bytes, &mut room);
    rooms::offset(room[0], room[1])
}

// The word that a command shows after a write.
fn after(write: &[u8], command: u8) -> usize {
    let mut room = [0u8; 34];
    let wrote = call(half_full(), false, write, &mut room);
    word_of(wrote.state, command)
}

// ---- the row of each command code

fn answer(read: bool, bytes: &[u8]) -> usize {
    let mut room = [0u8; 34];
    let out = call(half_full(), read, bytes, &mut room);
    usize::from(out.answer)
}

fn read_answer(command: u8) -> usize {
    let bytes = [0x16u8, command, 0x17];
    answer(true, &bytes)
}

fn write_answer(command: u8) -> usize {
    let bytes = [0x16u8, command, 0, 0];
    answer(false, &bytes)
}

// The answers to sixteen reads, or sixteen writes, from a command on.
fn sixteen(rt: &impl Print, first: u8, read: bool) -> io::Result<()>
    requires { first ≤ 240 }
{
    for k in 0..16u8 {
        let command = first + k;
        if read {
            print!(rt; "{}", read_answer(command))?;
        } else {
            print!(rt; "{}", write_answer(command))?;
        }
    }
    Ok(())
}

fn row(rt: &impl Print, first: u8) -> io::Result<()>
    requires { first ≤ 240 }
{
    print!(rt; "commands from {first:02x}: read ")?;
    sixteen(rt, first, true)?;
    print!(rt; " write ")?;
    sixteen(rt, first, false)?;
    println!(rt)
}

fn rows(rt: &impl Print) -> io::Result<()> {
    for high in 0..16u8 {
        row(rt, high * 16)?;
    }
    Ok(())
}

// ---- the words that 002 packs

fn word(rt: &impl Print, label: &str, command: u8) -> io::Result<()> {
    println!(rt; "{label} {:04x}", word_of(half_full(), command))
}

fn words(rt: &impl Print) -> io::Result<()> {
    word(rt, "SpecificationInfo", 0x1A)?;
    word(rt, "ManufactureDate", 0x1B)?;
    word(rt, "SerialNumber", 0x1C)
}

// ---- document 01's worked examples

fn check_byte(rt: &impl Print, label: &str, message: &[u8]) -> io::Result<()> {
    println!(rt; "{label}: {:02x}", pec::pec(message))
}

fn number(rt: &impl Print, label: &str, n: usize) -> io::Result<()> {
    println!(rt; "{label}: {n}")
}

// The date that the pack shows, taken apart as 002 packs it: day, month, year.
fn date(rt: &impl Print, label: &str) -> io::Result<()> {
    let shown = word_of(half_full(), 0x1B);
    println!(rt;
        "{label}: {} {} {}",
        shown % 32,
        shown / 32 % 16,
        shown / 512 + 1980
    )
}

fn front(rt: &impl Print, room: &[u8], length: usize) -> io::Result<()> {
    match room.get(..length) {
        Some(written) => rt.write_all(written),
        None => Ok(()),
    }
}

fn key_of(rt: &impl Print, label: &str) -> io::Result<()> {
    let mut room = [0u8; 139];
    let wrote = key_writer::write_key(b"A/B", b"P7", 0x526f, 17, &mut room);
    print!(rt; "{label}: ")?;
    front(rt, &room, wrote.unwrap_or(0))?;
    println!(rt)
}

// The state after a current flowed up to a reading of the counter.
fn sampled(s: State, current: i16, counter: u32) -> State {
    let mut room = [0u8; 20];
    let next = Sample {
        voltage: 14800,
        current: current,
        temperature: 0,
        counter: counter,
    };
    clock::sample(s, next, &mut room).state
}

// Seconds of -5 and 2 mA, as the word that AverageCurrent shows.
fn average() -> usize {
    let first = sampled(half_full(), -5, 1000);
    let second = sampled(first, 2, 2000);
    word_of(second, 0x0B)
}

fn elapsed() -> usize {
    clock::elapsed(4, 4294967290) as usize
}

fn check_bytes(rt: &impl Print) -> io::Result<()> {
    check_byte(rt, "example 1", b"")?;
    check_byte(rt, "example 2", b"\x16\x80\x17\x4d\x00\x01\x00")?;
    check_byte(rt, "example 3", b"\x16\x09\x17\xd0\x39")?;
    check_byte(rt, "example 4", b"\x16\x02\x0a\x00")
}

fn numbers(rt: &impl Print) -> io::Result<()> {
    number(rt, "example 7", after(b"\x16\x04\x00\x80", 0x06))?;
    number(rt, "example 8", after(b"\x16\x04\x00\x00", 0x06))?;
    number(rt, "example 9", after(b"\x16\x04\xff\xff", 0x06))?;
    number(rt, "example 10", after(b"\x16\x03\x00\x80", 0x0F))?;
    number(rt, "example 11", elapsed())?;
    number(rt, "example 12", average())
}

fn main(rt: HostRuntime) -> io::Result<()> {
    packets(&rt)?;
    rows(&rt)?;
    words(&rt)?;
    check_bytes(&rt)?;
    date(&rt, "example 5")?;
    key_of(&rt, "example 6")?;
    numbers(&rt)
}
