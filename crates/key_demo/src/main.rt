// Two packs that a dash merges, their keys, and what the reader answers to bytes that aren't a key.
#![tactic(auto)]

use key::Read;
use refusals::answer;
use std::io;

fn line(rt: &impl Print) -> io::Result<()> {
    println!(rt)
}

// A part between brackets, so that one of no bytes shows.
fn bracket(rt: &impl Print, part: &[u8]) -> io::Result<()> {
    rt.write_all(b" [")?;
    rt.write_all(part)?;
    rt.write_all(b"]")
}

// The names joined with a dash, as they once were.
fn dash(rt: &impl Print, maker: &[u8], device: &[u8]) -> io::Result<()> {
    rt.write_all(maker)?;
    rt.write_all(b"-")?;
    rt.write_all(device)?;
    line(rt)
}

// The first 24 bytes of a room.
fn front(rt: &impl Print, room: &[u8]) -> io::Result<()> {
    let n = 24;
    if n <= room.len() {
        bracket(rt, &room[0..n])?;
    }
    Ok(())
}

// The writer's answer, the length, and the first 24 bytes of the room as the writer left it.
fn write(rt: &impl Print, maker: &[u8], device: &[u8], room: &mut [u8]) -> io::Result<()> {
    let wrote = key_writer::write_key(maker, device, 0x526F, 17, room);
    print!(rt; "{} {}", answer(&wrote), wrote.unwrap_or(0))?;
    front(rt, room)?;
    line(rt)
}

// The reader's answer, the words, both names still escaped, and the maker plain.
fn read(rt: &impl Print, bytes: &[u8]) -> io::Result<()> {
    let read = key::read_key(bytes);
    let number = answer(&read);
    let Read { date, serial } = read.unwrap_or(Read { date: 0, serial: 0 });
    print!(rt; "{number} {date} {serial}")?;
    let maker = key::maker_part(bytes);
    bracket(rt, maker)?;
    bracket(rt, key::device_part(bytes))?;
    plain(rt, maker)?;
    line(rt)
}

// An escaped name, written plain into a room of four bytes: answer, length, and the room.
fn plain(rt: &impl Print, part: &[u8]) -> io::Result<()> {
    let mut room = [0x2Eu8; 4];
    let wrote = names::unescape(part, &mut room);
    print!(rt; " {} {}", answer(&wrote), wrote.unwrap_or(0))?;
    bracket(rt, &room)
}

// A dash merges these two packs.
fn dashes(rt: &impl Print) -> io::Result<()> {
    dash(rt, b"HAZEL", b"K-12")?;
    dash(rt, b"HAZEL-K", b"12")
}

// A pack's key in a room of 139 bytes, as many as a key can have.
fn pack(rt: &impl Print, maker: &[u8], device: &[u8]) -> io::Result<()> {
    let mut room = [0x2Eu8; 139];
    write(rt, maker, device, &mut room)
}

// A room of 138 bytes is refused.
fn short(rt: &impl Print) -> io::Result<()> {
    let mut room = [0x2Eu8; 138];
    write(rt, b"HAZEL", b"K-12", &mut room)
}

// A name of 33 bytes is refused.
fn packs(rt: &impl Print) -> io::Result<()> {
    pack(rt, b"HAZEL", b"K-12")?;
    pack(rt, b"HAZEL-K", b"12")?;
    pack(rt, b"NNNNNNNNNNNNNNNNNNNNNNNNNNNNNNNNN", b"K-12")?;
    pack(rt, b"HAZEL", b"NNNNNNNNNNNNNNNNNNNNNNNNNNNNNNNNN")
}

fn keys(rt: &impl Print) -> io::Result<()> {
    read(rt, b"A\\/B/P7/526f/0011")?;
    read(rt, b"HAZEL/K-12/526f/0011")?;
    read(rt, b"//0000/0000")?;
    read(rt, b"\\\\\\//x/ffff/abcd")?;
    read(rt, b"NNNNNNNNNNNNNNNNNNNNNNNNNNNNNNNN/x/0000/0000")
}

// No bytes; an escape mark last, in either name; an escape before another byte.
fn bad_names(rt: &impl Print) -> io::Result<()> {
    read(rt, b"")?;
    read(rt, b"A\\")?;
    read(rt, b"A/B\\")?;
    read(rt, b"A\\B/C/526f/0011")
}

// Three parts and five; a byte more and one less.
fn bad_parts(rt: &impl Print) -> io::Result<()> {
    read(rt, b"A/B/526f")?;
    read(rt, b"A/B/526f/0011/C")?;
    read(rt, b"A/B/526f/00110")?;
    read(rt, b"A/B/526f/001")
}

// A dash for the last 2F, and names of 33 bytes.
fn bad_joins(rt: &impl Print) -> io::Result<()> {
    read(rt, b"A/B/526f-0011")?;
    read(rt, b"NNNNNNNNNNNNNNNNNNNNNNNNNNNNNNNNN/x/0000/0000")?;
    read(rt, b"x/NNNNNNNNNNNNNNNNNNNNNNNNNNNNNNNNN/0000/0000")
}

// Upper-case letters are no digits of the date, nor of the serial.
fn bad_dates(rt: &impl Print) -> io::Result<()> {
    read(rt, b"A/B/A000/0000")?;
    read(rt, b"A/B/0B00/0000")?;
    read(rt, b"A/B/00C0/0000")?;
    read(rt, b"A/B/000D/0000")
}

fn bad_serials(rt: &impl Print) -> io::Result<()> {
    read(rt, b"A/B/0000/E000")?;
    read(rt, b"A/B/0000/0F00")?;
    read(rt, b"A/B/0000/00G0")?;
    read(rt, b"A/B/0000/000g")
}

// A bare 2F, an escape mark last, an escape before another byte, and a room that just holds the name.
fn names(rt: &impl Print) -> io::Result<()> {
    plain(rt, b"A/B")?;
    plain(rt, b"A\\")?;
    plain(rt, b"\\A")?;
    plain(rt, b"HAZE")
}

fn main(rt: HostRuntime) -> io::Result<()> {
    dashes(&rt)?;
    packs(&rt)?;
    short(&rt)?;
    keys(&rt)?;
    bad_names(&rt)?;
    bad_parts(&rt)?;
    bad_joins(&rt)?;
    bad_dates(&rt)?;
    bad_serials(&rt)?;
    names(&rt)?;
    line(&rt)
}
