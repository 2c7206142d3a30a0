// Sheets and captures, good and damaged, one for each fault: what each answers is printed.
#![tactic(auto)]

ghost use Rattle.std.specs.Prelude.{◌≡◌, IfOk};
ghost use Rattle.reader.specs.Reading.{start_of, step_of, after_of, moved};

use capture::Step;
use reader::Reader;
use refusals::Refusal;
use std::io;

fn print_bytes(rt: &impl Print, bytes: &[u8]) -> io::Result<()> {
    for b in bytes {
        print!(rt; "{b:02x}")?;
    }
    println!(rt)
}

fn print_line(rt: &impl Print, text: &[u8]) -> io::Result<()> {
    rt.write_all(text)?;
    println!(rt)
}

fn print_refusal(rt: &impl Print, reason: Refusal) -> io::Result<()> {
    println!(rt; "{}", u8::from(reason))
}

fn print_answer<T>(rt: &impl Print, outcome: &Result<T, Refusal>) -> io::Result<()> {
    println!(rt; "{}", refusals::answer(outcome))
}

// What a writer answers, and how many bytes it wrote.
fn print_wrote(rt: &impl Print, wrote: Result<usize, Refusal>) -> io::Result<()> {
    print!(rt; "{} {}", refusals::answer(&wrote), wrote.unwrap_or(0))
}

// The answer and the length, then the room's first 18 bytes.
fn sheet_written(rt: &impl Print, wrote: Result<usize, Refusal>, room: &[u8]) -> io::Result<()> {
    print_wrote(rt, wrote)?;
    println!(rt)?;
    if 18 <= room.len() {
        print_bytes(rt, &room[0..18])?;
    }
    Ok(())
}

// A maker's name and a chemistry; no room under 145.
fn write_sheets(rt: &impl Print) -> io::Result<()> {
    let mut room = [0xEEu8; 145];
    let mut small = [0xEEu8; 144];
    let absent: Option<&[u8]> = false.then_some(b"?");
    let served = sheet_writer::write_sheet(&mut room, Some(b"Acme"), absent, Some(b"LION"), None);
    sheet_written(rt, served, &room)?;
    let refused = sheet_writer::write_sheet(&mut small, Some(b"Acme"), None, Some(b"LION"), None);
    sheet_written(rt, refused, &small)
}

// No body over 32 bytes; an absent body's bytes are ignored; a body of none is there all the same.
fn write_long_bodies(rt: &impl Print) -> io::Result<()> {
    let long = [0x41u8; 33];
    let mut room = [0xEEu8; 145];
    let over = sheet_writer::write_sheet(
        &mut room,
        Some(b"Acme"),
        Some(&long),
        Some(b"LION"),
        None,
    );
    sheet_written(rt, over, &room)?;
    let absent: Option<&[u8]> = false.then_some(&long);
    let empty = sheet_writer::write_sheet(&mut room, Some(b""), absent, None, None);
    sheet_written(rt, empty, &room)
}

// 20 is in both sheets, 22 in the service sheet, 21 in the factory sheet, 23 and 24 in neither.
fn block_names(rt: &impl Print) -> io::Result<()> {
    let service = b"\x02\x20\x04\x09\x00\x22\x04\x0d\x00AcmeLION";
    let factory = b"\x02\x20\x05\x09\x00\x21\x02\x0e\x00MakerP7";
    print_line(rt, sheet::block(service, factory, 0x20))?;
    print_line(rt, sheet::block(service, factory, 0x21))?;
    print_line(rt, sheet::block(service, factory, 0x22))?;
    print_line(rt, sheet::block(service, factory, 0x23))?;
    print_line(rt, sheet::block(service, factory, 0x24))?;
    print_answer(rt, &sheet::block_answer(service, factory))?;
    print_line(rt, sheet::block(service, b"", 0x20))?;
    print_answer(rt, &sheet::block_answer(service, b""))?;
    print_line(rt, sheet::block(b"\x01", factory, 0x21))?;
    print_answer(rt, &sheet::block_answer(b"\x01", factory))
}

fn verdict(rt: &impl Print, fault: &str, bytes: &[u8]) -> io::Result<()> {
    if sheet::is_sheet(bytes) {
        println!(rt; "{fault}: a sheet")
    } else {
        println!(rt; "{fault}: no sheet")
    }
}

fn sheet_contents(rt: &impl Print) -> io::Result<()> {
    verdict(rt, "two bodies", b"\x02\x20\x01\x09\x00\x22\x02\x0a\x00abc")?;
    verdict(rt, "no bodies", b"\x00")?;
    verdict(rt, "an empty body", b"\x01\x23\x00\x05\x00")?;
    verdict(rt, "no bytes", b"")?;
    verdict(
        rt,
        "n is 5",
        b"\x05\x20\x00\x15\x00\x21\x00\x15\x00\x22\x00\x15\x00\x23\x00\x15\x00\x23\x00\x15\x00",
    )?;
    verdict(rt, "a row cut short", b"\x01\x20\x00\x05")?;
    verdict(rt, "tag 1F", b"\x01\x1f\x01\x05\x00a")?;
    verdict(rt, "tag 24", b"\x01\x24\x01\x05\x00a")?;
    verdict(
        rt,
        "falling tags",
        b"\x02\x22\x01\x09\x00\x20\x02\x0a\x00abc",
    )?;
    verdict(rt, "equal tags", b"\x02\x20\x01\x09\x00\x20\x02\x0a\x00abc")
}

fn sheet_bodies(rt: &impl Print) -> io::Result<()> {
    verdict(
        rt,
        "32 bytes",
        b"\x01\x20\x20\x05\x00abcdefghijklmnopqrstuvwxyz012345",
    )?;
    verdict(
        rt,
        "33 bytes",
        b"\x01\x20\x21\x05\x00abcdefghijklmnopqrstuvwxyz0123456",
    )?;
    verdict(rt, "a gap", b"\x02\x20\x01\x09\x00\x22\x02\x0b\x00a-bc")?;
    verdict(
        rt,
        "bodies overlap",
        b"\x02\x20\x01\x09\x00\x22\x02\x09\x00ab",
    )?;
    verdict(
        rt,
        "a high byte",
        b"\x02\x20\x01\x09\x00\x22\x02\x0a\x01abc",
    )?;
    verdict(
        rt,
        "bytes after the last body",
        b"\x02\x20\x01\x09\x00\x22\x02\x0a\x00abcd",
    )?;
    verdict(
        rt,
        "the last body cut short",
        b"\x02\x20\x01\x09\x00\x22\x02\x0a\x00ab",
    )
}

// A row's mark and body; the next place.
fn print_row(rt: &impl Print, bytes: &[u8], row: usize, place: usize) -> io::Result<usize> {
    match capture::step_at(bytes, row, place) {
        Ok(Some(step)) => {
            print!(rt; "{} ", step.mark)?;
            print_bytes(rt, capture::body_at(bytes, row, place))?;
            Ok(step.place)
        }
        _ => Ok(place),
    }
}

// 14 for bytes that aren't a capture; else the number of rows, and each row.
fn read(rt: &impl Print, bytes: &[u8]) -> io::Result<()> {
    let opened = match capture::open(bytes) {
        Ok(opened) => opened,
        Err(reason) => return print_refusal(rt, reason),
    };
    println!(rt; "{}", opened.rows)?;
    let mut place = opened.place;
    for row in 0..opened.rows {
        place = print_row(rt, bytes, row, place)?;
    }
    Ok(())
}

// What a reader is at: a row's mark and body, the end, or bytes that aren't a capture.
fn print_shown(
    rt: &impl Print,
    shown: Result<Option<Step>, Refusal>,
    body: &[u8],
) -> io::Result<()> {
    match shown {
        Ok(Some(step)) => {
            print!(rt; "{} ", step.mark)?;
            print_bytes(rt, body)
        }
        Ok(None) => println!(rt; "end"),
        Err(reason) => print_refusal(rt, reason),
    }
}

// The row that a reader is at is printed, and the reader goes on.
fn turn<'a>(rt: &impl Print, r: Reader<'a>) -> io::Result<Reader<'a>>
    ensures { IfOk result (λ gone. gone ≡ after_of r.entry) }
{
    print_shown(rt, reader::next(r), reader::body(r))?;
    Ok(reader::after(r))
}

// What a reader is at after three rows, each printed.
fn past_three(rt: &impl Print, bytes: &[u8]) -> io::Result<Result<Option<Step>, Refusal>>
    ensures { IfOk result (λ shown. shown ≡ step_of (moved 3 (start_of bytes.entry))) }
{
    let first = turn(rt, reader::start(bytes))?;
    let second = turn(rt, first)?;
    let third = turn(rt, second)?;
    Ok(reader::next(third))
}

// A capture of up to three rows, as a reader walks it to its end.
fn walk(rt: &impl Print, bytes: &[u8]) -> io::Result<()> {
    println!(rt; "a reader:")?;
    let shown = past_three(rt, bytes)?;
    print_shown(rt, shown, b"")
}

// The answer and the length; then the whole room.
fn write_capture(
    rt: &impl Print,
    marks: &[u8],
    lengths: &[u8],
    bodies: &[u8],
    room: &mut [u8],
) -> io::Result<()> {
    let wrote = capture_writer::write_capture(marks, lengths, bodies, room);
    print_wrote(rt, wrote)?;
    print!(rt; " ")?;
    print_bytes(rt, room)
}

// The capture of document 01, and what damage makes of it.
fn read_damaged_example(rt: &impl Print) -> io::Result<()> {
    let whole = [
        3u8, 0, 5, 1, 3, 0, 5, 0x16, 2, 0x0A, 0, 0x47, 0x16, 9, 0x17, 0x16, 2, 0x0A, 0, 0x46, 0,
    ];
    read(rt, &whole[0..20])?;
    walk(rt, &whole[0..20])?;
    read(rt, &whole[0..19])?;
    walk(rt, &whole[0..19])?;
    read(rt, &whole[0..21])?;
    read(rt, &whole[0..6])?;
    read(rt, &whole[0..1])?;
    read(rt, &whole[0..0])
}

// The shortest captures and the longest bodies.
fn read_bounds(rt: &impl Print) -> io::Result<()> {
    read(rt, &[0u8])?;
    read(rt, &[1u8, 2, 0])?;
    read(rt, &[2u8, 1, 0, 0, 1, 0xAA])?;
    walk(rt, &[2u8, 1, 0, 0, 1, 0xAA])?;
    read(rt, &[255u8, 0, 0])?;
    let mut longest = [0u8; 40];
    longest[0] = 1;
    longest[1] = 1;
    longest[2] = 37;
    read(rt, &longest)?;
    let mut longer = [0u8; 41];
    longer[0] = 1;
    longer[2] = 38;
    read(rt, &longer)
}

fn write_captures(rt: &impl Print) -> io::Result<()> {
    let bodies = [0x16u8, 2, 0x0A, 0, 0x47, 0x16, 9, 0x17];
    let mut room = [0xEEu8; 16];
    write_capture(rt, &[0u8, 2], &[5u8, 3], &bodies, &mut room)?;
    write_capture(rt, &[0u8, 1], &[5u8, 38], &bodies, &mut room)?;
    write_capture(rt, &[0u8, 1], &[5u8, 2], &bodies, &mut room)?;
    write_capture(rt, &[0u8, 1], &[5u8, 4], &bodies, &mut room)?;
    write_capture(rt, &[0u8], &[5u8, 3], &bodies, &mut room)?;
    let mut short = [0xEEu8; 12];
    write_capture(rt, &[0u8, 1], &[5u8, 3], &bodies, &mut short)?;
    write_capture(rt, &[0u8, 1], &[5u8, 3], &bodies, &mut room)?;
    read(rt, &room[0..13])?;
    let mut empty = [0xEEu8; 1];
    write_capture(rt, &[], &[], &[], &mut empty)
}

// More rows than a byte counts.
fn write_256(rt: &impl Print) -> io::Result<()> {
    let marks = [0u8; 256];
    let lengths = [0u8; 256];
    let mut room = [0u8; 513];
    let wrote = capture_writer::write_capture(&marks, &lengths, &[], &mut room);
    print_answer(rt, &wrote)
}

fn main(rt: HostRuntime) -> io::Result<()> {
    write_sheets(&rt)?;
    write_long_bodies(&rt)?;
    block_names(&rt)?;
    sheet_contents(&rt)?;
    sheet_bodies(&rt)?;
    read_damaged_example(&rt)?;
    read_bounds(&rt)?;
    write_captures(&rt)?;
    write_256(&rt)
}
