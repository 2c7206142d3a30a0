// Monday's figures of a table of packs, read from standard input: a line for each pack, with its remaining, full and
// design mAh and its cycle count, decimal numbers of 0 to 65535 with spaces or tabs between them. Empty lines and lines
// that start with `#` are passed over.
#![tactic(auto)]

ghost use Rattle.std.specs.Prelude.{◌+◌, ◌≤◌, ◌<◌, ◌^◌, ◌≡◌, take};
ghost use Rattle.shelf.specs.Shelf.{report_of};
ghost use Rattle.monday.specs.Numbers.{appended};

use refusals::Refusal;
use shelf::Row;
use shelf_row::{Figures, Lowest};
use std::io;

// What the next byte of a line stands after: nothing, a gap, a digit, a carriage return, a `#`, or what can't stand there.
#[derive(Clone, Copy)]
enum After {
    Nothing,
    Gap,
    Digit,
    Return,
    Comment,
    Fault,
}

// A line as far as it is read: how many numbers it has begun, and the last four of these.
#[derive(Clone, Copy)]
struct Line {
    row: Row,
    begun: u8,
    after: After,
}

// A line that is read: a pack's row, one to pass over, or neither.
#[derive(Clone, Copy)]
enum Meaning {
    Pack(Row),
    Passed,
    Fault,
}

// A table as far as it is read: its first 65 rows, since one over 64 tells; and the number of the first line that isn't right, else 0.
#[derive(Clone, Copy)]
struct Table {
    rows: [Row; 65],
    count: usize,
    lines: usize,
    fault: usize,
}

// A number with a digit more, unless it goes beyond a word.
fn with_digit(x: u16, digit: u8) -> Option<u16>
    requires { digit < 10 }
    ensures { result ≡ appended x digit }
{
    let next = 10 * u32::from(x) + u32::from(digit);
    if next < 65536 {
        return Some(next as u16);
    }
    None
}

fn beginning() -> Line {
    let row = Row {
        remaining: 0,
        full: 0,
        design: 0,
        cycles: 0,
    };
    Line {
        row,
        begun: 0,
        after: After::Nothing,
    }
}

fn line_after(line: Line, after: After) -> Line {
    Line { after, ..line }
}

// A digit more in the number that is being read.
fn longer(line: Line, digit: u8) -> Line
    requires { digit < 10 }
{
    let Some(cycles) = with_digit(line.row.cycles, digit) else {
        return line_after(line, After::Fault);
    };
    Line {
        row: Row { cycles, ..line.row },
        after: After::Digit,
        ..line
    }
}

// The first digit of a number: those before it move up.
fn first_digit(line: Line, digit: u8) -> Line {
    if 4 <= line.begun {
        return line_after(line, After::Fault);
    }
    let row = Row {
        remaining: line.row.full,
        full: line.row.design,
        design: line.row.cycles,
        cycles: u16::from(digit),
    };
    Line {
        row,
        begun: line.begun + 1,
        after: After::Digit,
    }
}

// A byte of a line of numbers, inside a number or not.
fn number_byte(line: Line, inside: bool, b: u8) -> Line {
    if (b == b' ') | (b == b'\t') {
        return line_after(line, After::Gap);
    }
    if b == b'\r' {
        return line_after(line, After::Return);
    }
    if b < b'0' {
        return line_after(line, After::Fault);
    }
    if b'9' < b {
        return line_after(line, After::Fault);
    }
    if inside {
        return longer(line, b - b'0');
    }
    first_digit(line, b - b'0')
}

// The line with a byte more: after a carriage return nothing stands but the newline, which is no byte of the line.
fn step(line: Line, b: u8) -> Line {
    let after = line.after;
    match after {
        After::Nothing => {
            if b == b'#' {
                return line_after(line, After::Comment);
            }
            number_byte(line, false, b)
        }
        After::Gap => number_byte(line, false, b),
        After::Digit => number_byte(line, true, b),
        After::Return => line_after(line, After::Fault),
        After::Comment => line,
        After::Fault => line,
    }
}

// Spaces alone are an empty line.
fn meaning_of(line: Line) -> Meaning {
    match (line.after, line.begun) {
        (After::Comment, _) => Meaning::Passed,
        (After::Fault, _) => Meaning::Fault,
        (_, 0) => Meaning::Passed,
        (_, 4) => Meaning::Pack(line.row),
        _ => Meaning::Fault,
    }
}

fn empty() -> Table
    ensures { (result.count ≡ 0) × (result.lines ≡ 0) }
{
    let none = beginning();
    let row = none.row;
    Table {
        rows: [row; 65],
        count: 0,
        lines: 0,
        fault: 0,
    }
}

fn with_line(t: Table, line: Line) -> Table
    requires count_bound { t.count ≤ 65 }
    requires lines_bound { t.lines + 1 < 2 ^ 64 }
    ensures count_bound_2 { result.count ≤ 65 }
    ensures lines_value { result.lines ≡ t.lines + 1 }
{
    let mut next = t;
    next.lines = t.lines + 1;
    let what = meaning_of(line);
    match what {
        Meaning::Pack(row) => {
            if t.count < 65 {
                let at = t.count;
                next.rows[at] = row;
                next.count = at + 1;
            }
        }
        Meaning::Passed => {}
        Meaning::Fault => {
            if t.fault == 0 {
                next.fault = t.lines + 1;
            }
        }
    }
    next
}

// A newline that the last line lacks does no harm: after one that it has, an empty line ends the table.
fn read(bytes: &[u8]) -> Table
    ensures { result.count ≤ 65 }
{
    let mut t = empty();
    let mut line = beginning();
    for b in bytes {
        if *b == b'\n' {
            t = with_line(t, line);
            line = beginning();
        } else {
            line = step(line, *b);
        }
    }
    with_line(t, line)
}

// The one place that makes a slice of rows.
fn figures_of(rows: [Row; 65], count: usize) -> Result<Figures, Refusal>
    requires { count ≤ 65 }
    ensures { result ≡ report_of (take count rows) }
{
    shelf::report(&rows[..count])
}

// A line: what it is of, the number, and what follows.
fn print_line(rt: &impl Print, of: &str, n: u32, rest: &str) -> io::Result<()> {
    println!(rt; "{of} {n}{rest}")
}

fn print_lowest(rt: &impl Print, lowest: Option<Lowest>) -> io::Result<()> {
    match lowest {
        Some(row) => {
            println!(rt;
                "lowest {} of {} mAh, place {}",
                row.remaining, row.full, row.place
            )
        }
        None => println!(rt; "no lowest row"),
    }
}

fn print_figures(rt: &impl Print, t: Figures) -> io::Result<()> {
    print_line(rt, "packs", t.packs, "")?;
    print_line(rt, "total remaining", t.remaining, " mAh")?;
    print_line(rt, "total full", t.full, " mAh")?;
    print_lowest(rt, t.lowest)?;
    print_line(rt, "below one fifth", t.low, "")
}

fn print_report(rt: &impl Print, report: Result<Figures, Refusal>) -> io::Result<()> {
    match report {
        Ok(t) => print_figures(rt, t),
        Err(Refusal::TooManyRows) => println!(rt; "16: more than 64 rows"),
        Err(_) => {
            println!(rt; "17: a row whose full or design is 0 or whose remaining exceeds full")
        }
    }
}

// A line that isn't right is told before any answer, 16 too, and nothing else is printed.
fn tell(rt: &impl Print, bytes: &[u8]) -> io::Result<()> {
    let t = read(bytes);
    if t.fault != 0 {
        return println!(rt; "line {}: not four numbers of 0 to 65535", t.fault);
    }
    let rows = t.rows;
    print_report(rt, figures_of(rows, t.count))
}

// A table takes less than 16,384 bytes, of which 64 of the longest rows take 1,536.
fn main(rt: HostRuntime) -> io::Result<()> {
    let mut bytes = [0u8; 16384];
    let n = lines::read_full(&rt, &mut bytes)?;
    if 16384 <= n {
        return println!(rt; "the table is too long");
    }
    tell(&rt, &bytes[..n])
}
