// The shelf's table in lent bytes, for C: rows of four words, each low byte first, and the report in 16 bytes.
#![tactic(auto)]

ghost use Rattle.std.specs.Prelude.{◌≡◌, length};
ghost use Rattle.numbers.specs.Numbers.{bytes_taken};
ghost use Rattle.shelf.specs.Shelf.{report_of};
ghost use Rattle.shelf_table.specs.Table.{rows_in, figures_widths, figures_bytes, table_wrote, table_room};

use numbers::{number_at, put_number};
use refusals::Refusal;
use shelf_row::{Figures, Lowest};

// A row's bytes, and a report's.
const ROW: usize = 8;

const REPORT: usize = 16;

// The report of a table's whole rows: bytes past these are refused before.
fn report_in(table: &[u8]) -> Result<Figures, Refusal>
    ensures { result ≡ report_of (rows_in table.now) }
{
    let rows = table.len() / ROW;
    let mut t = shelf_row::begin(rows)?;
    for i in 0..rows {
        let at = i << 3;
        let remaining = number_at(table, at);
        let full = number_at(table, at + 2);
        let design = number_at(table, at + 4);
        t = shelf_row::step(t, remaining, full, design)?;
    }
    Ok(t)
}

// The figures in their 16 bytes.
fn put_figures(part: &mut [u8], t: Figures)
    requires { length part.old ≡ bytes_taken figures_widths }
    ensures { part.new ≡ figures_bytes t }
{
    let lowest = t.lowest.unwrap_or(Lowest {
        remaining: 0,
        full: 0,
        place: 0,
    });
    put_number(part, 0, 1, u64::from(t.packs));
    put_number(part, 1, 4, u64::from(t.remaining));
    put_number(part, 5, 4, u64::from(t.full));
    put_number(part, 9, 1, u64::from(t.lowest.is_some()));
    put_number(part, 10, 2, u64::from(lowest.remaining));
    put_number(part, 12, 2, u64::from(lowest.full));
    put_number(part, 14, 1, u64::from(lowest.place));
    put_number(part, 15, 1, u64::from(t.low));
}

// The report at the front of the room, which is written only where it is served.
pub fn write_report(table: &[u8], room: &mut [u8]) -> Result<usize, Refusal>
    ensures value { result ≡ table_wrote table.now room.old }
    ensures room_after { room.new ≡ table_room table.now room.old }
{
    if room.len() < REPORT {
        return Err(Refusal::SmallRoom);
    }
    if table.len() % ROW != 0 {
        return Err(Refusal::WrongForm);
    }
    let t = report_in(table)?;
    put_figures(&mut room[..REPORT], t);
    Ok(REPORT)
}
