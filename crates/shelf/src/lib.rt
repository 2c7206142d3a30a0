// Monday's figures for the shelf: a report over a table of packs, each a row.
#![tactic(auto)]

ghost use Rattle.std.specs.Prelude.{◌≡◌};
ghost use Rattle.shelf.specs.Shelf.{report_of};

use refusals::Refusal;
use shelf_row::Figures;

// A pack on the shelf: remaining, full and design mAh, and its cycle count.
#[derive(Clone, Copy)]
pub struct Row {
    pub remaining: u16,
    pub full: u16,
    pub design: u16,
    pub cycles: u16,
}

// Rows are only read. Their number is judged before any of them; then the first bad one is told.
pub fn report(rows: &[Row]) -> Result<Figures, Refusal>
    ensures { result ≡ report_of rows.now }
{
    let mut t = shelf_row::begin(rows.len())?;
    for row in rows {
        t = shelf_row::step(t, row.remaining, row.full, row.design)?;
    }
    Ok(t)
}
