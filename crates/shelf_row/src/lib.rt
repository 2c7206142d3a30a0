// A row of the shelf's table: what it does to Monday's figures of the rows before it. Only our own crates call these.
#![tactic(auto)]

ghost use Rattle.std.specs.Prelude.{◌≡◌};
ghost use Rattle.shelf_row.specs.Rows.{begun, is_bad, is_low};
ghost use Rattle.shelf_row.specs.Step.{is_below, lowest_with, figures_with, Fits};

use refusals::Refusal;

// The most rows that a table may have.
const MOST_ROWS: usize = 64;

// The row with the lowest remaining ÷ full: its two numbers and its place from 0.
#[derive(Clone, Copy)]
pub struct Lowest {
    pub remaining: u16,
    pub full: u16,
    pub place: u32,
}

impl Lowest {
    // Below another's remaining ÷ full, with no division and no rounding.
    fn below(self, other: Lowest) -> bool
        ensures { result ≡ is_below self other }
    {
        capacity::product16(self.remaining, other.full)
            < capacity::product16(other.remaining, self.full)
    }
}

// Monday's figures: how many packs, total remaining, total full, the lowest, how many are below one fifth.
#[derive(Clone, Copy)]
pub struct Figures {
    pub packs: u32,
    pub remaining: u32,
    pub full: u32,
    pub lowest: Option<Lowest>,
    pub low: u32,
}

// The figures before any row of a table of so many: these are judged first.
pub fn begin(rows: usize) -> Result<Figures, Refusal>
    ensures { result ≡ begun rows }
{
    if rows > MOST_ROWS {
        return Err(Refusal::TooManyRows);
    }
    Ok(Figures {
        packs: 0,
        remaining: 0,
        full: 0,
        lowest: None,
        low: 0,
    })
}

fn bad(remaining: u16, full: u16, design: u16) -> bool
    ensures { result ≡ is_bad remaining full design }
{
    full == 0 || design == 0 || full < remaining
}

// Below one fifth.
fn is_low(remaining: u16, full: u16) -> bool
    ensures { result ≡ is_low remaining full }
{
    capacity::product16(5, remaining) < u32::from(full)
}

// The lowest so far stays on a tie.
fn lower(lowest: Option<Lowest>, row: Lowest) -> Lowest
    ensures { result ≡ lowest_with lowest row }
{
    match lowest {
        Some(before) if !row.below(before) => before,
        _ => row,
    }
}

// The figures with one row more.
#[tactic(auto, unfolding(crate::specs::Step::figures_with))]
pub fn step(t: Figures, remaining: u16, full: u16, design: u16) -> Result<Figures, Refusal>
    requires { Fits t }
    ensures { result ≡ figures_with t remaining full design }
{
    if bad(remaining, full, design) {
        return Err(Refusal::BadRow);
    }
    let row = Lowest {
        remaining,
        full,
        place: t.packs,
    };
    Ok(Figures {
        packs: t.packs + 1,
        remaining: t.remaining + u32::from(remaining),
        full: t.full + u32::from(full),
        lowest: Some(lower(t.lowest, row)),
        low: t.low + u32::from(is_low(remaining, full)),
    })
}
