// Captures: what bytes are one, its rows and its walk.
#![tactic(auto)]

ghost use Rattle.std.specs.Prelude.{◌≡◌};
ghost use Rattle.capture.specs.Capture.{fits, is_capture};
ghost use Rattle.capture.specs.Walk.{opened_of, step_at, body_at, body_place};

use refusals::Refusal;

// No capture is longer: its count, and 255 rows of mark, length and 37 bytes.
const LONGEST: usize = 1 + 255 * 39;

// What a capture holds: its number of rows, and the place of the first.
#[derive(Clone, Copy)]
pub struct Opened {
    pub rows: usize,
    pub place: usize,
}

// What stands at a row and a place: the row's mark, then the next row and the next place.
#[derive(Clone, Copy)]
pub struct Step {
    pub mark: u8,
    pub row: usize,
    pub place: usize,
}

// Whether a row may have a mark and a length.
fn fits(mark: u8, length: u8) -> bool
    ensures { result ≡ fits mark length }
{
    mark <= 1 && length <= 37
}

// Whether bytes are a capture.
pub fn is_capture(s: &[u8]) -> bool
    ensures { result ≡ is_capture s.now }
{
    let Some((count, rest)) = s.split_first() else {
        return false;
    };
    let Some((table, bodies)) = rest.split_at_checked(usize::from(*count) << 1) else {
        return false;
    };
    let mut total = 0;
    for row in table.chunks_exact(2) {
        if !fits(row[0], row[1]) {
            return false;
        }
        total += usize::from(row[1]);
    }
    total == bodies.len()
}

// The number of rows and the place of the first.
pub fn open(s: &[u8]) -> Result<Opened, Refusal>
    ensures { result ≡ opened_of s.now }
{
    if !is_capture(s) {
        return Err(Refusal::NotACapture);
    }
    let rows = usize::from(s[0]);
    Ok(Opened {
        rows,
        place: (rows << 1) + 1,
    })
}

// None where there is no such row, no body can start at the place, or this one would pass the end. Refused where the step
// sees that the bytes are no capture. Opening tests the whole, and a step its own row: so a walk is linear.
pub fn step_at(s: &[u8], row: usize, place: usize) -> Result<Option<Step>, Refusal>
    ensures { result ≡ step_at s.now row place }
{
    let size = s.len();
    if s.is_empty() || place == 0 || LONGEST < size {
        return Err(Refusal::NotACapture);
    }
    let n = usize::from(s[0]);
    let bodies = (n << 1) + 1;
    if size < bodies {
        return Err(Refusal::NotACapture);
    }
    if n <= row {
        return Ok(None);
    }
    let mark = s[(row << 1) + 1];
    let length = s[(row << 1) + 2];
    if !fits(mark, length) {
        return Err(Refusal::NotACapture);
    }
    let next = place.saturating_add(usize::from(length));
    if size < next || place < bodies {
        return Ok(None);
    }
    Ok(Some(Step {
        mark,
        row: row + 1,
        place: next,
    }))
}

// The row's body: a part of the capture, of no bytes at its front where there is no such row.
pub fn body_at(s: &[u8], row: usize, place: usize) -> &[u8]
    ensures result_value { result.now ≡ body_at s.now row place }
    ensures ref_ptr_value { result.ref_ptr ≡ body_place s.now row place s.entry.ref_ptr }
{
    match step_at(s, row, place) {
        Ok(Some(step)) => &s[place..step.place],
        Ok(None) => &s[..0],
        Err(_) => &s[..0],
    }
}
