// Edits of a pack sheet in place: one body set (added or replaced) or removed, in a lent room that holds the sheet in its first bytes.
#![tactic(auto)]

ghost use Rattle.std.specs.Prelude.{◌≡◌};
ghost use Rattle.std.proofs.Math.Option.{none, some};
ghost use Rattle.sheet_edit.specs.Edit.{is_name, edit_of, room_after};
ghost use Rattle.sheet_edit.specs.Tests.{tested, found_in};

use refusals::Refusal;
use sheet_steps::Span;

// The most bytes of a body.
const MOST: usize = 32;

// What an edit finds in the sheet: how many rows, the span of the tag, and how long the sheet is without that.
#[derive(Clone, Copy)]
struct Found {
    rows: usize,
    span: Span,
    left: usize,
}

fn is_name(tag: u8) -> bool
    ensures { result ≡ is_name tag }
{
    matches!(tag, 0x20..=0x23)
}

// The tests of an edit that brings so many bytes, before it looks for the tag.
fn tested(room: &[u8], stated: usize, tag: u8, size: usize) -> Result<(), Refusal>
    ensures { result ≡ tested room.now stated tag size (Ok tt) }
{
    if room.len() < stated || !sheet::is_sheet(&room[..stated]) {
        return Err(Refusal::BadSheet);
    }
    if !is_name(tag) {
        return Err(Refusal::BadTag);
    }
    if MOST < size {
        return Err(Refusal::LongBody);
    }
    Ok(())
}

// What an edit that passes the tests finds.
fn look_up(room: &[u8], stated: usize, tag: u8, size: usize) -> Result<Found, Refusal>
    ensures { result ≡ tested room.now stated tag size (Ok (found_in room.now stated tag)) }
{
    tested(room, stated, tag, size)?;
    let rows = usize::from(room[0]);
    let span = sheet_steps::span_of(&room[..stated], rows, tag);
    let left = stated - (span.to - span.from) - sheet_steps::rows_size(span.past - span.row);
    Ok(Found { rows, span, left })
}

// A body for a tag: added, or put in the place of the one there. The new sheet's length.
pub fn set(room: &mut [u8], stated: usize, tag: u8, body: &[u8]) -> Result<usize, Refusal>
    ensures value { result ≡ edit_of room.old stated tag (some body.now) }
    ensures room_after { room.new ≡ room_after room.old stated tag (some body.now) }
{
    let Found { rows, span, left } = look_up(room, stated, tag, body.len())?;
    let length = left + body.len() + 4;
    if room.len() < length {
        return Err(Refusal::LongSheet);
    }
    let gone = span.past - span.row;
    let from = span.from - sheet_steps::rows_size(gone);
    sheet_steps::take_out(room, stated, rows, span);
    sheet_steps::put_in(room, left, rows - gone, span.row, from, tag, body);
    Ok(length)
}

// No body for a tag. The new sheet's length.
pub fn remove(room: &mut [u8], stated: usize, tag: u8) -> Result<usize, Refusal>
    ensures value { result ≡ edit_of room.old stated tag none }
    ensures room_after { room.new ≡ room_after room.old stated tag none }
{
    let Found { rows, span, left } = look_up(room, stated, tag, 0)?;
    sheet_steps::take_out(room, stated, rows, span);
    Ok(left)
}
