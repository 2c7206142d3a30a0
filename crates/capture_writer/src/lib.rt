// The writer of captures, for tools and tests.
#![tactic(auto)]

ghost use Rattle.std.specs.Prelude.{◌≡◌, ◌*◌, ◌<◌, length};
ghost use Rattle.std.proofs.lemmas.List.Edits.{sets};
ghost use Rattle.capture_writer.specs.Writer.{interleaved, given_fit, capture_allowed, capture_wrote, capture_room};

use refusals::Refusal;
use rooms::put_bytes;

// No row's body is longer.
const LONGEST: u8 = 37;

// Whether marks, lengths and joined bodies are rows that a capture can have.
fn fit(marks: &[u8], lengths: &[u8], bodies: &[u8]) -> bool
    ensures { result ≡ given_fit marks.now lengths.now bodies.now }
{
    if marks.len() != lengths.len() || 255 < marks.len() {
        return false;
    }
    let mut total = 0;
    for (mark, length) in marks.iter().zip(lengths) {
        if 1 < *mark || LONGEST < *length {
            return false;
        }
        total += usize::from(*length);
    }
    total == bodies.len()
}

// Whether the rows that are given can be written into a room of so many bytes.
fn allowed(room: usize, marks: &[u8], lengths: &[u8], bodies: &[u8]) -> Result<(), Refusal>
    ensures { result ≡ capture_allowed marks.now lengths.now bodies.now room }
{
    // A first byte stands before the marks, the lengths and the bodies.
    let asked = marks
        .len()
        .saturating_add(lengths.len())
        .saturating_add(bodies.len());
    if room <= asked {
        return Err(Refusal::SmallRoom);
    }
    if !fit(marks, lengths, bodies) {
        return Err(Refusal::NotACapture);
    }
    Ok(())
}

// The rows of mark and length, from the room's second byte on.
fn put_rows(marks: &[u8], lengths: &[u8], room: &mut [u8])
    requires { (length lengths.now ≡ length marks.now) × (2 * length marks.now < length room.old) }
    ensures { room.new ≡ sets room.old 1 (interleaved marks.now lengths.now) }
{
    let mut at = 1;
    for (mark, length) in marks.iter().zip(lengths) {
        room[at] = *mark;
        room[at + 1] = *length;
        at += 2;
    }
}

// The capture of the rows that marks, lengths and the joined bodies give, at the room's front. Three slices and not a
// slice of rows: so a caller needs no struct, and counts that differ are answered.
pub fn write_capture(
    marks: &[u8],
    lengths: &[u8],
    bodies: &[u8],
    room: &mut [u8],
) -> Result<usize, Refusal>
    ensures value { result ≡ capture_wrote marks.now lengths.now bodies.now room.old }
    ensures room_after { room.new ≡ capture_room marks.now lengths.now bodies.now room.old }
{
    allowed(room.len(), marks, lengths, bodies)?;
    let n = marks.len();
    let place = (n << 1) + 1;
    room[0] = n as u8;
    put_rows(marks, lengths, room);
    put_bytes(room, place, bodies);
    Ok(place + bodies.len())
}
