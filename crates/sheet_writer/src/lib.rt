// The writer of pack sheets: a body or none for each of the tags 20 to 23, laid into a lent room.
#![tactic(auto)]

ghost use Rattle.std.specs.Prelude.{◌≡◌, length};
ghost use Rattle.sheet_writer.specs.Writing.{given, entry_if, choice, short, sheet_wrote, sheet_room};
ghost use Rattle.sheet_writer.specs.Laying.{short_body, Place, Put};

use refusals::Refusal;

// Where the next row is written, and where the next body starts.
#[derive(Clone, Copy)]
struct Cursor {
    row: usize,
    end: usize,
}

// Whether a body, if there is one, has at most 32 bytes.
fn short_body(body: Option<&[u8]>) -> bool
    ensures { result ≡ short_body (given body.entry) }
{
    body.is_none_or(|body| body.len() <= 32)
}

// Whether each body that there is has at most 32 bytes.
fn all_short(
    body20: Option<&[u8]>,
    body21: Option<&[u8]>,
    body22: Option<&[u8]>,
    body23: Option<&[u8]>,
) -> bool
    ensures { result ≡ short (choice (given body20.entry) (given body21.entry) (given body22.entry) (given body23.entry)) }
{
    let lower = short_body(body20) & short_body(body21);
    let upper = short_body(body22) & short_body(body23);
    lower & upper
}

// How many bodies there are.
fn count_of(
    body20: Option<&[u8]>,
    body21: Option<&[u8]>,
    body22: Option<&[u8]>,
    body23: Option<&[u8]>,
) -> usize
    ensures { result ≡ length (choice (given body20.entry) (given body21.entry) (given body22.entry) (given body23.entry)) }
{
    let lower = usize::from(body20.is_some()) + usize::from(body21.is_some());
    let upper = usize::from(body22.is_some()) + usize::from(body23.is_some());
    lower + upper
}

// The row and the body of a tag, if it has one.
fn put_entry(room: &mut [u8], at: Cursor, tag: u8, body: Option<&[u8]>) -> Cursor
    requires { Place room.old at (entry_if tag (given body)) }
    ensures { Put room.old at (entry_if tag (given body.entry)) room.new result }
{
    let Some(body) = body else {
        return at;
    };
    let [low, high] = (at.end as u16).to_le_bytes();
    rooms::put_bytes(room, at.row, &[tag, body.len() as u8, low, high]);
    rooms::put_bytes(room, at.end, body);
    Cursor {
        row: at.row + 4,
        end: at.end + body.len(),
    }
}

// A sheet of the bodies that there are, at the front of the room.
pub fn write_sheet(
    room: &mut [u8],
    body20: Option<&[u8]>,
    body21: Option<&[u8]>,
    body22: Option<&[u8]>,
    body23: Option<&[u8]>,
) -> Result<usize, Refusal>
    ensures value { result ≡ sheet_wrote (choice (given body20.entry) (given body21.entry) (given body22.entry) (given body23.entry)) room.old }
    ensures room_after { room.new ≡ sheet_room (choice (given body20.entry) (given body21.entry) (given body22.entry) (given body23.entry)) room.old }
{
    if !all_short(body20, body21, body22, body23) || room.len() < 145 {
        return Err(Refusal::NoFit);
    }
    let n = count_of(body20, body21, body22, body23);
    room[0] = n as u8;
    let start = Cursor {
        row: 1,
        end: 1 + (n << 2),
    };
    let past20 = put_entry(room, start, 0x20, body20);
    let past21 = put_entry(room, past20, 0x21, body21);
    let past22 = put_entry(room, past21, 0x22, body22);
    let past23 = put_entry(room, past22, 0x23, body23);
    Ok(past23.end)
}
