// A reader walks a lent capture and remembers its row and place.
#![tactic(auto)]

ghost use Rattle.std.specs.Prelude.{◌≡◌};
ghost use Rattle.reader.specs.Reading.{start_of, step_of, body_of, body_start, after_of};

use capture::Step;
use refusals::Refusal;

#[derive(Clone, Copy)]
pub struct Reader<'a> {
    pub bytes: &'a [u8],
    pub row: usize,
    pub place: usize,
}

// A reader at the first row; of bytes that aren't a capture at place 0, where every step says so.
pub fn start<'a>(bytes: &'a [u8]) -> Reader<'a>
    ensures { result ≡ start_of bytes.entry }
{
    let place = match capture::open(bytes) {
        Ok(opened) => opened.place,
        Err(_) => 0,
    };
    Reader {
        bytes,
        row: 0,
        place,
    }
}

// The mark of the reader's row, with the next row and place; None at the end.
pub fn next<'a>(r: Reader<'a>) -> Result<Option<Step>, Refusal>
    ensures { result ≡ step_of r.entry }
{
    capture::step_at(r.bytes, r.row, r.place)
}

// The body of the reader's row: a part of the capture, of no bytes at its front where there is no such row.
pub fn body<'a>(r: Reader<'a>) -> &'a [u8]
    ensures result_value { result.now ≡ body_of r.entry }
    ensures ref_ptr_value { result.ref_ptr ≡ body_start r.entry }
{
    capture::body_at(r.bytes, r.row, r.place)
}

// The reader at the next row; at the end, where it was.
pub fn after<'a>(r: Reader<'a>) -> Reader<'a>
    ensures { result ≡ after_of r.entry }
{
    match next(r) {
        Ok(Some(step)) => Reader {
            bytes: r.bytes,
            row: step.row,
            place: step.place,
        },
        _ => r,
    }
}
