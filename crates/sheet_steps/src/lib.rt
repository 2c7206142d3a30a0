// The steps of an edit, each within the room that holds the sheet. Only our own crates call these.
#![tactic(auto)]

ghost use Rattle.std.specs.Prelude.{◌≡◌, ◌+◌, ◌*◌, ◌<◌, ◌≤◌, length, get_or};
ghost use Rattle.sheet_steps.specs.Steps.{count_below, place_in, span_in, laid, taken_out, put_in};

// The rows with a tag, one or none, from the first to past the last, and their bodies.
#[derive(Clone, Copy)]
pub struct Span {
    pub row: usize,
    pub past: usize,
    pub from: usize,
    pub to: usize,
}

// How many bytes so many rows have.
pub fn rows_size(rows: usize) -> usize
    requires { rows ≤ 6 }
    ensures { result ≡ 4 * rows }
{
    rows << 2
}

// How many of n rows have tags below `tag`.
fn count(sheet: &[u8], n: usize, tag: u8) -> usize
    requires { (1 + 4 * n ≤ length sheet.now) × (n ≤ 6) }
    ensures { result ≡ count_below n sheet.now 1 tag }
{
    let mut below = 0;
    for i in 0..n {
        below += usize::from(sheet[1 + (i << 2)] < tag);
    }
    below
}

// Where the body of row k starts; past the last, where the sheet ends.
fn place(sheet: &[u8], n: usize, k: usize) -> usize
    requires { (1 + 4 * n ≤ length sheet.now) × (n ≤ 6) }
    ensures { result ≡ place_in sheet.now n k }
{
    if k < n {
        let at = 1 + (k << 2);
        rooms::offset(sheet[at + 2], sheet[at + 3])
    } else {
        sheet.len()
    }
}

// The span of a tag in a sheet of n rows.
pub fn span_of(sheet: &[u8], n: usize, tag: u8) -> Span
    requires { (1 + 4 * n ≤ length sheet.now) × (n ≤ 6) × (tag < 255) }
    ensures { result ≡ span_in sheet.now n tag }
{
    let row = count(sheet, n, tag);
    let past = count(sheet, n, tag + 1);
    let from = place(sheet, n, row);
    let to = place(sheet, n, past);
    Span {
        row,
        past,
        from,
        to,
    }
}

// New offsets for n rows: each body starts where the one before ends.
fn lay(room: &mut [u8], n: usize)
    requires { (1 + 4 * n ≤ length room.old) × (n ≤ 6) }
    ensures { room.new ≡ laid n room.old }
{
    let mut end = 1 + rows_size(n);
    for i in 0..n {
        let at = 1 + (i << 2);
        let size = usize::from(room[at + 1]);
        rooms::put_bytes(room, at + 2, &(end as u16).to_le_bytes());
        end += size;
    }
}

// Of a sheet of n rows in the first `size` bytes, a span goes.
pub fn take_out(room: &mut [u8], size: usize, n: usize, span: Span)
    requires n_bound { (1 + 4 * n ≤ span.from) × (span.from ≤ span.to) × (span.to ≤ size) × (size ≤ length room.old) }
    requires row_le_past { (span.row ≤ span.past) × (span.past ≤ n) × (n ≤ 6) × (n ≤ get_or room.old 0 0) }
    ensures { room.new ≡ taken_out room.old size n span }
{
    let bytes = span.to - span.from;
    let rows = span.past - span.row;
    let first = room[0] - rows as u8;
    moves::cut(room, size, span.from, bytes);
    moves::cut(room, size - bytes, 1 + rows_size(span.row), rows_size(rows));
    room[0] = first;
    lay(room, n - rows);
}

// Into a sheet of n rows in the first `size` bytes a body comes at `from`, and its row as row `row`.
pub fn put_in(room: &mut [u8], size: usize, n: usize, row: usize, from: usize, tag: u8, body: &[u8])
    requires n_bound { (1 + 4 * n ≤ from) × (from ≤ size) × (size + length body.now + 4 ≤ length room.old) × (length body.now ≤ 32) }
    requires row_le_n { (row ≤ n) × (n ≤ 5) × (get_or room.old 0 0 < 255) }
    ensures { room.new ≡ put_in room.old size n row from tag body.now }
{
    let first = room[0] + 1;
    let bytes = body.len();
    let line = [tag, bytes as u8, 0, 0];
    moves::insert(room, size, from, body);
    moves::insert(room, size + bytes, 1 + rows_size(row), &line);
    room[0] = first;
    lay(room, n + 1);
}
