// Pack sheets: the test for one, and the block names that two sheets give.
#![tactic(auto)]

ghost use Rattle.std.specs.Prelude.{◌≡◌, true, ◌+◌, ◌*◌, ◌<◌, ◌≤◌, length};
ghost use Rattle.sheet.specs.Sheet.{old, allows, row_ok, is_sheet};
ghost use Rattle.sheet.specs.Block.{find_in, located_of, part_of, place_of, block_of, block_answer};

use refusals::Refusal;

// Where the body of a tag lies in a sheet: from its first byte to past its last.
#[derive(Clone, Copy)]
struct Span {
    start: usize,
    end: usize,
}

// Where a block name lies: whether in the factory sheet, from its first byte to past its last.
#[derive(Clone, Copy)]
pub struct Located {
    pub factory: bool,
    pub start: usize,
    pub end: usize,
}

// Whether a tag may be listed with a body of some length.
fn allowed(tag: u8, length: u8) -> bool
    ensures { result ≡ allows old.kinds tag length }
{
    match tag {
        0x20..=0x23 => length <= 32,
        _ => false,
    }
}

// Whether the row that starts at `at` may stand where the tags from `low` on are free and the body before it ends at `end`.
fn row_ok(s: &[u8], at: usize, low: usize, end: usize) -> bool
    requires { at + 4 ≤ length s.now }
    ensures { result ≡ row_ok old.kinds s.now at low end }
{
    low <= usize::from(s[at])
        && allowed(s[at], s[at + 1])
        && rooms::offset(s[at + 2], s[at + 3]) == end
}

// Whether bytes are a sheet.
pub fn is_sheet(bytes: &[u8]) -> bool
    ensures { result ≡ is_sheet bytes.now }
{
    let size = bytes.len();
    let Some(&rows) = bytes.first() else {
        return false;
    };
    let n = usize::from(rows);
    let first = 1 + (n << 2);
    if 4 < n || size < first {
        return false;
    }
    let mut low = 0;
    let mut end = first;
    for i in 0..n {
        let at = 1 + (i << 2);
        if !row_ok(bytes, at, low, end) {
            return false;
        }
        low = usize::from(bytes[at]) + 1;
        end += usize::from(bytes[at + 1]);
    }
    end == size
}

// Where a sheet has the body of a tag.
fn find(sheet: &[u8], tag: u8) -> Option<Span>
    requires { is_sheet sheet.now ≡ true }
    ensures { result ≡ find_in sheet.now tag }
{
    for i in 0..usize::from(sheet[0]) {
        let at = 1 + (i << 2);
        if sheet[at] == tag {
            let start = rooms::offset(sheet[at + 2], sheet[at + 3]);
            let end = start + usize::from(sheet[at + 1]);
            return Some(Span { start, end });
        }
    }
    None
}

// The part of the two sheets that is the block name of a tag.
pub fn locate(service: &[u8], factory: &[u8], tag: u8) -> Result<Located, Refusal>
    ensures { result ≡ located_of service.now factory.now tag }
{
    block_answer(service, factory)?;
    if let Some(Span { start, end }) = find(service, tag) {
        return Ok(Located {
            factory: false,
            start,
            end,
        });
    }
    let Span { start, end } = find(factory, tag).unwrap_or(Span { start: 0, end: 0 });
    Ok(Located {
        factory: true,
        start,
        end,
    })
}

// Whether two sheets have block names: refused where one is bad.
pub fn block_answer(service: &[u8], factory: &[u8]) -> Result<(), Refusal>
    ensures { result ≡ block_answer service.now factory.now }
{
    if is_sheet(service) && is_sheet(factory) {
        Ok(())
    } else {
        Err(Refusal::BadSheet)
    }
}

// The block name of a tag, as a part of the sheet that it comes from.
pub fn block<'a>(service: &'a [u8], factory: &'a [u8], tag: u8) -> &'a [u8]
    ensures result_value { result.now ≡ block_of service.now factory.now tag }
    ensures ref_ptr_value { result.ref_ptr ≡ place_of (part_of service.now factory.now tag) service.entry.ref_ptr factory.entry.ref_ptr }
{
    match locate(service, factory, tag) {
        Ok(part) if part.factory => &factory[part.start..part.end],
        Ok(part) => &service[part.start..part.end],
        Err(_) => &factory[..0],
    }
}
