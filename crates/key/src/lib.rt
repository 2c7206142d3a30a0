// Pack keys: what bytes are one, and how they are read (document 01, "Key").
#![tactic(auto)]

ghost use Rattle.std.specs.Prelude.{◌≡◌, ◌+◌, ◌≤◌, length, drop};
ghost use Rattle.key.specs.Key.{digit_of, word_of, words_of, read_key, read_of, found_of, maker_of, device_of, device_start};
ghost use Rattle.rooms.specs.Rooms.{further};

use names::stroke;
use refusals::Refusal;

// The words of a key.
#[derive(Clone, Copy)]
pub struct Read {
    pub date: u16,
    pub serial: u16,
}

// The words of a key, and where its names stand.
#[derive(Clone, Copy)]
pub struct Found {
    pub maker_end: usize,
    pub device_start: usize,
    pub device_end: usize,
    pub date: u16,
    pub serial: u16,
}

// The number that a lower-case hexadecimal digit stands for.
fn digit_value(c: u8) -> Option<u16>
    ensures { result ≡ digit_of c }
{
    match c {
        b'0'..=b'9' => Some(u16::from(c - b'0')),
        b'a'..=b'f' => Some(u16::from(c - b'a' + 10)),
        _ => None,
    }
}

// The number that four digits at a place stand for.
fn word(key: &[u8], at: usize) -> Option<u16>
    requires { at + 4 ≤ length key.now }
    ensures { result ≡ word_of (drop at key.now) }
{
    let a = digit_value(key[at])?;
    let b = digit_value(key[at + 1])?;
    let c = digit_value(key[at + 2])?;
    let d = digit_value(key[at + 3])?;
    Some((a << 12) + (b << 8) + (c << 4) + d)
}

// From a place on there are four digits, 2F, four digits, and no byte more.
fn both_words(key: &[u8], at: usize) -> Option<Read>
    requires { at ≤ length key.now }
    ensures { result ≡ words_of (drop at key.now) }
{
    if key.len() - at != 9 {
        return None;
    }
    let date = word(key, at)?;
    if key[at + 4] != b'/' {
        return None;
    }
    let serial = word(key, at + 5)?;
    Some(Read { date, serial })
}

// The words of a key, and where its names stand, still escaped.
pub fn find(key: &[u8]) -> Result<Found, Refusal>
    ensures { result ≡ found_of (read_key key.now) }
{
    let maker_end = stroke(key, 0).ok_or(Refusal::NotAKey)?;
    let device_start = maker_end + 1;
    let device_end = stroke(key, device_start).ok_or(Refusal::NotAKey)?;
    let Read { date, serial } = both_words(key, device_end + 1).ok_or(Refusal::NotAKey)?;
    Ok(Found {
        maker_end,
        device_start,
        device_end,
        date,
        serial,
    })
}

// The date and the serial of a key.
pub fn read_key(key: &[u8]) -> Result<Read, Refusal>
    ensures { result ≡ read_of (read_key key.now) }
{
    let Found { date, serial, .. } = find(key)?;
    Ok(Read { date, serial })
}

// The maker, still escaped: the part of the key from its first byte on, of no bytes where the bytes aren't a key.
pub fn maker_part(key: &[u8]) -> &[u8]
    ensures result_value { result.now ≡ maker_of (read_key key.now) }
    ensures ref_ptr_value { result.ref_ptr ≡ key.entry.ref_ptr }
{
    match find(key) {
        Ok(found) => &key[..found.maker_end],
        Err(_) => &key[..0],
    }
}

// The device name, still escaped: the part of the key past the maker's 2F; where the bytes aren't a key no bytes at their front.
pub fn device_part(key: &[u8]) -> &[u8]
    ensures result_value { result.now ≡ device_of (read_key key.now) }
    ensures ref_ptr_value { result.ref_ptr ≡ further (device_start (read_key key.now)) key.entry.ref_ptr }
{
    match find(key) {
        Ok(found) => &key[found.device_start..found.device_end],
        Err(_) => &key[..0],
    }
}
