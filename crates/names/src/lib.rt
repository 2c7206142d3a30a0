// A name as a key has it, escaped: how it is read, and read back plain (document 01, "Key").
#![tactic(auto)]

ghost use Rattle.std.specs.Prelude.{◌≡◌, ◌-◌, ◌<◌, ◌≤◌, length, drop};
ghost use Rattle.std.proofs.lemmas.List.Edits.{sets};
ghost use Rattle.names.specs.Names.{marked, escape, read_plain, read_escaped, name_in, plain_wrote, plain_room};
ghost use Rattle.names.specs.Steps.{number_of, ending_of, stroke_of, plain_of, past_mark};

use refusals::Refusal;

// How the reading of a name ends.
#[derive(Clone, Copy)]
enum Ending {
    // a bare 2F ends it, at this place
    Stopped(usize),
    // the last byte ends it, after so many bytes of the name
    Ended(usize),
    // a bad escape, or over 32 bytes
    Bad,
}

// A byte that a name has escaped.
pub fn is_marked(b: u8) -> bool
    ensures { result ≡ marked b }
{
    matches!(b, b'/' | b'\\')
}

// Plain reading from a place on, after n bytes of the name. The answer is one number, of which `number_of` says what it
// means: from calls that answer an `Ending` of two words LLVM makes no loop.
#[cycle(escaped_plain)]
fn plain(key: &[u8], at: usize, n: usize) -> usize
    requires { n ≤ 32 }
    ensures { result ≡ number_of (read_plain (drop at key.now)) at n (length key.now) }
{
    match key.get(at) {
        None => key.len() + 1 + n,
        Some(b'/') => at,
        // a 33rd byte, which no name of a key has: reading calls itself no deeper
        Some(_) if n == 32 => key.len(),
        Some(b'\\') => escaped(key, at + 1, n),
        Some(_) => plain(key, at + 1, n + 1),
    }
}

// The escape rule: the one byte that the mark before it hands on, then plain reading.
#[cycle(escaped_plain)]
fn escaped(key: &[u8], at: usize, n: usize) -> usize
    requires at_nonzero { 0 < at }
    requires n_bound { n < 32 }
    ensures { result ≡ number_of (read_escaped (drop at key.now)) (at - 1) n (length key.now) }
{
    match key.get(at) {
        Some(b'/' | b'\\') => plain(key, at + 1, n + 1),
        _ => key.len(),
    }
}

// How the reading of a name from a place on ends: the number read back.
fn read_from(key: &[u8], from: usize) -> Ending
    ensures { result ≡ ending_of (read_plain (drop from key.now)) from 0 }
{
    let number = plain(key, from, 0);
    if number < key.len() {
        return Ending::Stopped(number);
    }
    if number == key.len() {
        return Ending::Bad;
    }
    Ending::Ended(number - key.len() - 1)
}

// Where a name of up to 32 bytes, read from a place on, ends at a 2F.
pub fn stroke(key: &[u8], from: usize) -> Option<usize>
    ensures { result ≡ stroke_of (read_plain (drop from key.now)) from }
{
    match read_from(key, from) {
        Ending::Stopped(at) => Some(at),
        Ending::Ended(_) | Ending::Bad => None,
    }
}

// The place of the byte that an escape mark at a place hands on, or that place.
fn past_mark(part: &[u8], at: usize) -> usize
    requires { at < length part.now }
    ensures { result ≡ past_mark part.now at }
{
    if part[at] == b'\\' { at + 1 } else { at }
}

// The plain name of n bytes, written at the front of the room.
fn put_plain(part: &[u8], n: usize, room: &mut [u8])
    requires part_value { part.now ≡ escape (plain_of part.now) }
    requires n_value { n ≡ length (plain_of part.now) }
    requires n_in_bounds { n ≤ length room.old }
    ensures { room.new ≡ sets room.old 0 (plain_of part.now) }
{
    let mut i = 0;
    for byte in &mut room[..n] {
        i = past_mark(part, i);
        *byte = part[i];
        i += 1;
    }
}

// A name still escaped, written plain at the front of the room; how many bytes it has.
pub fn unescape(part: &[u8], room: &mut [u8]) -> Result<usize, Refusal>
    ensures value { result ≡ plain_wrote (name_in part.now) room.old }
    ensures room_after { room.new ≡ plain_room (name_in part.now) room.old }
{
    let Ending::Ended(n) = read_from(part, 0) else {
        return Err(Refusal::NotAKey);
    };
    if room.len() < n {
        return Err(Refusal::NoFit);
    }
    put_plain(part, n, room);
    Ok(n)
}
