// The writer of pack keys: escape before you join (document 01, "Key").
#![tactic(auto)]

ghost use Rattle.std.specs.Prelude.{◌≡◌, ◌+◌, ◌*◌, ◌<◌, ◌≤◌, length};
ghost use Rattle.std.proofs.lemmas.List.Edits.{sets};
ghost use Rattle.names.specs.Names.{escape, escape_byte};
ghost use Rattle.key.specs.Key.{hex_digit, hex_word};
ghost use Rattle.key_writer.specs.Writing.{key_wrote, key_room};

use names::is_marked;
use refusals::Refusal;

// The byte as a key has it, written at a place.
fn put_byte(b: u8, room: &mut [u8], at: usize) -> usize
    requires { at + 2 ≤ length room.old }
    ensures value { result ≡ at + length (escape_byte b) }
    ensures room_after { room.new ≡ sets room.old at (escape_byte b) }
{
    if is_marked(b) {
        room[at] = b'\\';
        room[at + 1] = b;
        return at + 2;
    }
    room[at] = b;
    at + 1
}

// A name as a key has it, written from a place on.
fn put_name(name: &[u8], room: &mut [u8], at: usize) -> usize
    requires { at + 2 * length name.now ≤ length room.old }
    ensures value { result ≡ at + length (escape name.now) }
    ensures room_after { room.new ≡ sets room.old at (escape name.now) }
    ensures lower_bound { (at ≤ result) × (result ≤ at + 2 * length name.now) }
{
    let mut o = at;
    for b in name {
        o = put_byte(*b, room, o);
    }
    o
}

fn digit(n: u16) -> u8
    requires { n < 16 }
    ensures { result ≡ hex_digit n }
{
    let n = n as u8;
    if n < 10 { b'0' + n } else { b'a' - 10 + n }
}

// A word as four digits, written at a place.
fn put_word(w: u16, room: &mut [u8], at: usize)
    requires { at + 4 ≤ length room.old }
    ensures { room.new ≡ sets room.old at (hex_word w) }
{
    room[at] = digit(w / 4096);
    room[at + 1] = digit(w / 256 % 16);
    room[at + 2] = digit(w / 16 % 16);
    room[at + 3] = digit(w % 16);
}

// The key of four parts, at the front of the room; its length.
pub fn write_key(
    maker: &[u8],
    device: &[u8],
    date: u16,
    serial: u16,
    room: &mut [u8],
) -> Result<usize, Refusal>
    ensures value { result ≡ key_wrote maker.now device.now date serial room.old }
    ensures room_after { room.new ≡ key_room maker.now device.now date serial room.old }
{
    if maker.len() > 32 || device.len() > 32 || room.len() < 139 {
        return Err(Refusal::NoFit);
    }
    let a = put_name(maker, room, 0);
    room[a] = b'/';
    let b = put_name(device, room, a + 1);
    room[b] = b'/';
    put_word(date, room, b + 1);
    room[b + 5] = b'/';
    put_word(serial, room, b + 6);
    Ok(b + 10)
}
