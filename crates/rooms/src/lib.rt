// Bytes in a lent room: what every reader and writer of bytes needs. Only our own crates call these.
#![tactic(auto)]

ghost use Rattle.std.specs.Prelude.{◌≡◌, ◌+◌, ◌*◌, ◌<◌, ◌≤◌, length};
ghost use Rattle.std.proofs.lemmas.List.Edits.{sets};

// A place kept in two bytes, low first.
pub fn offset(low: u8, high: u8) -> usize
    ensures { (result ≡ low + 256 * high) × (result < 65536) }
{
    usize::from(u16::from_le_bytes([low, high]))
}

// Bytes from a place of the room on.
pub fn put_bytes(room: &mut [u8], at: usize, bytes: &[u8])
    requires { at + length bytes.now ≤ length room.old }
    ensures { room.new ≡ sets room.old at bytes.now }
{
    room[at..at + bytes.len()].copy_from_slice(bytes);
}
