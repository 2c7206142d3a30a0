// Moves of bytes within one lent room, each the room as it was with one `sets`. Only our own crates call these.
#![tactic(auto)]

ghost use Rattle.std.specs.Prelude.{◌≡◌, ◌+◌, ◌-◌, ◌≤◌, length, replicate};
ghost use Rattle.std.proofs.lemmas.List.Edits.{sets};
ghost use Rattle.std.proofs.Math.Seq.{slice};
ghost use Rattle.moves.specs.Moves.{cut_out, inserted};

// The bytes from..to move up by `by`.
pub fn move_up(room: &mut [u8], from: usize, to: usize, by: usize)
    requires { (from ≤ to) × (to + by ≤ length room.old) }
    ensures { room.new ≡ sets room.old (from + by) (slice from to room.old) }
{
    room.copy_within(from..to, from + by);
}

// The bytes from..to move down by `by`.
pub fn move_down(room: &mut [u8], from: usize, to: usize, by: usize)
    requires { (by ≤ from) × (from ≤ to) × (to ≤ length room.old) }
    ensures { room.new ≡ sets room.old (from - by) (slice from to room.old) }
{
    room.copy_within(from..to, from - by);
}

// The bytes from..to become 0.
pub fn fill_zero(room: &mut [u8], from: usize, to: usize)
    requires { (from ≤ to) × (to ≤ length room.old) }
    ensures { room.new ≡ sets room.old from (replicate (to - from) 0) }
{
    room[from..to].fill(0);
}

// Of the first `end` bytes, `by` go at `at`: those after them close up, and zeros take the place that is freed.
pub fn cut(room: &mut [u8], end: usize, at: usize, by: usize)
    requires { (at + by ≤ end) × (end ≤ length room.old) }
    ensures { room.new ≡ cut_out room.old end at by }
{
    move_down(room, at + by, end, by);
    fill_zero(room, end - by, end);
}

// Into the first `end` bytes, bytes come in at `at`: those from there on move up.
pub fn insert(room: &mut [u8], end: usize, at: usize, bytes: &[u8])
    requires { (at ≤ end) × (end + length bytes.now ≤ length room.old) }
    ensures { room.new ≡ inserted room.old end at bytes.now }
{
    move_up(room, at, end, bytes.len());
    rooms::put_bytes(room, at, bytes);
}
