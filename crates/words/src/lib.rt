// 16-bit words: their two bytes and their sign. Only our own crates call these.
#![tactic(auto)]

ghost use Rattle.std.specs.Prelude.{◌≡◌, ◌≤◌};
ghost use Rattle.std.specs.Int.{w16};
ghost use Rattle.std.proofs.Common.{of_z};
ghost use Rattle.words.specs.Words.{low_of, high_of, joined, above, below, size_of};

pub fn low(w: u16) -> u8
    ensures { result ≡ low_of w }
{
    w.to_le_bytes()[0]
}

pub fn high(w: u16) -> u8
    ensures { result ≡ high_of w }
{
    w.to_le_bytes()[1]
}

pub fn join(low: u8, high: u8) -> u16
    ensures { result ≡ joined low high }
{
    u16::from_le_bytes([low, high])
}

// The word that a signed number is kept as.
pub fn kept(i: i16) -> u16
    ensures { result ≡ of_z w16 i }
{
    i.cast_unsigned()
}

pub fn rises(w: u16) -> bool
    ensures { result ≡ above w }
{
    w.cast_signed().is_positive()
}

pub fn falls(w: u16) -> bool
    ensures { result ≡ below w }
{
    w.cast_signed().is_negative()
}

pub fn size(w: u16) -> u32
    ensures is { result ≡ size_of w }
    ensures small { result ≤ 32768 }
{
    u32::from(w.cast_signed().unsigned_abs())
}
