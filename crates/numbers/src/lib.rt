// Numbers in lent bytes, each in so many bytes, the low byte first.
#![tactic(auto)]

ghost use Rattle.std.specs.Prelude.{◌≡◌, ℕ, ◌+◌, ◌*◌, ◌^◌, ◌≤◌, ◌<◌, map, length, replicate};
ghost use Rattle.std.proofs.Common.{rules};
ghost use Rattle.std.proofs.lemmas.List.Edits.{sets};
ghost use Rattle.recent.specs.Fits.{Below};
ghost use Rattle.numbers.specs.Numbers.{number_bytes, numbers_bytes, number_at, numbers_at};

// A type of numbers that stand in bytes, each in the same width.
pub trait Number: Copy + Drop {
    ghost WIDTH: { ℕ };

    ghost value: { Self → ℕ };

    ghost of: { ℕ → Self };

    const WIDTH: usize;

    fn to_number(self) -> u64
        ensures { (result ≡ value self) × (result < 256 ^ WIDTH) };

    fn from_number(number: u64) -> Self
        requires { number < 256 ^ WIDTH }
        ensures { result ≡ of number };

    ghost narrow: { WIDTH ≤ 8 };
}

impl Number for u8 {
    ghost WIDTH = { 1 };

    ghost value = { λ x. x };

    ghost of = { λ n. n };

    const WIDTH: usize = 1;

    ghost narrow = { Prim.search rules };

    fn to_number(self) -> u64 {
        u64::from(self)
    }

    fn from_number(number: u64) -> u8 {
        number as u8
    }
}

impl Number for u16 {
    ghost WIDTH = { 2 };

    ghost value = { λ x. x };

    ghost of = { λ n. n };

    const WIDTH: usize = 2;

    ghost narrow = { Prim.search rules };

    fn to_number(self) -> u64 {
        u64::from(self)
    }

    fn from_number(number: u64) -> u16 {
        number as u16
    }
}

impl Number for u32 {
    ghost WIDTH = { 4 };

    ghost value = { λ x. x };

    ghost of = { λ n. n };

    const WIDTH: usize = 4;

    ghost narrow = { Prim.search rules };

    fn to_number(self) -> u64 {
        u64::from(self)
    }

    fn from_number(number: u64) -> u32 {
        number as u32
    }
}

impl Number for u64 {
    ghost WIDTH = { 8 };

    ghost value = { λ x. x };

    ghost of = { λ n. n };

    const WIDTH: usize = 8;

    ghost narrow = { Prim.search rules };

    fn to_number(self) -> u64 {
        self
    }

    fn from_number(number: u64) -> u64 {
        number
    }
}

// A number in n bytes from a place on.
pub fn put_number(part: &mut [u8], at: usize, n: usize, value: u64)
    requires { at + n ≤ length part.old }
    ensures { part.new ≡ sets part.old at (number_bytes n value) }
{
    let mut left = value;
    for i in 0..n {
        part[at + i] = (left % 256) as u8;
        left /= 256;
    }
}

// Numbers of one type from a place on.
pub fn put_numbers<T: Number>(part: &mut [u8], at: usize, values: &[T])
    requires { at + T.WIDTH * length values.now ≤ length part.old }
    ensures memory { part.new ≡ sets part.old at (numbers_bytes (replicate (length values.now) T.WIDTH) (map T.value values.now)) }
    ensures fit { Below (256 ^ T.WIDTH) (map T.value values.now) }
{
    let mut place = at;
    for value in values {
        put_number(part, place, T::WIDTH, value.to_number());
        place += T::WIDTH;
    }
}

// The number in n bytes at a place, at most 8.
pub fn number_of_width(part: &[u8], at: usize, n: usize) -> u64
    requires { (at + n ≤ length part.now) × (n ≤ 8) }
    ensures { (result ≡ number_at n part.now at) × (result < 256 ^ n) }
{
    let mut found: u64 = 0;
    for i in (0..n).rev() {
        found = (found << 8) + u64::from(part[at + i]);
    }
    found
}

// The number at a place.
pub fn number_at<T: Number>(part: &[u8], at: usize) -> T
    requires { at + T.WIDTH ≤ length part.now }
    ensures { result ≡ T.of (number_at T.WIDTH part.now at) }
{
    T::from_number(number_of_width(part, at, T::WIDTH))
}

// As many numbers as asked for, from a place on.
pub fn numbers_at<T: Number>(part: &[u8], at: usize, values: &mut [T])
    requires { at + T.WIDTH * length values.old ≤ length part.now }
    ensures { values.new ≡ map T.of (numbers_at (replicate (length values.old) T.WIDTH) part.now at) }
{
    let mut place = at;
    for value in values.iter_mut() {
        *value = number_at(part, place);
        place += T::WIDTH;
    }
}
