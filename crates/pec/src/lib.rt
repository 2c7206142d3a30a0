// SMBus packet error codes: CRC-8 of x^8 + x^2 + x + 1, start 0, high bit first.
#![tactic(auto)]

ghost use Rattle.std.specs.Prelude.{◌≡◌, ◌≤◌, length};
ghost use Rattle.pec.specs.Pec.{byte_step, pec_from, pec_of};
ghost use Rattle.pec.specs.Table.{Remainders};
ghost use Rattle.pec.specs.Messages.{exchange_check, bits_apart, bit_comparison};

use refusals::Refusal;

// The fewest bytes of an exchange: one and its PEC.
const SHORTEST: usize = 2;

// The most bytes of an exchange: 16, command, 17, count, 32 bytes and PEC.
const LONGEST: usize = 37;

// The remainder of each byte.
const TABLE: [u8; 256] = *b"\x00\x07\x0e\x09\x1c\x1b\x12\x15\x38\x3f\x36\x31\x24\x23\x2a\x2d\
    \x70\x77\x7e\x79\x6c\x6b\x62\x65\x48\x4f\x46\x41\x54\x53\x5a\x5d\
    \xe0\xe7\xee\xe9\xfc\xfb\xf2\xf5\xd8\xdf\xd6\xd1\xc4\xc3\xca\xcd\
    \x90\x97\x9e\x99\x8c\x8b\x82\x85\xa8\xaf\xa6\xa1\xb4\xb3\xba\xbd\
    \xc7\xc0\xc9\xce\xdb\xdc\xd5\xd2\xff\xf8\xf1\xf6\xe3\xe4\xed\xea\
    \xb7\xb0\xb9\xbe\xab\xac\xa5\xa2\x8f\x88\x81\x86\x93\x94\x9d\x9a\
    \x27\x20\x29\x2e\x3b\x3c\x35\x32\x1f\x18\x11\x16\x03\x04\x0d\x0a\
    \x57\x50\x59\x5e\x4b\x4c\x45\x42\x6f\x68\x61\x66\x73\x74\x7d\x7a\
    \x89\x8e\x87\x80\x95\x92\x9b\x9c\xb1\xb6\xbf\xb8\xad\xaa\xa3\xa4\
    \xf9\xfe\xf7\xf0\xe5\xe2\xeb\xec\xc1\xc6\xcf\xc8\xdd\xda\xd3\xd4\
    \x69\x6e\x67\x60\x75\x72\x7b\x7c\x51\x56\x5f\x58\x4d\x4a\x43\x44\
    \x19\x1e\x17\x10\x05\x02\x0b\x0c\x21\x26\x2f\x28\x3d\x3a\x33\x34\
    \x4e\x49\x40\x47\x52\x55\x5c\x5b\x76\x71\x78\x7f\x6a\x6d\x64\x63\
    \x3e\x39\x30\x37\x22\x25\x2c\x2b\x06\x01\x08\x0f\x1a\x1d\x14\x13\
    \xae\xa9\xa0\xa7\xb2\xb5\xbc\xbb\x96\x91\x98\x9f\x8a\x8d\x84\x83\
    \xde\xd9\xd0\xd7\xc2\xc5\xcc\xcb\xe6\xe1\xe8\xef\xfa\xfd\xf4\xf3";

// The remainder of a byte, by the table's rule.
fn entry(table: &[u8; 256], b: u8) -> u8
    requires { Remainders table.now }
    ensures { result ≡ byte_step b }
{
    table[usize::from(b)]
}

// What stands after more bytes: so a PEC runs over several pieces that are not joined.
pub fn pec_from(start: u8, s: &[u8]) -> u8
    ensures { result ≡ pec_from start s.now }
{
    // Copied once: a constant array is made anew wherever it is read.
    let table = TABLE;
    let mut acc = start;
    for b in s {
        acc = entry(&table, acc ^ *b);
    }
    acc
}

// The PEC of a message.
pub fn pec(s: &[u8]) -> u8
    ensures { result ≡ pec_of s.now }
{
    pec_from(0, s)
}

// The exchange check of what a reader sent followed by what it heard: whether the message is right.
pub fn exchange_check(s: &[u8]) -> Result<bool, Refusal>
    ensures { result ≡ exchange_check s.now }
{
    let n = s.len();
    if !(SHORTEST..=LONGEST).contains(&n) {
        return Err(Refusal::WrongLength);
    }
    let last = n - 1;
    Ok(s[last] == pec(&s[..last]))
}

// The bit comparison of two messages: in how many bits they differ.
pub fn bit_comparison(a: &[u8], b: &[u8]) -> Result<u32, Refusal>
    ensures { result ≡ bit_comparison a.now b.now }
{
    let n = a.len();
    if n != b.len() || n > LONGEST {
        return Err(Refusal::WrongLength);
    }
    Ok(bits_apart(a, b))
}

// The ones of the exclusive or, byte by byte, summed.
fn bits_apart(a: &[u8], b: &[u8]) -> u32
    requires { (length a.now ≡ length b.now) × (length a.now ≤ 37) }
    ensures { result ≡ bits_apart a.now b.now }
{
    // By index: the library's zip and sum bring products that tools/wide-multiply refuses.
    let mut sum = 0;
    for (i, x) in a.iter().enumerate() {
        sum += (*x ^ b[i]).count_ones();
    }
    sum
}
