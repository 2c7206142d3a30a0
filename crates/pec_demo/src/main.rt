// The check byte of a message that is given as hex bytes: all arguments form one message, and an argument may hold several
// bytes. With no argument, worked examples 1 to 4.
#![tactic(auto)]

ghost use Rattle.std.specs.Prelude.{◌≡◌, ◌<◌, IfSome};
ghost use Rattle.pec.specs.Pec.{pec_from};
ghost use Rattle.pec_demo.specs.Hex.{value_of, all_digits, fault_of, byte_of, bytes_of};

use std::env::FillError;
use std::rt::Env;
use std::{fmt, io};

// What is wrong with an argument.
#[derive(Clone, Copy)]
enum Fault {
    TooLong,
    NoDigit,
    OddDigits,
}

impl fmt::Display for Fault {
    fn fmt<W: fmt::Write>(&self, f: &mut fmt::Formatter<W>) -> fmt::Result {
        match self {
            Fault::TooLong => write!(f, "is too long"),
            Fault::NoDigit => write!(f, "has a character that is no hex digit"),
            Fault::OddDigits => write!(f, "has an odd number of hex digits"),
        }
    }
}

// The value of a hex digit.
fn value(c: u8) -> Option<u8>
    ensures is { result ≡ value_of c }
    ensures small { IfSome result (λ v. v < 16) }
{
    match c {
        b'0'..=b'9' => Some(c - b'0'),
        b'A'..=b'F' => Some(c - b'A' + 10),
        b'a'..=b'f' => Some(c - b'a' + 10),
        _ => None,
    }
}

fn all_digits(text: &[u8]) -> bool
    ensures { result ≡ all_digits text.now }
{
    text.iter().all(|c| value(*c).is_some())
}

// Whether a text is hex.
fn check(text: &[u8]) -> Result<(), Fault>
    ensures { result ≡ fault_of text.now }
{
    if !all_digits(text) {
        return Err(Fault::NoDigit);
    }
    if text.len() % 2 == 1 {
        return Err(Fault::OddDigits);
    }
    Ok(())
}

fn byte(high: u8, low: u8) -> u8
    ensures { result ≡ byte_of high low }
{
    value(high).unwrap_or(0) * 16 + value(low).unwrap_or(0)
}

// The PEC after the bytes of a text.
fn pec_of_text(start: u8, text: &[u8]) -> u8
    ensures { result ≡ pec_from start (bytes_of text.now) }
{
    let mut acc = start;
    for pair in text.chunks_exact(2) {
        acc = pec::pec_from(acc, &[byte(pair[0], pair[1])]);
    }
    acc
}

fn print_bytes(rt: &impl Print, text: &[u8]) -> io::Result<()> {
    for pair in text.chunks_exact(2) {
        print!(rt; "{:02x} ", byte(pair[0], pair[1]))?;
    }
    Ok(())
}

fn print_pec(rt: &impl Print, acc: u8) -> io::Result<()> {
    println!(rt; "-> {acc:02x}")
}

fn example(rt: &impl Print, text: &[u8]) -> io::Result<()> {
    print_bytes(rt, text)?;
    print_pec(rt, pec_of_text(0, text))
}

fn examples(rt: &impl Print) -> io::Result<()> {
    print!(rt; "no bytes ")?;
    example(rt, b"")?;
    example(rt, b"1680174d000100")?;
    example(rt, b"160917d039")?;
    example(rt, b"16020a00")
}

// How many arguments there are, the program's name among them.
fn arg_count(rt: &impl Env) -> usize {
    for i in 0..usize::MAX {
        if let Err(FillError::NotPresent) = rt.arg(i, &mut []) {
            return i;
        }
    }
    usize::MAX
}

// Whether argument i is hex text.
fn check_argument(rt: &impl Env, i: usize) -> Result<(), Fault> {
    let mut text = [0u8; 4096];
    let n = rt.arg(i, &mut text).map_err(|_| Fault::TooLong)?;
    check(&text[..n])
}

// The first argument that is no hex text, and why it isn't.
fn first_fault(rt: &impl Env, count: usize) -> Option<(usize, Fault)> {
    for i in 1..count {
        if let Err(fault) = check_argument(rt, i) {
            return Some((i, fault));
        }
    }
    None
}

// Prints the bytes of argument i, and answers the PEC after them.
fn taken(rt: &(impl Env + Print), acc: u8, i: usize) -> io::Result<u8> {
    let mut text = [0u8; 4096];
    let n = rt.arg(i, &mut text).unwrap_or(0);
    print_bytes(rt, &text[..n])?;
    Ok(pec_of_text(acc, &text[..n]))
}

fn message(rt: &(impl Env + Print), count: usize) -> io::Result<()> {
    let mut acc = 0;
    for i in 1..count {
        acc = taken(rt, acc, i)?;
    }
    print_pec(rt, acc)
}

fn main(rt: HostRuntime) -> io::Result<()> {
    let count = arg_count(&rt);
    if count < 2 {
        return examples(&rt);
    }
    match first_fault(&rt, count) {
        Some((i, fault)) => println!(rt; "argument {i} {fault}"),
        None => message(&rt, count),
    }
}
