// Results of several numbers in one: the answer in the low byte, the rest above it; of a refusal its number alone.
#![tactic(auto)]

ghost use Rattle.std.specs.Prelude.{◌≡◌, ◌+◌, ◌-◌, ◌*◌, ◌<◌, ◌≤◌};
ghost use Rattle.std.specs.Result.{ForOk};
ghost use Rattle.capture.specs.Capture.{capture_most};
ghost use Rattle.packed.specs.Packed.{packed, refused, check_number, comparison_number, wrote_number, opened_number, key_number, located_number, step_number, FoundFits, OpenedFits, LocatedFits, RowFits};

use capture::{Opened, Step};
use key::Found;
use refusals::Refusal;
use sheet::Located;

// An answer in the low byte, and a number above it.
pub fn pack_up(answer: u8, above: usize) -> u32
    requires { above < 16777216 }
    ensures { result ≡ packed answer above }
{
    u32::from(answer) + ((above as u32) << 8)
}

fn refused(reason: Refusal) -> u32
    ensures { (result ≡ refused reason) × (result < 256) }
{
    u32::from(u8::from(reason))
}

// Of the exchange check.
pub fn checked(outcome: Result<bool, Refusal>) -> u32
    ensures { result ≡ check_number outcome }
{
    match outcome {
        Ok(right) => pack_up(0, usize::from(right)),
        Err(reason) => refused(reason),
    }
}

// Of the bit comparison.
pub fn compared(outcome: Result<u32, Refusal>) -> u32
    requires { ForOk outcome (λ bits. bits < 16777216) }
    ensures { result ≡ comparison_number outcome }
{
    match outcome {
        Ok(bits) => pack_up(0, bits as usize),
        Err(reason) => refused(reason),
    }
}

// Of a key, a name or a sheet that is written, and of an edit.
pub fn wrote(outcome: Result<usize, Refusal>) -> u32
    requires { ForOk outcome (λ length. length < 16777216) }
    ensures { result ≡ wrote_number outcome }
{
    match outcome {
        Ok(length) => pack_up(0, length),
        Err(reason) => refused(reason),
    }
}

// Of a capture that is opened.
pub fn opened(outcome: Result<Opened, Refusal>) -> u32
    requires { ForOk outcome OpenedFits }
    ensures { result ≡ opened_number outcome }
{
    match outcome {
        Ok(o) => pack_up(0, o.rows + (o.place << 8)),
        Err(reason) => refused(reason),
    }
}

fn found(f: Found) -> u64
    requires { FoundFits f }
    ensures { result ≡ key_number (Ok f) }
{
    let maker = f.maker_end as u64;
    let device = (f.device_end - f.device_start) as u64;
    (maker << 8) + (device << 16) + (u64::from(f.date) << 24) + (u64::from(f.serial) << 40)
}

// Of a key that is read.
pub fn key_read(outcome: Result<Found, Refusal>) -> u64
    requires { ForOk outcome FoundFits }
    ensures { result ≡ key_number outcome }
{
    match outcome {
        Ok(f) => found(f),
        Err(reason) => u64::from(refused(reason)),
    }
}

fn part(l: Located) -> u64
    requires { LocatedFits l }
    ensures { result ≡ located_number (Ok l) }
{
    let length = (l.end - l.start) as u64;
    (length << 8) + ((l.start as u64) << 16) + (u64::from(l.factory) << 32)
}

// Of a block name.
pub fn located(outcome: Result<Located, Refusal>) -> u64
    requires { ForOk outcome LocatedFits }
    ensures { result ≡ located_number outcome }
{
    match outcome {
        Ok(l) => part(l),
        Err(reason) => u64::from(refused(reason)),
    }
}

fn row(place: usize, step: Step) -> u64
    requires { (place ≤ step.place) × (step.place ≤ capture_most) }
    ensures { result ≡ packed 0 (1 + 2 * step.mark + 256 * (step.place - place) + 16777216 * step.place) }
{
    let length = step.place - place;
    256 + (u64::from(step.mark) << 9) + ((length as u64) << 16) + ((step.place as u64) << 32)
}

// Of a step from a place.
pub fn stepped(place: usize, outcome: Result<Option<Step>, Refusal>) -> u64
    requires { RowFits place outcome }
    ensures { result ≡ step_number place outcome }
{
    match outcome {
        Ok(Some(step)) => row(place, step),
        Ok(None) => 0,
        Err(reason) => u64::from(refused(reason)),
    }
}
