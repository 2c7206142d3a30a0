// The words of the thirteen-cell pack, each with its answer, and the bytes of all cells. Only our own crates call these.
#![tactic(auto)]

ghost use Rattle.std.specs.Prelude.{◌≡◌, ◌/◌, ◌≤◌};
ghost use Rattle.commands.specs.Commands.{from};
ghost use Rattle.thirteen_pack.specs.Facts.{SoundFacts};
ghost use Rattle.thirteen_words.specs.Cells.{cell_bytes};
ghost use Rattle.thirteen_words.specs.Word.{current_word, remaining, run_time_to_empty, average_time_to_full, cell_of, given_of, shown_of};

use minutes::{Given, Shown, Time};
use thirteen_pack::Thirteen;

// 09: in 10 mV, rounded down.
fn voltage_word(voltage: u16) -> u16
    ensures { result ≡ voltage / 10 }
{
    voltage / 10
}

// 0A: in 10 mA, cut toward zero.
fn current_word(current: u16) -> u16
    ensures { result ≡ current_word current }
{
    let tens = words::size(current) / 10;
    if !words::falls(current) {
        return tens as u16;
    }
    if tens == 0 {
        return 0;
    }
    (65536 - tens) as u16
}

// Whole mAh.
fn remaining_capacity(p: Thirteen) -> u16
    requires { SoundFacts p }
    ensures { result ≡ remaining p }
{
    (p.level.charge / 3600000) as u16
}

// 11 RunTimeToEmpty.
fn run_time_to_empty(p: Thirteen) -> Time
    requires { SoundFacts p }
    ensures { result ≡ run_time_to_empty p }
{
    let flows = words::falls(p.latest.current);
    let left = remaining_capacity(p);
    let rate = words::size(p.latest.current);
    minutes::by_rate(flows, left, rate)
}

// 13 AverageTimeToFull.
fn average_time_to_full(p: Thirteen) -> Time
    requires { SoundFacts p }
    ensures { result ≡ average_time_to_full p }
{
    let average = recent::average(p.recent, p.latest.current);
    let flows = words::rises(average);
    let missing = p.level.full - remaining_capacity(p);
    let rate = words::size(average);
    minutes::by_rate(flows, missing, rate)
}

fn is_cell(command: u8) -> bool
    ensures { result ≡ from 0x31 0x3D command }
{
    (0x31 <= command) & (command <= 0x3D)
}

// What a read-word command's register gives; the word 0 for a command that has none.
fn register(p: Thirteen, command: u8) -> Given
    requires { SoundFacts p }
    ensures { result ≡ given_of p command }
{
    if is_cell(command) {
        let cells = p.cells;
        let at = (command - 0x31) as usize;
        return Given::Word(cells[at]);
    }
    match command {
        0x08 => Given::Word(p.latest.temperature),
        0x09 => Given::Word(voltage_word(p.latest.voltage)),
        0x0A => Given::Word(current_word(p.latest.current)),
        0x0D => Given::Word(capacity::relative(p.level.charge, p.level.full)),
        0x11 => Given::Until(run_time_to_empty(p)),
        0x13 => Given::Until(average_time_to_full(p)),
        0x16 => Given::Word(thirteen_status::status(p)),
        0x4F => Given::Word(p.fixed.StateOfHealth),
        _ => Given::Word(0),
    }
}

// The answer and the word of a read-word command.
pub fn show(p: Thirteen, command: u8) -> Shown
    requires { SoundFacts p }
    ensures { result ≡ shown_of p command }
{
    Shown::from(register(p, command))
}

// ---- F1

// All cells, each low byte first.
pub fn cell_bytes(cells: [u16; 13]) -> [u8; 26]
    ensures { result ≡ cell_bytes cells }
{
    let mut bytes = [0u8; 26];
    numbers::put_numbers(&mut bytes, 0, &cells);
    bytes
}
