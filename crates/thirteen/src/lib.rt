// The thirteen-cell pack's transactions: the answer to every byte string that the driver gives.
#![tactic(auto)]

ghost use Rattle.std.specs.Prelude.{◌≡◌, length};
ghost use Rattle.thirteen.specs.Commands.{is_word, is_not_built, thirteen_kind};
ghost use Rattle.thirteen.specs.Transact.{thirteen_side, left_by, transact_of, reply_room};

use commands::{Kind, Transacted};
use device::{Device, Replied};
use minutes::Shown;
use thirteen_pack::ThirteenState;

// ---- rows

fn is_word(command: u8) -> bool
    ensures { result ≡ is_word command }
{
    matches!(
        command,
        0x08..=0x0A | 0x0D | 0x11 | 0x13 | 0x16 | 0x31..=0x3D | 0x4F
    )
}

fn is_not_built(command: u8) -> bool
    ensures { result ≡ is_not_built command }
{
    matches!(command, 0x00 | 0x80..=0x81 | 0xA0..=0xA2)
}

// A command's row.
fn row(command: u8) -> Kind
    ensures { result ≡ thirteen_kind command }
{
    if is_word(command) {
        return Kind::ReadOnly;
    }
    if command == 0xF1 {
        return Kind::Block;
    }
    if is_not_built(command) {
        return Kind::Optional;
    }
    Kind::Reserved
}

// ---- transactions

// The thirteen-cell pack as a device on the bus.
#[derive(Clone, Copy)]
struct OnBus {
    state: ThirteenState,
}

impl Device for OnBus {
    ghost side = { λ pack. thirteen_side pack.state };

    fn address(&self) -> u8 {
        0x16
    }

    fn must_check(&self) -> bool {
        true
    }

    fn least(&self) -> usize {
        34
    }

    fn is_sound(&self) -> bool {
        thirteen_pack::sound(self.state)
    }

    fn kind(&self, command: u8) -> Kind {
        row(command)
    }

    fn word(&self, command: u8) -> Shown {
        thirteen_words::show(self.state.pack, command)
    }

    // All cells, which have no count.
    fn put_block(&self, _command: u8, request: &[u8], room: &mut [u8]) -> Replied {
        let cells = thirteen_words::cell_bytes(self.state.pack.cells);
        let length = frame::put_body(room, request, &cells);
        Replied { answer: 0, length }
    }
}

// The state with the error code that the answer leaves; nothing else changes.
fn left(s: ThirteenState, answer: u8) -> ThirteenState
    ensures { result ≡ left_by s answer }
{
    ThirteenState {
        error: commands::code_after(answer, s.error),
        pack: s.pack,
    }
}

// What the driver's bytes and mark are answered.
pub fn transact(
    s: ThirteenState,
    read: bool,
    bytes: &[u8],
    room: &mut [u8],
) -> Transacted<ThirteenState>
    ensures result { result ≡ transact_of s read bytes.now (length room.old) }
    ensures memory { room.new ≡ reply_room s read bytes.now room.old }
{
    let done = device::transact(&OnBus { state: s }, read, bytes, room);
    Transacted {
        answer: done.answer,
        state: left(s, done.answer),
        length: done.length,
    }
}
