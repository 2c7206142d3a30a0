// The charger's side: a Level 2 charger at address 0x12, which takes the pack's words and stops by silence, alarm or inhibition.
#![tactic(auto)]

ghost use Rattle.std.specs.Prelude.{◌≡◌, length};
ghost use Rattle.charger.specs.Commands.{is_shown, is_taken, charger_kind};
ghost use Rattle.charger.specs.Delivered.{message_at, message_place};
ghost use Rattle.charger.specs.Transact.{charger_side, left_by, transact_of, reply_room};

use charger_state::Charger;
use commands::{Kind, Transacted};
use device::{Device, Replied, Written};
use minutes::Shown;

// ---- transactions

// The charger as a device on the bus.
#[derive(Clone, Copy)]
struct OnBus {
    state: Charger,
}

// Read only.
fn is_shown(command: u8) -> bool
    ensures { result ≡ is_shown command }
{
    matches!(command, 0x11 | 0x13)
}

// Write only.
fn is_taken(command: u8) -> bool
    ensures { result ≡ is_taken command }
{
    matches!(command, 0x12 | 0x14..=0x16)
}

// A command's row.
fn row(command: u8) -> Kind
    ensures { result ≡ charger_kind command }
{
    if is_shown(command) {
        return Kind::ReadOnly;
    }
    if is_taken(command) {
        return Kind::WriteOnly;
    }
    Kind::Reserved
}

impl Device for OnBus {
    ghost side = { λ charger. charger_side charger.state };

    fn address(&self) -> u8 {
        0x12
    }

    fn must_check(&self) -> bool {
        false
    }

    fn least(&self) -> usize {
        3
    }

    fn is_sound(&self) -> bool {
        charger_state::sound(self.state)
    }

    fn kind(&self, command: u8) -> Kind {
        row(command)
    }

    // Every word is answered 0.
    fn word(&self, command: u8) -> Shown {
        let word = charger_state::word(self.state, command);
        Shown { answer: 0, word }
    }

    // It has no block.
    fn put_block(&self, _command: u8, request: &[u8], room: &mut [u8]) -> Replied {
        let length = frame::put_body(room, request, &[]);
        Replied { answer: 0, length }
    }
}

// What a transaction leaves: only a served write changes the state.
fn left(s: Charger, write: Option<Written>) -> Charger
    ensures { result ≡ left_by s write }
{
    match write {
        Some(write) => charger_written::written(s, write.command, write.word),
        None => s,
    }
}

// What the driver's bytes and mark are answered.
pub fn transact(s: Charger, read: bool, bytes: &[u8], room: &mut [u8]) -> Transacted<Charger>
    ensures result { result ≡ transact_of s read bytes.now (length room.old) }
    ensures memory { room.new ≡ reply_room s read bytes.now room.old }
{
    let done = device::transact(&OnBus { state: s }, read, bytes, room);
    Transacted {
        answer: done.answer,
        state: left(s, done.write),
        length: done.length,
    }
}

// ---- a driver's part

// The message of a pack's broadcast that starts at a place, to be delivered; none where no whole one does.
pub fn message(plain: bool, broadcast: &[u8], at: usize) -> &[u8]
    ensures result_value { result.now ≡ message_at plain broadcast.now at }
    ensures ref_ptr_value { result.ref_ptr ≡ message_place plain broadcast.now at broadcast.entry.ref_ptr }
{
    let size = frame::message_size(plain);
    let n = broadcast.len();
    if n < size {
        return &broadcast[0..0];
    }
    if n - size < at {
        return &broadcast[0..0];
    }
    let end = at + size;
    &broadcast[at..end]
}
