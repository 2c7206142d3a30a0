// Transactions: the answer to every byte string that the driver gives.
#![tactic(auto)]

ghost use Rattle.std.specs.Prelude.{◌≡◌, length};
ghost use Rattle.bus.specs.Transact.{pack_side, pack_left, left_by, transact_of, reply_room};

use commands::{Kind, Transacted};
use device::{Device, Replied, Written};
use minutes::Shown;
use pack::{Pack, State};

// The pack as a device on the bus, with its service and its factory sheet.
#[derive(Clone, Copy)]
struct OnBus<'a> {
    state: State,
    service: &'a [u8],
    factory: &'a [u8],
}

impl<'a> Device for OnBus<'a> {
    ghost side = { λ pack. pack_side pack.state pack.service.now pack.factory.now };

    fn address(&self) -> u8 {
        0x16
    }

    fn must_check(&self) -> bool {
        false
    }

    fn least(&self) -> usize {
        34
    }

    fn is_sound(&self) -> bool {
        pack::sound(self.state)
    }

    fn kind(&self, command: u8) -> Kind {
        commands::row(command)
    }

    fn word(&self, command: u8) -> Shown {
        gauge::show(self.state, command)
    }

    // A block name, or the refusal of a bad sheet: no sheet is looked at unless a block is read.
    fn put_block(&self, command: u8, request: &[u8], room: &mut [u8]) -> Replied {
        if let Err(reason) = sheet::block_answer(self.service, self.factory) {
            return Replied {
                answer: u8::from(reason),
                length: 0,
            };
        }
        let name = sheet::block(self.service, self.factory, command);
        let length = frame::put_block(room, request, name);
        Replied { answer: 0, length }
    }
}

// Only a served write changes the pack.
fn pack_left(p: Pack, write: Option<Written>) -> Pack
    ensures { result ≡ pack_left p write }
{
    match write {
        Some(write) => written::pack_written(p, write.command, write.word),
        None => p,
    }
}

// What a transaction leaves: the error code of its answer, and the pack.
fn left(s: State, answer: u8, write: Option<Written>) -> State
    ensures { result ≡ left_by s answer write }
{
    State {
        error: commands::code_after(answer, s.error),
        pack: pack_left(s.pack, write),
    }
}

// What the driver's bytes and mark are answered.
pub fn transact<'a>(
    s: State,
    service: &'a [u8],
    factory: &'a [u8],
    read: bool,
    bytes: &[u8],
    room: &mut [u8],
) -> Transacted<State>
    ensures result { result ≡ transact_of s service.now factory.now read bytes.now (length room.old) }
    ensures memory { room.new ≡ reply_room s service.now factory.now read bytes.now room.old }
{
    let on_bus = OnBus {
        state: s,
        service,
        factory,
    };
    let done = device::transact(&on_bus, read, bytes, room);
    Transacted {
        answer: done.answer,
        state: left(s, done.answer, done.write),
        length: done.length,
    }
}
