// A device on the bus, whatever it shows and takes, and how it answers the driver's bytes and mark. Only our own crates call these.
#![tactic(auto)]

ghost use Rattle.std.specs.Prelude.{◌≡◌, true, ◌≤◌, ◌<◌, length};
ghost use Rattle.commands.specs.Answers.{Side, served, row_reply, read_answer};
ghost use Rattle.rooms.specs.Rooms.{placed};
ghost use Rattle.device.specs.Device.{row_given, written_by, done_of, room_after};

use commands::Kind;
use frame::Request;
use minutes::Shown;

// What a read is given: its answer, and the number of reply bytes.
#[derive(Clone, Copy)]
pub struct Replied {
    pub answer: u8,
    pub length: usize,
}

// A write that is served.
#[derive(Clone, Copy)]
pub struct Written {
    pub command: u8,
    pub word: u16,
}

// What a transaction is given: its answer, the number of reply bytes, and the write that it serves.
#[derive(Clone, Copy)]
pub struct Done {
    pub answer: u8,
    pub length: usize,
    pub write: Option<Written>,
}

pub trait Device {
    // The device in the words of the rules.
    ghost side: { Self → Side };

    fn address(&self) -> u8
        ensures is { result ≡ (side self.now).address }
        ensures low { result < 255 };

    fn must_check(&self) -> bool
        ensures { result ≡ (side self.now).must_check };

    // The reply room that it asks for: a word's reply always fits.
    fn least(&self) -> usize
        ensures is { result ≡ (side self.now).least }
        ensures word { 3 ≤ result };

    fn is_sound(&self) -> bool
        ensures { result ≡ (side self.now).sound };

    fn kind(&self, command: u8) -> Kind
        ensures { result ≡ (side self.now).kinds command };

    // A word with its answer, which is one of those that are served.
    fn word(&self, command: u8) -> Shown
        requires { (side self.now).sound ≡ true }
        ensures answer { result.answer ≡ (side self.now).word_answer command }
        ensures word { result.word ≡ (side self.now).word command }
        ensures serves { served result.answer ≡ true };

    // A block at the front of the room, if its answer is one of those that are served.
    fn put_block(&self, command: u8, request: &[u8], room: &mut [u8]) -> Replied
        requires sound { (side self.now).sound ≡ true }
        requires room { (side self.now).least ≤ length room.old }
        ensures result { result ≡ row_given (side self.now) request.now command Kind.Block }
        ensures memory { room.new ≡ placed (row_reply (side self.now) request.now command Kind.Block) room.old };
}

fn refused(answer: u8) -> Done
    ensures { result ≡ record { answer = answer; length = 0; write = None } }
{
    Done {
        answer,
        length: 0,
        write: None,
    }
}

// A word at the front of the room.
fn put_word<D: Device>(device: &D, command: u8, request: &[u8], room: &mut [u8]) -> Replied
    requires sound { (D.side device.now).sound ≡ true }
    requires room { (D.side device.now).least ≤ length room.old }
    ensures result { result ≡ row_given (D.side device.now) request.now command Kind.ReadOnly }
    ensures memory { room.new ≡ placed (row_reply (D.side device.now) request.now command Kind.ReadOnly) room.old }
{
    let least = device.least();
    prove!(least <= room.len());
    let shown = device.word(command);
    let length = frame::put_word(room, request, shown.word);
    Replied {
        answer: shown.answer,
        length,
    }
}

// A read, by its command's row.
fn read<D: Device>(device: &D, command: u8, request: &[u8], room: &mut [u8]) -> Replied
    requires sound { (D.side device.now).sound ≡ true }
    requires room { (D.side device.now).least ≤ length room.old }
    ensures result { result ≡ row_given (D.side device.now) request.now command ((D.side device.now).kinds command) }
    ensures memory { room.new ≡ placed (row_reply (D.side device.now) request.now command ((D.side device.now).kinds command)) room.old }
{
    match device.kind(command) {
        Kind::Reserved => Replied {
            answer: 6,
            length: 0,
        },
        Kind::Optional => Replied {
            answer: 7,
            length: 0,
        },
        Kind::WriteOnly => Replied {
            answer: 8,
            length: 0,
        },
        Kind::Block => device.put_block(command, request, room),
        Kind::ReadOnly | Kind::ReadWrite => put_word(device, command, request, room),
    }
}

// A write, by its command's row: without PEC, where it must carry one, it has the wrong form.
fn write<D: Device>(device: &D, write: Written, checked: bool) -> Done
    ensures { result ≡ written_by (D.side device.now) write.command write.word checked }
{
    if device.must_check() && !checked {
        return refused(4);
    }
    let answer = commands::write_answer(device.kind(write.command));
    if answer != 0 {
        return refused(answer);
    }
    Done {
        answer,
        length: 0,
        write: Some(write),
    }
}

// What the driver's bytes and mark are answered.
pub fn transact<D: Device>(device: &D, read: bool, bytes: &[u8], room: &mut [u8]) -> Done
    ensures result { result ≡ done_of (D.side device.now) read bytes.now (length room.old) }
    ensures memory { room.new ≡ room_after (D.side device.now) read bytes.now room.old }
{
    if !device.is_sound() {
        return refused(1);
    }
    if room.len() < device.least() {
        return refused(2);
    }
    match frame::recognise(device.address(), read, bytes) {
        Request::Refused(answer) => refused(answer),
        Request::Read(command) => {
            let reply = self::read(device, command, bytes, room);
            Done {
                answer: reply.answer,
                length: reply.length,
                write: None,
            }
        }
        Request::Write {
            command,
            word,
            checked,
        } => write(device, Written { command, word }, checked),
    }
}
