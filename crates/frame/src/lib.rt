// What a request is, and how a reply with its PEC or a broadcast message is put into a lent room. Only our own crates call these.
// It knows no register and no address of its own: an address is given by its write byte.
#![tactic(auto)]

ghost use Rattle.std.specs.Prelude.{◌≡◌, ◌+◌, ◌≤◌, ◌<◌, length};
ghost use Rattle.std.proofs.lemmas.List.Edits.{sets};
ghost use Rattle.frame.specs.Transactions.{request_of, write_of, reply_of, word_body, block_body};
ghost use Rattle.frame.specs.Broadcasts.{sent_as, message_size};
ghost use Rattle.rooms.specs.Rooms.{placed};

// What the driver's bytes and mark ask for; or the answer 3, 4 or 5.
#[derive(Clone, Copy)]
pub enum Request {
    Refused(u8),
    Read(u8),
    Write {
        command: u8,
        word: u16,
        checked: bool,
    },
}

pub fn recognise(address: u8, read: bool, bytes: &[u8]) -> Request
    requires { address < 255 }
    ensures { result ≡ request_of address read bytes.now }
{
    let n = bytes.len();
    if n == 0 {
        return Request::Refused(3);
    }
    if bytes[0] != address {
        return Request::Refused(3);
    }
    if read {
        if n != 3 {
            return Request::Refused(4);
        }
        if bytes[2] != address + 1 {
            return Request::Refused(4);
        }
        return Request::Read(bytes[1]);
    }
    if n == 4 {
        return write_of(bytes, false);
    }
    if n != 5 {
        return Request::Refused(4);
    }
    if bytes[4] != pec::pec(&bytes[0..4]) {
        return Request::Refused(5);
    }
    write_of(bytes, true)
}

// Address, command, low, high.
fn write_of(bytes: &[u8], checked: bool) -> Request
    requires { 4 ≤ length bytes.now }
    ensures { result ≡ write_of bytes.now checked }
{
    Request::Write {
        command: bytes[1],
        word: words::join(bytes[2], bytes[3]),
        checked,
    }
}

// A word reply at the front of the room; its length.
pub fn put_word(room: &mut [u8], request: &[u8], w: u16) -> usize
    requires { 3 ≤ length room.old }
    ensures result { result ≡ length (reply_of request.now (word_body w)) }
    ensures memory { room.new ≡ placed (reply_of request.now (word_body w)) room.old }
{
    put_body(room, request, &[words::low(w), words::high(w)])
}

// A block reply at the front of the room; its length.
pub fn put_block(room: &mut [u8], request: &[u8], text: &[u8]) -> usize
    requires { (length text.now ≤ 32) × (length text.now + 2 ≤ length room.old) }
    ensures result { result ≡ length (reply_of request.now (block_body text.now)) }
    ensures memory { room.new ≡ placed (reply_of request.now (block_body text.now)) room.old }
{
    let n = text.len();
    let last = n + 1;
    let count = n as u8;
    let start = pec::pec(request);
    let check = pec::pec_from(pec::pec_from(start, &[count]), text);
    room[0] = count;
    rooms::put_bytes(room, 1, text);
    room[last] = check;
    n + 2
}

// A reply of bytes without a count at the front of the room; its length.
pub fn put_body(room: &mut [u8], request: &[u8], body: &[u8]) -> usize
    requires { length body.now + 1 ≤ length room.old }
    ensures result { result ≡ length (reply_of request.now body.now) }
    ensures memory { room.new ≡ placed (reply_of request.now body.now) room.old }
{
    let n = body.len();
    let check = pec::pec_from(pec::pec(request), body);
    rooms::put_bytes(room, 0, body);
    room[n] = check;
    n + 1
}

// A broadcast message: a word under a command, for an address.
#[derive(Clone, Copy)]
pub struct Message {
    pub address: u8,
    pub command: u8,
    pub word: u16,
}

// The bytes of a message, with its PEC or plain.
pub fn message_size(plain: bool) -> usize
    ensures { result ≡ message_size plain }
{
    if plain { 4 } else { 5 }
}

// A message from the place at on, with its PEC or plain; the place after it.
pub fn put_message(room: &mut [u8], at: usize, plain: bool, m: Message) -> usize
    requires { at + message_size plain ≤ length room.old }
    ensures result { result ≡ at + length (sent_as plain m) }
    ensures memory { room.new ≡ sets room.old at (sent_as plain m) }
{
    let low = words::low(m.word);
    let high = words::high(m.word);
    if plain {
        rooms::put_bytes(room, at, &[m.address, m.command, low, high]);
        return at + 4;
    }
    let check = pec::pec(&[m.address, m.command, low, high]);
    rooms::put_bytes(room, at, &[m.address, m.command, low, high, check]);
    at + 5
}
