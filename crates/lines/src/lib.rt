// What the programs that play rows share: their whole input, and the line that they print for a row, which is the answer,
// then a space and the reply in hex if there is one.
#![tactic(auto)]

ghost use Rattle.std.specs.Prelude.{◌≤◌, length, IfOk};

use commands::Transacted;
use std::io;
use std::io::Read;

// Reads until the buffer is full or the input ends, and answers how many bytes came: they stand at its start. A loop, since the
// library reads to an input's end only into memory that it allocates.
pub fn read_full(rt: &impl Input, bytes: &mut [u8]) -> io::Result<usize>
    ensures { IfOk result (λ n. n ≤ length bytes.new) }
{
    let mut input = rt.reader();
    let mut done = 0;
    while done < bytes.len() {
        let n = input.read(&mut bytes[done..])?;
        if n == 0 {
            break;
        }
        done += n;
    }
    Ok(done)
}

fn print_reply(rt: &impl Print, reply: &[u8]) -> io::Result<()> {
    for b in reply {
        print!(rt; "{b:02x}")?;
    }
    Ok(())
}

// The reply stands at the front of the room.
pub fn print_line(rt: &impl Print, answer: u8, room: &[u8], length: usize) -> io::Result<()> {
    print!(rt; "{answer}")?;
    match room.get(..length) {
        None | Some([]) => {}
        Some(reply) => {
            print!(rt; " ")?;
            print_reply(rt, reply)?;
        }
    }
    println!(rt)
}

// Each row of a capture is given to a side of the bus, from a state on, and its line is printed; or the answer, if the bytes are none.
fn play_rows<S: Copy, F: Fn(S, bool, &[u8], &mut [u8]) -> Transacted<S>>(
    rt: &impl Print,
    bytes: &[u8],
    start: S,
    transact: F,
) -> io::Result<()>
    requires { F.IsAlwaysCallable transact }
{
    let opened = match capture::open(bytes) {
        Ok(opened) => opened,
        Err(reason) => return println!(rt; "{}", u8::from(reason)),
    };
    let mut state = start;
    let mut place = opened.place;
    for row in 0..opened.rows {
        let Ok(Some(step)) = capture::step_at(bytes, row, place) else {
            return Ok(());
        };
        let mut room = [0u8; 34];
        let out = transact(
            state,
            step.mark == 1,
            capture::body_at(bytes, row, place),
            &mut room,
        );
        print_line(rt, out.answer, &room, out.length)?;
        state = out.state;
        place = step.place;
    }
    Ok(())
}

// Plays the capture that stands on the input. None is longer than 1 + 255 × 39 bytes: one byte more is enough to tell.
pub fn play<S: Copy, F: Fn(S, bool, &[u8], &mut [u8]) -> Transacted<S>>(
    rt: &(impl Input + Print),
    start: S,
    transact: F,
) -> io::Result<()>
    requires { F.IsAlwaysCallable transact }
{
    let mut bytes = [0u8; 9947];
    let n = read_full(rt, &mut bytes)?;
    play_rows(rt, &bytes[..n], start, transact)
}
