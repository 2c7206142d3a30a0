// The program that two old huts run: five minutes of a pack, a sample each second, and a line for each sample that
// broadcasts: the second, then the bytes in hex. A host's write is a line too: its bytes, and the answer.
#![tactic(auto)]

ghost use Rattle.std.specs.Prelude.{◌≤◌};

use pack::{Sample, State};
use start::Setup;
use std::io;

// What the hut measures while a phase lasts.
#[derive(Clone, Copy)]
struct Measured {
    voltage: u16,
    current: i16,
    temperature: u16,
}

fn print_bytes(rt: &impl Print, bytes: &[u8]) -> io::Result<()> {
    for b in bytes {
        print!(rt; "{b:02x}")?;
    }
    Ok(())
}

fn print_second(rt: &impl Print, second: u32) -> io::Result<()> {
    print!(rt; "{second} ")
}

// The counter at a second: it wraps in the second minute.
fn reading(second: u32) -> u32
    requires { second ≤ 300 }
{
    4294900000u32.wrapping_add(1000 * second)
}

fn sample_at(second: u32, m: Measured) -> Sample
    requires { second ≤ 300 }
{
    Sample {
        voltage: m.voltage,
        current: m.current,
        temperature: m.temperature,
        counter: reading(second),
    }
}

// A pack of 2,000 mAh that lacks 5, at rest at second 0.
fn beginning() -> State {
    let setup = Setup {
        DesignCapacity: 2000,
        full: 2000,
        remaining: 1995,
        DesignVoltage: 14800,
        MaxError: 2,
        CycleCount: 7,
        ManufactureDate: 0x526f,
        SerialNumber: 17,
        ChargingCurrent: 1800,
        ChargingVoltage: 16800,
        TemperatureLimit: 3182,
        DischargeLimit: 11000,
        plain: true,
    };
    let rest = Measured {
        voltage: 16000,
        current: 0,
        temperature: 2981,
    };
    start::set_up(setup, sample_at(0, rest)).state
}

// What stands in the room up to the length, if anything does.
fn print_sent(rt: &impl Print, second: u32, room: &[u8], length: usize) -> io::Result<()> {
    match room.get(..length) {
        None | Some([]) => Ok(()),
        Some(sent) => {
            print_second(rt, second)?;
            print_bytes(rt, sent)?;
            println!(rt)
        }
    }
}

// One sample; the state that it leaves comes back.
fn tick(rt: &impl Print, s: State, second: u32, m: Measured) -> io::Result<State>
    requires { second ≤ 300 }
{
    let mut room = [0u8; 16];
    let out = clock::sample(s, sample_at(second, m), &mut room);
    print_sent(rt, second, &room, out.length)?;
    Ok(out.state)
}

// A phase under its name: a sample each second after one second, to another.
fn phase(
    rt: &impl Print,
    s: State,
    name: &str,
    after: u32,
    last: u32,
    m: Measured,
) -> io::Result<State>
    requires { last ≤ 300 }
{
    println!(rt; "{name}")?;
    let mut now = s;
    for second in after..last {
        now = tick(rt, now, second + 1, m)?;
    }
    Ok(now)
}

// A host's write, just after the sample of a second.
fn write(rt: &impl Print, s: State, second: u32, bytes: &[u8]) -> io::Result<State> {
    let none = [0u8; 1];
    let mut room = [0u8; 34];
    let out = bus::transact(s, &none, &none, false, bytes, &mut room);
    print_second(rt, second)?;
    print!(rt; "host ")?;
    print_bytes(rt, bytes)?;
    println!(rt; " {}", out.answer)?;
    Ok(out.state)
}

// The pack gets full and then hot; ALARM_MODE keeps it silent for a minute.
fn on_the_charger(rt: &impl Print, s: State) -> io::Result<State> {
    let charging = Measured {
        voltage: 16400,
        current: 1500,
        temperature: 2981,
    };
    let hot = Measured {
        voltage: 16300,
        current: 0,
        temperature: 3190,
    };
    let both = Measured {
        voltage: 16500,
        current: 600,
        temperature: 3190,
    };
    let full = phase(rt, s, "charging", 0, 40, charging)?;
    let warm = phase(rt, full, "hot", 40, 57, hot)?;
    let held = write(rt, warm, 57, b"\x16\x03\x00\x20")?;
    phase(rt, held, "hot and charging", 57, 128, both)
}

// CHARGER_MODE keeps charger words back; time, capacity and voltage run low.
fn spraying(rt: &impl Print, s: State) -> io::Result<State> {
    let work = Measured {
        voltage: 13900,
        current: -12000,
        temperature: 3050,
    };
    let low = Measured {
        voltage: 10900,
        current: -12000,
        temperature: 3080,
    };
    let silent = write(rt, s, 128, b"\x16\x03\x00\x40")?;
    let refused = write(rt, silent, 128, b"\x16\x02\x0a\x00\x46")?;
    let told = write(rt, refused, 128, b"\x16\x02\x0a\x00\x47")?;
    let used = phase(rt, told, "spraying", 128, 215, work)?;
    let asked = write(rt, used, 215, b"\x16\x01\xa4\x06")?;
    phase(rt, asked, "spraying on, the voltage low", 215, 233, low)
}

// Charger words come again; alarms last until the host has both of its limits off.
fn at_rest(rt: &impl Print, s: State) -> io::Result<State> {
    let rest = Measured {
        voltage: 14200,
        current: 0,
        temperature: 3000,
    };
    let heard = write(rt, s, 233, b"\x16\x03\x00\x00")?;
    let resting = phase(rt, heard, "at rest", 233, 275, rest)?;
    let none = write(rt, resting, 275, b"\x16\x01\x00\x00")?;
    let quiet = write(rt, none, 275, b"\x16\x02\x00\x00")?;
    phase(rt, quiet, "at rest, no limits", 275, 300, rest)
}

fn main(rt: HostRuntime) -> io::Result<()> {
    let charged = on_the_charger(&rt, beginning())?;
    let sprayed = spraying(&rt, charged)?;
    at_rest(&rt, sprayed)?;
    Ok(())
}
