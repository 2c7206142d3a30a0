// Plays a bus capture, read from standard input, to a pack: a line for each row, `14` for a bad capture.
#![tactic(auto)]

use pack::{Sample, State};
use start::Setup;
use std::io;

// The player's pack: half full, 14.8 V designed and measured, all else 0.
fn beginning() -> State {
    let setup = Setup {
        DesignCapacity: 4000,
        full: 4000,
        remaining: 2000,
        DesignVoltage: 14800,
        MaxError: 0,
        CycleCount: 0,
        ManufactureDate: 0,
        SerialNumber: 0,
        ChargingCurrent: 0,
        ChargingVoltage: 0,
        TemperatureLimit: 0,
        DischargeLimit: 0,
        plain: false,
    };
    let first = Sample {
        voltage: 14800,
        current: 0,
        temperature: 0,
        counter: 0,
    };
    start::set_up(setup, first).state
}

fn main(rt: HostRuntime) -> io::Result<()> {
    lines::play(&rt, beginning(), |s, read, bytes, room| {
        bus::transact(s, &[0], &[0], read, bytes, room)
    })
}
