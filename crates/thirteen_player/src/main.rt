// Plays a bus capture, read from standard input, to a thirteen-cell pack: a line for each row, `14` for a bad capture.
#![tactic(auto)]

use pack::Sample;
use start::Setup;
use std::io;
use thirteen_pack::ThirteenState;

// The player's pack: half full, no cell like another, drawn from with 1,234 mA at 25 °C.
fn beginning() -> ThirteenState {
    let setup = Setup {
        DesignCapacity: 10000,
        full: 9700,
        remaining: 4850,
        DesignVoltage: 46800,
        MaxError: 0,
        CycleCount: 0,
        ManufactureDate: 0,
        SerialNumber: 0,
        ChargingCurrent: 0,
        ChargingVoltage: 0,
        TemperatureLimit: 0,
        DischargeLimit: 0,
        plain: false,
    };
    let first = Sample {
        voltage: 48191,
        current: -1234,
        temperature: 2982,
        counter: 0,
    };
    let cells = [
        3701, 3702, 3703, 3704, 3705, 3706, 3707, 3708, 3709, 3710, 3711, 3712, 3713,
    ];
    thirteen_pack::set_up(setup, 97, first, cells).state
}

fn main(rt: HostRuntime) -> io::Result<()> {
    lines::play(&rt, beginning(), |s, read, bytes, room| {
        thirteen::transact(s, read, bytes, room)
    })
}
