// Set-up: the state at the first sample, or where it is refused the all-zero state.
#![tactic(auto)]

ghost use Rattle.std.specs.Prelude.{◌≡◌, ◌<◌, ◌≤◌};
ghost use Rattle.start.specs.SetUp.{set_up_of, set_up_refused, pack_of, settings_of, host_of, tank_of, zero_state};

use pack::{Answered, Host, Latest, Pack, Run, Sample, Settings, State, Tank, Timers};

// What set-up brings beside the first sample; capacities in mAh; plain: broadcasts without PEC are asked for.
#[derive(Clone, Copy)]
pub struct Setup {
    pub DesignCapacity: u16,
    pub full: u16,
    pub remaining: u16,
    pub DesignVoltage: u16,
    pub MaxError: u16,
    pub CycleCount: u16,
    pub ManufactureDate: u16,
    pub SerialNumber: u16,
    pub ChargingCurrent: u16,
    pub ChargingVoltage: u16,
    pub TemperatureLimit: u16,
    pub DischargeLimit: u16,
    pub plain: bool,
}

// The all-zero state, which isn't sound.
pub fn zero() -> State
    ensures { result ≡ zero_state }
{
    State {
        error: 0,
        pack: Pack {
            settings: Settings::default(),
            host: Host::default(),
            latest: Latest::default(),
            recent: recent::zero(),
            tank: Tank::default(),
            timers: Timers::default(),
        },
    }
}

// The conditions of answer 11. Only our own crates call it.
pub fn refused(u: Setup) -> bool
    ensures { result ≡ set_up_refused u }
{
    (u.DesignCapacity == 0) | (u.full == 0) | (u.DesignVoltage == 0) | (u.full < u.remaining)
}

fn settings_of(u: Setup) -> Settings
    ensures { result ≡ settings_of u }
{
    Settings {
        DesignCapacity: u.DesignCapacity,
        DesignVoltage: u.DesignVoltage,
        MaxError: u.MaxError,
        ManufactureDate: u.ManufactureDate,
        SerialNumber: u.SerialNumber,
        ChargingCurrent: u.ChargingCurrent,
        ChargingVoltage: u.ChargingVoltage,
        TemperatureLimit: u.TemperatureLimit,
        DischargeLimit: u.DischargeLimit,
        plain: u.plain,
    }
}

fn host_of(u: Setup) -> Host
    ensures { result ≡ host_of u }
{
    Host {
        RemainingCapacityAlarm: u.DesignCapacity / 10,
        RemainingTimeAlarm: 10,
        ..Host::default()
    }
}

fn tank_of(u: Setup) -> Tank
    requires { (0 < u.full) × (u.remaining ≤ u.full) }
    ensures { result ≡ tank_of u }
{
    let charge = capacity::milliamp_ms(u.remaining);
    Tank {
        charge,
        full: u.full,
        CycleCount: u.CycleCount,
        FullyDischarged: capacity::fully_discharged(false, charge, u.full),
        toward: 0,
        run: Run {
            opened: u.remaining == u.full,
            drawn: 0,
        },
    }
}

fn pack_of(u: Setup, first: Sample) -> Pack
    requires { (0 < u.full) × (u.remaining ≤ u.full) }
    ensures { result ≡ pack_of u first }
{
    Pack {
        settings: settings_of(u),
        host: host_of(u),
        latest: pack::latest_of(first),
        recent: recent::zero(),
        tank: tank_of(u),
        timers: Timers {
            hold: 0,
            alarm: 10000,
            charger: 0,
        },
    }
}

// Set-up, with the first sample: answer 0 and a sound state, or 11 and the all-zero state.
pub fn set_up(u: Setup, first: Sample) -> Answered<State>
    ensures { result ≡ set_up_of u first }
{
    if refused(u) {
        return Answered {
            answer: 11,
            state: zero(),
        };
    }
    Answered {
        answer: 0,
        state: State {
            error: 0,
            pack: pack_of(u, first),
        },
    }
}
