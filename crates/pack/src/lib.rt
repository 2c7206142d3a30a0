// The pack's state: what it remembers, when that is sound, and what a sample is kept as.
#![tactic(auto)]

ghost use Rattle.std.specs.Prelude.{◌≡◌};
ghost use Rattle.pack.specs.Sound.{settings_sound, tank_sound, toward_sound, run_sound, timers_sound, error_sound, sound_of};
ghost use Rattle.pack.specs.Kept.{latest_of};
ghost use Rattle.pack.specs.Discharge.{discharge_ends};

use recent::Recent;

// What set-up fixes; plain: broadcasts go without PEC.
#[derive(Clone, Copy, Default)]
pub struct Settings {
    pub DesignCapacity: u16,
    pub DesignVoltage: u16,
    pub MaxError: u16,
    pub ManufactureDate: u16,
    pub SerialNumber: u16,
    pub ChargingCurrent: u16,
    pub ChargingVoltage: u16,
    pub TemperatureLimit: u16,
    pub DischargeLimit: u16,
    pub plain: bool,
}

// What the host wrote.
#[derive(Clone, Copy, Default)]
pub struct Host {
    pub ManufacturerAccess: u16,
    pub RemainingCapacityAlarm: u16,
    pub RemainingTimeAlarm: u16,
    pub AtRate: u16,
    pub AlarmMode: bool,
    pub ChargerMode: bool,
    pub CapacityMode: bool,
}

// What was sampled last; the current as a word.
#[derive(Clone, Copy, Default)]
pub struct Latest {
    pub voltage: u16,
    pub current: u16,
    pub temperature: u16,
    pub counter: u32,
}

// What is drawn in a run is held here: 65,535 mAh in mA·ms.
pub const RUN_MOST: u64 = 235926000000;

// A discharge from full: whether one is open, and the charge drawn in it.
#[derive(Clone, Copy, Default)]
pub struct Run {
    pub opened: bool,
    pub drawn: u64,
}

// Charge, and what is drawn toward the next cycle, in mA·ms; full capacity in mAh; FullyDischarged is bit 4 of BatteryStatus.
#[derive(Clone, Copy, Default)]
pub struct Tank {
    pub charge: u64,
    pub full: u16,
    pub CycleCount: u16,
    pub FullyDischarged: bool,
    pub toward: u64,
    pub run: Run,
}

// In milliseconds.
#[derive(Clone, Copy, Default)]
pub struct Timers {
    pub hold: u32,
    pub alarm: u32,
    pub charger: u32,
}

// All but the error code.
#[derive(Clone, Copy)]
pub struct Pack {
    pub settings: Settings,
    pub host: Host,
    pub latest: Latest,
    pub recent: Recent,
    pub tank: Tank,
    pub timers: Timers,
}

// The error code stands apart: reads and refusals change nothing but it.
#[derive(Clone, Copy)]
pub struct State {
    pub error: u8,
    pub pack: Pack,
}

// What a sample brings.
#[derive(Clone, Copy)]
pub struct Sample {
    pub voltage: u16,
    pub current: i16,
    pub temperature: u16,
    pub counter: u32,
}

// What a call gives back: its answer number, and the state that is left.
#[derive(Clone, Copy)]
pub struct Answered<S> {
    pub answer: u8,
    pub state: S,
}

fn settings_sound(s: Settings) -> bool
    ensures { result ≡ settings_sound s }
{
    (s.DesignCapacity != 0) & (s.DesignVoltage != 0)
}

fn tank_sound(t: Tank) -> bool
    ensures { result ≡ tank_sound t }
{
    (t.full != 0) & (t.charge <= capacity::milliamp_ms(t.full))
}

fn toward_sound(design: u16, toward: u64) -> bool
    ensures { result ≡ toward_sound design toward }
{
    toward < capacity::milliamp_ms(design)
}

fn run_sound(u: Run) -> bool
    ensures { result ≡ run_sound u }
{
    (u.drawn <= RUN_MOST) & (u.opened | (u.drawn == 0))
}

fn timers_sound(h: Host, t: Timers) -> bool
    ensures { result ≡ timers_sound h t }
{
    (t.hold <= 60000)
        & (t.alarm <= 10000)
        & (t.charger <= 29999)
        & (!h.ChargerMode | (t.charger == 0))
        & ((t.hold == 0) == !h.AlarmMode)
}

// Only our own crates call it.
pub fn error_sound(code: u8) -> bool
    ensures { result ≡ error_sound code }
{
    code <= 7
}

// Whether a state is sound: each of its parts is.
pub fn sound(s: State) -> bool
    ensures { result ≡ sound_of s }
{
    settings_sound(s.pack.settings)
        & tank_sound(s.pack.tank)
        & toward_sound(s.pack.settings.DesignCapacity, s.pack.tank.toward)
        & run_sound(s.pack.tank.run)
        & recent::sound(s.pack.recent)
        & timers_sound(s.pack.host, s.pack.timers)
        & error_sound(s.error)
}

// What a sample is kept as.
pub fn latest_of(s: Sample) -> Latest
    ensures { result ≡ latest_of s }
{
    Latest {
        voltage: s.voltage,
        current: words::kept(s.current),
        temperature: s.temperature,
        counter: s.counter,
    }
}

// TERMINATE_DISCHARGE, by a sample's figures and the limit. Only our own crates call it.
pub fn discharge_ends(voltage: u16, current: u16, limit: u16) -> bool
    ensures { result ≡ discharge_ends voltage current limit }
{
    words::falls(current) & (voltage < limit)
}
