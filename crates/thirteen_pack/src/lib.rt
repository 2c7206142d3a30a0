// The thirteen-cell pack: what it remembers, when that is sound, set-up and samples.
#![tactic(auto)]

ghost use Rattle.std.specs.Prelude.{◌≡◌, true, ◌<◌, ◌≤◌};
ghost use Rattle.capacity.specs.Capacity.{milliamp_ms};
ghost use Rattle.thirteen_pack.specs.Facts.{SoundFacts};
ghost use Rattle.thirteen_pack.specs.Sample.{level_after, sampled_of, sample_of};
ghost use Rattle.thirteen_pack.specs.SetUp.{level_of, pack_of, zero_state, set_up_of};
ghost use Rattle.thirteen_pack.specs.Sound.{fixed_sound, level_sound, sound_of};

use pack::{Answered, Latest, Sample};
use recent::Recent;
use start::Setup;

// What set-up fixes; the state of health in percent.
#[derive(Clone, Copy)]
pub struct Fixed {
    pub DesignCapacity: u16,
    pub DesignVoltage: u16,
    pub StateOfHealth: u16,
}

// Charge in mA·ms, full capacity in mAh; FullyDischarged is bit 4 of BatteryStatus.
#[derive(Clone, Copy)]
pub struct Level {
    pub charge: u64,
    pub full: u16,
    pub FullyDischarged: bool,
}

// All but the error code; the cells in mV.
#[derive(Clone, Copy)]
pub struct Thirteen {
    pub fixed: Fixed,
    pub latest: Latest,
    pub cells: [u16; 13],
    pub level: Level,
    pub recent: Recent,
}

// The error code stands apart: transactions change nothing but it.
#[derive(Clone, Copy)]
pub struct ThirteenState {
    pub error: u8,
    pub pack: Thirteen,
}

// ---- sound

fn fixed_sound(f: Fixed) -> bool
    ensures { result ≡ fixed_sound f }
{
    (f.DesignCapacity != 0) & (f.DesignVoltage != 0)
}

fn level_sound(l: Level) -> bool
    ensures { result ≡ level_sound l }
{
    (l.full != 0) & (l.charge <= capacity::milliamp_ms(l.full))
}

// Whether a state is sound: each of its parts is.
pub fn sound(s: ThirteenState) -> bool
    ensures { result ≡ sound_of s }
{
    fixed_sound(s.pack.fixed)
        & level_sound(s.pack.level)
        & recent::sound(s.pack.recent)
        & pack::error_sound(s.error)
}

// ---- set-up

// The all-zero state, which isn't sound.
pub fn zero() -> ThirteenState
    ensures { result ≡ zero_state }
{
    let fixed = Fixed {
        DesignCapacity: 0,
        DesignVoltage: 0,
        StateOfHealth: 0,
    };
    let latest = Latest {
        voltage: 0,
        current: 0,
        temperature: 0,
        counter: 0,
    };
    let cells = [0u16; 13];
    let level = Level {
        charge: 0,
        full: 0,
        FullyDischarged: false,
    };
    let recent = recent::zero();
    let pack = Thirteen {
        fixed: fixed,
        latest: latest,
        cells: cells,
        level: level,
        recent: recent,
    };
    ThirteenState {
        error: 0,
        pack: pack,
    }
}

fn level_of(u: Setup) -> Level
    requires { (0 < u.full) × (u.remaining ≤ u.full) }
    ensures { result ≡ level_of u }
{
    let charge = capacity::milliamp_ms(u.remaining);
    let full = u.full;
    let empty = capacity::fully_discharged(false, charge, full);
    Level {
        charge: charge,
        full: full,
        FullyDischarged: empty,
    }
}

fn pack_of(u: Setup, health: u16, first: Sample, cells: [u16; 13]) -> Thirteen
    requires { (0 < u.full) × (u.remaining ≤ u.full) }
    ensures { result ≡ pack_of u health first cells }
{
    let fixed = Fixed {
        DesignCapacity: u.DesignCapacity,
        DesignVoltage: u.DesignVoltage,
        StateOfHealth: health,
    };
    let latest = pack::latest_of(first);
    let level = level_of(u);
    let recent = recent::zero();
    Thirteen {
        fixed: fixed,
        latest: latest,
        cells: cells,
        level: level,
        recent: recent,
    }
}

// The pack's set-up, with the cells and the state of health beside it: answer 0 and a sound state, or 11 and the all-zero state.
pub fn set_up(u: Setup, health: u16, first: Sample, cells: [u16; 13]) -> Answered<ThirteenState>
    ensures { result ≡ set_up_of u health first cells }
{
    if start::refused(u) {
        let none = zero();
        return Answered {
            answer: 11,
            state: none,
        };
    }
    let pack = pack_of(u, health, first, cells);
    let state = ThirteenState {
        error: 0,
        pack: pack,
    };
    Answered {
        answer: 0,
        state: state,
    }
}

// ---- samples

// Charge after a sample, then bit 4.
fn level_after(l: Level, current: u16, elapsed: u32) -> Level
    requires { (0 < l.full) × (l.charge ≤ milliamp_ms l.full) }
    ensures { result ≡ level_after l current elapsed }
{
    let flow = tank::flowed(current, elapsed);
    let falls = words::falls(current);
    let top = capacity::milliamp_ms(l.full);
    let charge = tank::moved(l.charge, top, falls, flow);
    let empty = capacity::fully_discharged(l.FullyDischarged, charge, l.full);
    Level {
        charge: charge,
        full: l.full,
        FullyDischarged: empty,
    }
}

fn sampled(p: Thirteen, x: Sample, cells: [u16; 13]) -> Thirteen
    requires { SoundFacts p }
    ensures { result ≡ sampled_of p x cells }
{
    let time = clock::elapsed(x.counter, p.latest.counter);
    let latest = pack::latest_of(x);
    let level = level_after(p.level, latest.current, time);
    let recent = seconds::sampled(p.recent, latest.current, time);
    let fixed = p.fixed;
    Thirteen {
        fixed: fixed,
        latest: latest,
        cells: cells,
        level: level,
        recent: recent,
    }
}

// A sample with the cells that it brings: answer 0, or 1 with nothing changed.
pub fn sample(s: ThirteenState, x: Sample, cells: [u16; 13]) -> Answered<ThirteenState>
    ensures { result ≡ sample_of s x cells }
{
    if !sound(s) {
        return Answered {
            answer: 1,
            state: s,
        };
    }
    let pack = sampled(s.pack, x, cells);
    let state = ThirteenState {
        error: s.error,
        pack: pack,
    };
    Answered {
        answer: 0,
        state: state,
    }
}
