// What a sample does to the hold and the two timers. Only our own crates call it.
#![tactic(auto)]

ghost use Rattle.std.specs.Prelude.{◌≡◌, true};
ghost use Rattle.pack.specs.Sound.{timers_sound};
ghost use Rattle.timers.specs.Countdown.{host_after, timers_after, restarted_of};

use pack::{Host, Timers};

// At 30,000 the charger timer needn't count on: its words go.
pub fn sampled(h: Host, t: Timers, elapsed: u32) -> Timers
    requires { timers_sound h t ≡ true }
    ensures { result ≡ timers_after t h.ChargerMode elapsed }
{
    Timers {
        hold: t.hold.saturating_sub(elapsed),
        alarm: t.alarm.saturating_add(elapsed).min(10000),
        charger: if h.ChargerMode {
            0
        } else {
            t.charger.saturating_add(elapsed).min(30000)
        },
    }
}

// What the countdown leaves of ALARM_MODE.
pub fn host_sampled(h: Host, hold: u32) -> Host
    ensures { result ≡ host_after h hold }
{
    Host {
        AlarmMode: h.AlarmMode & (hold != 0),
        ..h
    }
}

pub fn restarted(t: Timers, alarm: bool, charger: bool) -> Timers
    ensures { result ≡ restarted_of t alarm charger }
{
    Timers {
        alarm: if alarm { 0 } else { t.alarm },
        charger: if charger { 0 } else { t.charger },
        ..t
    }
}
