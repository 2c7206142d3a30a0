// A sample: the tank, the recent minute, hold and timers move on; then come the broadcasts.
#![tactic(auto)]

ghost use Rattle.std.specs.Prelude.{◌≡◌, ◌≤◌, true, length};
ghost use Rattle.clock.specs.Sample.{elapsed_of, moved_of};
ghost use Rattle.broadcasts.specs.Broadcasts.{broadcast_of, least_room};
ghost use Rattle.clock.specs.Broadcast.{served_sample, sample_of, broadcast_room};
ghost use Rattle.pack.specs.Facts.{SoundParts};
ghost use Rattle.pack.specs.Sound.{sound_of};
ghost use Rattle.rooms.specs.Rooms.{placed};

use pack::{Pack, Sample, State};

#[derive(Clone, Copy)]
pub struct Sampled {
    pub answer: u8,
    pub state: State,
    pub length: usize,
    pub messages: usize,
}

// The new reading minus the old, wrapping: never compared with "greater than".
pub fn elapsed(new: u32, old: u32) -> u32
    ensures { result ≡ elapsed_of new old }
{
    std::num::wrapping_sub_u32(new, old)
}

// The pack at the moment of sending.
fn moved(p: Pack, s: Sample) -> Pack
    requires { SoundParts p }
    ensures { result ≡ moved_of p s }
{
    let time = elapsed(s.counter, p.latest.counter);
    let latest = pack::latest_of(s);
    let recent = seconds::sampled(p.recent, latest.current, time);
    let tank = tank::sampled(p.settings, p.tank, latest, time);
    let timers = timers::sampled(p.host, p.timers, time);
    let host = timers::host_sampled(p.host, timers.hold);
    let settings = p.settings;
    Pack {
        settings: settings,
        host: host,
        latest: latest,
        recent: recent,
        tank: tank,
        timers: timers,
    }
}

// A sample on a sound state with room enough.
fn serve(s: State, sample: Sample, room: &mut [u8]) -> Sampled
    requires { (sound_of s ≡ true) × (least_room s.pack.settings.plain ≤ length room.old) }
    ensures result { result ≡ served_sample s sample }
    ensures memory { room.new ≡ placed (broadcast_of (moved_of s.pack sample)) room.old }
{
    let mut p = moved(s.pack, sample);
    let alarm = broadcasts::alarm_goes(p);
    let charger = broadcasts::charger_goes(p);
    let at = broadcasts::send_alarms(p, alarm, room);
    let length = broadcasts::send_charger_words(p, charger, room, at);
    let size = frame::message_size(p.settings.plain);
    let timers = timers::restarted(p.timers, alarm, charger);
    p.timers = timers;
    let state = State {
        error: s.error,
        pack: p,
    };
    Sampled {
        answer: 0,
        state: state,
        length: length,
        messages: length / size,
    }
}

// A sample: answer 0 with the messages at the front of the room, or 1 or 2 with nothing changed.
pub fn sample(s: State, sample: Sample, room: &mut [u8]) -> Sampled
    ensures result { result ≡ sample_of s sample (length room.old) }
    ensures memory { room.new ≡ broadcast_room s sample room.old }
{
    if !pack::sound(s) {
        return Sampled {
            answer: 1,
            state: s,
            length: 0,
            messages: 0,
        };
    }
    if room.len() < broadcasts::least_room(s.pack.settings.plain) {
        return Sampled {
            answer: 2,
            state: s,
            length: 0,
            messages: 0,
        };
    }
    serve(s, sample, room)
}
