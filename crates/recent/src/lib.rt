// The recent minute: what set-up begins it with, when it is sound, and its average. (What a sample makes of it is `seconds`.)
#![tactic(auto)]

ghost use Rattle.std.specs.Prelude.{◌≡◌, ◌*◌, ◌<◌, ◌≤◌, true, length};
ghost use Rattle.recent.specs.Recent.{zero_recent, total_sound, totals_sound, recent_sound, sum_of, average_of};

// The totals of complete seconds as 32-bit words: the newest first, as many as count says; the begun second's milliseconds and total.
#[derive(Clone, Copy)]
pub struct Recent {
    pub totals: [u32; 60],
    pub count: usize,
    pub begun: u16,
    pub total: u32,
}

// None complete, none begun: at set-up, and in the all-zero state.
pub fn zero() -> Recent
    ensures { result ≡ zero_recent }
{
    Recent {
        totals: [0; 60],
        count: 0,
        begun: 0,
        total: 0,
    }
}

// Whether signed 16-bit currents can give a total in so many milliseconds.
fn total_sound(ms: u16, total: u32) -> bool
    requires { ms ≤ 1000 }
    ensures { result ≡ total_sound ms total }
{
    let out = capacity::product16(32768, ms) as i32;
    let into = capacity::product16(32767, ms) as i32;
    let total = total.cast_signed();
    (-out <= total) & (total <= into)
}

// No way out of the loop before its end: so it runs on several totals at once.
fn totals_sound(totals: &[u32]) -> bool
    ensures { result ≡ totals_sound totals.now }
{
    let mut all = true;
    for total in totals {
        all &= total_sound(1000, *total);
    }
    all
}

// Whether 0 to 60 complete seconds are kept and one under 1,000 ms is begun, each with a total that currents can give.
pub fn sound(r: Recent) -> bool
    ensures { result ≡ recent_sound r }
{
    r.count <= 60
        && r.begun < 1000
        && totals_sound(&r.totals[..r.count])
        && total_sound(r.begun, r.total)
}

// The sum of sound totals: in a minute it fits.
fn summed(totals: &[u32]) -> i32
    requires few { length totals.now ≤ 60 }
    requires sound { totals_sound totals.now ≡ true }
    ensures { result ≡ sum_of totals.now (length totals.now) }
{
    let mut sum = 0;
    for total in totals {
        sum += total.cast_signed();
    }
    sum
}

// AverageCurrent: over the complete seconds that are kept; with none, the latest current.
pub fn average(r: Recent, latest: u16) -> u16
    requires { recent_sound r ≡ true }
    ensures { result ≡ average_of r latest }
{
    if r.count == 0 {
        return latest;
    }
    let sum = summed(&r.totals[..r.count]);
    let ms = capacity::product16(1000, r.count as u16) as i32;
    let mean = sum / ms;
    words::kept(mean as i16)
}
