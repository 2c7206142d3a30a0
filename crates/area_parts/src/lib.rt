// The parts of the state in lent bytes, each with its own: stored, tested and loaded.
#![tactic(auto)]

ghost use Rattle.std.specs.Prelude.{◌≡◌, length};
ghost use Rattle.recent.specs.Fits.{RecentFit};
ghost use Rattle.numbers.specs.Numbers.{bytes_taken};
ghost use Rattle.area_parts.specs.Parts.{settings_widths, host_widths, latest_widths, tank_widths, timers_widths, recent_widths, settings_bytes, host_bytes, latest_bytes, tank_bytes, timers_bytes, recent_bytes, settings_in, host_in, latest_in, tank_in, timers_in, recent_in, is_settings, is_host, is_tank};

use numbers::{number_at, numbers_at, put_number, put_numbers};
use pack::{Host, Latest, Run, Settings, Tank, Timers};
use recent::Recent;

pub fn put_settings(part: &mut [u8], s: Settings)
    requires { length part.old ≡ bytes_taken settings_widths }
    ensures { part.new ≡ settings_bytes s }
{
    put_numbers(
        part,
        0,
        &[
            s.DesignCapacity,
            s.DesignVoltage,
            s.MaxError,
            s.ManufactureDate,
            s.SerialNumber,
            s.ChargingCurrent,
            s.ChargingVoltage,
            s.TemperatureLimit,
            s.DischargeLimit,
        ],
    );
    part[18] = u8::from(s.plain);
}

pub fn put_host(part: &mut [u8], h: Host)
    requires { length part.old ≡ bytes_taken host_widths }
    ensures { part.new ≡ host_bytes h }
{
    put_numbers(
        part,
        0,
        &[
            h.ManufacturerAccess,
            h.RemainingCapacityAlarm,
            h.RemainingTimeAlarm,
            h.AtRate,
        ],
    );
    part[8] = u8::from(h.AlarmMode);
    part[9] = u8::from(h.ChargerMode);
    part[10] = u8::from(h.CapacityMode);
}

pub fn put_latest(part: &mut [u8], l: Latest)
    requires { length part.old ≡ bytes_taken latest_widths }
    ensures { part.new ≡ latest_bytes l }
{
    put_numbers(part, 0, &[l.voltage, l.current, l.temperature]);
    put_number(part, 6, 4, u64::from(l.counter));
}

pub fn put_tank(part: &mut [u8], t: Tank)
    requires { length part.old ≡ bytes_taken tank_widths }
    ensures { part.new ≡ tank_bytes t }
{
    put_number(part, 0, 8, t.charge);
    put_numbers(part, 8, &[t.full, t.CycleCount]);
    part[12] = u8::from(t.FullyDischarged);
    put_number(part, 13, 8, t.toward);
    put_number(part, 21, 8, t.run.drawn);
    part[29] = u8::from(t.run.opened);
}

pub fn put_timers(part: &mut [u8], t: Timers)
    requires { length part.old ≡ bytes_taken timers_widths }
    ensures { part.new ≡ timers_bytes t }
{
    put_number(part, 0, 4, u64::from(t.hold));
    put_number(part, 4, 4, u64::from(t.alarm));
    put_number(part, 8, 4, u64::from(t.charger));
}

pub fn put_recent(part: &mut [u8], r: Recent)
    requires { length part.old ≡ bytes_taken recent_widths }
    ensures memory { part.new ≡ recent_bytes r }
    ensures fit { RecentFit r }
{
    put_numbers(part, 0, &r.totals);
    put_number(part, 240, 1, r.count as u64);
    put_number(part, 241, 2, u64::from(r.begun));
    put_number(part, 243, 4, u64::from(r.total));
}

pub fn settings_in(part: &[u8]) -> Settings
    requires { length part.now ≡ bytes_taken settings_widths }
    ensures { result ≡ settings_in part.now }
{
    let mut w = [0u16; 9];
    numbers_at(part, 0, &mut w);
    Settings {
        DesignCapacity: w[0],
        DesignVoltage: w[1],
        MaxError: w[2],
        ManufactureDate: w[3],
        SerialNumber: w[4],
        ChargingCurrent: w[5],
        ChargingVoltage: w[6],
        TemperatureLimit: w[7],
        DischargeLimit: w[8],
        plain: number_at::<u8>(part, 18) == 1,
    }
}

pub fn is_settings(part: &[u8]) -> bool
    requires { length part.now ≡ bytes_taken settings_widths }
    ensures { result ≡ is_settings part.now }
{
    number_at::<u8>(part, 18) <= 1
}

pub fn host_in(part: &[u8]) -> Host
    requires { length part.now ≡ bytes_taken host_widths }
    ensures { result ≡ host_in part.now }
{
    let mut w = [0u16; 4];
    numbers_at(part, 0, &mut w);
    Host {
        ManufacturerAccess: w[0],
        RemainingCapacityAlarm: w[1],
        RemainingTimeAlarm: w[2],
        AtRate: w[3],
        AlarmMode: number_at::<u8>(part, 8) == 1,
        ChargerMode: number_at::<u8>(part, 9) == 1,
        CapacityMode: number_at::<u8>(part, 10) == 1,
    }
}

pub fn is_host(part: &[u8]) -> bool
    requires { length part.now ≡ bytes_taken host_widths }
    ensures { result ≡ is_host part.now }
{
    (number_at::<u8>(part, 8) <= 1)
        & (number_at::<u8>(part, 9) <= 1)
        & (number_at::<u8>(part, 10) <= 1)
}

pub fn latest_in(part: &[u8]) -> Latest
    requires { length part.now ≡ bytes_taken latest_widths }
    ensures { result ≡ latest_in part.now }
{
    let mut w = [0u16; 3];
    numbers_at(part, 0, &mut w);
    Latest {
        voltage: w[0],
        current: w[1],
        temperature: w[2],
        counter: number_at(part, 6),
    }
}

pub fn tank_in(part: &[u8]) -> Tank
    requires { length part.now ≡ bytes_taken tank_widths }
    ensures { result ≡ tank_in part.now }
{
    let run = Run {
        opened: number_at::<u8>(part, 29) == 1,
        drawn: number_at(part, 21),
    };
    Tank {
        charge: number_at(part, 0),
        full: number_at(part, 8),
        CycleCount: number_at(part, 10),
        FullyDischarged: number_at::<u8>(part, 12) == 1,
        toward: number_at(part, 13),
        run,
    }
}

pub fn is_tank(part: &[u8]) -> bool
    requires { length part.now ≡ bytes_taken tank_widths }
    ensures { result ≡ is_tank part.now }
{
    (number_at::<u8>(part, 12) <= 1) & (number_at::<u8>(part, 29) <= 1)
}

pub fn timers_in(part: &[u8]) -> Timers
    requires { length part.now ≡ bytes_taken timers_widths }
    ensures { result ≡ timers_in part.now }
{
    Timers {
        hold: number_at(part, 0),
        alarm: number_at(part, 4),
        charger: number_at(part, 8),
    }
}

pub fn recent_in(part: &[u8]) -> Recent
    requires { length part.now ≡ bytes_taken recent_widths }
    ensures { result ≡ recent_in part.now }
{
    let mut totals = [0u32; 60];
    numbers_at(part, 0, &mut totals);
    Recent {
        totals,
        count: usize::from(number_at::<u8>(part, 240)),
        begun: number_at(part, 241),
        total: number_at(part, 243),
    }
}
