// 16 BatteryStatus of the thirteen-cell pack, bit by bit. Only our own crates call it.
#![tactic(auto)]

ghost use Rattle.std.specs.Prelude.{◌≡◌, ◌&&◌, leb, ltb};
ghost use Rattle.thirteen_status.specs.Status.{hundredths, celsius, is_hot, status_of};

use thirteen_pack::Thirteen;

// Bit 13; 50 °C is 323.15 K and 60 °C 333.15 K, between two steps of 0.1 K each.
fn over_temperature(rises: bool, falls: bool, temperature: u16) -> bool
    ensures { result ≡ is_hot rises falls temperature }
{
    (rises & (3232 <= temperature)) | (falls & (3332 <= temperature))
}

// Bit 12; 0 °C is 273.15 K.
fn under_temperature(temperature: u16) -> bool
    ensures { result ≡ leb (hundredths temperature) (celsius 0) }
{
    temperature <= 2731
}

// Bit 11.
fn discharge_over_current(falls: bool, size: u32) -> bool
    ensures { result ≡ falls && leb 15000 size }
{
    falls & (15000 <= size)
}

// Bit 10.
fn charge_over_current(rises: bool, size: u32) -> bool
    ensures { result ≡ rises && leb 2000 size }
{
    rises & (2000 <= size)
}

// Bit 9.
fn over_voltage(voltage: u16) -> bool
    ensures { result ≡ leb 54800 voltage }
{
    54800 <= voltage
}

// Bit 8.
fn under_voltage(voltage: u16) -> bool
    ensures { result ≡ leb voltage 39000 }
{
    voltage <= 39000
}

// Bit 5.
fn fully_charged(rises: bool, size: u32, voltage: u16) -> bool
    ensures { result ≡ rises && leb size 99 && ltb 51000 voltage }
{
    rises & (size <= 99) & (51000 < voltage)
}

// 16 BatteryStatus; INITIALIZED alone is 0x0080.
pub fn status(p: Thirteen) -> u16
    ensures { result ≡ status_of p }
{
    let x = p.latest;
    let rises = words::rises(x.current);
    let falls = words::falls(x.current);
    let size = words::size(x.current);
    let hot = registers::flag(over_temperature(rises, falls, x.temperature), 0x2000);
    let cold = registers::flag(under_temperature(x.temperature), 0x1000);
    let drawn = registers::flag(discharge_over_current(falls, size), 0x0800);
    let put = registers::flag(charge_over_current(rises, size), 0x0400);
    let high = registers::flag(over_voltage(x.voltage), 0x0200);
    let low = registers::flag(under_voltage(x.voltage), 0x0100);
    let falling = registers::flag(falls, 0x0040);
    let charged = registers::flag(fully_charged(rises, size, x.voltage), 0x0020);
    let empty = registers::flag(p.level.FullyDischarged, 0x0010);
    hot + cold + drawn + put + high + low + 0x0080 + falling + charged + empty
}
