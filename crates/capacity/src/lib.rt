// Products from 16-bit parts, and the rules of capacity: 10 mWh, percent and bit 4. Only our own crates call these.
#![tactic(auto)]

ghost use Rattle.std.specs.Prelude.{◌≡◌, ◌+◌, ◌*◌, ◌%◌, ◌^◌, ◌≤◌, ◌<◌};
ghost use Rattle.capacity.specs.Capacity.{power_of, energy_of, capped_word, milliamp_ms, percent_of, fully_discharged_of};

// 16 bits by 16: the one multiply that the pack's processor has, and the only one here.
pub fn product16(a: u16, b: u16) -> u32
    ensures { result ≡ a * b }
{
    // Cast where they meet: so tools/wide-multiply sees that each factor has 16 bits.
    (a as u32) * (b as u32)
}

// A number's lowest 16 bits.
fn low16(x: u64) -> u16
    ensures { result ≡ x % 65536 }
{
    (x % 65536) as u16
}

// A part's product, with what the part below carries.
fn carried(part: u16, factor: u16, carry: u32) -> u32
    requires { carry < 65536 }
    ensures { result ≡ part * factor + carry }
{
    product16(part, factor) + carry
}

// A wide number by a 16-bit one, part by part.
pub fn product(amount: u64, factor: u16) -> u64
    requires { amount < 2 ^ 48 }
    ensures { result ≡ amount * factor }
{
    let above = amount >> 16;
    let low = carried(low16(amount), factor, 0);
    let middle = carried(low16(above), factor, low >> 16);
    let high = carried(low16(above >> 16), factor, middle >> 16);
    let below = ((middle % 65536) << 16) + low % 65536;
    (u64::from(high) << 32) + u64::from(below)
}

pub fn capped(x: u64) -> u16
    ensures { result ≡ capped_word x }
{
    x.min(65535) as u16
}

// Of mAh in 10 mWh, of mA in 10 mW.
pub fn power(amount: u64, voltage: u16) -> u64
    requires { amount ≤ 65535 }
    ensures { result ≡ power_of amount voltage }
{
    u64::from(product16(amount as u16, voltage) / 10000)
}

// Of mA·ms in 10 mWh.
pub fn energy(charge: u64, voltage: u16) -> u64
    requires { charge ≤ 65535 * 3600000 }
    ensures { result ≡ energy_of charge voltage }
{
    product(charge, voltage) / 36000000000
}

pub fn milliamp_ms(capacity: u16) -> u64
    ensures is { result ≡ milliamp_ms capacity }
    ensures small { result ≤ 65535 * 3600000 }
{
    product(3600000, capacity)
}

pub fn percent(charge: u64, capacity: u16) -> u64
    requires { (charge ≤ 65535 * 3600000) × (0 < capacity) }
    ensures { result ≡ percent_of charge capacity }
{
    product(charge, 100) / milliamp_ms(capacity)
}

// RelativeStateOfCharge: with charge up to full it is at most 100 by itself.
pub fn relative(charge: u64, full: u16) -> u16
    requires { (0 < full) × (charge ≤ milliamp_ms full) }
    ensures { result ≡ percent_of charge full }
{
    percent(charge, full) as u16
}

// FULLY_DISCHARGED after charge has moved.
pub fn fully_discharged(before: bool, charge: u64, full: u16) -> bool
    requires { (0 < full) × (charge ≤ milliamp_ms full) }
    ensures { result ≡ fully_discharged_of before charge full }
{
    if charge == 0 {
        return true;
    }
    if 20 <= relative(charge, full) {
        return false;
    }
    before
}
