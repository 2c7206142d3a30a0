// The commands of the pack, each with its row, and the error code that an answer leaves. Only our own crates call these.
#![tactic(auto)]

ghost use Rattle.std.specs.Prelude.{◌≡◌};
ghost use Rattle.commands.specs.Answers.{write_answer, code_after};
ghost use Rattle.commands.specs.Commands.{kind_of};

// A command's row.
#[derive(Clone, Copy)]
pub enum Kind {
    ReadWrite,
    ReadOnly,
    WriteOnly,
    Block,
    Optional,
    Reserved,
}

// What a transaction gives back: its answer number, the state that is left, and the number of reply bytes.
#[derive(Clone, Copy)]
pub struct Transacted<S> {
    pub answer: u8,
    pub state: S,
    pub length: usize,
}

// The rows of 00 to 3F.
const KINDS: [Kind; 64] = [
    Kind::ReadWrite, // 00 ManufacturerAccess
    Kind::ReadWrite, // 01 RemainingCapacityAlarm
    Kind::ReadWrite, // 02 RemainingTimeAlarm
    Kind::ReadWrite, // 03 BatteryMode
    Kind::ReadWrite, // 04 AtRate
    Kind::ReadOnly, // 05 AtRateTimeToFull
    Kind::ReadOnly, // 06 AtRateTimeToEmpty
    Kind::ReadOnly, // 07 AtRateOK
    Kind::ReadOnly, // 08 Temperature
    Kind::ReadOnly, // 09 Voltage
    Kind::ReadOnly, // 0A Current
    Kind::ReadOnly, // 0B AverageCurrent
    Kind::ReadOnly, // 0C MaxError
    Kind::ReadOnly, // 0D RelativeStateOfCharge
    Kind::ReadOnly, // 0E AbsoluteStateOfCharge
    Kind::ReadOnly, // 0F RemainingCapacity
    Kind::ReadOnly, // 10 FullChargeCapacity
    Kind::ReadOnly, // 11 RunTimeToEmpty
    Kind::ReadOnly, // 12 AverageTimeToEmpty
    Kind::ReadOnly, // 13 AverageTimeToFull
    Kind::ReadOnly, // 14 ChargingCurrent
    Kind::ReadOnly, // 15 ChargingVoltage
    Kind::ReadOnly, // 16 BatteryStatus
    Kind::ReadOnly, // 17 CycleCount
    Kind::ReadOnly, // 18 DesignCapacity
    Kind::ReadOnly, // 19 DesignVoltage
    Kind::ReadOnly, // 1A SpecificationInfo
    Kind::ReadOnly, // 1B ManufactureDate
    Kind::ReadOnly, // 1C SerialNumber
    Kind::Reserved, // 1D
    Kind::Reserved, // 1E
    Kind::Reserved, // 1F
    Kind::Block, // 20 ManufacturerName
    Kind::Block, // 21 DeviceName
    Kind::Block, // 22 DeviceChemistry
    Kind::Block, // 23 ManufacturerData
    Kind::Reserved, // 24
    Kind::Reserved, // 25
    Kind::Reserved, // 26
    Kind::Reserved, // 27
    Kind::Reserved, // 28
    Kind::Reserved, // 29
    Kind::Reserved, // 2A
    Kind::Reserved, // 2B
    Kind::Reserved, // 2C
    Kind::Reserved, // 2D
    Kind::Reserved, // 2E
    Kind::Optional, // 2F OptionalMfgFunction5
    Kind::Reserved, // 30
    Kind::Reserved, // 31
    Kind::Reserved, // 32
    Kind::Reserved, // 33
    Kind::Reserved, // 34
    Kind::Reserved, // 35
    Kind::Reserved, // 36
    Kind::Reserved, // 37
    Kind::Reserved, // 38
    Kind::Reserved, // 39
    Kind::Reserved, // 3A
    Kind::Reserved, // 3B
    Kind::Optional, // 3C OptionalMfgFunction4
    Kind::Optional, // 3D OptionalMfgFunction3
    Kind::Optional, // 3E OptionalMfgFunction2
    Kind::Optional, // 3F OptionalMfgFunction1
];

// 40 to FF are reserved.
pub fn row(command: u8) -> Kind
    ensures { result ≡ kind_of command }
{
    if 0x3F < command {
        return Kind::Reserved;
    }
    KINDS[command as usize]
}

// What a right write is answered, by its command's row.
pub fn write_answer(kind: Kind) -> u8
    ensures { result ≡ write_answer kind }
{
    match kind {
        Kind::Reserved => 6,
        Kind::Optional => 7,
        Kind::Block => 8,
        Kind::ReadOnly => 8,
        Kind::WriteOnly => 0,
        Kind::ReadWrite => 0,
    }
}

// The error code left, by the answer.
pub fn code_after(answer: u8, before: u8) -> u8
    ensures { result ≡ code_after answer before }
{
    match answer {
        0 => 0,
        4 => 6,
        5 => 7,
        6 => 2,
        7 => 3,
        8 => 4,
        9 => 7,
        10 => 5,
        _ => before,
    }
}
