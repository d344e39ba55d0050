// What the numbers of a record say. Each function takes the whole record: `[u8; 108]` says how long that is, and a struct around it would
// say no more.
ghost use Rattle.std.specs.Prelude.{◌≡◌, ◌<◌};
ghost use Rattle.sheet_trial.specs.Record.{number, wide, registers_in, table_in, rule_in, time_in};

use registers::Registers;
use sheet_spec::TimeStruck;
use words::BitAddress;

// Number k of a record.
pub(crate) fn number_at(bytes: &[u8; 108], k: usize) -> u16
    requires { k < 54 }
    ensures { result ≡ number bytes.now k }
{
    u16::from_le_bytes([bytes[2 * k], bytes[2 * k + 1]])
}

// The number of 32 bits whose low half is number k: two numbers, as the table of a script has them, and not four bytes.
fn wide_at(bytes: &[u8; 108], k: usize) -> u32
    requires { k < 53 }
    ensures { result ≡ wide bytes.now k }
{
    u32::from(number_at(bytes, k)) + 65536 * u32::from(number_at(bytes, k + 1))
}

pub(crate) fn registers_of(bytes: &[u8; 108]) -> Registers
    ensures { result ≡ registers_in bytes.now }
{
    Registers {
        pointer: BitAddress(wide_at(bytes, 0)),
        latch: number_at(bytes, 2),
        control: number_at(bytes, 3),
        hollow: number_at(bytes, 4) % 2 == 1,
    }
}

pub(crate) fn table_of(bytes: &[u8; 108]) -> BitAddress
    ensures { result ≡ table_in bytes.now }
{
    BitAddress(wide_at(bytes, 5))
}

pub(crate) fn rule_of(bytes: &[u8; 108]) -> u32
    ensures { result ≡ rule_in bytes.now }
{
    wide_at(bytes, 7)
}

pub(crate) fn time_of(bytes: &[u8; 108]) -> TimeStruck
    ensures { result ≡ time_in bytes.now }
{
    TimeStruck {
        hours: wide_at(bytes, 9),
        quarters: wide_at(bytes, 11),
        minutes: wide_at(bytes, 13),
    }
}
