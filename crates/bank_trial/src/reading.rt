// What the bytes of a record say.
ghost use Rattle.std.specs.Prelude.{◌≡◌, ◌<◌};
ghost use Rattle.bank_trial.specs.Record.{number_at, word_from, number_in, word_in, address_in, control_in, bank_in, port_in};

use bank_spec::{Bank, BankPort, Banks};
use words::{BitAddress, join_four};

// ---- numbers, low byte first

// The number whose first byte is byte k.
fn number_at(bytes: &[u8; 40], k: usize) -> u32
    requires { k < 37 }
    ensures { result ≡ number_at bytes.now k }
{
    join_four(bytes[k], bytes[k + 1], bytes[k + 2], bytes[k + 3])
}

// The word whose first byte is byte k.
fn word_at(bytes: &[u8; 40], k: usize) -> u16
    requires { k < 39 }
    ensures { result ≡ word_from bytes.now k }
{
    u16::from_le_bytes([bytes[k], bytes[k + 1]])
}

// ---- what they are

// The index, the lanes or the kind.
pub(crate) fn number_in(bytes: &[u8; 40]) -> u32
    ensures { result ≡ number_in bytes.now }
{
    number_at(bytes, 4)
}

// The word of a write.
pub(crate) fn word_in(bytes: &[u8; 40]) -> u16
    ensures { result ≡ word_in bytes.now }
{
    word_at(bytes, 8)
}

// The address of a decode.
pub(crate) fn address_in(bytes: &[u8; 40]) -> BitAddress
    ensures { result ≡ address_in bytes.now }
{
    BitAddress(number_at(bytes, 8))
}

// The control word of a decode.
pub(crate) fn control_in(bytes: &[u8; 40]) -> u16
    ensures { result ≡ control_in bytes.now }
{
    word_at(bytes, 12)
}

// Bank n of a fresh start.
fn bank_in(bytes: &[u8; 40], n: usize) -> Bank
    requires { n < 4 }
    ensures { result ≡ bank_in bytes.now n }
{
    Bank {
        compare: number_at(bytes, 8 + 8 * n),
        mask: number_at(bytes, 12 + 8 * n),
    }
}

// The port of a fresh start.
pub(crate) fn port_in(bytes: &[u8; 40]) -> BankPort
    ensures { result ≡ port_in bytes.now }
{
    BankPort {
        banks: Banks {
            bank0: bank_in(bytes, 0),
            bank1: bank_in(bytes, 1),
            bank2: bank_in(bytes, 2),
            bank3: bank_in(bytes, 3),
        },
        index: number_in(bytes),
    }
}
