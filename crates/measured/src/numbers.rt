// The numbers of a script, and what they stand for.
ghost use Rattle.std.specs.Prelude.{◌≡◌, ◌+◌, ◌≤◌, length};
ghost use Rattle.std.specs.Int.Signed.{mag};
ghost use Rattle.measured.specs.Script.{number_in, record_in, access_in, begun_at};

use crate::Record;
use port_spec::Access;
use registers::Registers;
use words::{BitAddress, join_four};

// The number at a place of a record.
#[tactic(auto, unfolding(crate::specs::Script::number_in))]
fn number_at(bytes: &[u8], at: usize) -> u32
    requires { at + 4 ≤ length bytes.now }
    ensures { result ≡ number_in bytes.now at }
{
    join_four(bytes[at], bytes[at + 1], bytes[at + 2], bytes[at + 3])
}

// The record that 16 bytes are.
pub(crate) fn record_of(bytes: &[u8]) -> Record
    requires { 16 ≤ length bytes.now }
    ensures { result ≡ record_in bytes.now 0 }
{
    Record {
        kind: number_at(bytes, 0),
        first: number_at(bytes, 4),
        second: number_at(bytes, 8),
        third: number_at(bytes, 12),
    }
}

// The access that a record says.
#[tactic(auto, unfolding(crate::specs::Script::access_in))]
pub(crate) fn access_of(x: Record) -> Access
    ensures { result ≡ access_in x.kind x.first x.second x.third }
{
    match x.kind {
        0 => Access::Read {
            register: x.first,
            lanes: x.second,
        },
        _ => Access::Write {
            register: x.first,
            lanes: x.second,
            word: (x.third % 65536) as u16,
        },
    }
}

// The registers that a block begins with.
pub(crate) fn begin_at(r: Registers, pointer: u32) -> Registers
    ensures { result ≡ begun_at r pointer }
{
    Registers {
        pointer: BitAddress(pointer),
        control: 0x1800,
        ..r
    }
}

// How far a number lies from 0, or, if it is negative, from -1.
pub(crate) fn magnitude_of(n: i32) -> u32
    ensures { result ≡ mag n }
{
    if n < 0 {
        !n.cast_unsigned()
    } else {
        n.cast_unsigned()
    }
}
