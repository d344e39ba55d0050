// The sixteen places behind the port: one read, one written.
ghost use Rattle.std.specs.Prelude.{◌≡◌};
ghost use Rattle.bank_spec.specs.Registers.{bank_at, with_bank, half, with_half, value_of, with_value, half_at, with_half_at};

use bank_spec::{Bank, Banks};

// Bank n.
#[tactic(auto, unfolding(bank_spec::specs::Registers::bank_at))]
fn bank_at(b: Banks, n: u32) -> Bank
    ensures { result ≡ bank_at b n }
{
    match n {
        0 => b.bank0,
        1 => b.bank1,
        2 => b.bank2,
        _ => b.bank3,
    }
}

// The registers with bank n made k, and the others as they stood.
#[tactic(auto, unfolding(bank_spec::specs::Registers::with_bank))]
fn with_bank(b: Banks, n: u32, k: Bank) -> Banks
    ensures { result ≡ with_bank b n k }
{
    match n {
        0 => Banks { bank0: k, ..b },
        1 => Banks { bank1: k, ..b },
        2 => Banks { bank2: k, ..b },
        3 => Banks { bank3: k, ..b },
        _ => b,
    }
}

// What follows takes truth values and no enums, as the definitions do that it is equal to: `half` and `value_of`, by `is_high` and
// `is_mask`. The halves are quotient and remainder, as there: by way of a number's four bytes they would take more words.

// A half of a 32-bit value.
#[tactic(auto, unfolding(bank_spec::specs::Registers::half))]
fn half_of(high: bool, v: u32) -> u16
    ensures { result ≡ half high v }
{
    if high {
        (v / 65536) as u16
    } else {
        (v % 65536) as u16
    }
}

// The value with a half replaced.
#[tactic(auto, unfolding(bank_spec::specs::Registers::with_half))]
fn with_half(high: bool, v: u32, w: u16) -> u32
    ensures { result ≡ with_half high v w }
{
    let w = u32::from(w);
    if high {
        w * 65536 + v % 65536
    } else {
        v / 65536 * 65536 + w
    }
}

// A bank's mask or its compare value.
#[tactic(auto, unfolding(bank_spec::specs::Registers::value_of))]
fn value_of(mask: bool, k: Bank) -> u32
    ensures { result ≡ value_of mask k }
{
    if mask { k.mask } else { k.compare }
}

// The bank with its mask or its compare value replaced.
#[tactic(auto, unfolding(bank_spec::specs::Registers::with_value))]
fn with_value(mask: bool, k: Bank, v: u32) -> Bank
    ensures { result ≡ with_value mask k v }
{
    if mask {
        Bank { mask: v, ..k }
    } else {
        Bank { compare: v, ..k }
    }
}

// The half at place i.
#[tactic(auto, unfolding(bank_spec::specs::Registers::half_at))]
pub(crate) fn half_at(b: Banks, i: u32) -> u16
    ensures { result ≡ half_at b i }
{
    let k = bank_at(b, i / 2 % 4);
    half_of(i % 2 == 1, value_of(7 < i, k))
}

// The registers with the half at place i replaced.
#[tactic(auto, unfolding(bank_spec::specs::Registers::with_half_at))]
pub(crate) fn with_half_at(b: Banks, i: u32, w: u16) -> Banks
    ensures { result ≡ with_half_at b i w }
{
    let n = i / 2 % 4;
    let k = bank_at(b, n);
    let v = with_half(i % 2 == 1, value_of(7 < i, k), w);
    with_bank(b, n, with_value(7 < i, k, v))
}
