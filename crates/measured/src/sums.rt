// What answers leave in the sum.
ghost use Rattle.std.specs.Prelude.{◌≡◌};
ghost use Rattle.measured.specs.Sums.{stirred, answer_number, block_stirred, field_stirred};

use port_spec::Answer;
use registers::Registers;

// Three times the sum, and a number more.
#[tactic(auto, unfolding(crate::specs::Sums::stirred))]
pub(crate) fn stir(sum: u32, n: u32) -> u32
    ensures { result ≡ stirred sum n }
{
    sum.wrapping_mul(3).wrapping_add(n)
}

// An answer as one number.
#[tactic(auto, unfolding(crate::specs::Sums::answer_number))]
pub(crate) fn number_of_answer(a: Answer) -> u32
    ensures { result ≡ answer_number a }
{
    u32::from(a.word)
        + 65536 * u32::from(a.number)
        + 16777216 * u32::from(a.hollow)
        + 33554432 * u32::from(a.cycle)
}

// What a block leaves, in the sum.
#[tactic(auto, unfolding(crate::specs::Sums::block_stirred))]
pub(crate) fn stir_block(sum: u32, marked: u16, r: Registers) -> u32
    ensures { result ≡ block_stirred sum marked r }
{
    stir(
        stir(stir(sum, u32::from(marked)), r.pointer.0),
        u32::from(r.latch),
    )
}

// What a field call answers, in the sum: its value and its cycles, or the number that refused it.
// (The number as the call returned it, 0 where it is done: `field_stirred` goes by it.)
#[tactic(auto, unfolding(crate::specs::Sums::field_stirred))]
pub(crate) fn stir_field(sum: u32, number: u8, value: u32, cycles: u32) -> u32
    ensures { result ≡ field_stirred sum number value cycles }
{
    match number {
        0 => stir(stir(sum, value), cycles),
        _ => stir(sum, u32::from(number)),
    }
}
