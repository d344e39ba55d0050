// An answer as one number.
ghost use Rattle.std.specs.Prelude.{◌≡◌};
ghost use Rattle.words.specs.Refusals.{refusal_number};
ghost use Rattle.door_spec.specs.Answer.{packed, refusing};

use port_spec::{Answer, Cycle};
use words::Refusal;

// The answer packed into one number: its parts lie side by side, so the sum fits.
// (In 64 bits, since 32 to 59 are kept for a word number: `measured` sums the same parts in 32.)
#[tactic(auto, unfolding(door_spec::specs::Answer::packed), using(crate::proofs::Marks::as_bit))]
pub(crate) fn pack(a: Answer) -> u64
    ensures { result ≡ packed a }
{
    let word = u64::from(a.word);
    let number = u64::from(a.number);
    let mark = u64::from(a.hollow);
    let cycle = u64::from(u32::from(a.cycle));
    word + 65536 * number + 16777216 * mark + 33554432 * cycle
}

// What a call that is refused answers.
pub(crate) fn refuse(refusal: Refusal) -> u64
    ensures { result ≡ packed (refusing (refusal_number refusal)) }
{
    pack(Answer {
        number: u8::from(refusal),
        word: 0,
        hollow: false,
        cycle: Cycle::None,
    })
}
