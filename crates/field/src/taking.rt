// Taking a field out, as an unsigned number.
ghost use Rattle.std.specs.Prelude.{◌≡◌, ◌+◌, ◌≤◌, length};
ghost use Rattle.words.specs.Refusals.{refusal_number};
ghost use Rattle.field_spec.specs.Answers.{Accepted, done_taking, taken};
ghost use Rattle.field.specs.Parts.{refused_taking, window};

use crate::judging::judge;
use crate::places::touched_by;
use field_spec::Taken;
use words::{BitAddress, Refusal, word_of};

// One, two or three words from word i on, as one number, the first word lowest. (Read at once, they need no loop, and the field is
// then one quotient and one remainder. This shape was tuned against plain C, docs/SPEED.md, as was that of `scatter`.)
fn window_at(memory: &[u16], i: usize, words: u32) -> u64
    requires { (1 ≤ words) × ((words ≤ 3) × (i + words ≤ length memory.now)) }
    ensures { result ≡ window memory.now i words }
{
    let first = u64::from(memory[i]);
    if words == 1 {
        return first;
    }
    let second = u64::from(memory[i + 1]);
    if words == 2 {
        return second * 65536 + first;
    }
    let third = u64::from(memory[i + 2]);
    (third * 65536 + second) * 65536 + first
}

// Takes an accepted field out, one cycle for each word.
pub(crate) fn gather(memory: &[u16], at: BitAddress, size: u32) -> Taken<u32>
    requires { Accepted (length memory.now) at size }
    ensures { result ≡ done_taking memory.now at size }
{
    let words = touched_by(at, size);
    let window = window_at(memory, word_of(at).0 as usize, words);
    let value = (window >> (at.0 % 16)) % (1u64 << size);
    Taken {
        number: 0,
        value: value as u32,
        cycles: words,
    }
}

// A refusal: its number, the zero of the type that is asked for, and no cycles.
pub(crate) fn refuse<T>(refusal: Refusal, zero: T) -> Taken<T>
    ensures { result ≡ refused_taking (refusal_number refusal) zero }
{
    Taken {
        number: u8::from(refusal),
        value: zero,
        cycles: 0,
    }
}

// Takes the field of `size` bits at a bit address out.
#[tactic(auto, unfolding(field_spec::specs::Answers::taken), using(field_spec::proofs::Accepted::none_applies))]
pub fn take_out(memory: &[u16], at: BitAddress, size: u32) -> Taken<u32>
    ensures { result ≡ taken memory.now at size }
{
    if let Err(refusal) = judge(memory.len(), at, size) {
        return refuse(refusal, 0);
    }
    gather(memory, at, size)
}
