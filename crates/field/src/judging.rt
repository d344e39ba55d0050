// Why a field is refused. Document 01, "Numbers returned": 1, 4, 5 and 6.
ghost use Rattle.std.specs.Prelude.{◌≡◌};
ghost use Rattle.words.specs.Refusals.{number_returned};
ghost use Rattle.field_spec.specs.Answers.{no_size, refusal};

use crate::places::touched_by;
use words::{BitAddress, Refusal, is_over_limit, word_of};

// A field can't have so many bits.
#[tactic(auto, unfolding(field_spec::specs::Answers::no_size))]
fn is_no_size(size: u32) -> bool
    ensures { result ≡ no_size size }
{
    size < 1 || 32 < size
}

// The first reason of the four that applies, if any does. (By the number of words and not the memory, as `refusal` has it.)
#[tactic(auto, unfolding(field_spec::specs::Answers::refusal))]
pub(crate) fn judge(words: usize, at: BitAddress, size: u32) -> Result<(), Refusal>
    ensures { number_returned result ≡ refusal words at size }
{
    if is_over_limit(words) {
        return Err(Refusal::MemoryOverLimit);
    }
    if is_no_size(size) {
        return Err(Refusal::NoFieldSize);
    }
    let count = touched_by(at, size);
    if 3 < count {
        return Err(Refusal::FourthWord);
    }
    let last = word_of(at).0 + count - 1;
    if words <= last as usize {
        return Err(Refusal::BeyondMemory);
    }
    Ok(())
}
