// Whether a block is allowed.
ghost use Rattle.std.specs.Prelude.{◌≡◌};
ghost use Rattle.words.specs.Refusals.{number_returned};
ghost use Rattle.block_spec.specs.Block.{block_refusal};

use words::{Refusal, is_over_limit};

// Refused as number 1 or 10, where one applies. Place plus count is never formed before it is known to fit.
#[tactic(auto, unfolding(block_spec::specs::Block::block_refusal))]
pub(crate) fn judge(words: usize, room: usize, place: usize, count: usize) -> Result<(), Refusal>
    ensures { number_returned result ≡ block_refusal words room place count }
{
    if is_over_limit(words) {
        return Err(Refusal::MemoryOverLimit);
    }
    if 4096 < count || room < count || room - count < place {
        return Err(Refusal::BlockTooLong);
    }
    Ok(())
}
