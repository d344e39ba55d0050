// The calls of blocks: I reads into the list, O writes from it.
ghost use Rattle.std.specs.Prelude.{◌≡◌};
ghost use Rattle.trial.specs.Calls.{BlockDone, place_of as calls_place_of};

use crate::setting::answer_with;
use script::{Call, Done, State};

// A place in two numbers.
fn place_of(low: u32, high: u32) -> usize
    ensures { result ≡ calls_place_of low high }
{
    low as usize + 4294967296 * (high as usize)
}

// I or O, on the lent memory and the lent list.
// (One test, since there are two letters: the letter stays the byte that `Call` has.)
#[tactic(auto, unfolding(crate::specs::Calls::block_answer, crate::specs::Calls::block_memory, crate::specs::Calls::block_list))]
pub(crate) fn call_block(s: State, memory: &mut [u16], list: &mut [u16], call: Call) -> Done
    ensures { BlockDone s memory.old list.old call result memory.new list.new }
{
    let place = place_of(call.a, call.b);
    let count = call.c as usize;
    if call.letter == b'I' {
        let o = block::block_read(s.registers, memory, list, place, count);
        answer_with(s, o.registers, o.number, u32::from(o.hollows), 0)
    } else {
        let o = block::block_write(s.registers, memory, list, place, count);
        answer_with(s, o.registers, o.number, u32::from(o.empties), 0)
    }
}
