// A block write.
ghost use Rattle.std.specs.Prelude.{◌≡◌, ◌≤◌, length};
ghost use Rattle.words.specs.Addresses.{word_at};
ghost use Rattle.control.specs.Control.{incw};
ghost use Rattle.port_spec.specs.Sequences.{machine};
ghost use Rattle.block_spec.specs.Block.{WrittenBlock};
ghost use Rattle.block_spec.specs.Parts.{straight_writes, GoesStraight, WrittenFrom};

use crate::copying::{inside_from, step_by};
use crate::judging::judge;
use block_spec::{BlockWrite, Run};
use control::steps_writing;
use port::step_if;
use registers::{Registers, set_latch};
use words::{store_word, word_of};

// Writes one by one: each stores its word at the pointer and holds it; then the pointer steps where INCW is set.
// That test stands in the loop itself, so that the compiler takes it out.
pub(crate) fn write_singly(r: Registers, memory: &mut [u16], part: &[u16]) -> Run
    requires { (length memory.old ≤ 32768) × (length part.now ≤ 4096) }
    ensures { WrittenFrom (machine r memory.old) part.now result memory.new }
{
    let mut q = r;
    let mut empties: u16 = 0;
    for &word in part {
        let inside = store_word(memory, word_of(q.pointer), word);
        empties += u16::from(!inside);
        q = step_if(steps_writing(q.control), set_latch(q, word, false));
    }
    Run {
        registers: q,
        tallied: empties,
    }
}

// How many of `count` writes step from word to word and store inside memory.
#[tactic(auto, unfolding(block_spec::specs::Parts::straight_writes))]
pub(crate) fn straight_writes(r: Registers, words: usize, count: usize) -> usize
    ensures { result ≡ straight_writes r words count }
{
    if steps_writing(r.control) {
        return inside_from(word_of(r.pointer), words, count);
    }
    0
}

// Such writes, at once: the words are copied, and the last stays in HSTDATA.
pub(crate) fn write_straight(r: Registers, memory: &mut [u16], part: &[u16]) -> Run
    requires { GoesStraight (incw r.control) (word_at r.pointer) (length memory.old) (length part.now) }
    ensures { WrittenFrom (machine r memory.old) part.now result memory.new }
{
    let here = word_of(r.pointer).0 as usize;
    let count = part.len();
    let end = here + count;
    memory[here..end].copy_from_slice(part);
    Run {
        registers: Registers {
            pointer: step_by(r.pointer, count),
            latch: part[count - 1],
            hollow: false,
            ..r
        },
        tallied: 0,
    }
}

// A write for each place of the part: first those that go straight through memory, then the others one by one.
pub(crate) fn write_words(r: Registers, memory: &mut [u16], part: &[u16]) -> Run
    requires { (length memory.old ≤ 32768) × (length part.now ≤ 4096) }
    ensures { WrittenFrom (machine r memory.old) part.now result memory.new }
{
    let n = straight_writes(r, memory.len(), part.len());
    if n == 0 {
        return write_singly(r, memory, part);
    }
    // The first place is named: a part without one asks more of the proof.
    let start = 0;
    let first = write_straight(r, memory, &part[start..n]);
    let rest = write_singly(first.registers, memory, &part[n..]);
    Run {
        registers: rest.registers,
        tallied: first.tallied + rest.tallied,
    }
}

// A block write of `count` words of the list, from the given place on.
pub fn block_write(
    r: Registers,
    memory: &mut [u16],
    list: &[u16],
    place: usize,
    count: usize,
) -> BlockWrite
    ensures { WrittenBlock r memory.old list.now place count result memory.new }
{
    if let Err(refusal) = judge(memory.len(), list.len(), place, count) {
        return BlockWrite {
            number: u8::from(refusal),
            empties: 0,
            registers: r,
        };
    }
    let end = place + count;
    let run = write_words(r, memory, &list[place..end]);
    BlockWrite {
        number: 0,
        empties: run.tallied,
        registers: run.registers,
    }
}
