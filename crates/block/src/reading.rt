// A block read.
ghost use Rattle.std.specs.Prelude.{◌≡◌, ◌≤◌, length};
ghost use Rattle.control.specs.Control.{incr};
ghost use Rattle.port_spec.specs.Cycle.{standing};
ghost use Rattle.port_spec.specs.Sequences.{machine};
ghost use Rattle.block_spec.specs.Block.{ReadBlock};
ghost use Rattle.block_spec.specs.Parts.{first_fetched, straight_reads, GoesStraight, ReadInto};

use crate::copying::{inside_from, step_by};
use crate::judging::judge;
use block_spec::{BlockRead, Run};
use control::steps_reading;
use port::{settle_fetch, step_if};
use port_spec::Fetched;
use registers::Registers;
use words::{WordNumber, fetch_word, word_of};

// The registers after a fetch at the pointer.
#[tactic(auto, using(port_spec::proofs::Leaves::fetched_here))]
pub(crate) fn fetch_here(r: Registers, memory: &[u16]) -> Registers
    ensures { result ≡ standing memory.now r.control r.pointer }
{
    settle_fetch(r, Fetched::from(fetch_word(memory, word_of(r.pointer)))).registers
}

// Reads one by one: each hands out the word already held; then the pointer steps where INCR is set, and the fetch follows.
// The tests stand in the loop itself, so that the compiler takes out of it what does not change.
pub(crate) fn read_singly(r: Registers, memory: &[u16], part: &mut [u16]) -> Run
    requires { (length memory.now ≤ 32768) × (length part.old ≤ 4096) }
    ensures { ReadInto (machine r memory.now) (length part.old) result part.new }
{
    let mut q = r;
    let mut hollows: u16 = 0;
    for place in part {
        *place = q.latch;
        hollows += u16::from(q.hollow);
        q = fetch_here(step_if(steps_reading(q.control), q), memory);
    }
    Run {
        registers: q,
        tallied: hollows,
    }
}

// How many of `count` reads step from word to word and fetch inside memory.
#[tactic(auto, unfolding(block_spec::specs::Parts::straight_reads))]
pub(crate) fn straight_reads(r: Registers, words: usize, count: usize) -> usize
    ensures { result ≡ straight_reads r words count }
{
    if steps_reading(r.control) {
        let next = word_of(r.pointer).0 + 1;
        return inside_from(WordNumber(next), words, count);
    }
    0
}

// Such reads, at once: the words are copied from the pointer's word on. The first read hands out the word already held, which need
// not be the one that lies there, so that word is laid over the copy's first.
pub(crate) fn read_straight(r: Registers, memory: &[u16], part: &mut [u16]) -> Run
    requires { GoesStraight (incr r.control) (first_fetched r) (length memory.now) (length part.old) }
    ensures { ReadInto (machine r memory.now) (length part.old) result part.new }
{
    let here = word_of(r.pointer).0 as usize;
    let count = part.len();
    let end = here + count;
    part.copy_from_slice(&memory[here..end]);
    part[0] = r.latch;
    Run {
        registers: Registers {
            pointer: step_by(r.pointer, count),
            latch: memory[end],
            hollow: false,
            ..r
        },
        tallied: u16::from(r.hollow),
    }
}

// A read for each place of the part: first those that go straight through memory, then the others one by one.
pub(crate) fn read_words(r: Registers, memory: &[u16], part: &mut [u16]) -> Run
    requires { (length memory.now ≤ 32768) × (length part.old ≤ 4096) }
    ensures { ReadInto (machine r memory.now) (length part.old) result part.new }
{
    let n = straight_reads(r, memory.len(), part.len());
    if n == 0 {
        return read_singly(r, memory, part);
    }
    // The first place is named: a part without one asks more of the proof.
    let start = 0;
    let first = read_straight(r, memory, &mut part[start..n]);
    let rest = read_singly(first.registers, memory, &mut part[n..]);
    Run {
        registers: rest.registers,
        tallied: first.tallied + rest.tallied,
    }
}

// A block read of `count` words into the list, from the given place on.
pub fn block_read(
    r: Registers,
    memory: &[u16],
    list: &mut [u16],
    place: usize,
    count: usize,
) -> BlockRead
    ensures { ReadBlock r memory.now list.old place count result list.new }
{
    if let Err(refusal) = judge(memory.len(), list.len(), place, count) {
        return BlockRead {
            number: u8::from(refusal),
            hollows: 0,
            registers: r,
        };
    }
    let end = place + count;
    let run = read_words(r, memory, &mut list[place..end]);
    BlockRead {
        number: 0,
        hollows: run.tallied,
        registers: run.registers,
    }
}
