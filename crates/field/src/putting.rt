// Putting a field in.
ghost use Rattle.std.specs.Prelude.{◌≡◌, ◌+◌, ◌≤◌, ◌<◌, eqb, length};
ghost use Rattle.field_spec.specs.Count.{put_cost};
ghost use Rattle.field_spec.specs.Answers.{Accepted, PutIn};
ghost use Rattle.field.specs.Parts.{Scattered, with_part};

use crate::bits::replace_bits;
use crate::judging::judge;
use field_spec::Put;
use words::{BitAddress, word_of};

// The cycles of putting bits into a word of which the field covers so many.
#[tactic(auto, unfolding(field_spec::specs::Count::put_cost))]
fn cost_of(count: u32) -> u32
    ensures { result ≡ put_cost (eqb count 16) }
{
    if count == 16 { 1 } else { 2 }
}

// Puts the low `count` bits of a value into a word from its bit `from` on.
#[tactic(auto, unfolding(crate::specs::Parts::with_part))]
fn put_part(memory: &mut [u16], word: usize, from: u32, count: u32, value: u32)
    requires { (word < length memory.old) × (from + count ≤ 16) }
    ensures { memory.new ≡ with_part memory.old word from count value 0 }
{
    memory[word] = replace_bits(memory[word], from, count, value % (1 << count));
}

// Puts an accepted field in, and answers its cycles. It lies in one word, in two or in three, each a case of its own: a loop over
// the words would cost more. Of three the middle one is wholly covered, and the others are not.
fn scatter(memory: &mut [u16], at: BitAddress, size: u32, value: u32) -> u32
    requires { Accepted (length memory.old) at size }
    ensures { Scattered memory.old at size value result memory.new }
{
    let word = word_of(at).0 as usize;
    let from = at.0 % 16;
    let end = from + size;
    if end <= 16 {
        put_part(memory, word, from, size, value);
        return cost_of(size);
    }
    let first = 16 - from;
    put_part(memory, word, from, first, value);
    if end <= 32 {
        let second = end - 16;
        put_part(memory, word + 1, 0, second, value >> first);
        return cost_of(first) + cost_of(second);
    }
    let third = end - 32;
    put_part(memory, word + 1, 0, 16, value >> first);
    put_part(memory, word + 2, 0, third, value >> (first + 16));
    5
}

// Puts the low `size` bits of a value in at a bit address.
#[tactic(auto, using(field_spec::proofs::Accepted::none_applies))]
pub fn put_in(memory: &mut [u16], at: BitAddress, size: u32, value: u32) -> Put
    ensures { PutIn memory.old at size value result memory.new }
{
    if let Err(refusal) = judge(memory.len(), at, size) {
        return Put {
            number: u8::from(refusal),
            cycles: 0,
        };
    }
    let cycles = scatter(memory, at, size, value);
    Put { number: 0, cycles }
}
