// Accesses that step from word to word inside memory are done by copying: how many there are, and their steps.
ghost use Rattle.std.specs.Prelude.{◌≡◌, ◌-◌, ◌≤◌, min};
ghost use Rattle.block_spec.specs.Parts.{stepped_by};

use words::{BitAddress, WordNumber};

// How many of `count` words from word `first` on are in a memory of so many words.
pub(crate) fn inside_from(first: WordNumber, words: usize, count: usize) -> usize
    ensures { result ≡ min count (words - first.0) }
{
    count.min(words.saturating_sub(first.0 as usize))
}

// The pointer after `count` steps.
pub(crate) fn step_by(a: BitAddress, count: usize) -> BitAddress
    requires { count ≤ 32768 }
    ensures { result ≡ stepped_by count a }
{
    BitAddress(a.0.wrapping_add(16 * (count as u32)))
}
