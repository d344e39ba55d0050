// The memory cycle over lent bytes: the two bytes of its word are read or written, and no others.
// Crate `port` does the same over words: here a word is two bytes, and a read's memory is lent for reading alone.
// (No trait over both: a slice can't be given one, so that words, bytes, and bytes lent for reading alone would each be wrapped first.)
ghost use Rattle.std.specs.Prelude.{false, ◌≡◌};
ghost use Rattle.words.specs.Memory.{fetch_at};
ghost use Rattle.door_spec.specs.Bytes.{words_of};
ghost use Rattle.door.specs.Parts.{is_store, StoredBytes, CycledBytes};

use port::{settle_fetch, settle_store, step_if};
use port_spec::{Carried, Cycle, Due, Fetched};
use registers::Registers;
use words::{WordNumber, high_byte, join_bytes, low_byte, word_of};

// One word of memory as a fetch finds it, or none where memory has no such word.
// (The two bytes by their places, here and below, as `words_of` pairs them: a slice of two would be no plainer.)
fn fetch_bytes(memory: &[u8], n: WordNumber) -> Option<u16>
    ensures { result ≡ fetch_at (words_of memory.now) n }
{
    let k = n.0 as usize;
    if k < memory.len() / 2 {
        let i = 2 * k;
        return Some(join_bytes(memory[i], memory[i + 1]));
    }
    None
}

// One word of memory replaced, and true; where it is not there, nothing and false.
// (A bool, as `StoredBytes` says, which `settle_store` takes; and a test before, since two bytes are written by one word number.)
fn store_bytes(memory: &mut [u8], n: WordNumber, w: u16) -> bool
    ensures { StoredBytes memory.old n w result memory.new }
{
    let k = n.0 as usize;
    if k < memory.len() / 2 {
        let i = 2 * k;
        memory[i] = low_byte(w);
        memory[i + 1] = high_byte(w);
        return true;
    }
    false
}

// The cycle that is due where it is no store, on bytes that are lent for reading alone.
pub(crate) fn fetch_if_due(r: Registers, due: Due, memory: &[u8]) -> Carried
    requires { is_store due ≡ false }
    ensures { CycledBytes r due memory.now result memory.now }
{
    if let Due::Fetch { with_step } = due {
        let q = step_if(with_step, r);
        return settle_fetch(q, Fetched::from(fetch_bytes(memory, word_of(q.pointer))));
    }
    Carried {
        registers: r,
        cycle: Cycle::None,
    }
}

// The cycle that is due, on the lent bytes.
pub(crate) fn carry_bytes(r: Registers, due: Due, memory: &mut [u8]) -> Carried
    ensures { CycledBytes r due memory.old result memory.new }
{
    if let Due::Store { with_step } = due {
        let inside = store_bytes(memory, word_of(r.pointer), r.latch);
        return settle_store(r, with_step, inside);
    }
    fetch_if_due(r, due, memory)
}
