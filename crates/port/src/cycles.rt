// The memory cycle that an access calls for: aimed, done on the lent memory, settled in the registers.
ghost use Rattle.std.specs.Prelude.{◌≡◌};
ghost use Rattle.port_spec.specs.Cycle.{stepped, cycle_of, after_fetch, after_store, Cycled};

use port_spec::{Carried, Cycle, Due, Fetched};
use registers::{Registers, set_latch, set_pointer};
use words::{fetch_word, step_address, store_word, word_of};

// The registers with the pointer stepped, where the cycle has a step.
#[tactic(auto, unfolding(port_spec::specs::Cycle::stepped))]
pub fn step_if(step: bool, r: Registers) -> Registers
    ensures { result ≡ stepped step r }
{
    if step {
        return set_pointer(r, step_address(r.pointer));
    }
    r
}

// What the answer says of a cycle that was called for.
#[tactic(auto, unfolding(port_spec::specs::Cycle::cycle_of))]
fn cycle_of(inside: bool) -> Cycle
    ensures { result ≡ cycle_of inside }
{
    if inside { Cycle::Inside } else { Cycle::Empty }
}

// What a fetch leaves: its word in HSTDATA, hollow where it missed.
#[tactic(auto, unfolding(port_spec::specs::Cycle::after_fetch))]
pub fn settle_fetch(r: Registers, f: Fetched) -> Carried
    ensures { result ≡ after_fetch r f }
{
    Carried {
        registers: set_latch(r, f.word, !f.inside),
        cycle: cycle_of(f.inside),
    }
}

// What a store leaves: HSTDATA is no longer hollow, wherever the store fell; then the step.
#[tactic(auto, unfolding(port_spec::specs::Cycle::after_store))]
pub fn settle_store(r: Registers, step: bool, inside: bool) -> Carried
    ensures { result ≡ after_store r step inside }
{
    Carried {
        registers: step_if(step, set_latch(r, r.latch, false)),
        cycle: cycle_of(inside),
    }
}

// The cycle that is due, on the lent memory.
#[tactic(auto, unfolding(port_spec::specs::Cycle::carried, port_spec::specs::Cycle::memory_after))]
pub fn carry(r: Registers, due: Due, memory: &mut [u16]) -> Carried
    ensures { Cycled r due memory.old result memory.new }
{
    match due {
        Due::Nothing => Carried {
            registers: r,
            cycle: Cycle::None,
        },
        Due::Fetch { with_step } => {
            let q = step_if(with_step, r);
            settle_fetch(q, Fetched::from(fetch_word(memory, word_of(q.pointer))))
        }
        Due::Store { with_step } => {
            let inside = store_word(memory, word_of(r.pointer), r.latch);
            settle_store(r, with_step, inside)
        }
    }
}
