// The bench keeps one register record for the day: a single host access that updates this record in place.
// Document 01, "Blocks and the two doors".
// Document 01 asks for one thin function over a lent record, above the access by value; so there are both.
#![tactic(auto)]

ghost use Rattle.in_place.specs.InPlace.{AccessedInPlace};
ghost use Rattle.port_spec.specs.Host.{Accessed};

use port_spec::{Access, Answer, Outcome};
use registers::Registers;

// One access by the host on the lent memory, which leaves its registers in the record that is lent.
pub fn host_access_in_place(r: &mut Registers, memory: &mut [u16], a: Access) -> Answer
    ensures { AccessedInPlace r.old memory.old a result r.new memory.new }
{
    let done = port::host_access(*r, memory, a);
    *r = done.registers;
    done.answer
}

// The access in place on a record of its own, for callers who have theirs by value. It states what `port::host_access` states.
pub fn host_access_by_lending(r: Registers, memory: &mut [u16], a: Access) -> Outcome
    ensures { Accessed r memory.old a result memory.new }
{
    let mut kept = r;
    let answer = host_access_in_place(&mut kept, memory, a);
    Outcome {
        answer,
        registers: kept,
    }
}
