// The port's calls: an access by the host, R and W, and in place H and K; one by the processor, P and Q.
ghost use Rattle.std.specs.Prelude.{◌≡◌};
ghost use Rattle.trial.specs.Calls.{hollow_and_cycle, access_in, HostDone, processor_answer, host_done as calls_host_done};

use crate::setting::{answer, answer_with};
use port_spec::{Access, Answer, Outcome};
use script::{Call, Done, State, is_in_place_letter};

// What y says of an answer to the host.
#[tactic(auto, unfolding(crate::specs::Calls::hollow_and_cycle))]
fn hollow_and_cycle_of(a: Answer) -> u32
    ensures { result ≡ hollow_and_cycle a }
{
    16 * u32::from(a.hollow) + u32::from(a.cycle)
}

// What an access by the host answers and leaves.
fn host_done(s: State, o: Outcome) -> Done
    ensures { result ≡ calls_host_done s o }
{
    answer_with(
        s,
        o.registers,
        o.answer.number,
        u32::from(o.answer.word),
        hollow_and_cycle_of(o.answer),
    )
}

// The access that a call says.
#[tactic(auto, unfolding(crate::specs::Calls::access_in))]
fn access_of(call: Call) -> Access
    ensures { result ≡ access_in call }
{
    match call.letter {
        b'R' | b'H' => Access::Read {
            register: call.a,
            lanes: call.b,
        },
        _ => Access::Write {
            register: call.a,
            lanes: call.b,
            word: (call.c % 65536) as u16,
        },
    }
}

// R or W, by value, and H or K, in place, on the lent memory.
pub(crate) fn call_host(s: State, memory: &mut [u16], call: Call) -> Done
    ensures { HostDone s memory.old call result memory.new }
{
    let access = access_of(call);
    if is_in_place_letter(call.letter) {
        return host_done(
            s,
            in_place::host_access_by_lending(s.registers, memory, access),
        );
    }
    host_done(s, port::host_access(s.registers, memory, access))
}

// P or Q.
#[tactic(auto, unfolding(crate::specs::Calls::processor_answer))]
pub(crate) fn call_processor(s: State, call: Call) -> Done
    ensures { result ≡ processor_answer s call }
{
    if call.letter == b'P' {
        let o = registers::processor_read(s.registers, call.a);
        answer(s, o.number, u32::from(o.word), 0)
    } else {
        let o = registers::processor_write(s.registers, call.a, (call.b % 65536) as u16);
        answer_with(s, o.registers, o.number, 0, 0)
    }
}
