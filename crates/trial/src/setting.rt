// The state of a run: parts of it replaced, and the calls that set it, N, L, G and Z.
ghost use Rattle.std.specs.Prelude.{◌≡◌};
ghost use Rattle.trial.specs.Calls.{with_registers, registers_in, woken_state, first_state, state_set, done_with};

use registers::Registers;
use script::{Call, Done, State};
use words::BitAddress;

// The registers as the numbers of a call say.
fn registers_of(call: Call) -> Registers
    ensures { result ≡ registers_in call }
{
    Registers {
        pointer: BitAddress(call.a),
        latch: (call.b % 65536) as u16,
        control: (call.c % 65536) as u16,
        hollow: call.d % 2 == 1,
    }
}

// The state that reset leaves, with these lengths.
fn wake(length: usize, size: usize) -> State
    ensures { result ≡ woken_state length size }
{
    let woken = registers::reset();
    State {
        registers: woken.registers,
        bus: woken.bus,
        length,
        size,
    }
}

// The state at the start.
pub(crate) fn first_state() -> State
    ensures { result ≡ first_state }
{
    wake(32768, 8192)
}

// The state that N, L, G or Z leaves.
#[tactic(auto, unfolding(crate::specs::Calls::state_set))]
pub(crate) fn set_state(s: State, call: Call) -> State
    ensures { result ≡ state_set s call }
{
    match call.letter {
        b'N' => State {
            length: call.a as usize,
            ..s
        },
        b'L' => State {
            size: call.a as usize,
            ..s
        },
        b'G' => State {
            registers: registers_of(call),
            ..s
        },
        _ => wake(s.length, s.size),
    }
}

// What a call answers, beside the state that it leaves.
// (`number` is what the call returned, 0 for none, and is printed as it is: so in all that answers by this.)
pub(crate) fn answer(s: State, number: u8, x: u32, y: u32) -> Done
    ensures { result ≡ done_with s number x y }
{
    Done {
        state: s,
        number,
        x,
        y,
    }
}

// The same of a call that leaves other registers.
pub(crate) fn answer_with(s: State, r: Registers, number: u8, x: u32, y: u32) -> Done
    ensures { result ≡ done_with (with_registers s r) number x y }
{
    answer(State { registers: r, ..s }, number, x, y)
}
