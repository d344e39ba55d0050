// The calls on the bus: A asks, B grants, C releases hold.
ghost use Rattle.std.specs.Prelude.{◌≡◌};
ghost use Rattle.trial.specs.Calls.{with_bus, done_with, bus_answer};

use crate::setting::answer;
use bus::Bus;
use script::{Call, Done, State};

// What a call on the bus answers, and the bus that it leaves.
fn answer_of(s: State, bus: Bus, number: u8, x: u32) -> Done
    ensures { result ≡ done_with (with_bus s bus) number x 0 }
{
    answer(State { bus, ..s }, number, x, 0)
}

// A, B or C.
#[tactic(auto, unfolding(crate::specs::Calls::bus_answer))]
pub(crate) fn call_bus(s: State, call: Call) -> Done
    ensures { result ≡ bus_answer s call }
{
    match call.letter {
        b'A' => {
            let o = bus::ask(s.bus, call.a);
            answer_of(s, o.bus, o.number, 0)
        }
        b'C' => {
            let o = bus::release(s.bus);
            answer_of(s, o.bus, o.number, 0)
        }
        _ => {
            let o = bus::grant(s.bus);
            answer_of(s, o.bus, o.number, o.source)
        }
    }
}
