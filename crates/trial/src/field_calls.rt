// The calls on fields: T and S take one out, F puts one in.
ghost use Rattle.std.specs.Prelude.{◌≡◌};
ghost use Rattle.trial.specs.Calls.{modulo, FieldDone};

use crate::setting::answer;
use script::{Call, Done, State};
use words::BitAddress;

// A signed number modulo 2^32.
fn modulo_of(value: i32) -> u32
    ensures { result ≡ modulo value }
{
    value.cast_unsigned()
}

// T, S or F, on the lent memory.
#[tactic(auto, unfolding(crate::specs::Calls::field_answer, crate::specs::Calls::field_memory))]
pub(crate) fn call_fields(s: State, memory: &mut [u16], call: Call) -> Done
    ensures { FieldDone s memory.old call result memory.new }
{
    let at = BitAddress(call.a);
    match call.letter {
        b'T' => {
            let t = field::take_out(memory, at, call.b);
            answer(s, t.number, t.value, t.cycles)
        }
        b'S' => {
            let t = field::take_out_signed(memory, at, call.b);
            answer(s, t.number, modulo_of(t.value), t.cycles)
        }
        _ => {
            let p = field::put_in(memory, at, call.b, call.c);
            answer(s, p.number, 0, p.cycles)
        }
    }
}
