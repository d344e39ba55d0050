// The calls on the whole room and the whole list: M and J fill them, D digests both.
ghost use Rattle.std.specs.Prelude.{◌≡◌, length};
ghost use Rattle.trial.specs.Calls.{filled, digest, WholeDone};

use crate::setting::answer;
use script::{Call, Done, State};

// Word k becomes (first + k * step) mod 65,536.
fn fill(words: &mut [u16], first: u32, step: u32)
    ensures { words.new ≡ filled first step (length words.old) }
{
    let mut word = (first % 65536) as u16;
    let by = (step % 65536) as u16;
    for place in words.iter_mut() {
        *place = word;
        word = word.wrapping_add(by);
    }
}

// The digest of words.
fn digest_of(words: &[u16]) -> u32
    ensures { result ≡ digest words.now (length words.now) }
{
    let mut h: u32 = 0;
    for word in words {
        h = h.wrapping_mul(31).wrapping_add(u32::from(*word));
    }
    h
}

// M, J or D.
#[tactic(auto, unfolding(crate::specs::Calls::whole_answer, crate::specs::Calls::whole_room, crate::specs::Calls::whole_list))]
pub(crate) fn call_whole(s: State, room: &mut [u16], list: &mut [u16], call: Call) -> Done
    ensures { WholeDone s room.old list.old call result room.new list.new }
{
    match call.letter {
        b'D' => answer(s, 0, digest_of(room), digest_of(list)),
        b'M' => {
            fill(room, call.a, call.b);
            answer(s, 0, 0, 0)
        }
        _ => {
            fill(list, call.a, call.b);
            answer(s, 0, 0, 0)
        }
    }
}
