// A call of a script, carried out.
ghost use Rattle.std.specs.Prelude.{◌≡◌};
ghost use Rattle.trial.specs.Calls.{plain_answer, LentDone, CarriedOut};

use crate::block_calls::call_block;
use crate::bus_calls::call_bus;
use crate::field_calls::call_fields;
use crate::port_calls::{call_host, call_processor};
use crate::setting::{answer, set_state};
use crate::whole_calls::call_whole;
use script::{
    Call, Done, State, is_bus_letter, is_field_letter, is_host_letter, is_plain_letter,
    is_processor_letter, is_whole_letter,
};

// A call that is lent nothing: of the processor or the bus, or one that sets the state.
#[tactic(auto, unfolding(crate::specs::Calls::plain_answer))]
fn call_plain(s: State, call: Call) -> Done
    ensures { result ≡ plain_answer s call }
{
    if is_processor_letter(call.letter) {
        call_processor(s, call)
    } else if is_bus_letter(call.letter) {
        call_bus(s, call)
    } else {
        answer(set_state(s, call), 0, 0, 0)
    }
}

// A call that is lent memory: by the host, on a field, of a block.
#[tactic(auto, unfolding(crate::specs::Calls::lent_answer, crate::specs::Calls::lent_memory, crate::specs::Calls::lent_list))]
fn call_lent(s: State, memory: &mut [u16], list: &mut [u16], call: Call) -> Done
    ensures { LentDone s memory.old list.old call result memory.new list.new }
{
    if is_host_letter(call.letter) {
        call_host(s, memory, call)
    } else if is_field_letter(call.letter) {
        call_fields(s, memory, call)
    } else {
        call_block(s, memory, list, call)
    }
}

// Any call. What is lent of the room and of the list is their first words, as many as the state says.
pub(crate) fn carry_out(s: State, room: &mut [u16], list: &mut [u16], call: Call) -> Done
    ensures { CarriedOut s room.old list.old call result room.new list.new }
{
    if is_plain_letter(call.letter) {
        return call_plain(s, call);
    }
    if is_whole_letter(call.letter) {
        return call_whole(s, room, list, call);
    }
    let length = s.length.min(room.len());
    let size = s.size.min(list.len());
    call_lent(s, &mut room[..length], &mut list[..size], call)
}
