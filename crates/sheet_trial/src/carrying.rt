// A record of a script, carried out.
ghost use Rattle.std.specs.Prelude.{◌≡◌};
ghost use Rattle.sheet_trial.specs.CarriedOut.{laid, CarriedOut};

use crate::reading::{number_at, registers_of, rule_of, table_of, time_of};
use sheet::strike_sheet;
use sheet_spec::Sheet;
use words::{WordNumber, store_word};

// The record's 36 words laid into the room, as far as it reaches.
// (By number: `number_at` and `laid` count the record's numbers so.)
fn lay_words(room: &mut [u16], bytes: &[u8; 108])
    ensures { room.new ≡ laid bytes.now room.old 36 }
{
    let first = u32::from(number_at(bytes, 17));
    for k in 0..36 {
        store_word(room, WordNumber(first + k as u32), number_at(bytes, 18 + k));
    }
}

// One record. What is lent of the room and of the list is their first places, as many as the record says.
pub(crate) fn carry_out(room: &mut [u16], list: &mut [f64], bytes: &[u8; 108]) -> Sheet
    ensures { CarriedOut bytes.now room.old list.old result room.new list.new }
{
    lay_words(room, bytes);
    let words = usize::from(number_at(bytes, 16)).min(room.len());
    let places = usize::from(number_at(bytes, 15)).min(list.len());
    strike_sheet(
        registers_of(bytes),
        &mut room[..words],
        table_of(bytes),
        rule_of(bytes),
        time_of(bytes),
        &mut list[..places],
    )
}
