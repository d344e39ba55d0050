// Reading the script, a record at a time.
ghost use Rattle.sheet_trial.specs.Records.{StruckTurn, Ran};

use crate::carrying::carry_out;
use crate::printing::print_sheet;
use input::all_records;
use std::io::{Stdin, Stdout};

// One record carried out, and its line printed. Room and list go on to the next.
fn take_record(rt: &impl Print, room: &mut [u16], list: &mut [f64], bytes: &[u8; 108])
    ensures { StruckTurn bytes.now room.old list.old room.new list.new }
{
    let o = carry_out(room, list, bytes);
    print_sheet(rt, o, list);
}

// Record after record, each on the room and the list that the one before it left.
pub(crate) fn run(room: &mut [u16], list: &mut [f64], from: Stdin, to: Stdout)
    ensures { Ran room.old list.old room.new list.new }
{
    for bytes in all_records(from, to) {
        take_record(&to, room, list, &bytes);
    }
}
