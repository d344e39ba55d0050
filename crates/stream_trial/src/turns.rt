// Reading the script, a record at a time.
ghost use Rattle.std.specs.Prelude.{◌≡◌};
ghost use Rattle.stream_trial.specs.Record.{blank};
ghost use Rattle.stream_trial.specs.CarriedOut.{answer_from};

use crate::carrying::carry_record;
use input::all_records;
use std::io::{Stdin, Stdout};
use stream::start_stream;
use stream_spec::Stream;

// One record carried out, and what it leaves printed. The stream goes on to the next.
// (Its like in bank_trial has another call and another answer; one function for both would take both as closures.)
fn take_record(rt: &impl Print, st: Stream, bytes: &[u8; 36]) -> Stream
    ensures { result ≡ (answer_from st bytes.now blank).stream }
{
    let left = carry_record(st, bytes);
    // What standard output doesn't take is let go: nothing is said of it, and the script goes on.
    let _ = println!(rt; "{left}");
    left.answer.stream
}

// Record after record, each on the stream that the one before it left.
pub(crate) fn run(from: Stdin, to: Stdout) {
    let mut st = start_stream();
    for bytes in all_records(from, to) {
        st = take_record(&to, st, &bytes);
    }
}
