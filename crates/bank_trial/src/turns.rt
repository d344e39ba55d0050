// Reading the script, a record at a time.
ghost use Rattle.std.specs.Prelude.{◌≡◌};
ghost use Rattle.bank_trial.specs.Record.{zeroed};
ghost use Rattle.bank_trial.specs.CarriedOut.{carried};

use crate::carrying::carry_record;
use bank_spec::{Bank, BankPort, Banks};
use input::all_records;
use std::io::{Stdin, Stdout};

// Each bank before the first record.
const ZEROED: Bank = Bank {
    compare: 0,
    mask: 0,
};

// The port before the first record.
fn zeroed_port() -> BankPort
    ensures { result ≡ zeroed }
{
    BankPort {
        banks: Banks {
            bank0: ZEROED,
            bank1: ZEROED,
            bank2: ZEROED,
            bank3: ZEROED,
        },
        index: 0,
    }
}

// One record carried out, and what it leaves printed. The port goes on to the next.
// (Its like in stream_trial has another call and another answer; one function for both would take both as closures.)
fn take_record(rt: &impl Print, p: BankPort, bytes: &[u8; 40]) -> BankPort
    ensures { result ≡ (carried p bytes.now).port }
{
    let left = carry_record(p, bytes);
    // What standard output doesn't take is let go: nothing is said of it, and the script goes on.
    let _ = println!(rt; "{left}");
    left.port
}

// Record after record, each on the port that the one before it left.
pub(crate) fn run(from: Stdin, to: Stdout) {
    let mut port = zeroed_port();
    for bytes in all_records(from, to) {
        port = take_record(&to, port, &bytes);
    }
}
