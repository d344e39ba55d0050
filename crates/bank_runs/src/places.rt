// The sixteen places and the index: the step from the last place to the first, byte accesses, lanes that are none, and an index above 15.
use crate::calling::{read_each, write_each};
use bank_spec::{Bank, BankPort, Banks};

// Seven reads, from place 13 over the end.
fn run_over_the_end(rt: &impl Print, banks: Banks) {
    read_each(rt, BankPort { banks, index: 13 }, &[3; 7]);
}

// Single bytes, then the access that they leave to be done; and both places read again.
fn run_bytes(rt: &impl Print, banks: Banks) {
    let p = read_each(rt, BankPort { banks, index: 6 }, &[1, 2]);
    let q = write_each(rt, p, &[(1, 0xabcd), (2, 0xabcd), (3, 0xabcd), (2, 0xffff)]);
    read_each(rt, BankPort { index: 6, ..q }, &[3, 3]);
}

// Numbers that name no lanes, then the access that they leave to be done: twice, and the second time numbers that would name both lanes by
// their low bits or their low byte.
fn run_no_lanes(rt: &impl Print, banks: Banks) {
    let p = read_each(rt, BankPort { banks, index: 10 }, &[0, 4, 0xffff_ffff]);
    let q = write_each(rt, p, &[(0, 0xabcd), (4, 0xabcd), (0xffff_ffff, 0xabcd)]);
    let r = read_each(rt, q, &[2, 3, 7]);
    let s = write_each(rt, r, &[(7, 0xabcd), (259, 0xabcd)]);
    read_each(rt, s, &[3]);
}

// An index above 15 counts modulo 16, and is kept as it was passed by an access that is refused.
fn run_high_index(rt: &impl Print, banks: Banks) {
    let last = BankPort {
        banks,
        index: 0xffff_ffff,
    };
    read_each(rt, last, &[4, 2, 3, 3]);
    let ninth = BankPort { banks, index: 24 };
    let p = write_each(rt, ninth, &[(0, 0x5a5a), (1, 0x5a5a), (3, 0x5a5a)]);
    read_each(rt, BankPort { index: 8, ..p }, &[3]);
}

pub(crate) fn run_places(rt: &impl Print) {
    // Registers whose sixteen halves tell their places.
    let banks = Banks {
        bank0: Bank {
            compare: 0x0001_0000,
            mask: 0x0009_0008,
        },
        bank1: Bank {
            compare: 0x0003_0002,
            mask: 0x000b_000a,
        },
        bank2: Bank {
            compare: 0x0005_0004,
            mask: 0x000d_000c,
        },
        bank3: Bank {
            compare: 0x0007_0006,
            mask: 0x000f_000e,
        },
    };
    run_over_the_end(rt, banks);
    run_bytes(rt, banks);
    run_no_lanes(rt, banks);
    run_high_index(rt, banks);
}
