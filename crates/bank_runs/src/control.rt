// The control word: special cycles, refresh by each setting of RM, what plays no part, and kinds that are unknown.
use crate::calling::decode;
use bank_spec::{Bank, Banks};

// BVEN admits special cycles: bit 12 for bank 0.
fn run_special(rt: &impl Print, b: Banks) {
    for (control, address) in [
        (0x1000, 0x8000_0000),
        (0xa000, 0x8000_0000),
        (0xa000, 0x7fff_ffff),
        (0xf000, 0x8000_0000),
        (0x0fff, 0x8000_0000),
        (0x1fc0, 0x8000_0000),
    ] {
        decode(rt, b, control, address, 2);
    }
}

// BDRD keeps a bank from refresh: bit 8 for bank 0. RM is 00, 01, 10, 11.
fn run_refresh(rt: &impl Print, b: Banks) {
    for (control, address) in [
        (0xf000, 0x8000_0000),
        (0x0500, 0x8000_0000),
        (0xff00, 0x8000_0000),
        (0x0040, 0x8000_0000),
        (0x0040, 0x8001_0000),
        (0x0240, 0x8003_0000),
        (0x0080, 0x8000_0000),
        (0x0080, 0x8001_0000),
        (0xf080, 0x8002_0000),
        (0x0080, 0x8003_0000),
        (0x0080, 0x0003_0000),
        (0x0480, 0x8002_0000),
        (0x00c0, 0x8000_0000),
    ] {
        decode(rt, b, control, address, 1);
    }
}

// An ordinary cycle is admitted by any control word; a kind above 2 is unknown.
fn run_others(rt: &impl Print, b: Banks) {
    for (control, address, kind) in [
        (0x0fdf, 0x8000_0000, 0),
        (0x0000, 0x0000_0000, 0),
        (0xf000, 0x8000_0000, 3),
        (0xf000, 0x8000_0000, 0xffff_ffff),
    ] {
        decode(rt, b, control, address, kind);
    }
}

pub(crate) fn run_control(rt: &impl Print) {
    // Every address agrees with a bank whose mask is 0. Bank 3 has the upper half of memory.
    let anywhere = Bank {
        compare: 0xffff_ffff,
        mask: 0,
    };
    let b = Banks {
        bank0: anywhere,
        bank1: anywhere,
        bank2: anywhere,
        bank3: Bank {
            compare: 0xffff_ffff,
            mask: 0x8000_0000,
        },
    };
    run_special(rt, b);
    run_refresh(rt, b);
    run_others(rt, b);
}
