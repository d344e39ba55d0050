// Source document 001's sample memory map: a TLC34075's registers at C0002000h to C00021FFh, DRAM from FF800000h to the end, VRAM at
// 01800000h to 01FFFFFFh and at 01000000h to 017FFFFFh.
use crate::calling::{decode, read_each, write};
use bank_spec::{Bank, BankPort, Banks};

// BKAD0L, BKAD0H to BKAD3L, BKAD3H, then BKMSK0L, BKMSK0H to BKMSK3L, BKMSK3H.
const HALVES: [u16; 16] = [
    0x2000, 0xc000, 0x0000, 0xff80, 0x0000, 0x0180, 0x0000, 0x0100, 0xfe00, 0xffff, 0x0000, 0xff80,
    0x0000, 0xff80, 0x0000, 0xff80,
];

// Just before each range, its first address, its last, and the one behind it; 017FFFFFh and 01800000h do for two ranges.
const EDGES: [u32; 14] = [
    0xc000_1fff,
    0xc000_2000,
    0xc000_21ff,
    0xc000_2200,
    0xff7f_ffff,
    0xff80_0000,
    0xffff_ffff,
    0x0000_0000,
    0x017f_ffff,
    0x0180_0000,
    0x01ff_ffff,
    0x0200_0000,
    0x00ff_ffff,
    0x0100_0000,
];

// Ordinary cycles, with ABE set.
fn run_edges(rt: &impl Print, b: Banks) {
    for &address in &EDGES {
        decode(rt, b, 0x0020, address, 0);
    }
}

pub(crate) fn run_map(rt: &impl Print) {
    // Registers that nobody has set.
    let unset = Bank {
        compare: 0xeeee_eeee,
        mask: 0xeeee_eeee,
    };
    let mut p = BankPort {
        banks: Banks {
            bank0: unset,
            bank1: unset,
            bank2: unset,
            bank3: unset,
        },
        index: 0,
    };
    for &half in &HALVES {
        p = write(rt, p, 3, half);
    }
    run_edges(rt, p.banks);
    read_each(rt, p, &[3; 16]);
}
