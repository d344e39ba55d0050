// Blocks at their edges: the end of memory, a pointer that stands still or comes round, the first read after reset, and refusals.
// Each block prints its answer, the pointer and HSTDATA that it leaves, and then the list or the memory.
// The stored output was worked out by hand from document 01, "The four host registers" and "Blocks and the two doors".
// What standard output doesn't take is let go (`let _`): nothing is said of it, and the runs go on.
#![tactic(auto)]

use block_spec::{BlockRead, BlockWrite};
use registers::Registers;
use std::fmt;
use words::BitAddress;

// What a line shows of the registers that a block leaves.
#[derive(Clone, Copy)]
struct Shown(Registers);

impl fmt::Display for Shown {
    fn fmt<W: fmt::Write>(&self, f: &mut fmt::Formatter<W>) -> fmt::Result {
        let r = self.0;
        let mark = if r.hollow { "hollow" } else { "held" };
        write!(
            f,
            "pointer {:08x}, data {:04x} {mark}",
            r.pointer.0, r.latch
        )
    }
}

// Words of a list or of a memory, each behind a space.
#[derive(Clone, Copy)]
struct Words<'a>(&'a [u16]);

impl fmt::Display for Words<'_> {
    fn fmt<W: fmt::Write>(&self, f: &mut fmt::Formatter<W>) -> fmt::Result {
        for word in self.0 {
            write!(f, " {word:04x}")?;
        }
        Ok(())
    }
}

// (Two functions: what is counted has another name in each of the two records.)
fn print_read(rt: &impl Print, o: BlockRead) {
    let _ = println!(rt;
        "number {}, hollow {}, {}",
        o.number,
        o.hollows,
        Shown(o.registers)
    );
}

fn print_written(rt: &impl Print, o: BlockWrite) {
    let _ = println!(rt;
        "number {}, empty {}, {}",
        o.number,
        o.empties,
        Shown(o.registers)
    );
}

// A block read of a list of six places, with a memory of three words.
fn read(rt: &impl Print, title: &str, r: Registers, place: usize, count: usize) {
    let memory = [0x1111, 0x2222, 0x3333];
    let mut list = [0xeeee; 6];
    let _ = print!(rt; "{title}");
    print_read(rt, block::block_read(r, &memory, &mut list, place, count));
    let _ = println!(rt; "list{}", Words(&list));
}

// A block write from a list of six places, to a memory of three words.
fn write(rt: &impl Print, title: &str, r: Registers, place: usize, count: usize) {
    let mut memory = [0x1111, 0x2222, 0x3333];
    let list = [0xe0e0, 0xe1e1, 0xe2e2, 0xe3e3, 0xe4e4, 0xe5e5];
    let _ = print!(rt; "{title}");
    print_written(rt, block::block_write(r, &mut memory, &list, place, count));
    let _ = println!(rt; "memory{}", Words(&memory));
}

fn run_reads(rt: &impl Print) {
    let first = Registers {
        pointer: BitAddress(0),
        latch: 0x1111,
        control: 0x1000,
        hollow: false,
    };
    let still = Registers {
        pointer: BitAddress(0),
        latch: 0x1111,
        control: 0,
        hollow: false,
    };
    let top = Registers {
        pointer: BitAddress(0xfffffff0),
        latch: 0xffff,
        control: 0x1000,
        hollow: true,
    };
    let woken = registers::reset();
    read(
        rt,
        "a read to the end of memory and one word past it, into places 1 to 4\n",
        first,
        1,
        4,
    );
    read(
        rt,
        "the same with the pointer standing still\n",
        still,
        1,
        4,
    );
    read(
        rt,
        "from the top of the pointer's range: the filler of a miss, then word 0\n",
        top,
        1,
        4,
    );
    read(
        rt,
        "after reset: nothing was fetched yet, and INCR is 0\n",
        woken.registers,
        1,
        4,
    );
}

fn run_writes(rt: &impl Print) {
    let second = Registers {
        pointer: BitAddress(0x10),
        latch: 0x2222,
        control: 0x0800,
        hollow: false,
    };
    let still = Registers {
        pointer: BitAddress(0x10),
        latch: 0x2222,
        control: 0,
        hollow: false,
    };
    write(
        rt,
        "a write from places 1 to 4, from word 1 on: two stores fall empty\n",
        second,
        1,
        4,
    );
    write(
        rt,
        "the same with the pointer standing still\n",
        still,
        1,
        4,
    );
}

fn run_refusals(rt: &impl Print) {
    let first = Registers {
        pointer: BitAddress(0),
        latch: 0x1111,
        control: 0x1000,
        hollow: false,
    };
    let second = Registers {
        pointer: BitAddress(0x10),
        latch: 0x2222,
        control: 0x0800,
        hollow: false,
    };
    read(rt, "no words, at the list's end\n", first, 6, 0);
    read(
        rt,
        "one place past its end, then a place of 2^64 - 1\n",
        first,
        7,
        0,
    );
    read(rt, "", first, 0xffffffffffffffff, 1);
    write(
        rt,
        "a write of one word more than the list has\n",
        second,
        1,
        6,
    );
}

// A block read of a list of 4,097 places.
fn read_long(rt: &impl Print, memory: &[u16], count: usize) {
    let r = Registers {
        pointer: BitAddress(0),
        latch: 0x1111,
        control: 0x1000,
        hollow: false,
    };
    let mut list = [0xeeeeu16; 4097];
    print_read(rt, block::block_read(r, memory, &mut list, 0, count));
    let _ = println!(rt; "first {:04x}, last {:04x}", list[0], list[4095]);
}

fn run_lengths(rt: &impl Print) {
    let full = [0x4444u16; 32768];
    let longer = [0x5555u16; 32769];
    let _ = println!(rt; "4,096 words of a full memory, and one more");
    read_long(rt, &full, 4096);
    read_long(rt, &full, 4097);
    let _ = println!(rt; "a memory of one word too many, and a count of 4,097: number 1");
    read_long(rt, &longer, 4097);
}

fn main(rt: HostRuntime) {
    run_reads(&rt);
    run_writes(&rt);
    run_refusals(&rt);
    run_lengths(&rt);
}
