// Document 01's ten checked examples, carried out by the code itself, and its cases to run: "Checked examples". With them a field of 24
// bits that reaches a third word, which a well-known emulator of this chip gets wrong. An access by the host prints "number, word, hollow
// or held, cycle", as `portlist` does but with small letters, and then the registers that it leaves; any other call prints its number
// first. The stored output was worked out by hand from document 01.
// What standard output doesn't take is let go (`let _`): nothing is said of it, and the runs go on.
#![tactic(auto)]

ghost use Rattle.std.specs.Prelude.{◌≡◌};
ghost use Rattle.words.specs.Addresses.{address};
ghost use Rattle.bus.specs.Order.{granted};
ghost use Rattle.port_spec.specs.Host.{Accessed};
ghost use Rattle.registers.specs.Processor.{fresh};
ghost use Rattle.port_spec.specs.declared.Access.TheVariants.{Read, Write};
ghost use Rattle.field_spec.specs.Answers.{put_memory};

use bus::{Bus, Granted};
use port_spec::{Access, Answer, Cycle, Outcome};
use registers::Registers;
use std::fmt;
use words::BitAddress;

// ---- the port

// What a line shows of an answer. The mark is that of an accepted read of HSTDATA; any other access has none.
// (The answer's number is 0 where the access was done: `Answer` has it so.)
#[derive(Clone, Copy)]
struct Shown {
    of_data: bool,
    answer: Answer,
}

impl fmt::Display for Shown {
    fn fmt<W: fmt::Write>(&self, f: &mut fmt::Formatter<W>) -> fmt::Result {
        let x = self.answer;
        let mark = match (self.of_data && x.number == 0, x.hollow) {
            (false, _) => "-",
            (true, true) => "hollow",
            (true, false) => "held",
        };
        let cycle = match x.cycle {
            Cycle::None => "none",
            Cycle::Inside => "in",
            Cycle::Empty => "empty",
        };
        write!(f, "{} {:04x} {mark} {cycle}", x.number, x.word)
    }
}

// What a line shows of the registers that a call leaves.
#[derive(Clone, Copy)]
struct Left(Registers);

impl fmt::Display for Left {
    fn fmt<W: fmt::Write>(&self, f: &mut fmt::Formatter<W>) -> fmt::Result {
        let r = self.0;
        write!(f, "pointer {:08x}, control {:04x}", r.pointer.0, r.control)
    }
}

// An access, printed.
fn print_access(rt: &impl Print, of_data: bool, o: Outcome) {
    let answer = o.answer;
    let _ = println!(rt; "{}, {}", Shown { of_data, answer }, Left(o.registers));
}

// Registers as reset leaves them, but for the control word.
fn controlled(control: u16) -> Registers
    ensures { result ≡ fresh control }
{
    Registers {
        pointer: BitAddress(0),
        latch: 0,
        control,
        hollow: true,
    }
}

// A read of HSTDATA, printed.
// (Register and lanes are numbers, here and below, as `Access` has them.)
fn read(rt: &impl Print, r: Registers, memory: &mut [u16]) -> Outcome
    ensures { Accessed r memory.old (Read 2 3) result memory.new }
{
    let o = port::host_access(
        r,
        memory,
        Access::Read {
            register: 2,
            lanes: 3,
        },
    );
    print_access(rt, true, o);
    o
}

// A write, printed.
fn write(
    rt: &impl Print,
    r: Registers,
    memory: &mut [u16],
    register: u32,
    lanes: u32,
    word: u16,
) -> Outcome
    ensures { Accessed r memory.old (Write register lanes word) result memory.new }
{
    let o = port::host_access(
        r,
        memory,
        Access::Write {
            register,
            lanes,
            word,
        },
    );
    print_access(rt, false, o);
    o
}

// INCR 1, the pointer loaded by its two halves, and four reads.
fn run_reads(rt: &impl Print, title: &str, low_half: u16, high_half: u16) {
    let mut memory = [0x1111, 0x2222, 0x3333];
    let _ = println!(rt; "{title}");
    let low = write(rt, controlled(0x1000), &mut memory, 0, 3, low_half);
    let high = write(rt, low.registers, &mut memory, 1, 3, high_half);
    let first = read(rt, high.registers, &mut memory);
    let second = read(rt, first.registers, &mut memory);
    let third = read(rt, second.registers, &mut memory);
    read(rt, third.registers, &mut memory);
}

fn run_store(rt: &impl Print) {
    let mut memory = [0x1111, 0x2222, 0x3333];
    let _ = println!(rt; "K3: INCW 1, pointer loaded with 0, AAAAh written, two reads");
    let low = write(rt, controlled(0x0800), &mut memory, 0, 3, 0x0000);
    let high = write(rt, low.registers, &mut memory, 1, 3, 0x0000);
    let stored = write(rt, high.registers, &mut memory, 2, 3, 0xaaaa);
    let first = read(rt, stored.registers, &mut memory);
    read(rt, first.registers, &mut memory);
}

fn run_control(rt: &impl Print) {
    let mut none = [0u16; 0];
    let _ = println!(rt; "K5: low control byte 80h, the host writes 0Dh, then F0h");
    let first = write(rt, controlled(0x80), &mut none, 3, 1, 0x0d);
    write(rt, first.registers, &mut none, 3, 1, 0xf0);
    let _ = println!(rt; "K6: low control byte 0Dh, the processor writes F0h");
    let answer = registers::processor_write(controlled(0x0d), 3, 0xf0);
    let _ = println!(rt; "{}, {}", answer.number, Left(answer.registers));
}

// ---- fields

// The first three words of a memory, or as many as it has, each behind a space.
#[derive(Clone, Copy)]
struct FirstWords<'a>(&'a [u16]);

impl fmt::Display for FirstWords<'_> {
    fn fmt<W: fmt::Write>(&self, f: &mut fmt::Formatter<W>) -> fmt::Result {
        for word in self.0.iter().take(3) {
            write!(f, " {word:04x}")?;
        }
        Ok(())
    }
}

// Puts a field in, and prints the memory.
fn put(rt: &impl Print, memory: &mut [u16], size: u32, at: u32, value: u32)
    ensures { memory.new ≡ put_memory memory.old (address at) size value }
{
    let answer = field::put_in(memory, BitAddress(at), size, value);
    let words = FirstWords(memory);
    let _ = println!(rt;
        "put size {size} at bit {at}: {}, cycles {}, memory{words}",
        answer.number, answer.cycles
    );
}

// Takes the field of K7 out, both ways.
fn take(rt: &impl Print, memory: &[u16]) {
    let unsigned = field::take_out(memory, BitAddress(14), 4);
    let _ = println!(rt;
        "taken out: {}, cycles {}, value {}",
        unsigned.number, unsigned.cycles, unsigned.value
    );
    let signed = field::take_out_signed(memory, BitAddress(14), 4);
    let _ = println!(rt;
        "signed: {}, cycles {}, value {}",
        signed.number, signed.cycles, signed.value
    );
}

fn run_fields(rt: &impl Print) {
    let mut memory = [0u16; 2];
    let mut three = [0u16; 3];
    let mut other = [0u16; 3];
    let _ = println!(rt; "K7 and K8: in two words, both 0");
    put(rt, &mut memory, 4, 14, 0xa);
    take(rt, &memory);
    let _ = println!(rt; "K9 and a field of 24 bits: in three words, all 0");
    put(rt, &mut three, 32, 1, 0xffff_ffff);
    put(rt, &mut other, 24, 15, 0xffff_ffff);
}

fn run_sizes(rt: &impl Print) {
    let mut memory = [0u16; 2];
    let _ = println!(rt; "To run: sizes 0 and 33, and 32 bits at bit 0 and at bit 1, in two words");
    put(rt, &mut memory, 0, 0, 0xffff_ffff);
    put(rt, &mut memory, 33, 0, 0xffff_ffff);
    put(rt, &mut memory, 32, 0, 0xffff_ffff);
    put(rt, &mut memory, 32, 1, 0);
}

fn run_length(rt: &impl Print) {
    let mut longer = [0u16; 32769];
    let _ = println!(rt; "To run: 32,769 words");
    put(rt, &mut longer, 1, 0, 1);
    read(rt, controlled(0x1000), &mut longer);
}

// ---- the bus

// A grant, printed.
fn grant(rt: &impl Print, b: Bus) -> Granted
    ensures { result ≡ granted b }
{
    let answer = bus::grant(b);
    let _ = println!(rt; "{}, source {}", answer.number, answer.source);
    answer
}

fn run_bus(rt: &impl Print) {
    let all = Bus {
        hold: true,
        screen: true,
        dram: true,
        host: true,
        processor: true,
    };
    let _ = println!(rt; "K10: all five wait, hold is granted and released, then five grants");
    let hold = grant(rt, all);
    let freed = bus::release(hold.bus);
    let _ = println!(rt; "{}, released", freed.number);
    let first = grant(rt, freed.bus);
    let second = grant(rt, first.bus);
    let third = grant(rt, second.bus);
    let fourth = grant(rt, third.bus);
    grant(rt, fourth.bus);
}

fn main(rt: HostRuntime) {
    run_reads(
        &rt,
        "K1 and K2: INCR 1, pointer loaded with 0, four reads",
        0x0000,
        0x0000,
    );
    run_store(&rt);
    run_reads(
        &rt,
        "K4: INCR 1, pointer loaded with FFFFFFF0h, four reads",
        0xfff0,
        0xffff,
    );
    run_control(&rt);
    run_fields(&rt);
    run_sizes(&rt);
    run_length(&rt);
    run_bus(&rt);
}
