// A day at the bench, each access done in place: document 01's K1 to K4, a table read byte by byte in either order, refusals, and
// memories of every kind of length. Each access prints a line: what it was, its answer, and the pointer that it left in the record. An
// accepted read of HSTDATA prints `held` or `hollow`, any other line `-`.
// The stored output was worked out by hand from document 01, "The four host registers", "Numbers returned" and "Checked examples".
// What standard output doesn't take is let go (`let _`): nothing is said of it, and the day goes on.
#![tactic(auto)]

ghost use Rattle.port_spec.specs.Host.{Accessed};
ghost use Rattle.port_spec.specs.declared.Access.TheVariants.{Read, Write};
ghost use Rattle.in_place_runs.specs.Script.{access_in};

use port_spec::{Access, Answer, Cycle, Outcome};
use registers::Registers;
use std::fmt;

// What a line shows of an answer. The mark is that of an accepted read of HSTDATA; any other access has none.
// (The answer's number is 0 where the access was done: `Answer` has it so.)
#[derive(Clone, Copy)]
struct Shown {
    of_data: bool,
    answer: Answer,
}

impl fmt::Display for Shown {
    fn fmt<W: fmt::Write>(&self, f: &mut fmt::Formatter<W>) -> fmt::Result {
        let Answer {
            number,
            word,
            hollow,
            cycle,
        } = self.answer;
        let mark = match (self.of_data && number == 0, hollow) {
            (false, _) => "-",
            (true, true) => "hollow",
            (true, false) => "held",
        };
        let name = match cycle {
            Cycle::None => "none",
            Cycle::Inside => "inside",
            Cycle::Empty => "empty",
        };
        write!(f, "number {number}, word {word:04x}, {mark}, cycle {name}")
    }
}

// A read in place, printed.
// (Register and lanes are numbers, here and below, as `Access` has them: some scripts hand in those that are refused.)
fn read(rt: &impl Print, r: Registers, memory: &mut [u16], register: u32, lanes: u32) -> Outcome
    ensures { Accessed r memory.old (Read register lanes) result memory.new }
{
    let o = in_place::host_access_by_lending(r, memory, Access::Read { register, lanes });
    let shown = Shown {
        of_data: register == 2,
        answer: o.answer,
    };
    let pointer = o.registers.pointer.0;
    let _ = println!(rt; "read {register} lanes {lanes}: {shown}, pointer {pointer:08x}");
    o
}

// A write in place, printed.
fn write(
    rt: &impl Print,
    r: Registers,
    memory: &mut [u16],
    register: u32,
    lanes: u32,
    word: u16,
) -> Outcome
    ensures { Accessed r memory.old (Write register lanes word) result memory.new }
{
    let o = in_place::host_access_by_lending(
        r,
        memory,
        Access::Write {
            register,
            lanes,
            word,
        },
    );
    let shown = Shown {
        of_data: false,
        answer: o.answer,
    };
    let pointer = o.registers.pointer.0;
    let _ = println!(rt;
        "write {register} lanes {lanes} word {word:04x}: {shown}, pointer {pointer:08x}"
    );
    o
}

fn print_words(rt: &impl Print, memory: &[u16; 3]) {
    let [first, second, third] = *memory;
    let _ = println!(rt; "memory {first:04x} {second:04x} {third:04x}");
}

// One access of a script, a number of seven hexadecimal digits: 0 for a read or 1 for a write, the register, the lanes, and the word.
// (A number, so that a script is a short table: `access_in` says which access it is.)
fn step(rt: &impl Print, r: Registers, memory: &mut [u16], access: u32) -> Outcome
    ensures { Accessed r memory.old (access_in access) result memory.new }
{
    let register = access / 0x100000 % 16;
    let lanes = access / 0x10000 % 16;
    if access / 0x1000000 == 0 {
        return read(rt, r, memory, register, lanes);
    }
    write(rt, r, memory, register, lanes, (access % 0x10000) as u16)
}

// A script, from reset on.
fn run(rt: &impl Print, title: &str, memory: &mut [u16], script: &[u32]) {
    let _ = println!(rt; "{title}");
    let mut r = registers::reset().registers;
    for &access in script {
        r = step(rt, r, memory, access).registers;
    }
}

fn run_table(rt: &impl Print) {
    let mut memory = [0x1111, 0x2222, 0x3333];
    let script = [
        0x1_3_3_1000,
        0x1_0_3_0000,
        0x1_1_3_0000,
        0x0_2_3_0000,
        0x0_2_3_0000,
        0x0_2_3_0000,
        0x0_2_3_0000,
    ];
    run(
        rt,
        "K1 and K2: three words, and a read past them",
        &mut memory,
        &script,
    );
    print_words(rt, &memory);
}

fn run_store(rt: &impl Print) {
    let mut memory = [0x1111, 0x2222, 0x3333];
    let script = [
        0x1_3_3_0800,
        0x1_0_3_0000,
        0x1_1_3_0000,
        0x1_2_3_aaaa,
        0x0_2_3_0000,
        0x0_2_3_0000,
    ];
    run(
        rt,
        "K3: a word stored, then two reads",
        &mut memory,
        &script,
    );
    print_words(rt, &memory);
}

fn run_top(rt: &impl Print) {
    let mut memory = [0x1111, 0x2222, 0x3333];
    let script = [
        0x1_3_3_1000,
        0x1_0_3_fff0,
        0x1_1_3_ffff,
        0x0_2_3_0000,
        0x0_2_3_0000,
    ];
    run(
        rt,
        "K4: the pointer steps from the top to 0",
        &mut memory,
        &script,
    );
}

fn run_low_byte_first(rt: &impl Print) {
    let mut memory = [0x1234, 0x5678];
    let script = [
        0x1_3_3_1000,
        0x1_0_1_0000,
        0x1_0_2_0000,
        0x1_1_1_0000,
        0x1_1_2_0000,
        0x0_2_1_0000,
        0x0_2_2_0000,
        0x0_2_1_0000,
        0x0_2_2_0000,
        0x0_2_1_0000,
        0x0_2_2_0000,
    ];
    run(rt, "two words byte by byte, LBL 0", &mut memory, &script);
}

fn run_high_byte_first(rt: &impl Print) {
    let mut memory = [0x1234, 0x5678];
    let script = [
        0x1_3_3_3000,
        0x1_1_2_0000,
        0x1_1_1_0000,
        0x1_0_2_0000,
        0x1_0_1_0000,
        0x0_2_2_0000,
        0x0_2_1_0000,
        0x0_2_2_0000,
        0x0_2_1_0000,
        0x0_2_2_0000,
        0x0_2_1_0000,
    ];
    run(rt, "the same, LBL 1", &mut memory, &script);
}

// The read after them shows the pointer, the word and the mark that stood before.
fn run_refusals(rt: &impl Print) {
    let mut memory = [0x1111, 0x2222, 0x3333];
    let script = [
        0x1_3_3_1800,
        0x1_0_3_0010,
        0x1_1_3_0000,
        0x0_4_3_0000,
        0x0_2_0_0000,
        0x1_2_4_aaaa,
        0x1_4_4_aaaa,
        0x0_2_3_0000,
    ];
    run(rt, "refusals change nothing", &mut memory, &script);
    print_words(rt, &memory);
}

fn run_lengths(rt: &impl Print) {
    let mut longest = [0x4444u16; 32768];
    let mut longer = [0x5555u16; 32769];
    let mut none = [0u16; 0];
    let last = [
        0x1_3_3_1800,
        0x1_0_3_fff0,
        0x1_1_3_0007,
        0x1_2_3_aaaa,
        0x0_2_3_0000,
    ];
    let refused = [0x0_2_3_0000, 0x1_4_4_aaaa];
    let missed = [0x0_2_3_0000, 0x0_2_3_0000, 0x1_2_3_aaaa, 0x0_2_3_0000];
    run(rt, "the last of 32,768 words", &mut longest, &last);
    run(rt, "one word more: number 1", &mut longer, &refused);
    run(rt, "no memory, after reset", &mut none, &missed);
}

fn main(rt: HostRuntime) {
    run_table(&rt);
    run_store(&rt);
    run_top(&rt);
    run_low_byte_first(&rt);
    run_high_byte_first(&rt);
    run_refusals(&rt);
    run_lengths(&rt);
}
