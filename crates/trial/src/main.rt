// Carries out a script of calls, read from standard input, and prints what each call answers and leaves: crates/script/src/lib.rt says
// what a script is and what is printed. A second program, written in plain Rust from document 01 alone, does the same; `second/compare`
// holds what both print against each other.
#![tactic(auto)]

mod block_calls;
mod bus_calls;
mod calls;
mod field_calls;
mod port_calls;
mod setting;
mod turns;
mod whole_calls;

fn main(rt: HostRuntime) {
    let mut room = [0u16; 32769];
    let mut list = [0u16; 8192];
    turns::run(&mut room, &mut list, rt.stdin(), rt.stdout());
}
