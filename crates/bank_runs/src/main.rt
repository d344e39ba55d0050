// The bank selects at work: source document 001's sample memory map written through the port, read back, and decoded inside and just
// outside each range; the order of the places; byte accesses and lanes that are none; each kind of cycle by each part of the control word.
// Each call prints a line: what it was asked, a write with its word, and what it answered.
// The stored output was worked out by hand, from source document 001 and documents 01 and 02.
// What standard output doesn't take is let go (`let _`): nothing is said of it, and the runs go on.
#![tactic(auto)]

mod calling;
mod control;
mod map;
mod places;

fn main(rt: HostRuntime) {
    map::run_map(&rt);
    places::run_places(&rt);
    control::run_control(&rt);
}
