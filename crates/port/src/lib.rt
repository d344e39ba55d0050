// One access by the host, with its memory cycle. What it means, and the laws of that, are crate `port_spec`; here is the code.
//
// An access goes in two steps. `begin` works on the registers alone: it answers, lands the written
// bytes and says which memory cycle is due. `carry` does that cycle on the lent memory.
#![tactic(auto)]

mod access;
mod cycles;

// The call of a bench: it refuses by number what it does not do.
pub use access::host_access;

// The parts that another way to the port is made of: they judge nothing.
pub use access::{begin, begin_read, begin_write, finish, judge, refuse};
pub use cycles::{carry, settle_fetch, settle_store, step_if};
