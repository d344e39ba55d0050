// The reader of a strike sheet. What a sheet means, and the laws of that, are crates `sheet_spec` and `tempo_spec`; here is the code. It
// stands on the single access of crate `port`.
#![tactic(auto)]

mod judging;
mod reading;
mod sheets;
mod timing;

use registers::Registers;
pub use sheets::strike_sheet;

// What the reads of some ticks leave, besides the memory and the ticks themselves: whether any of them was hollow. The registers have moved
// whether one was or not, and all ticks are read before any is judged, so this is no Result.
#[derive(Clone, Copy, Debug, PartialEq, Eq)]
pub(crate) struct TicksRead {
    pub(crate) registers: Registers,
    pub(crate) hollow: bool,
}
