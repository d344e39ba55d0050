// A strike sheet: a minute repeater's table of strokes, read through the port and judged, and the even-tempo times of its strokes.
// Document 02, requests (viii) and (ix). Here stand its types, what it means (specs/) and the laws of that (proofs/); the code is crate
// `sheet`.
#![tactic(auto)]

use registers::Registers;

// The time that a watch strikes: hours 1 to 12, quarters 0 to 3, minutes 0 to 14. Any other is refused.
#[derive(Clone, Copy, Debug, PartialEq, Eq)]
pub struct TimeStruck {
    pub hours: u32,
    pub quarters: u32,
    pub minutes: u32,
}

// What a sheet leaves, besides the list of times. `rule` is the rule by which its strokes were counted, 1 or 2; `strokes` counts the
// places of the list that took a time. A refused sheet has 0 for both.
// (`number` and `rule` stay numbers: `numbered` speaks of the one, and `strike_sheet` is given any rule and refuses by number.)
#[derive(Clone, Copy, Debug, PartialEq, Eq)]
pub struct Sheet {
    pub number: u8,
    pub rule: u32,
    pub strokes: u16,
    pub registers: Registers,
}
