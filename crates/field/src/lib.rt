// Bit fields in a lent memory of 16-bit words: taking one out, taking it out signed, putting one in. Document 01, "Fields". What a field
// is, what the calls answer, and the laws of that, are crate `field_spec`; here is the code.
//
// A call judges its numbers first, and refuses by number. An accepted field is then taken out of the words touched, read as
// one number of 64 bits, or put in word by word, in numbers of 32 bits.
//
// A place and a size stay two numbers, in the calls and below them, as `refusal`, `touched` and `field_at` have them: any size may be
// handed in, and is refused by number. `as` stands where there is no `From`: where a number gets narrower, which is proved to lose
// nothing, and where a `u32` becomes a place in memory.
// Taking out is two calls: docs/MANUAL.md names both, and `taken` and `taken_signed` read the same bits each in its own way.
#![tactic(auto)]

mod bits;
mod judging;
mod places;
mod putting;
mod taking;
mod taking_signed;

pub use putting::put_in;
pub use taking::take_out;
pub use taking_signed::take_out_signed;
