// A line of text to an access: "lines `R reg lanes` and `W reg lanes hhhh` (decimal digit, four upper-case hex digits, one space,
// line feed), at most 32 bytes each".
//
// A good line has each byte at a fixed place, and is judged there. Only a text that begins with no good line is searched
// for its line feed.
ghost use Rattle.std.specs.Prelude.{◌≡◌, Some, None, cond, ◌||◌, ltb, length};
ghost use Rattle.listing.specs.Line.{read_in, write_in, has_feed, front_line};
ghost use Rattle.listing.specs.Parts.{word_said, reads, writes, other_front};

use crate::Front;
use digits::{decimal_value, hex_value};
use port_spec::Access;

// The word that four hexadecimal digits say, the highest first. (The hints to inline here, at `front_line` and at `next` of `Accesses`:
// what has several callers is not inlined without them, and a line costs a quarter more.)
#[tactic(auto, unfolding(digits::specs::Digits::hex_value))]
#[inline(always)]
fn word_of(a: u8, b: u8, c: u8, d: u8) -> Option<u16>
    ensures { result ≡ word_said a b c d }
{
    let a = u16::from(hex_value(a)?);
    let b = u16::from(hex_value(b)?);
    let c = u16::from(hex_value(c)?);
    let d = u16::from(hex_value(d)?);
    Some(a * 4096 + b * 256 + c * 16 + d)
}

// What the line `R reg lanes` asks for that a text begins with.
#[tactic(auto, unfolding(crate::specs::Parts::reads, crate::specs::Line::headed, digits::specs::Digits::decimal_value))]
fn read_at(s: &[u8]) -> Option<Access>
    ensures { result ≡ cond (reads s.now) (Some (read_in s.now)) None }
{
    let [b'R', b' ', register, b' ', lanes, b'\n', ..] = s else {
        return None;
    };
    Some(Access::Read {
        register: u32::from(decimal_value(*register)?),
        lanes: u32::from(decimal_value(*lanes)?),
    })
}

// What the line `W reg lanes hhhh` asks for that a text begins with.
#[tactic(auto, unfolding(crate::specs::Line::headed, crate::specs::Line::tailed, digits::specs::Digits::decimal_value))]
fn write_at(s: &[u8]) -> Option<Access>
    ensures { result ≡ cond (writes s.now) (Some (write_in s.now)) None }
{
    let [
        b'W',
        b' ',
        register,
        b' ',
        lanes,
        b' ',
        a,
        b,
        c,
        d,
        b'\n',
        ..
    ] = s
    else {
        return None;
    };
    Some(Access::Write {
        register: u32::from(decimal_value(*register)?),
        lanes: u32::from(decimal_value(*lanes)?),
        word: word_of(*a, *b, *c, *d)?,
    })
}

// A text that begins with no good line: its first line is bad if it ends, or if it is too long already.
#[tactic(auto, using(crate::proofs::Feeds::feed_contained), unfolding(crate::specs::Parts::other_front))]
fn judge_other(s: &[u8]) -> Front
    ensures { result ≡ other_front s.now }
{
    if s.len() > 31 || s.contains(&b'\n') {
        Front::Bad
    } else {
        Front::Open
    }
}

// The line that a text begins with.
#[tactic(auto, using(crate::proofs::FrontLine::reads_front, crate::proofs::FrontLine::writes_front, crate::proofs::FrontLine::none_front))]
#[inline(always)]
pub fn front_line(s: &[u8]) -> Front
    ensures { result ≡ front_line s.now }
{
    if let Some(access) = read_at(s) {
        return Front::Good(access, 6);
    }
    if let Some(access) = write_at(s) {
        return Front::Good(access, 11);
    }
    judge_other(s)
}
