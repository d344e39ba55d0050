// What one byte more makes of a record: its numbers grow group by group, and each is judged when its last group is there.
ghost use Rattle.std.specs.Prelude.{◌≡◌};
ghost use Rattle.transcript_spec.specs.Reading.{none, fresh, with_group, grown, entry_said, head_read, word_read, byte_taken, cut_off};

use transcript_spec::{Entry, Number, Part, Step};
use words::Refusal;

// A number before its first group.
fn no_number() -> Number
    ensures { result ≡ none }
{
    Number {
        begun: false,
        padded: false,
        value: 0,
    }
}

// A record before its first byte.
pub fn fresh_part() -> Part
    ensures { result ≡ fresh }
{
    Part::Head(no_number())
}

// A value with one group more. From 65,536 on it is over every limit and stays, so that it never wraps.
#[tactic(auto, unfolding(transcript_spec::specs::Reading::with_group))]
fn add_group(v: u32, g: u8) -> u32
    ensures { result ≡ with_group v g }
{
    if v < 65536 { v * 128 + u32::from(g) } else { v }
}

// A number with one byte more. Its first byte tells whether it begins with a zero group.
fn grow(n: Number, b: u8) -> Number
    ensures { result ≡ grown n b }
{
    let value = add_group(n.value, b % 128);
    if n.begun {
        return Number {
            begun: true,
            padded: n.padded,
            value,
        };
    }
    Number {
        begun: true,
        padded: b == 128,
        value,
    }
}

// The entry of a record, from its head and its word.
fn entry_from(head: u32, word: u32) -> Entry
    ensures { result ≡ entry_said head word }
{
    Entry {
        kind: head % 2,
        register: head / 2 % 4,
        lanes: head / 8,
        word,
    }
}

// A head whose last group is read: it is bad, or it is all of the record, or it calls for a word.
#[tactic(auto, unfolding(transcript_spec::specs::Reading::head_read))]
fn judge_head(n: Number) -> Step
    ensures { result ≡ head_read n }
{
    if n.padded {
        return Step::Bad(u8::from(Refusal::LeadingZeroGroup));
    }
    if 31 < n.value {
        return Step::Bad(u8::from(Refusal::OverLargeNumber));
    }
    if n.value < 8 {
        return Step::Bad(u8::from(Refusal::NoLanes));
    }
    if n.value % 2 == 0 {
        return Step::Whole(entry_from(n.value, 0));
    }
    Step::Goes(Part::Word(n.value, no_number()))
}

// A word whose last group is read, behind a head: it is bad, or the record is whole.
#[tactic(auto, unfolding(transcript_spec::specs::Reading::word_read))]
fn judge_word(head: u32, n: Number) -> Step
    ensures { result ≡ word_read head n }
{
    if n.padded {
        return Step::Bad(u8::from(Refusal::LeadingZeroGroup));
    }
    if 65535 < n.value {
        return Step::Bad(u8::from(Refusal::OverLargeNumber));
    }
    Step::Whole(entry_from(head, n.value))
}

// One byte more of a record.
#[tactic(auto, unfolding(transcript_spec::specs::Reading::byte_taken))]
pub fn take_byte(p: Part, b: u8) -> Step
    ensures { result ≡ byte_taken p b }
{
    match p {
        Part::Head(n) => {
            let more = grow(n, b);
            if b < 128 {
                return judge_head(more);
            }
            Step::Goes(Part::Head(more))
        }
        Part::Word(head, n) => {
            let more = grow(n, b);
            if b < 128 {
                return judge_word(head, more);
            }
            Step::Goes(Part::Word(head, more))
        }
    }
}

// The refusal of a record that the end of the string finds at this part: a number is cut off or missing. Between two records nothing is.
// (A number and no Result: `cut_off` names numbers, and both callers put it into an answer's number as it is.)
pub fn cut_off(p: Part) -> u8
    ensures { result ≡ cut_off p }
{
    match p {
        Part::Head(n) => {
            if n.begun {
                return u8::from(Refusal::CutOff);
            }
            0
        }
        Part::Word(_, _) => u8::from(Refusal::CutOff),
    }
}
