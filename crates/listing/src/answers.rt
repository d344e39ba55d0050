// An answer to a line of text: "(number, word, hollow or held, cycle)". Each part answers the place after it, where the next one begins;
// the output is lent, so nothing grows.
ghost use Rattle.std.specs.Prelude.{◌≡◌, ◌+◌, ◌≤◌, ◌<◌, length};
ghost use Rattle.listing.specs.Answer.{shows_mark, number_text, mark_text, cycle_text, answer_text};
ghost use Rattle.listing.specs.Parts.{Put};

use digits::digit_for;
use port_spec::{Access, Answer, Cycle};

// Puts a text into the output from a place on, and answers the place after it.
pub(crate) fn put(output: &mut [u8], at: usize, text: &[u8]) -> usize
    requires { at + length text.now ≤ length output.old }
    ensures { Put output.old at text.now result output.new }
{
    let end = at + text.len();
    output[at..end].copy_from_slice(text);
    end
}

// "accepted reads of register 2 print `held` or `hollow`, all other lines `-`"
// (The number as `Answer` has it, 0 where the access was done: `shows_mark` and `number_text` go by it.)
#[tactic(auto, unfolding(crate::specs::Answer::shows_mark))]
fn shows_mark(a: Access, number: u8) -> bool
    ensures { result ≡ shows_mark a number }
{
    match a {
        Access::Read { register, .. } => register == 2 && number == 0,
        Access::Write { .. } => false,
    }
}

// The number and the word.
#[tactic(auto, unfolding(crate::specs::Answer::number_text))]
fn put_head(output: &mut [u8], at: usize, number: u8, word: u16) -> usize
    requires { (at + 6 ≤ length output.old) × (number < 10) }
    ensures { Put output.old at (number_text number word) result output.new }
{
    let text = [
        b'0' + number,
        b' ',
        digit_for(word / 4096),
        digit_for(word / 256),
        digit_for(word / 16),
        digit_for(word),
    ];
    put(output, at, &text)
}

// The mark, with a space on either side.
#[tactic(auto, unfolding(crate::specs::Answer::mark_text))]
fn put_mark(output: &mut [u8], at: usize, shown: bool, hollow: bool) -> usize
    requires { at + 8 ≤ length output.old }
    ensures { Put output.old at (mark_text shown hollow) result output.new }
{
    if !shown {
        put(output, at, b" - ")
    } else if hollow {
        put(output, at, b" hollow ")
    } else {
        put(output, at, b" held ")
    }
}

// The cycle, and the line feed.
#[tactic(auto, unfolding(crate::specs::Answer::cycle_text))]
fn put_cycle(output: &mut [u8], at: usize, cycle: Cycle) -> usize
    requires { at + 6 ≤ length output.old }
    ensures { Put output.old at (cycle_text cycle) result output.new }
{
    match cycle {
        Cycle::None => put(output, at, b"none\n"),
        Cycle::Inside => put(output, at, b"in\n"),
        Cycle::Empty => put(output, at, b"empty\n"),
    }
}

// The line that tells the answer to an access.
pub(crate) fn put_answer(output: &mut [u8], at: usize, a: Access, answer: Answer) -> usize
    requires { (at + 20 ≤ length output.old) × (answer.number < 10) }
    ensures { Put output.old at (answer_text a answer) result output.new }
{
    let shown = shows_mark(a, answer.number);
    let after_head = put_head(output, at, answer.number, answer.word);
    let after_mark = put_mark(output, after_head, shown, answer.hollow);
    put_cycle(output, after_mark, answer.cycle)
}
