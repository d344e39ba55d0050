// The refusals of a sheet, each by what it is judged by.
// A rule is a number: `strike_sheet` is given any, and refuses those that it doesn't know. Of memory and list their lengths alone are
// judged, as `refusal_before` says.
ghost use Rattle.std.specs.Prelude.{◌≡◌, false, ◌≤◌, IfOk};
ghost use Rattle.sheet_spec.specs.Reading.{rising};
ghost use Rattle.sheet_spec.specs.Sheet.{unknown_rule, out_of_range, strokes_of, refusal_before, count_refusal, ticks_refusal};
ghost use Rattle.words.specs.Refusals.{number_returned};

use control::steps_reading;
use sheet_spec::TimeStruck;
use words::{Refusal, is_over_limit};

// The strokes of a time, and the rule by which they were counted: no time that is in range has more than 32.
#[derive(Clone, Copy, Debug, PartialEq, Eq)]
pub(crate) struct Strokes {
    pub(crate) rule: u32,
    pub(crate) count: u16,
    ghost few: { (1 ≤ count) × (count ≤ 32) },
}

// The rule is neither 1 nor 2.
#[tactic(auto, unfolding(sheet_spec::specs::Sheet::unknown_rule))]
fn is_unknown(rule: u32) -> bool
    ensures { result ≡ unknown_rule rule }
{
    !(rule == 1 || rule == 2)
}

// No watch strikes this time.
#[tactic(auto, unfolding(sheet_spec::specs::Sheet::out_of_range))]
fn is_out_of_range(t: TimeStruck) -> bool
    ensures { result ≡ out_of_range t }
{
    t.hours == 0 || 12 < t.hours || 3 < t.quarters || 14 < t.minutes
}

// The strokes of a time that is in range, by a rule: from one to 32.
#[tactic(auto, using(crate::proofs::FewStrokes::small))]
fn count_strokes(rule: u32, t: TimeStruck) -> u16
    requires { out_of_range t ≡ false }
    ensures { (result ≡ strokes_of rule t) × (1 ≤ result) × (result ≤ 32) }
{
    match rule {
        2 => (t.hours + 2 * t.quarters + t.minutes) as u16,
        _ => (t.hours + t.quarters + t.minutes) as u16,
    }
}

// Refusal 1, 45, 40, 41 or 46; where none applies, the strokes, for which the list has room.
#[tactic(auto, unfolding(sheet_spec::specs::Sheet::refusal_before))]
pub(crate) fn judge_before(
    words: usize,
    rule: u32,
    t: TimeStruck,
    room: usize,
    control: u16,
) -> Result<Strokes, Refusal>
    ensures number { number_returned result ≡ refusal_before words rule t room control }
    ensures strokes { IfOk result (λ s. (s.rule ≡ rule) × (s.count ≡ strokes_of rule t) × (s.count ≤ room)) }
{
    if is_over_limit(words) {
        return Err(Refusal::MemoryOverLimit);
    }
    if is_unknown(rule) {
        return Err(Refusal::UnknownRule);
    }
    if is_out_of_range(t) {
        return Err(Refusal::TimeOutOfRange);
    }
    let strokes = Strokes {
        rule,
        count: count_strokes(rule, t),
    };
    if room < strokes.count as usize {
        return Err(Refusal::ListTooShort);
    }
    if steps_reading(control) {
        return Ok(strokes);
    }
    Err(Refusal::NoIncrement)
}

// Refusal 42 or 43, or none, by what was said of the count word.
#[tactic(auto, unfolding(sheet_spec::specs::Sheet::count_refusal))]
pub(crate) fn judge_count(strokes: u16, hollow: bool, word: u16) -> Result<(), Refusal>
    ensures { number_returned result ≡ count_refusal strokes hollow word }
{
    if hollow {
        return Err(Refusal::HollowWord);
    }
    if word == strokes {
        return Ok(());
    }
    Err(Refusal::WrongCount)
}

// Each tick lies after the one before it.
fn are_rising(ticks: &[u16]) -> bool
    ensures { result ≡ rising ticks.now }
{
    ticks.is_sorted_by(|tick, next| *tick < *next)
}

// Refusal 42 or 44, or none, by what was said of the ticks.
#[tactic(auto, unfolding(sheet_spec::specs::Sheet::ticks_refusal))]
pub(crate) fn judge_ticks(hollow: bool, ticks: &[u16]) -> Result<(), Refusal>
    ensures { number_returned result ≡ ticks_refusal hollow ticks.now }
{
    if hollow {
        return Err(Refusal::HollowWord);
    }
    if are_rising(ticks) {
        return Ok(());
    }
    Err(Refusal::TicksNotRising)
}
