// An access to BKPORT: a read, a write.
ghost use Rattle.std.specs.Prelude.{◌≡◌};
ghost use Rattle.words.specs.Refusals.{number_returned, refusal_number};
ghost use Rattle.bank_spec.specs.Access.{next, refusal, refused, read_answer, write_answer};

use crate::places::{half_at, with_half_at};
use bank_spec::{BankAnswer, BankPort};
use words::{Refusal, names_lanes};

// Which of the two reasons applies to the lanes, if any does.
#[tactic(auto, unfolding(bank_spec::specs::Access::refusal))]
fn judge(lanes: u32) -> Result<(), Refusal>
    ensures { number_returned result ≡ refusal lanes }
{
    if !names_lanes(lanes) {
        return Err(Refusal::UnnamedLanes);
    }
    if lanes != 3 {
        return Err(Refusal::ByteAccess);
    }
    Ok(())
}

// A refusal: its number, no word, and the port as it stood.
fn refuse(refusal: Refusal, p: BankPort) -> BankAnswer
    ensures { result ≡ refused (refusal_number refusal) p }
{
    BankAnswer {
        number: u8::from(refusal),
        word: 0,
        port: p,
    }
}

// The index after an access: behind the last place comes the first.
fn next_index(i: u32) -> u32
    ensures { result ≡ next i }
{
    (i % 16 + 1) % 16
}

// The half that the index names is read, and the index steps.
#[tactic(auto, unfolding(bank_spec::specs::Access::read_answer))]
pub fn read_bank_port(p: BankPort, lanes: u32) -> BankAnswer
    ensures { result ≡ read_answer p lanes }
{
    if let Err(refusal) = judge(lanes) {
        return refuse(refusal, p);
    }
    BankAnswer {
        number: 0,
        word: half_at(p.banks, p.index % 16),
        port: BankPort {
            index: next_index(p.index),
            ..p
        },
    }
}

// The half that the index names is replaced, and the index steps.
#[tactic(auto, unfolding(bank_spec::specs::Access::write_answer))]
pub fn write_bank_port(p: BankPort, lanes: u32, word: u16) -> BankAnswer
    ensures { result ≡ write_answer p lanes word }
{
    if let Err(refusal) = judge(lanes) {
        return refuse(refusal, p);
    }
    BankAnswer {
        number: 0,
        word: 0,
        port: BankPort {
            banks: with_half_at(p.banks, p.index % 16, word),
            index: next_index(p.index),
        },
    }
}
