// A decode: which banks a cycle on the local bus selects.
ghost use Rattle.std.specs.Prelude.{◌≡◌, ◌≤◌, cond, ltb, false, IfOk};
ghost use Rattle.words.specs.Refusals.{number_returned, refusal_number};
ghost use Rattle.bank_spec.specs.Decode.{agrees, in_turn, admits, selects, decoded_as, decoded};
ghost use Rattle.bank.specs.Kinds.{kind_number};

use bank_spec::{Bank, Banks, Decoded};
use words::{BitAddress, Refusal, bit_of};

// The kinds of cycles.
#[derive(Clone, Copy)]
enum Kind {
    Ordinary,
    Refresh,
    Special,
}

// A cycle on the local bus, as the control word has it judged.
#[derive(Clone, Copy)]
struct Cycle {
    control: u16,
    address: BitAddress,
    kind: Kind,
}

// The kind that a number stands for.
fn kind_of(number: u32) -> Result<Kind, Refusal>
    ensures number { number_returned result ≡ cond (ltb 2 number) 31 0 }
    ensures kind { IfOk result (λ k. kind_number k ≡ number) }
{
    match number {
        0 => Ok(Kind::Ordinary),
        1 => Ok(Kind::Refresh),
        2 => Ok(Kind::Special),
        _ => Err(Refusal::UnknownKind),
    }
}

// The address agrees with the compare value on every bit that the mask allows: what the mask leaves of both is the same.
#[tactic(auto, using(bank_spec::proofs::BitByBit::masked_alike))]
fn is_agreed(k: Bank, a: BitAddress) -> bool
    ensures { result ≡ agrees k.mask k.compare a.0 }
{
    (k.compare & k.mask) == (a.0 & k.mask)
}

impl Cycle {
    // A refresh at its address is one of bank n: of every bank, of one pair, of one bank, or of none.
    #[tactic(auto, unfolding(bank_spec::specs::Decode::in_turn))]
    fn is_in_turn(self, n: u32) -> bool
        ensures { result ≡ in_turn self.control self.address n }
    {
        match self.control / 64 % 4 {
            0 => true,
            1 => n % 2 == self.address.0 / 65536 % 2,
            2 => n == self.address.0 / 65536 % 4,
            _ => false,
        }
    }

    // The control word admits it for bank n.
    #[tactic(auto, unfolding(bank_spec::specs::Decode::admits))]
    fn is_admitted(self, n: u32) -> bool
        requires { n ≤ 3 }
        ensures { result ≡ admits self.control self.address (kind_number self.kind) n }
    {
        match self.kind {
            Kind::Ordinary => true,
            Kind::Refresh => !bit_of(self.control, 8 + n) && self.is_in_turn(n),
            Kind::Special => bit_of(self.control, 12 + n),
        }
    }

    // It selects bank n, whose registers are k.
    #[tactic(auto, unfolding(bank_spec::specs::Decode::selects))]
    fn selects(self, k: Bank, n: u32) -> bool
        requires { n ≤ 3 }
        ensures { result ≡ selects k self.control self.address (kind_number self.kind) n }
    {
        is_agreed(k, self.address) && self.is_admitted(n)
    }
}

// All four banks, and whether a cycle of that kind at that address selects them.
#[tactic(auto, unfolding(bank_spec::specs::Decode::decoded))]
pub fn decode(b: Banks, control: u16, address: BitAddress, kind: u32) -> Decoded
    ensures { result ≡ decoded b control address kind }
{
    let kind = match kind_of(kind) {
        Ok(kind) => kind,
        Err(refusal) => return refuse(refusal),
    };
    let cycle = Cycle {
        control,
        address,
        kind,
    };
    Decoded {
        number: 0,
        bank0: cycle.selects(b.bank0, 0),
        bank1: cycle.selects(b.bank1, 1),
        bank2: cycle.selects(b.bank2, 2),
        bank3: cycle.selects(b.bank3, 3),
    }
}

// A refusal: its number, and no bank.
fn refuse(refusal: Refusal) -> Decoded
    ensures { result ≡ decoded_as (refusal_number refusal) false false false false }
{
    Decoded {
        number: u8::from(refusal),
        bank0: false,
        bank1: false,
        bank2: false,
        bank3: false,
    }
}
