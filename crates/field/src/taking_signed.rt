// Taking a field out, as a signed number.
ghost use Rattle.std.specs.Prelude.{◌≡◌, ◌^◌, ◌≤◌, ◌<◌};
ghost use Rattle.field_spec.specs.Field.{signed};
ghost use Rattle.field_spec.specs.Answers.{taken_signed};

use crate::judging::judge;
use crate::taking::{gather, refuse};
use field_spec::Taken;
use words::BitAddress;

// The signed reading of a field of `size` bits. (2^32 is no 32-bit number, so half of 2^size stands in for it.)
fn signed_of(size: u32, value: u32) -> i32
    requires { (1 ≤ size) × ((size ≤ 32) × (value < 2 ^ size)) }
    ensures { result ≡ signed size value }
{
    let half = 1u32 << (size - 1);
    if value < half {
        return value as i32;
    }
    // How far the field lies below one with all bits set, which reads -1. (A shift that carries the sign down would be no plainer.)
    let below = (half - 1 + half - value) as i32;
    -1 - below
}

// Takes the field of `size` bits at a bit address out, as a signed number.
#[tactic(auto, unfolding(field_spec::specs::Answers::taken_signed), using(field_spec::proofs::Accepted::none_applies))]
pub fn take_out_signed(memory: &[u16], at: BitAddress, size: u32) -> Taken<i32>
    ensures { result ≡ taken_signed memory.now at size }
{
    if let Err(refusal) = judge(memory.len(), at, size) {
        return refuse(refusal, 0);
    }
    // (The parts are named: `..field` has another type, that of an unsigned number.)
    let field = gather(memory, at, size);
    Taken {
        number: 0,
        value: signed_of(size, field.value),
        cycles: field.cycles,
    }
}
