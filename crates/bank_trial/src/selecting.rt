// The banks that a decode selects, as one digit.
ghost use Rattle.std.specs.Prelude.{◌≡◌};
ghost use Rattle.bank_trial.specs.Selected.{digit};

use bank_spec::Decoded;

// The digit whose bit n is bank n.
pub(crate) fn digit_of(o: Decoded) -> u8
    ensures { result ≡ digit o }
{
    u8::from(o.bank0) + 2 * u8::from(o.bank1) + 4 * u8::from(o.bank2) + 8 * u8::from(o.bank3)
}
