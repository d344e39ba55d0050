// Digits in text, as bytes: what one stands for, and the one for a number. Document 01, "Blocks and the two doors": "decimal digit, four
// upper-case hex digits".
#![tactic(auto)]

ghost use Rattle.std.specs.Prelude.{◌≡◌};
ghost use Rattle.digits.specs.Digits.{decimal_value, hex_value, digit_for};

// What a digit 0 to 9 stands for.
#[tactic(auto, using(crate::proofs::DigitValues::is_decimal_value, crate::proofs::DigitValues::no_decimal_value))]
pub fn decimal_value(b: u8) -> Option<u8>
    ensures { result ≡ decimal_value b }
{
    match b {
        b'0'..=b'9' => Some(b - b'0'),
        _ => None,
    }
}

// What a digit 0 to 9 or A to F stands for.
#[tactic(auto, using(crate::proofs::DigitValues::letter_value, crate::proofs::DigitValues::no_letter_value))]
pub fn hex_value(b: u8) -> Option<u8>
    ensures { result ≡ hex_value b }
{
    match b {
        b'A'..=b'F' => Some(b - b'A' + 10),
        _ => decimal_value(b),
    }
}

// The digit for the low four bits of a number. (`char::from_digit` has small letters.)
#[tactic(auto, using(crate::proofs::DigitValues::table_digit))]
pub fn digit_for(n: u16) -> u8
    ensures { result ≡ digit_for n }
{
    b"0123456789ABCDEF"[usize::from(n % 16)]
}
