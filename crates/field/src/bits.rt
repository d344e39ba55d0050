// Some bits of a word replaced at once.
ghost use Rattle.std.specs.Prelude.{◌≡◌, ◌+◌, ◌^◌, ◌≤◌, ◌<◌};
ghost use Rattle.field_spec.specs.WithBits.{with_bits};

// The word with its n bits from bit o on made `bits`. (A quotient, a remainder or a product by `1 << n` is compiled to a shift or a mask.)
#[tactic(auto, unfolding(field_spec::specs::WithBits::with_bits), using(field_spec::proofs::WordBits::bits_fit))]
pub(crate) fn replace_bits(word: u16, o: u32, n: u32, bits: u32) -> u16
    requires { (o + n ≤ 16) × (bits < 2 ^ n) }
    ensures { result ≡ with_bits word o n bits }
{
    let x = u32::from(word);
    let top = 1u32 << (o + n);
    let bottom = 1u32 << o;
    (x / top * top + bits * bottom + x % bottom) as u16
}
