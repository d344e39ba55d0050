// The words that a field touches.
ghost use Rattle.std.specs.Prelude.{◌≡◌, ◌≤◌};
ghost use Rattle.field_spec.specs.Count.{touched};

use words::BitAddress;

// How many words a field touches.
pub(crate) fn touched_by(at: BitAddress, size: u32) -> u32
    requires { (1 ≤ size) × (size ≤ 32) }
    ensures { result ≡ touched at size }
{
    (at.0 % 16 + size - 1) / 16 + 1
}
