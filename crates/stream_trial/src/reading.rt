// What the bytes of a record say.
ghost use Rattle.std.specs.Prelude.{◌≡◌};
ghost use Rattle.stream_trial.specs.Record.{number, string_lent};

use input::places_lent;
use words::join_four;

// How many bytes the stream had already.
pub(crate) fn number_in(bytes: &[u8; 36]) -> u32
    ensures { result ≡ number bytes.now }
{
    join_four(bytes[8], bytes[9], bytes[10], bytes[11])
}

// What is delivered of the string. (All bytes are made a slice first: a part of an array behind a reference has no rule in the logic.)
pub(crate) fn string_lent(bytes: &[u8; 36]) -> &[u8]
    ensures { result.now ≡ string_lent bytes.now }
{
    let first = 12;
    let end = first + places_lent(bytes[1], 24);
    let whole = &bytes[..];
    &whole[first..end]
}
