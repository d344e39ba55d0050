// What the bytes of a record say.
ghost use Rattle.std.specs.Prelude.{◌≡◌, ◌<◌};
ghost use Rattle.transcript_trial.specs.Record.{number, column};

use words::join_four;

// Number k of a record's lists.
fn number_at(bytes: &[u8; 168], k: usize) -> u32
    requires { k < 24 }
    ensures { result ≡ number bytes.now k }
{
    let at = 8 + 4 * k;
    join_four(bytes[at], bytes[at + 1], bytes[at + 2], bytes[at + 3])
}

// The six numbers of a record's list from number k on.
pub(crate) fn column_at(bytes: &[u8; 168], k: usize) -> [u32; 6]
    requires { k < 19 }
    ensures { result ≡ column bytes.now k }
{
    std::array::from_fn(|i| number_at(bytes, k + i))
}
