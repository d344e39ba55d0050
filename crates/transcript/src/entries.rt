// What the writer says of one entry: document 02, request (ii), "The writer tests 2, 3, then 22".
ghost use Rattle.std.specs.Prelude.{◌≡◌};
ghost use Rattle.transcript_spec.specs.Writing.{entry_refusal};
ghost use Rattle.words.specs.Refusals.{number_returned};

use transcript_lists::has_no_record;
use transcript_spec::Entry;
use words::{Refusal, names_lanes};

// Whether the entry has a record.
#[tactic(auto, unfolding(transcript_spec::specs::Writing::entry_refusal))]
pub(crate) fn judge(e: Entry) -> Result<(), Refusal>
    ensures { number_returned result ≡ entry_refusal e }
{
    if 3 < e.register {
        return Err(Refusal::UnknownRegister);
    }
    if !names_lanes(e.lanes) {
        return Err(Refusal::UnnamedLanes);
    }
    if has_no_record(e) {
        return Err(Refusal::OverLargeNumber);
    }
    Ok(())
}
