// The entries of a string's good records, put into lists.
ghost use Rattle.std.specs.Prelude.{◌≡◌};
ghost use Rattle.transcript_spec.specs.Lists.{with_each};
ghost use Rattle.transcript_lists.specs.Lent.{lists_in, SameLists};
ghost use Rattle.transcript_scan.specs.Scan.{read_on};

use crate::steps::{fresh_part, take_byte};
use transcript_lists::ListsMut;
use transcript_spec::{Part, Step};

// The entries of the good records that a string finishes, up to its first bad one, from the first places of the four lists on. The first
// record may have begun before the string. What lies beyond a list's end is dropped: whoever wants all of them has counted them before.
pub fn fill_on(begun: Part, bytes: &[u8], list: &mut ListsMut<'_>)
    ensures same { SameLists list.old list.new }
    ensures filled { lists_in list.new ≡ with_each (lists_in list.old) 0 (read_on begun bytes.now).got }
{
    let mut part = begun;
    // The entries are counted, since not each byte ends a record: no `enumerate` counts them.
    let mut entries: usize = 0;
    for &b in bytes {
        match take_byte(part, b) {
            Step::Goes(p) => {
                part = p;
            }
            Step::Whole(e) => {
                part = fresh_part();
                list.put(entries, e);
                entries += 1;
            }
            Step::Bad(_) => {
                return;
            }
        }
    }
}
