// The lines of a text taken into lists: all of them are judged first, and then the lists are filled.
ghost use Rattle.std.specs.Prelude.{◌≡◌, ◌≤◌, length};
ghost use Rattle.transcript_spec.specs.Lists.{lists, size, with_entries};
ghost use Rattle.transcript_lists.specs.Lent.{lists_in, SameLists};
ghost use Rattle.transcript_lines.specs.Taking.{taking, take_answer, TookLines};

use crate::NotTaken;
use crate::lines::entry_of;
use listing::good_lines;
use transcript_lists::ListsMut;

// What is answered of a text, where the lists have places for so many entries: the number of its lines.
pub fn judge_lines(text: &[u8], room: usize) -> Result<usize, NotTaken>
    ensures { result ≡ take_answer text.now room }
{
    let mut lines = good_lines(text);
    let mut count: usize = 0;
    while let Some(_) = lines.next() {
        count += 1;
    }
    if !lines.left.is_empty() {
        return Err(NotTaken::BadLine(count));
    }
    if room < count {
        return Err(NotTaken::NoPlaces);
    }
    Ok(count)
}

// The entries of the good lines, each at its place of the lists.
fn fill_lists(text: &[u8], list: &mut ListsMut<'_>)
    requires { length (taking text.now).entries ≤ size (lists_in list.old) }
    ensures same { SameLists list.old list.new }
    ensures filled { lists_in list.new ≡ with_entries (taking text.now).entries (lists_in list.old) }
{
    let mut i: usize = 0;
    for a in good_lines(text) {
        list.put(i, entry_of(a));
        i += 1;
    }
}

// The lines of a text to a list of entries. A call that is not done leaves the lists as they stood.
fn take(text: &[u8], list: &mut ListsMut<'_>) -> Result<usize, NotTaken>
    ensures same { SameLists list.old list.new }
    ensures took { TookLines text.now (lists_in list.old) result (lists_in list.new) }
{
    let count = judge_lines(text, list.len())?;
    fill_lists(text, list);
    Ok(count)
}

// The lines of a text to the four lists, which hold as many entries as the shortest of them.
pub fn take_lines(
    text: &[u8],
    kinds: &mut [u32],
    registers: &mut [u32],
    lanes: &mut [u32],
    words: &mut [u32],
) -> Result<usize, NotTaken>
    ensures { TookLines text.now
        (lists kinds.old registers.old lanes.old words.old)
        result (lists kinds.new registers.new lanes.new words.new) }
{
    take(
        text,
        &mut ListsMut {
            kinds,
            registers,
            lanes,
            words,
        },
    )
}
