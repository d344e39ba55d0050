// The entries of a list put as the lines of a text: all of them are judged first, and then the text is filled.
ghost use Rattle.std.specs.Prelude.{◌≡◌, ◌≤◌, length, position};
ghost use Rattle.transcript_spec.specs.Lists.{lists, entries_in, over};
ghost use Rattle.transcript_lists.specs.Lent.{lists_of};
ghost use Rattle.transcript_lines.specs.Lines.{unsayable, text_of, AllHaveLines};
ghost use Rattle.transcript_lines.specs.Putting.{written_if_fits, first_unsayable, PutLines};

use crate::NotPut;
use crate::lines::{is_unsayable, line_size, put_line};
use transcript_lists::Lists;

// What is answered where a line can say each entry: the lines fit the room, or they do not. What is left of the room is
// counted, and not the bytes: no sum can wrap.
fn judge_room(list: Lists<'_>, room: usize) -> Result<usize, NotPut>
    ensures { result ≡ written_if_fits (length (text_of (entries_in (lists_of list.entry)))) room }
{
    let mut left = room;
    for e in list.entries() {
        let size = line_size(e);
        if left < size {
            return Err(NotPut::NoBytes);
        }
        left -= size;
    }
    Ok(room - left)
}

// The index of the first entry that no line can say.
fn find_unsayable(list: Lists<'_>) -> Option<usize>
    ensures { result ≡ position unsayable (entries_in (lists_of list.entry)) }
{
    list.entries().position(|e| is_unsayable(e))
}

// What is answered of the lists: `done` where a line can say each entry.
fn judge_entries(list: Lists<'_>, done: Result<usize, NotPut>) -> Result<usize, NotPut>
    ensures { result ≡ first_unsayable 0 (entries_in (lists_of list.entry)) done }
{
    match find_unsayable(list) {
        Some(i) => Err(NotPut::Unsayable(i)),
        None => done,
    }
}

// The lines of all entries, from the text's beginning.
fn fill_text(list: Lists<'_>, text: &mut [u8])
    requires { AllHaveLines (entries_in (lists_of list)) ×
        (length (text_of (entries_in (lists_of list))) ≤ length text.old) }
    ensures { text.new ≡ over (text_of (entries_in (lists_of list.entry))) text.old }
{
    let mut at: usize = 0;
    for e in list.entries() {
        at = put_line(text, at, e);
    }
}

// A list of entries to the lines of a text. A call that is not done leaves the text as it stood.
pub fn put_lines(
    kinds: &[u32],
    registers: &[u32],
    lanes: &[u32],
    words: &[u32],
    text: &mut [u8],
) -> Result<usize, NotPut>
    ensures { PutLines (lists kinds.now registers.now lanes.now words.now)
        text.old result text.new }
{
    let list = Lists {
        kinds,
        registers,
        lanes,
        words,
    };
    let fits = judge_room(list, text.len());
    let written = judge_entries(list, fits)?;
    fill_text(list, text);
    Ok(written)
}
