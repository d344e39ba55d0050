// The record of an entry: its head and, for a write, its word, in groups of seven bits; or the refusal of one that has none.
ghost use Rattle.std.specs.Prelude.{◌≡◌, ◌+◌, ◌≤◌, ◌<◌, length};
ghost use Rattle.transcript_spec.specs.Format.{head_of, groups, record_of};
ghost use Rattle.transcript_spec.specs.InPlainWords.{Good};
ghost use Rattle.transcript.specs.Entries.{judged_entry, entry_numbers};
ghost use Rattle.transcript.specs.WriterParts.{Put};

use crate::entries::judge;
use transcript_spec::Entry;
use words::Refusal;

// The head of an entry's record.
fn head_of(e: Entry) -> u32
    requires { Good e }
    ensures { result ≡ head_of e }
{
    e.kind + 2 * e.register + 8 * e.lanes
}

// How many groups a number has.
fn count_groups(v: u32) -> usize
    ensures { result ≡ length (groups v) }
{
    if v < 128 {
        return 1;
    }
    if v < 16384 {
        return 2;
    }
    3
}

// How many bytes an entry's record has.
fn count_bytes(e: Entry) -> usize
    requires { Good e }
    ensures { result ≡ length (record_of e) }
{
    let head = count_groups(head_of(e));
    if e.kind == 1 {
        return head + count_groups(e.word);
    }
    head
}

// What the writer says of one entry: it is refused, or its record has so many bytes.
pub fn judge_entry(e: Entry) -> Result<usize, Refusal>
    ensures { entry_numbers result ≡ judged_entry e }
{
    judge(e)?;
    Ok(count_bytes(e))
}

// Puts the groups of a number into the bytes from a place on, and answers the place after them.
// (Place by place: each case is as many bytes as `groups` has, and an array for each would be no shorter.)
fn put_groups(bytes: &mut [u8], at: usize, v: u32) -> usize
    requires { (v < 65536) × (at + length (groups v) ≤ length bytes.old) }
    ensures { Put bytes.old at (groups v) result bytes.new }
{
    if v < 128 {
        bytes[at] = v as u8;
        return at + 1;
    }
    if v < 16384 {
        bytes[at] = (128 + v / 128) as u8;
        bytes[at + 1] = (v % 128) as u8;
        return at + 2;
    }
    bytes[at] = (128 + v / 16384) as u8;
    bytes[at + 1] = (128 + v / 128 % 128) as u8;
    bytes[at + 2] = (v % 128) as u8;
    at + 3
}

// Puts an entry's record into the bytes from a place on, and answers the place after it.
pub(crate) fn put_record(bytes: &mut [u8], at: usize, e: Entry) -> usize
    requires { Good e × (at + length (record_of e) ≤ length bytes.old) }
    ensures { Put bytes.old at (record_of e) result bytes.new }
{
    let after_head = put_groups(bytes, at, head_of(e));
    if e.kind == 1 {
        return put_groups(bytes, after_head, e.word);
    }
    after_head
}
