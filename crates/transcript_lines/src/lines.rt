// One entry and its line.
ghost use Rattle.std.specs.Prelude.{◌≡◌, false, ◌+◌, ◌≤◌, length};
ghost use Rattle.listing.specs.Parts.{Put};
ghost use Rattle.transcript_lines.specs.Lines.{entry_of, unsayable, line};
ghost use Rattle.transcript_lines.specs.Parts.{head_text, word_text};

use digits::digit_for;
use port_spec::Access;
use transcript_lists::has_no_record;
use transcript_spec::Entry;

// The entry that a line's access makes: a read has no word.
pub fn entry_of(a: Access) -> Entry
    ensures { result ≡ entry_of a }
{
    match a {
        Access::Read { register, lanes } => Entry {
            kind: 0,
            register,
            lanes,
            word: 0,
        },
        Access::Write {
            register,
            lanes,
            word,
        } => Entry {
            kind: 1,
            register,
            lanes,
            word: u32::from(word),
        },
    }
}

// No line can say the entry.
#[tactic(auto, unfolding(crate::specs::Lines::unsayable))]
pub(crate) fn is_unsayable(e: Entry) -> bool
    ensures { result ≡ unsayable e }
{
    has_no_record(e) || 9 < e.register || 9 < e.lanes
}

// How many bytes the entry's line has, its line feed among them.
pub fn line_size(e: Entry) -> usize
    ensures { result ≡ length (line e) }
{
    if e.kind == 0 { 6 } else { 11 }
}

// A line's first six bytes: a letter, the register, the lanes, and the byte after them.
fn put_head(text: &mut [u8], at: usize, letter: u8, register: u8, lanes: u8, last: u8) -> usize
    requires { (at + 6 ≤ length text.old) × (register ≤ 9) × (lanes ≤ 9) }
    ensures { Put text.old at (head_text letter register lanes last) result text.new }
{
    let head = [letter, b' ', b'0' + register, b' ', b'0' + lanes, last];
    text[at..at + 6].copy_from_slice(&head);
    at + 6
}

// The last five of a write's line: the word, and the line feed.
fn put_word(text: &mut [u8], at: usize, word: u16) -> usize
    requires { at + 5 ≤ length text.old }
    ensures { Put text.old at (word_text word) result text.new }
{
    text[at..at + 5].copy_from_slice(&[
        digit_for(word / 4096),
        digit_for(word / 256),
        digit_for(word / 16),
        digit_for(word),
        b'\n',
    ]);
    at + 5
}

// Puts the entry's line into a text from a place on, and answers the place after it.
pub(crate) fn put_line(text: &mut [u8], at: usize, e: Entry) -> usize
    requires { (at + length (line e) ≤ length text.old) × (unsayable e ≡ false) }
    ensures { Put text.old at (line e) result text.new }
{
    let register = e.register as u8;
    let lanes = e.lanes as u8;
    if e.kind == 0 {
        return put_head(text, at, b'R', register, lanes, b'\n');
    }
    let word = e.word as u16;
    let middle = put_head(text, at, b'W', register, lanes, b' ');
    put_word(text, middle, word)
}
