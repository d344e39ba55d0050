// The longest run of whole good records from the start of a string, and what ends it. The string may go on with a record that was begun
// before it.
ghost use Rattle.std.specs.Prelude.{◌≡◌, cond, eqb};
ghost use Rattle.transcript_spec.specs.Reading.{cut_off};
ghost use Rattle.transcript_scan.specs.Scan.{scanned, scanned_on};

use crate::steps::{cut_off, fresh_part, take_byte};
use transcript_spec::{Part, Step};

// The refusal stays a number, 0 for none: `scanned_on` and `refusal_read`, on which the laws of the readers stand, name numbers.
//
// How far a string is read: how many good records it finishes, up to its first bad one; where the record begins that is read last, 0 if
// that one was begun before the string; how many bytes are read; how far that record is read; and its refusal, or 0. Behind a bad record
// nothing is read.
#[derive(Clone, Copy)]
pub struct ScannedOn {
    pub entries: usize,
    pub place: usize,
    pub next: usize,
    pub part: Part,
    pub refusal: u8,
}

// What a string holds: how many good records up to the first bad one, where that one begins, and its refusal. Where none is bad, that is
// the end of the string, and 0.
#[derive(Clone, Copy)]
pub struct Scanned {
    pub entries: usize,
    pub place: usize,
    pub refusal: u8,
}

// Record after record, and of each the groups of its numbers, a byte each. The first bad record ends it, wherever it turns out to be bad.
// (Two loops that count their place, left by a label: document 01 names this form for the longest run of whole good records.)
pub fn scan_on(begun: Part, bytes: &[u8]) -> ScannedOn
    ensures { result ≡ scanned_on begun bytes.now }
{
    let mut entries: usize = 0;
    let mut place: usize = 0;
    let mut next: usize = 0;
    let mut part = begun;
    let mut refusal: u8 = 0;
    'records: while next < bytes.len() {
        'groups: while next < bytes.len() {
            let step = take_byte(part, bytes[next]);
            next += 1;
            match step {
                Step::Goes(p) => {
                    part = p;
                }
                Step::Whole(_) => {
                    entries += 1;
                    place = next;
                    part = fresh_part();
                    continue 'records;
                }
                Step::Bad(number) => {
                    part = fresh_part();
                    refusal = number;
                    break 'records;
                }
            }
        }
    }
    ScannedOn {
        entries,
        place,
        next,
        part,
        refusal,
    }
}

// The refusal where a string ends: that of its bad record, or else of a record that the end cuts off.
fn refusal_at_end(refusal: u8, part: Part) -> u8
    ensures { result ≡ cond (eqb refusal 0) (cut_off part) refusal }
{
    if refusal != 0 {
        return refusal;
    }
    cut_off(part)
}

// A whole string: a record that its end cuts off is bad too.
pub fn scan(bytes: &[u8]) -> Scanned
    ensures { result ≡ scanned bytes.now }
{
    let found = scan_on(fresh_part(), bytes);
    Scanned {
        entries: found.entries,
        place: found.place,
        refusal: refusal_at_end(found.refusal, found.part),
    }
}
