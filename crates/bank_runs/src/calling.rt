// A call, and the line that it prints.
// Lanes and kinds are numbers, since some runs hand in those that name none.
ghost use Rattle.std.specs.Prelude.{◌≡◌};
ghost use Rattle.bank_spec.specs.Access.{read_answer, write_answer};

use bank_spec::{BankPort, Banks, Decoded};
use std::fmt;
use words::BitAddress;

// A read: the word that it answers.
fn read(rt: &impl Print, p: BankPort, lanes: u32) -> BankPort
    ensures { result ≡ (read_answer p lanes).port }
{
    let o = bank::read_bank_port(p, lanes);
    let _ = println!(rt;
        "read at {} lanes {lanes}: word {:04x}, number {}, index {}",
        p.index, o.word, o.number, o.port.index
    );
    o.port
}

// A write: the word that it is given.
pub(crate) fn write(rt: &impl Print, p: BankPort, lanes: u32, word: u16) -> BankPort
    ensures { result ≡ (write_answer p lanes word).port }
{
    let o = bank::write_bank_port(p, lanes, word);
    let _ = println!(rt;
        "write at {} lanes {lanes}: word {word:04x}, number {}, index {}",
        p.index, o.number, o.port.index
    );
    o.port
}

// Reads, one after another, each by its lanes.
pub(crate) fn read_each(rt: &impl Print, p: BankPort, reads: &[u32]) -> BankPort {
    let mut left = p;
    for &lanes in reads {
        left = read(rt, left, lanes);
    }
    left
}

// Writes, one after another, each by its lanes and its word.
pub(crate) fn write_each(rt: &impl Print, p: BankPort, writes: &[(u32, u16)]) -> BankPort {
    let mut left = p;
    for &(lanes, word) in writes {
        left = write(rt, left, lanes, word);
    }
    left
}

// The banks that a decode selects, each behind a space.
#[derive(Clone, Copy)]
struct Selected(Decoded);

impl fmt::Display for Selected {
    fn fmt<W: fmt::Write>(&self, f: &mut fmt::Formatter<W>) -> fmt::Result {
        let o = self.0;
        let banks = [o.bank0, o.bank1, o.bank2, o.bank3];
        for (n, &selected) in banks.iter().enumerate() {
            if selected {
                write!(f, " {n}")?;
            }
        }
        Ok(())
    }
}

// A decode: the banks that it shows.
pub(crate) fn decode(rt: &impl Print, b: Banks, control: u16, address: u32, kind: u32) {
    let o = bank::decode(b, control, BitAddress(address), kind);
    let _ = println!(rt;
        "decode {address:08x} kind {kind} control {control:04x}: number {}, banks{}",
        o.number,
        Selected(o)
    );
}
