// The line of a sheet.
ghost use Rattle.std.specs.Prelude.{◌≡◌};
ghost use Rattle.std.specs.Float.Ieee.{to_bits};
ghost use Rattle.std.specs.Float.{binary64};

use sheet_spec::Sheet;
use std::fmt;

// The bit pattern of a time. A NaN has one here, whichever it is.
fn bits_of(time: f64) -> u64
    ensures { result ≡ to_bits binary64 time }
{
    if time == time {
        return f64::to_bits(time);
    }
    0x7ff8000000000000
}

// What standard output doesn't take is let go (`let _`): nothing is said of it, and the script goes on.
pub(crate) fn print_sheet(rt: &impl Print, o: Sheet, list: &[f64]) {
    let _ = println!(rt; "{}{}", Answered(o), Times(list));
}

#[derive(Clone, Copy)]
struct Answered(Sheet);

impl fmt::Display for Answered {
    fn fmt<W: fmt::Write>(&self, f: &mut fmt::Formatter<W>) -> fmt::Result {
        let o = self.0;
        let r = o.registers;
        write!(f, "{:02x} {:08x} {:04x} ", o.number, o.rule, o.strokes)?;
        write!(
            f,
            "{:08x} {:04x} {:04x} {:x}",
            r.pointer.0,
            r.latch,
            r.control,
            u8::from(r.hollow)
        )
    }
}

// The bit patterns of a list's places, each behind a space.
#[derive(Clone, Copy)]
struct Times<'a>(&'a [f64]);

impl fmt::Display for Times<'_> {
    fn fmt<W: fmt::Write>(&self, f: &mut fmt::Formatter<W>) -> fmt::Result {
        for &time in self.0 {
            write!(f, " {:016x}", bits_of(time))?;
        }
        Ok(())
    }
}
