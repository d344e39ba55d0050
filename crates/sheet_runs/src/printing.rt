// The lines of a sheet: its answer with what it leaves in the registers, and its times.
ghost use Rattle.std.specs.Prelude.{◌≡◌};
ghost use Rattle.sheet_runs.specs.Parts.{in_thousandths};

use sheet_spec::Sheet;
use std::fmt;

// The whole thousandths of a time, or 0 where they are no number of 64 bits. (Rust's `as` would give the largest for what is above that.)
fn thousandths(time: f64) -> u64
    ensures { result ≡ in_thousandths time }
{
    let x = time * 1000.0;
    if x > -1.0 {
        if x < 18446744073709551616.0 {
            return std::num::truncating_f64_to_u64(x);
        }
    }
    0
}

// A time, to its thousandths.
#[derive(Clone, Copy)]
struct Time(f64);

impl fmt::Display for Time {
    fn fmt<W: fmt::Write>(&self, f: &mut fmt::Formatter<W>) -> fmt::Result {
        let t = thousandths(self.0);
        write!(f, "{}.{:03}", t / 1000, t % 1000)
    }
}

// The times of a list, each behind a space.
#[derive(Clone, Copy)]
pub(crate) struct Times<'a>(pub(crate) &'a [f64]);

impl fmt::Display for Times<'_> {
    fn fmt<W: fmt::Write>(&self, f: &mut fmt::Formatter<W>) -> fmt::Result {
        for &time in self.0 {
            write!(f, " {}", Time(time))?;
        }
        Ok(())
    }
}

// A sheet's answer, with what it leaves in the registers.
#[derive(Clone, Copy)]
pub(crate) struct Line(pub(crate) Sheet);

impl fmt::Display for Line {
    fn fmt<W: fmt::Write>(&self, f: &mut fmt::Formatter<W>) -> fmt::Result {
        let o = self.0;
        let r = o.registers;
        let mark = if r.hollow { "hollow" } else { "held" };
        write!(
            f,
            "number {}, rule {}, strokes {}, pointer {:08x}, data {:04x} {mark}",
            o.number, o.rule, o.strokes, r.pointer.0, r.latch
        )
    }
}
