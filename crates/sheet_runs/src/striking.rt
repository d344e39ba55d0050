// Sheets struck and printed, on each of the small memories.
ghost use Rattle.std.specs.Prelude.{◌≡◌, ◌≤◌};
ghost use Rattle.sheet_runs.specs.Parts.{five_tables, tables_of_both_rules};
ghost use Rattle.sheet_spec.specs.InPlainWords.{time};

use crate::printing::{Line, Times};
use registers::Registers;
use sheet::strike_sheet;
use sheet_spec::TimeStruck;
use words::BitAddress;

// What a sheet is asked for, with the line that says so. The rule is a number, since some cases ask for one that is none.
#[derive(Clone, Copy)]
pub(crate) struct Case {
    pub(crate) title: &'static str,
    pub(crate) control: u16,
    pub(crate) table: u32,
    pub(crate) rule: u32,
    pub(crate) time: TimeStruck,
}

// 3:45 by rule 1, of the table at word 0, with INCR set. A case names what it has otherwise.
pub(crate) const QUARTER_TO_FOUR: Case = Case {
    title: "3:45",
    control: 0x1000,
    table: 0,
    rule: 1,
    time: TimeStruck {
        hours: 3,
        quarters: 3,
        minutes: 0,
    },
};

// A sheet on a lent memory, into a lent list. The registers stand elsewhere at first, so that any move shows.
fn strike(rt: &impl Print, case: Case, memory: &mut [u16], list: &mut [f64]) {
    let r = Registers {
        pointer: BitAddress(0x000abcd0),
        latch: 0x5555,
        control: case.control,
        hollow: false,
    };
    let sheet = strike_sheet(
        r,
        memory,
        BitAddress(case.table),
        case.rule,
        case.time,
        list,
    );
    let _ = println!(rt; "{}", case.title);
    let _ = println!(rt; "{}", Line(sheet));
    let _ = println!(rt; "times{}", Times(list));
}

// A sheet for each case, on one memory, into a list of so many places that all hold 0.5: the first of a fixed array, since nothing here
// allocates.
pub(crate) fn strike_each(rt: &impl Print, memory: &mut [u16], places: usize, cases: &[Case])
    requires { places ≤ 33 }
{
    for &case in cases {
        let mut list = [0.5; 33];
        strike(rt, case, memory, &mut list[..places]);
    }
}

pub(crate) fn at(hours: u32, quarters: u32, minutes: u32) -> TimeStruck
    ensures { result ≡ time hours quarters minutes }
{
    TimeStruck {
        hours,
        quarters,
        minutes,
    }
}

// Five tables: at word 0 six strokes, at 7 six with an equal pair, at 14 three that end with FFFFh, at 18 one, and at 20 six that end
// with the memory's last word.
pub(crate) fn tables() -> [u16; 27]
    ensures { result ≡ five_tables }
{
    [
        6, 10, 20, 30, 40, 50, 60, 6, 11, 22, 33, 33, 44, 55, 3, 65532, 65533, 65535, 1, 77, 6,
        100, 130, 190, 255, 300, 350,
    ]
}

// Two tables: at word 0 nine strokes, and at 10 six.
pub(crate) fn two_tables() -> [u16; 17]
    ensures { result ≡ tables_of_both_rules }
{
    [
        9, 100, 130, 160, 200, 250, 300, 340, 370, 420, 6, 11, 20, 30, 40, 50, 66,
    ]
}

// A table of six strokes, at word 0.
pub(crate) fn table_of_six() -> [u16; 7] {
    [6, 10, 20, 30, 40, 50, 60]
}
