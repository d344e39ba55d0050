// A strike sheet, from its table in memory to the list of times.
// Registers, lanes and rules are numbers, as `Access` and `Sheet` have them.
ghost use Rattle.std.specs.Prelude.{◌≡◌, ◌≤◌, length};
ghost use Rattle.port_spec.specs.Sequences.{machine};
ghost use Rattle.sheet_spec.specs.Sheet.{refused_sheet, Struck};
ghost use Rattle.sheet.specs.Parts.{TookTicks, ReadTable};
ghost use Rattle.words.specs.Refusals.{refusal_number};

use crate::judging::{Strokes, judge_before, judge_count, judge_ticks};
use crate::reading::{load_pointer, read_ticks};
use crate::timing::Tempo;
use port::host_access;
use port_spec::Access;
use registers::Registers;
use sheet_spec::{Sheet, TimeStruck};
use words::{BitAddress, Refusal};

// A refusal: its number and zeros, with the registers as they are.
fn refuse(refusal: Refusal, r: Registers) -> Sheet
    ensures { result ≡ refused_sheet (refusal_number refusal) r }
{
    Sheet {
        number: u8::from(refusal),
        rule: 0,
        strokes: 0,
        registers: r,
    }
}

// The ticks: all are read before any is judged, and the list is written only if all are good.
fn take_ticks(r: Registers, memory: &mut [u16], strokes: Strokes, list: &mut [f64]) -> Sheet
    requires { strokes.count ≤ length list.old }
    ensures { TookTicks (machine r memory.old) strokes.rule strokes.count list.old
        result memory.new list.new }
{
    // Room for the longest time, in fixed memory: nothing here allocates. As many of its places are ticks as there are strokes.
    let mut room = [0u16; 32];
    let ticks = &mut room[..strokes.count as usize];
    let run = read_ticks(r, memory, ticks);
    if let Err(refusal) = judge_ticks(run.hollow, ticks) {
        return refuse(refusal, run.registers);
    }
    let tempo = Tempo {
        first: ticks[0],
        last: ticks[ticks.len() - 1],
        strokes: strokes.count,
    };
    tempo.fill(list);
    Sheet {
        number: 0,
        rule: strokes.rule,
        strokes: strokes.count,
        registers: run.registers,
    }
}

// A sheet that is begun: the count word, then, if that is right, the ticks.
fn read_table(
    r: Registers,
    memory: &mut [u16],
    table: BitAddress,
    strokes: Strokes,
    list: &mut [f64],
) -> Sheet
    requires { strokes.count ≤ length list.old }
    ensures { ReadTable (machine r memory.old) table strokes.rule strokes.count list.old
        result memory.new list.new }
{
    let loaded = load_pointer(r, memory, table);
    let o = host_access(
        loaded,
        memory,
        Access::Read {
            register: 2,
            lanes: 3,
        },
    );
    if let Err(refusal) = judge_count(strokes.count, o.answer.hollow, o.answer.word) {
        return refuse(refusal, o.registers);
    }
    take_ticks(o.registers, memory, strokes, list)
}

// The strike sheet of the table at a bit address, for the time struck, whose strokes are counted by a rule: what it answers, and the list
// of times.
pub fn strike_sheet(
    r: Registers,
    memory: &mut [u16],
    table: BitAddress,
    rule: u32,
    t: TimeStruck,
    list: &mut [f64],
) -> Sheet
    ensures { Struck r memory.old table rule t list.old
        result memory.new list.new }
{
    match judge_before(memory.len(), rule, t, list.len(), r.control) {
        Ok(strokes) => read_table(r, memory, table, strokes, list),
        Err(refusal) => refuse(refusal, r),
    }
}
