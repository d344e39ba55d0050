// The reader's accesses: the pointer loaded, and the ticks read.
// Registers and memory go beside each other, as `host_access` and `strike_sheet` take them: a struct of both would be taken apart and put
// together again at each access. Registers and lanes are numbers, as `Access` has them.
ghost use Rattle.std.specs.Prelude.{◌≡◌, length};
ghost use Rattle.port_spec.specs.declared.Access.TheVariants.{Write};
ghost use Rattle.port_spec.specs.Sequences.{machine, after};
ghost use Rattle.port_spec.specs.Table.{loaded};
ghost use Rattle.sheet.specs.Parts.{ReadTicks};

use crate::TicksRead;
use control::fetches_by;
use port::host_access;
use port_spec::Access;
use registers::{Registers, high_half_of, low_half_of};
use words::BitAddress;

// One half of the pointer, written on two lanes.
fn write_half(r: Registers, memory: &mut [u16], register: u32, half: u16) -> Registers
    ensures { machine result memory.new ≡ after (machine r memory.old) (Write register 3 half) }
{
    host_access(
        r,
        memory,
        Access::Write {
            register,
            lanes: 3,
            word: half,
        },
    )
    .registers
}

// The pointer loaded with an address: the half that fetches goes last.
pub(crate) fn load_pointer(r: Registers, memory: &mut [u16], a: BitAddress) -> Registers
    ensures { machine result memory.new ≡ loaded (machine r memory.old) a }
{
    let low = low_half_of(a);
    let high = high_half_of(a);
    if fetches_by(r.control, 0) {
        let q = write_half(r, memory, 1, high);
        return write_half(q, memory, 0, low);
    }
    let q = write_half(r, memory, 0, low);
    write_half(q, memory, 1, high)
}

// A read on two lanes for each place of `ticks`, and whether any of them handed out a hollow word.
pub(crate) fn read_ticks(r: Registers, memory: &mut [u16], ticks: &mut [u16]) -> TicksRead
    ensures { ReadTicks (machine r memory.old) (length ticks.old)
        result memory.new ticks.new }
{
    let mut q = r;
    let mut hollow = false;
    for tick in ticks.iter_mut() {
        let o = host_access(
            q,
            memory,
            Access::Read {
                register: 2,
                lanes: 3,
            },
        );
        *tick = o.answer.word;
        hollow |= o.answer.hollow;
        q = o.registers;
    }
    TicksRead {
        registers: q,
        hollow,
    }
}
