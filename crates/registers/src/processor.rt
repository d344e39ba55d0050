// The processor's side of the port: five registers, always sixteen bits, and never a memory cycle; and reset.
// A register is a number, since any may be given, and one above 4 is refused; so are the lanes that `write_register` takes.
ghost use Rattle.std.specs.Prelude.{◌≡◌};
ghost use Rattle.registers.specs.Processor.{processor_word, processor_written, processor_reads, processor_writes, at_reset};

use crate::parts::{read_register, set_control, set_latch, write_register};
use crate::{ProcessorRead, ProcessorWrite, Registers, Woken};
use control::hide_bit_10;
use words::{BitAddress, Refusal, show_bytes};

// What a register of the five reads as.
#[tactic(auto, unfolding(crate::specs::Processor::processor_word))]
fn read_of_five(r: Registers, register: u32) -> u16
    ensures { result ≡ processor_word r register }
{
    match register {
        0..=2 => read_register(r, register),
        3 => show_bytes(1, hide_bit_10(r.control)),
        _ => show_bytes(2, hide_bit_10(r.control)),
    }
}

// The registers with one of the five written.
#[tactic(auto, unfolding(crate::specs::Processor::processor_written))]
fn write_of_five(r: Registers, register: u32, w: u16) -> Registers
    ensures { result ≡ processor_written r register w }
{
    match register {
        0 | 1 => write_register(r, register, 3, w),
        2 => set_latch(r, w, false),
        3 => set_control(r, control::write_by_processor(r.control, 1, w)),
        _ => set_control(r, control::write_by_processor(r.control, 2, w)),
    }
}

// One read by the processor.
#[tactic(auto, unfolding(crate::specs::Processor::processor_reads))]
pub fn processor_read(r: Registers, register: u32) -> ProcessorRead
    ensures { result ≡ processor_reads r register }
{
    if 4 < register {
        return ProcessorRead {
            number: u8::from(Refusal::UnknownRegister),
            word: 0,
        };
    }
    ProcessorRead {
        number: 0,
        word: read_of_five(r, register),
    }
}

// One write by the processor.
#[tactic(auto, unfolding(crate::specs::Processor::processor_writes))]
pub fn processor_write(r: Registers, register: u32, w: u16) -> ProcessorWrite
    ensures { result ≡ processor_writes r register w }
{
    if 4 < register {
        return ProcessorWrite {
            number: u8::from(Refusal::UnknownRegister),
            registers: r,
        };
    }
    ProcessorWrite {
        number: 0,
        registers: write_of_five(r, register, w),
    }
}

// Reset: halted, nothing fetched yet, no bus request waiting. The memory is not lent, and stays.
pub fn reset() -> Woken
    ensures { result ≡ at_reset }
{
    Woken {
        registers: Registers {
            pointer: BitAddress(0),
            latch: 0,
            control: 0x8000,
            hollow: true,
        },
        bus: bus::idle(),
    }
}
