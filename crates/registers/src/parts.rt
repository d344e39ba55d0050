// The register record: one part of it replaced, a register read, a register written.
// A register is a number, since any may be given: who calls these has refused those that are none.
ghost use Rattle.std.specs.Prelude.{◌≡◌};
ghost use Rattle.registers.specs.Registers.{low_half, high_half, halves, with_pointer, with_latch, with_control, register_word};
ghost use Rattle.registers.specs.Registers.{half_written, written};

use crate::Registers;
use control::hide_bit_10;
use words::{BitAddress, replace_bytes};

// HSTADRL: the low half of the pointer. (A remainder, since an `as` must fit.)
pub fn low_half_of(a: BitAddress) -> u16
    ensures { result ≡ low_half a }
{
    (a.0 % 65536) as u16
}

// HSTADRH: the high half of the pointer.
pub fn high_half_of(a: BitAddress) -> u16
    ensures { result ≡ high_half a }
{
    (a.0 >> 16) as u16
}

// The pointer of these halves.
fn join_halves(l: u16, h: u16) -> BitAddress
    ensures { result ≡ halves l h }
{
    BitAddress(u32::from(l) + 65536 * u32::from(h))
}

// The registers with another pointer.
pub fn set_pointer(r: Registers, a: BitAddress) -> Registers
    ensures { result ≡ with_pointer r a }
{
    Registers { pointer: a, ..r }
}

// The registers with another HSTDATA, and its mark.
// Its four fields are written out and not `..r`: crate port calls this to have the record made anew, without its bytes of padding.
pub fn set_latch(r: Registers, w: u16, hollow: bool) -> Registers
    ensures { result ≡ with_latch r w hollow }
{
    Registers {
        pointer: r.pointer,
        latch: w,
        control: r.control,
        hollow,
    }
}

// The registers with another HSTCTL.
pub(crate) fn set_control(r: Registers, c: u16) -> Registers
    ensures { result ≡ with_control r c }
{
    Registers { control: c, ..r }
}

// What a register of the four reads as.
#[tactic(auto, unfolding(crate::specs::Registers::register_word))]
pub fn read_register(r: Registers, register: u32) -> u16
    ensures { result ≡ register_word r register }
{
    match register {
        0 => low_half_of(r.pointer),
        1 => high_half_of(r.pointer),
        2 => r.latch,
        _ => hide_bit_10(r.control),
    }
}

// The pointer with the selected bytes of one half written: the low half for register 0, else the high half.
#[tactic(auto, unfolding(crate::specs::Registers::half_written))]
fn write_half(a: BitAddress, register: u32, lanes: u32, w: u16) -> BitAddress
    ensures { result ≡ half_written a register lanes w }
{
    let l = low_half_of(a);
    let h = high_half_of(a);
    if register == 0 {
        join_halves(replace_bytes(lanes, l, w), h)
    } else {
        join_halves(l, replace_bytes(lanes, h, w))
    }
}

// The registers with the selected bytes of one of the four written by the host.
#[tactic(auto, unfolding(crate::specs::Registers::written))]
pub fn write_register(r: Registers, register: u32, lanes: u32, w: u16) -> Registers
    ensures { result ≡ written r register lanes w }
{
    match register {
        0 | 1 => set_pointer(r, write_half(r.pointer, register, lanes, w)),
        2 => set_latch(r, replace_bytes(lanes, r.latch, w), r.hollow),
        _ => set_control(r, control::write_by_host(r.control, lanes, w)),
    }
}
