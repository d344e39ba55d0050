// The control register HSTCTL: the bits that the port obeys, and what each side's write makes of it.
// Document 01, "The four host registers" and "The processor's side".
// Each bit, and each side's write, has a function of its own: its name says more than a bit number, or a rule handed on, would.
// Registers and lanes are numbers, as `closes` and `fetches` have them: any may be given, and those that are none are refused above.
#![tactic(auto)]

ghost use Rattle.std.specs.Prelude.{◌≡◌};
ghost use Rattle.words.specs.Bytes.{hi, lay};
ghost use Rattle.control.specs.Control.{intin, intout, incw, incr, lbl, bare, low_parts, host_low, processor_low, control_laid};
ghost use Rattle.control.specs.Control.{closes, fetches};

use words::{bit_of, high_byte, lay_bytes, low_byte};

// HSTCTL as it reads: bit 10 is 0.
#[tactic(auto, unfolding(crate::specs::Control::bare))]
pub fn hide_bit_10(c: u16) -> u16
    ensures { result ≡ bare c }
{
    c / 2048 * 2048 + c % 1024
}

// INCW: the pointer steps after a store.
pub fn steps_writing(c: u16) -> bool
    ensures { result ≡ incw c }
{
    bit_of(c, 11)
}

// INCR: the pointer steps before the fetch that a read of HSTDATA calls for.
pub fn steps_reading(c: u16) -> bool
    ensures { result ≡ incr c }
{
    bit_of(c, 12)
}

// LBL: the low byte closes a word, and not the high one.
fn low_byte_last(c: u16) -> bool
    ensures { result ≡ lbl c }
{
    bit_of(c, 13)
}

// The closing byte is among the lanes.
#[tactic(auto, unfolding(crate::specs::Control::closes))]
pub fn closes_word(c: u16, lanes: u32) -> bool
    ensures { result ≡ closes c lanes }
{
    if low_byte_last(c) {
        words::selects_low(lanes)
    } else {
        words::selects_high(lanes)
    }
}

// This half of the pointer fetches when its closing byte is written: HSTADRH, or with LBL 1 HSTADRL.
#[tactic(auto, unfolding(crate::specs::Control::fetches))]
pub fn fetches_by(c: u16, register: u32) -> bool
    ensures { result ≡ fetches c register }
{
    if low_byte_last(c) {
        register == 0
    } else {
        register == 1
    }
}

// INTIN of a low control byte.
fn int_in(b: u8) -> bool
    ensures { result ≡ intin b }
{
    bit_of(u16::from(b), 3)
}

// INTOUT of a low control byte.
fn int_out(b: u8) -> bool
    ensures { result ≡ intout b }
{
    bit_of(u16::from(b), 7)
}

// The low control byte with MSGIN of one byte, INTIN, MSGOUT of another byte, INTOUT.
#[tactic(auto, unfolding(crate::specs::Control::low_parts))]
fn join_parts(mi: u8, ii: bool, mo: u8, io: bool) -> u8
    ensures { result ≡ low_parts mi ii mo io }
{
    mi % 8 + 8 * u8::from(ii) + mo / 16 % 8 * 16 + 128 * u8::from(io)
}

// The low control byte after the host writes new over old.
#[tactic(auto, unfolding(crate::specs::Control::host_low))]
fn host_low_of(old: u8, new: u8) -> u8
    ensures { result ≡ host_low old new }
{
    let ii = int_in(old) || int_in(new);
    let io = int_out(old) && int_out(new);
    join_parts(new, ii, old, io)
}

// The low control byte after the processor writes new over old.
#[tactic(auto, unfolding(crate::specs::Control::processor_low))]
fn processor_low_of(old: u8, new: u8) -> u8
    ensures { result ≡ processor_low old new }
{
    let ii = int_in(old) && int_in(new);
    let io = int_out(old) || int_out(new);
    join_parts(old, ii, new, io)
}

// HSTCTL with the selected bytes written: the low byte as given, all of the high byte but bit 10.
fn lay_control(c: u16, lanes: u32, low: u8, w: u16) -> u16
    ensures { result ≡ lay lanes c low (hi (bare w)) }
{
    lay_bytes(lanes, c, low, high_byte(hide_bit_10(w)))
}

// HSTCTL after the host writes.
pub fn write_by_host(c: u16, lanes: u32, w: u16) -> u16
    ensures { result ≡ control_laid host_low lanes c w }
{
    lay_control(c, lanes, host_low_of(low_byte(c), low_byte(w)), w)
}

// HSTCTL after the processor writes: lanes 1 for HSTCTLL, lanes 2 for HSTCTLH.
pub fn write_by_processor(c: u16, lanes: u32, w: u16) -> u16
    ensures { result ≡ control_laid processor_low lanes c w }
{
    lay_control(c, lanes, processor_low_of(low_byte(c), low_byte(w)), w)
}
