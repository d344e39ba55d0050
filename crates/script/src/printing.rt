// One line of the output, of 47 bytes.
ghost use Rattle.std.specs.Prelude.{◌≡◌, ◌+◌, ◌≤◌, length};
ghost use Rattle.script.specs.Answers.{digits, number, bus_number, state_text, line_of, with_line, Laid};

use crate::{Done, State};
use bus::Bus;
use digits::digit_for;

// The last digits of a value, as many as there are places, the last of them first. (With `iter_mut().rev()` in place of the index the
// proof doesn't close: of the places that are handed out backwards it doesn't learn what they hold in the end.)
fn put_digits(places: &mut [u8], value: u32)
    ensures { places.new ≡ digits (length places.old) value }
{
    let count = places.len();
    let mut rest = value;
    for i in 0..count {
        places[count - 1 - i] = digit_for((rest % 16) as u16);
        rest /= 16;
    }
}

// A space and a number of so many digits, from a place of the line on.
fn put_number(line: &mut [u8], at: usize, count: usize, value: u32)
    requires { at + 1 + count ≤ length line.old }
    ensures { Laid at line.old (number count value) (at + 1 + count) line.new }
{
    line[at] = b' ';
    put_digits(&mut line[at + 1..at + 1 + count], value);
}

// The bus as a number: bit s set says that source s waits.
#[tactic(auto, unfolding(crate::specs::Answers::bus_number))]
fn bus_number(b: Bus) -> u32
    ensures { result ≡ bus_number b }
{
    u32::from(b.hold)
        + 2 * u32::from(b.screen)
        + 4 * u32::from(b.dram)
        + 8 * u32::from(b.host)
        + 16 * u32::from(b.processor)
}

// The state after the call.
fn put_state(line: &mut [u8; 47], s: State)
    ensures { Laid 22 line.old (state_text s) 46 line.new }
{
    put_number(line, 22, 8, s.registers.pointer.0);
    put_number(line, 31, 4, u32::from(s.registers.latch));
    put_number(line, 36, 4, u32::from(s.registers.control));
    put_number(line, 41, 1, u32::from(s.registers.hollow));
    put_number(line, 43, 2, bus_number(s.bus));
}

// The line of a call.
fn line_of(letter: u8, d: Done) -> [u8; 47]
    ensures { result ≡ line_of letter d }
{
    let mut line = [b' '; 47];
    line[0] = letter;
    put_number(&mut line, 1, 2, u32::from(d.number));
    put_number(&mut line, 4, 8, d.x);
    put_number(&mut line, 13, 8, d.y);
    put_state(&mut line, d.state);
    line[46] = b'\n';
    line
}

// The line of a call, into a place for one; any other place stays as it is.
#[tactic(auto, unfolding(crate::specs::Answers::with_line))]
pub fn put_line(line: &mut [u8], letter: u8, d: Done)
    ensures { line.new ≡ with_line line.old letter d }
{
    if line.len() == 47 {
        line.copy_from_slice(&line_of(letter, d));
    }
}
