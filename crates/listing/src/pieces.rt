// A piece of input bytes, with the port's state, to a piece of output bytes.
ghost use Rattle.std.specs.Prelude.{◌≡◌, ◌+◌, ◌*◌, ◌-◌, ◌≤◌, min, length};
ghost use Rattle.listing.specs.Listing.{fitting, ListedPiece};
ghost use Rattle.listing.specs.Parts.{AnsweredLine, ListedLines};

use crate::answers::{put, put_answer};
use crate::following::good_lines;
use crate::lines::front_line;
use crate::{Answered, Front, Listed};
use port::host_access;
use port_spec::Access;
use registers::Registers;

// A good line: its access done, and its answer put after what was written so far.
fn answer_line(
    r: Registers,
    memory: &mut [u16],
    a: Access,
    output: &mut [u8],
    wrote: usize,
) -> Answered
    requires { wrote + 20 ≤ length output.old }
    ensures { AnsweredLine r memory.old a output.old wrote result memory.new output.new }
{
    let done = host_access(r, memory, a);
    Answered {
        registers: done.registers,
        wrote: put_answer(output, wrote, a, done.answer),
    }
}

// The lines of an input whose answers have room.
fn list_lines(r: Registers, memory: &mut [u16], input: &[u8], output: &mut [u8]) -> Listed
    requires { 10 * length input.now ≤ 3 * (length output.old - 9) }
    ensures { ListedLines r memory.old input.now output.old result memory.new
        output.new }
{
    let mut registers = r;
    let mut wrote = 0;
    let mut lines = good_lines(input);
    while let Some(a) = lines.next() {
        let done = answer_line(registers, memory, a, output, wrote);
        registers = done.registers;
        wrote = done.wrote;
    }
    let used = input.len() - lines.left.len();
    if let Front::Bad = front_line(lines.left) {
        return Listed {
            registers,
            used,
            wrote: put(output, wrote, b"bad line\n"),
            ended: true,
        };
    }
    Listed {
        registers,
        used,
        wrote,
        ended: false,
    }
}

// How many bytes of an input surely have room for their answers: a good line has 6 bytes or more and its answer at most 20,
// and after the last of them `bad line` may come, with 9.
fn count_fitting(bytes: usize, room: usize) -> usize
    ensures { result ≡ min (fitting room) bytes }
{
    (room.saturating_sub(9) / 10 * 3).min(bytes)
}

// The whole lines of a piece of input, as far as their answers fit the output.
pub fn list_piece(r: Registers, memory: &mut [u16], input: &[u8], output: &mut [u8]) -> Listed
    ensures { ListedPiece r memory.old input.now output.old result memory.new
        output.new }
{
    let n = count_fitting(input.len(), output.len());
    list_lines(r, memory, &input[..n], output)
}
