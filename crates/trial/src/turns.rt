// Reading the script and printing the answers, a buffer at a time.
ghost use Rattle.std.specs.Prelude.{◌*◌, ◌/◌, ◌≤◌, length};
ghost use Rattle.trial.specs.Lines.{world, RanLines, CalledTurn};

use crate::calls::carry_out;
use crate::setting::first_state;
use input::{Unread, fill_whole};
use output::write_all;
use script::{State, put_line, read_line};
use std::io::{Stdin, Stdout};

// The state after some lines, and how many of them were carried out.
#[derive(Clone, Copy)]
struct Ran {
    state: State,
    calls: usize,
}

// The state after a buffer of the script, and whether there may be more of it; the state holds either way.
#[derive(Clone, Copy)]
struct Turn {
    state: State,
    more: bool,
}

// Carries out the whole lines of the input, up to the first that is no call, and puts down a line of output for each. The calls are
// counted, since `Ran` tells how many there were; their places in the output go by that count.
fn run_lines(s: State, room: &mut [u16], list: &mut [u16], input: &[u8], output: &mut [u8]) -> Ran
    requires { 47 * (length input.now / 38) ≤ length output.old }
    ensures { RanLines (world s room.old list.old) input.now result room.new list.new
        output.new }
{
    let mut state = s;
    let mut calls = 0;
    for line in input.chunks_exact(38) {
        let Some(call) = read_line(line) else {
            return Ran { state, calls };
        };
        let done = carry_out(state, room, list, call);
        put_line(&mut output[47 * calls..47 * calls + 47], call.letter, done);
        state = done.state;
        calls += 1;
    }
    Ran { state, calls }
}

// Reads a buffer full, as long as the script has so much, and prints its answers at once. A buffer holds whole lines: bytes after
// the last of them are the end of a script that is bad. A read that fails ends the script, and a write that fails the run: nothing is
// said of either.
fn take_turn(s: State, room: &mut [u16], list: &mut [u16], from: Stdin, mut to: Stdout) -> Turn
    ensures { CalledTurn (world s room.old list.old) result room.new list.new }
{
    let mut input = [0u8; 9728];
    let mut output = [0u8; 12032];
    let (Ok(got) | Err(Unread { all: got })) = fill_whole(&mut input, from);
    let ran = run_lines(s, room, list, &input[..got], &mut output);
    let written = write_all(&output[..47 * ran.calls], &mut to).is_ok();
    if 38 * ran.calls == got {
        return Turn {
            state: ran.state,
            more: written && got == 9728,
        };
    }
    let _ = write_all(b"bad script\n", &mut to);
    Turn {
        state: ran.state,
        more: false,
    }
}

// Turn after turn. A proved loop has to end, and nothing says that the input does: its turns are counted, up to a number that no run
// uses up.
pub(crate) fn run(room: &mut [u16], list: &mut [u16], from: Stdin, to: Stdout) {
    let mut state = first_state();
    for _ in 0..u64::MAX {
        let turn = take_turn(state, room, list, from, to);
        state = turn.state;
        if !turn.more {
            return;
        }
    }
}
