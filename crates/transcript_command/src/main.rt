// The program `transcript`: it turns the lines of `portlist` into a transcript, and a transcript into lines. Document 02, request (ii).
// What comes out is named by its one argument:
//
//   bytes   lines are read, and their transcript is written
//   lines   a transcript is read, and its lines are written
//
// All of the input is read and judged before anything is written. If something is wrong with it, or it can't be read to its end, standard
// output stays empty, and a line on standard error says what and where.
//
// There is room for 32,768 accesses: as lines they have at most 360,448 bytes, and as a transcript at most 131,072.
#![tactic(auto)]

mod messages;

ghost use Rattle.std.specs.Prelude.{take};
ghost use Rattle.input.specs.Filling.{there};
ghost use Rattle.transcript_spec.specs.Lists.{lists};
ghost use Rattle.transcript_command.specs.Ways.{TurnedTo, Named};
ghost use Rattle.transcript_command.specs.Whole.{ReadToItsEnd, Writes};

use input::{Unread, fill_whole};
use messages::{Failed, Place};
use output::write_all;
use std::env::Env;
use std::io::{Stdin, Stdout};
use transcript_exchange::{NotTurned, bytes_to_lines, lines_to_bytes};

// What comes out.
#[derive(Clone, Copy, Debug, PartialEq, Eq)]
pub enum Way {
    Bytes,
    Lines,
}

// The way that an argument names.
fn way_of(argument: &[u8]) -> Option<Way>
    ensures { Named argument.now result }
{
    match argument {
        b"bytes" => Some(Way::Bytes),
        b"lines" => Some(Way::Lines),
        _ => None,
    }
}

// The bytes that were read, turned. They must be the whole input, as the reads answered it.
fn turn(
    way: Way,
    read: Result<usize, Unread>,
    input: &[u8],
    kinds: &mut [u32],
    registers: &mut [u32],
    lanes: &mut [u32],
    words: &mut [u32],
    output: &mut [u8],
) -> Result<usize, NotTurned>
    requires { ReadToItsEnd read input.now }
    ensures { TurnedTo way (take (there read) input.now)
        (lists kinds.old registers.old lanes.old words.old)
        output.old result
        (lists kinds.new registers.new lanes.new words.new) output.new }
{
    let all = read.unwrap();
    match way {
        Way::Bytes => lines_to_bytes(&input[..all], kinds, registers, lanes, words, output),
        Way::Lines => bytes_to_lines(&input[..all], kinds, registers, lanes, words, output),
    }
}

// Writes what the input was turned into; the input and its way are at hand to say which text that is.
fn write(
    way: Way,
    read: Result<usize, Unread>,
    input: &[u8],
    text: &[u8],
    mut to: Stdout,
) -> Result<(), Failed>
    requires { Writes way (take (there read) input.now) text.now }
{
    write_all(text, &mut to)?;
    Ok(())
}

// The input read, turned and written; or what is wrong with it. Input that fills its buffer may have more behind it, and is too long. The
// lists are four parameters, since the two calls that turn take them so.
fn exchange(
    way: Way,
    input: &mut [u8],
    kinds: &mut [u32],
    registers: &mut [u32],
    lanes: &mut [u32],
    words: &mut [u32],
    output: &mut [u8],
    from: Stdin,
    to: Stdout,
) -> Result<(), Failed> {
    let read = fill_whole(input, from);
    let all = read?;
    if all == input.len() {
        return Err(Failed::TooLong);
    }
    let turned = turn(way, read, input, kinds, registers, lanes, words, output);
    match turned {
        Ok(k) => write(way, read, input, &output[..k], to),
        Err(NotTurned::BadLine(before)) => Err(Failed::BadLine(Place { way, before })),
        Err(NotTurned::Refused(number, before)) => Err(Failed::Refused(
            Place { way, before },
            number,
        )),
        Err(NotTurned::TooMany) => Err(Failed::TooMany),
    }
}

// Each buffer has a byte more than the most that it may be filled with.
fn main(rt: HostRuntime) {
    let mut argument = [0u8; 8];
    let named = match rt.arg(1, &mut argument) {
        Ok(n) => way_of(&argument[..n]),
        Err(_) => None,
    };
    let mut text = [0u8; 360449];
    let mut bytes = [0u8; 131073];
    let mut kinds = [0u32; 32768];
    let mut registers = [0u32; 32768];
    let mut lanes = [0u32; 32768];
    let mut words = [0u32; 32768];
    let exchanged = match named {
        Some(way) => {
            let (input, output) = match way {
                Way::Bytes => (&mut text[..], &mut bytes[..]),
                Way::Lines => (&mut bytes[..], &mut text[..]),
            };
            exchange(
                way,
                input,
                &mut kinds,
                &mut registers,
                &mut lanes,
                &mut words,
                output,
                rt.stdin(),
                rt.stdout(),
            )
        }
        None => Err(Failed::NoWay),
    };
    if let Err(failed) = exchanged {
        // Where standard error takes nothing there is nobody to tell.
        let _ = eprintln!(rt; "transcript: {failed}");
    }
}
