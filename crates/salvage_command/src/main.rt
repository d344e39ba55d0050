// The program `salvage`: it reads a damaged transcript from standard input, of any length, writes the longest run of whole good records
// from its start to standard output, and reports on standard error what was kept, what was left and why. Document 02, request (xii).
//
// The input comes in pieces of at most 65,540 bytes, as each read brings them. What is done with a piece is `pieces`; here are the reads,
// the writes and the loop.
#![tactic(auto)]

mod pieces;
mod report;

ghost use Rattle.std.specs.Prelude.{◌≡◌, ◌≤◌, length, IfOk, IfErr, IfSome};
ghost use Rattle.input.specs.Filling.{there};
ghost use Rattle.salvage_command.specs.Turning.{Room, SalvagedTurn, UnreadTurn, Tells};

use input::{Unread, fill};
use output::write_all;
use pieces::{Progress, Taken, take_piece};
use report::{Failed, Report, say};
use std::io::{Stdin, Stdout};

// What a turn leaves. It is no Option: what was taken is written, whether or not more may follow.
#[derive(Clone, Copy)]
struct Turn {
    taken: Taken,
    // Whether anything came, so that more may follow.
    more: bool,
}

// One turn: a piece came, as the read behind the bytes that are held answers, and what is kept of it is laid out to be written. Where the
// read failed nothing came, and nothing is left to be written: the bytes that are held are no whole record.
fn take_turn(
    p: Progress,
    piece: &mut [u8],
    sound: &mut [u8],
    read: Result<usize, Unread>,
) -> Result<Turn, Unread>
    requires room { Room p piece.old sound.old }
    requires came { (p.held ≤ there read) × (there read ≤ length piece.old) }
    ensures taken { IfOk result (λ t. SalvagedTurn p piece.old t piece.new sound.new) }
    ensures unread { IfErr result (λ u. UnreadTurn read piece.old sound.old u piece.new sound.new) }
{
    let all = read?;
    let came = all - p.held;
    let taken = take_piece(p, piece, sound, all);
    Ok(Turn {
        taken,
        more: 0 < came,
    })
}

// Turn after turn. An empty piece is the last. A proved loop has to end, and nothing says that the input does: so it has a number of turns,
// which no run uses up, and which keeps every count below 2^64.
fn salvage(
    piece: &mut [u8],
    sound: &mut [u8],
    from: Stdin,
    mut to: Stdout,
) -> Result<Option<Report>, Failed>
    requires { (length piece.old ≡ 65540) × (length sound.old ≡ 65540) }
    ensures { IfOk result (λ r. IfSome r (λ x. Tells x)) }
{
    let mut progress = Progress {
        kept: 0,
        gone: 0,
        held: 0,
        stop: 0,
    };
    for _ in 0..70368744177664u64 {
        let read = fill(piece, progress.held, from);
        let turn = take_turn(progress, piece, sound, read)?;
        progress = turn.taken.progress;
        write_all(&sound[..turn.taken.wrote], &mut to)?;
        if !turn.more {
            return Ok(Some(Report {
                kept: progress.kept,
                left: progress.gone + progress.held as u64,
                stop: progress.stop,
            }));
        }
    }
    Ok(None)
}

// Each holds a piece, and before it what is held of the piece before: four bytes at most.
fn main(rt: HostRuntime) {
    let mut piece = [0u8; 65540];
    let mut sound = [0u8; 65540];
    match salvage(&mut piece, &mut sound, rt.stdin(), rt.stdout()) {
        Ok(Some(report)) => say(report, rt.stderr()),
        Ok(None) => {}
        Err(failed) => {
            // Where standard error takes nothing there is nobody to tell.
            let _ = eprintln!(rt; "salvage: {failed}");
        }
    }
}
