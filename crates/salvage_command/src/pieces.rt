// One piece of an input that is salvaged piece by piece. What that means stands in crate `salvage_spec`, specs/Pieces, and that it ends
// like the salvage of the whole in proofs/InPieces there.
ghost use Rattle.std.specs.Prelude.{◌≡◌, ◌+◌, ◌<◌, ◌≤◌, true, take};
ghost use Rattle.salvage_spec.specs.Pieces.{may_go_on};
ghost use Rattle.salvage_command.specs.Turning.{held_count, leaving, Ready, Took};

use salvage::salvage_transcript;

// How far an input is salvaged. The bytes that are held stand at the front of the piece. What stopped it stays a number, since the public
// answer of `salvage_transcript` is one; so does what `goes_on` is asked.
#[derive(Clone, Copy)]
pub(crate) struct Progress {
    pub(crate) kept: u64,
    pub(crate) gone: u64,
    pub(crate) held: usize,
    pub(crate) stop: u8,
}

// The progress after a piece, and how many bytes are to be written of it.
#[derive(Clone, Copy)]
pub(crate) struct Taken {
    pub(crate) progress: Progress,
    pub(crate) wrote: usize,
}

// Whether it is only the end of a piece that stopped it.
fn goes_on(stop: u8) -> bool
    ensures { result ≡ may_go_on stop }
{
    stop == 0 || stop == 20
}

// How many bytes are held for the next piece, of those that are left.
fn count_held(stop: u8, left: usize) -> usize
    ensures { result ≡ held_count stop left }
{
    if goes_on(stop) {
        return left.min(4);
    }
    0
}

// Behind a bad record all is left: the first `all` bytes of the piece, but for those that are held.
fn leave_piece(p: Progress, all: usize) -> Taken
    requires { (p.held ≤ all) × (p.gone + all < 18446744073709551616) }
    ensures { result ≡ leaving p all }
{
    let more = all - p.held;
    Taken {
        progress: Progress {
            gone: p.gone + more as u64,
            ..p
        },
        wrote: 0,
    }
}

// The first `all` bytes of the piece, salvaged, and what is held of them moved to the front.
fn salvage_piece(p: Progress, piece: &mut [u8], sound: &mut [u8], all: usize) -> Taken
    requires { Ready p piece.old sound.old all × (may_go_on p.stop ≡ true) }
    ensures { Took p (take all piece.old) result piece.new sound.new }
{
    let found = salvage_transcript(&piece[..all], sound);
    let held = count_held(found.stop, found.left);
    let wrote = all - found.left;
    let left = found.left - held;
    let kept = p.kept + found.kept as u64;
    let gone = p.gone + left as u64;
    piece.copy_within(wrote..wrote + held, 0);
    Taken {
        progress: Progress {
            kept,
            gone,
            held,
            stop: found.stop,
        },
        wrote,
    }
}

// One piece more: its first `all` bytes are those that are held, and those that came behind them.
pub(crate) fn take_piece(p: Progress, piece: &mut [u8], sound: &mut [u8], all: usize) -> Taken
    requires { Ready p piece.old sound.old all }
    ensures { Took p (take all piece.old) result piece.new sound.new }
{
    if goes_on(p.stop) {
        return salvage_piece(p, piece, sound, all);
    }
    leave_piece(p, all)
}
