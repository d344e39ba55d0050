// The answer of a refused call, the writer's and the reader's.
ghost use Rattle.std.specs.Prelude.{◌≡◌};
ghost use Rattle.transcript_spec.specs.Writing.{refused};

use transcript_spec::Transcribed;

// Its number and its place, and nothing counted.
// (A number: the scan and the judging hand it on as one, as the definition `refused` takes it.)
pub(crate) fn refuse(number: u8, place: usize) -> Transcribed
    ensures { result ≡ refused number place }
{
    Transcribed {
        number,
        count: 0,
        place,
    }
}
