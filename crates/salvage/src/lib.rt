// Salvage of a damaged transcript: document 02, request (xii). What that means, and the laws of it, are crate `salvage_spec`; how a
// transcript is looked through is crate `transcript_scan`; here is the code of the call.
#![tactic(auto)]

ghost use Rattle.salvage_spec.specs.Salvage.{SalvagedTranscript};

use salvage_spec::Salvaged;
use transcript_scan::scan;
use words::Refusal;

// Writes the longest run of whole good records from the start of a damaged transcript into the first places of the bytes that are lent.
// The places behind it stay. Nothing is written before the whole run is known to fit.
pub fn salvage_transcript(damaged: &[u8], sound: &mut [u8]) -> Salvaged
    ensures { SalvagedTranscript damaged.now sound.old result sound.new }
{
    let found = scan(damaged);
    let n = found.place;
    if sound.len() < n {
        return Salvaged {
            number: u8::from(Refusal::ListTooSmall),
            kept: 0,
            left: 0,
            stop: 0,
        };
    }
    sound[..n].copy_from_slice(&damaged[..n]);
    let left = damaged.len() - n;
    Salvaged {
        number: 0,
        kept: found.entries,
        left,
        stop: found.refusal,
    }
}
