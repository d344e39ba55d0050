// A record of a script, carried out.
ghost use Rattle.salvage_trial.specs.CarriedOut.{CarriedOut};

use input::places_lent;
use salvage::salvage_transcript;
use salvage_spec::Salvaged;

// The record's call. What it is lent of the damaged transcript, and to be written, is their first places, as many as the record says.
pub(crate) fn carry_out(k: u8, m: u8, damaged: &[u8], sound: &mut [u8]) -> Salvaged
    ensures { CarriedOut k m damaged.now sound.old result sound.new }
{
    let given = places_lent(k, damaged.len());
    let room = places_lent(m, sound.len());
    salvage_transcript(&damaged[..given], &mut sound[..room])
}
