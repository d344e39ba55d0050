// A record of a script, carried out.
ghost use Rattle.transcript_spec.specs.Lists.{lists};
ghost use Rattle.transcript_trial.specs.Record.{lists_in};
ghost use Rattle.transcript_trial.specs.CarriedOut.{Called, CarriedOut};

use crate::reading::column_at;
use input::places_lent;
use transcript::{read_transcript, write_transcript};
use transcript_spec::Transcribed;

// What a record leaves, but for its string: what the call answered, and the four lists.
// (stream_trial has one like it, with another answer: no crate below both programs is about what a trial leaves.)
#[derive(Clone, Copy)]
pub(crate) struct Left {
    pub answer: Transcribed,
    pub kinds: [u32; 6],
    pub registers: [u32; 6],
    pub lanes: [u32; 6],
    pub words: [u32; 6],
}

// One call, of the reader or else of the writer.
fn call(
    reader: bool,
    string: &mut [u8],
    kinds: &mut [u32],
    registers: &mut [u32],
    lanes: &mut [u32],
    words: &mut [u32],
) -> Transcribed
    ensures { Called reader string.old
        (lists kinds.old registers.old lanes.old words.old)
        result string.new (lists kinds.new registers.new lanes.new words.new) }
{
    if reader {
        return read_transcript(string, kinds, registers, lanes, words);
    }
    write_transcript(kinds, registers, lanes, words, string)
}

// The record's call. What it is lent of the string and of each list is their first places, as many as the record says.
// (An odd first byte asks for the reader, as main.rt has it.)
fn carry_out(
    bytes: &[u8; 168],
    string: &mut [u8],
    kinds: &mut [u32],
    registers: &mut [u32],
    lanes: &mut [u32],
    words: &mut [u32],
) -> Transcribed
    ensures { CarriedOut bytes.now string.old
        (lists kinds.old registers.old lanes.old words.old)
        result string.new (lists kinds.new registers.new lanes.new words.new) }
{
    let s = places_lent(bytes[1], string.len());
    let k = places_lent(bytes[2], kinds.len());
    let r = places_lent(bytes[3], registers.len());
    let l = places_lent(bytes[4], lanes.len());
    let w = places_lent(bytes[5], words.len());
    call(
        bytes[0] % 2 == 1,
        &mut string[..s],
        &mut kinds[..k],
        &mut registers[..r],
        &mut lanes[..l],
        &mut words[..w],
    )
}

// The record's call, with the string and with the lists that are in the record.
pub(crate) fn carry_record(bytes: &[u8; 168], string: &mut [u8]) -> Left
    ensures { CarriedOut bytes.now string.old (lists_in bytes.now)
        result.answer string.new (lists result.kinds result.registers result.lanes result.words) }
{
    let mut kinds = column_at(bytes, 0);
    let mut registers = column_at(bytes, 6);
    let mut lanes = column_at(bytes, 12);
    let mut words = column_at(bytes, 18);
    let answer = carry_out(
        bytes,
        string,
        &mut kinds,
        &mut registers,
        &mut lanes,
        &mut words,
    );
    Left {
        answer,
        kinds,
        registers,
        lanes,
        words,
    }
}
