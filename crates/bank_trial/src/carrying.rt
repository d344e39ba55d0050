// A record of a script, carried out.
ghost use Rattle.std.specs.Prelude.{◌≡◌};
ghost use Rattle.bank_trial.specs.CarriedOut.{left_by_start, left_by_access, decoded_by, carried};

use crate::reading::{address_in, control_in, number_in, port_in, word_in};
use crate::selecting::digit_of;
use bank::{decode, read_bank_port, write_bank_port};
use bank_spec::{BankAnswer, BankPort};

// What a record leaves: what the call answered, and the port.
// (`number` is the call's own, 0 for none, and is printed as it is.)
#[derive(Clone, Copy, Debug, PartialEq, Eq)]
pub(crate) struct Left {
    pub number: u8,
    pub word: u16,
    // The selected banks: bit n is bank n.
    pub selected: u8,
    pub port: BankPort,
}

// The record's fresh start, whatever the port was.
fn start(bytes: &[u8; 40]) -> Left
    ensures { result ≡ left_by_start bytes.now }
{
    Left {
        number: 0,
        word: 0,
        selected: 0,
        port: port_in(bytes),
    }
}

// What a read or a write leaves: neither selects a bank.
fn leave_access(o: BankAnswer) -> Left
    ensures { result ≡ left_by_access o }
{
    Left {
        number: o.number,
        word: o.word,
        selected: 0,
        port: o.port,
    }
}

// The record's decode. It changes nothing.
#[tactic(auto, unfolding(crate::specs::CarriedOut::decoded_by))]
fn decode_by(p: BankPort, bytes: &[u8; 40]) -> Left
    ensures { result ≡ decoded_by p bytes.now }
{
    let o = decode(
        p.banks,
        control_in(bytes),
        address_in(bytes),
        number_in(bytes),
    );
    Left {
        number: o.number,
        word: 0,
        selected: digit_of(o),
        port: p,
    }
}

// The record's call, whichever of the four it is.
// (Its first byte says which, as main.rt has it: a kind of its own would be matched once, here.)
#[tactic(auto, unfolding(crate::specs::CarriedOut::carried))]
pub(crate) fn carry_record(p: BankPort, bytes: &[u8; 40]) -> Left
    ensures { result ≡ carried p bytes.now }
{
    match bytes[0] % 4 {
        0 => start(bytes),
        1 => leave_access(read_bank_port(p, number_in(bytes))),
        2 => leave_access(write_bank_port(p, number_in(bytes), word_in(bytes))),
        _ => decode_by(p, bytes),
    }
}
