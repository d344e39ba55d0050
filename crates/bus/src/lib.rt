// The five sources of bus requests, and the order in which they are granted: document 01, "Bus order".
// A source is a number, so that any can be given: one that is not 0 to 4 is refused.
#![tactic(auto)]

ghost use Rattle.std.specs.Prelude.{◌≡◌, None, Some, if◌then◌else◌, ◌==◌};
ghost use Rattle.words.specs.Refusals.{refusal_number};
ghost use Rattle.bus.specs.Order.{quiet, waits, with_source, highest, asked, granted, released};

use words::Refusal;

// Which of the five sources wait, highest first: five fields and no list, since the laws name each (`source_named`).
#[derive(Clone, Copy, Debug, PartialEq, Eq)]
pub struct Bus {
    pub hold: bool,
    pub screen: bool,
    pub dram: bool,
    pub host: bool,
    pub processor: bool,
}

// What asking or releasing answers: its number (document 01, "Numbers returned": 0 where it is done), and who waits then.
// (Not one record with what a write by the processor answers: `asked` and `processor_writes` answer each its own.)
#[derive(Clone, Copy, Debug, PartialEq, Eq)]
pub struct BusAnswer {
    pub number: u8,
    pub bus: Bus,
}

// What a grant answers: its number, the source granted (0 with a refusal, as document 01 has it), and who waits then.
#[derive(Clone, Copy, Debug, PartialEq, Eq)]
pub struct Granted {
    pub number: u8,
    pub source: u32,
    pub bus: Bus,
}

// ---- who waits

// No request waits, as reset leaves it.
pub fn idle() -> Bus
    ensures { result ≡ quiet }
{
    Bus {
        hold: false,
        screen: false,
        dram: false,
        host: false,
        processor: false,
    }
}

// That source waits; none but 0 to 4 ever does.
#[tactic(auto, unfolding(crate::specs::Order::waits))]
pub fn is_waiting(b: Bus, source: u32) -> bool
    ensures { result ≡ waits b source }
{
    match source {
        0 => b.hold,
        1 => b.screen,
        2 => b.dram,
        3 => b.host,
        4 => b.processor,
        _ => false,
    }
}

// The record with that source waiting or not, and the others as they stood.
#[tactic(auto, unfolding(crate::specs::Order::with_source))]
fn set_source(b: Bus, source: u32, waiting: bool) -> Bus
    ensures { result ≡ with_source b source waiting }
{
    match source {
        0 => Bus { hold: waiting, ..b },
        1 => Bus {
            screen: waiting,
            ..b
        },
        2 => Bus { dram: waiting, ..b },
        3 => Bus { host: waiting, ..b },
        4 => Bus {
            processor: waiting,
            ..b
        },
        _ => b,
    }
}

// The highest source that waits, if one does.
#[tactic(auto, unfolding(crate::specs::Order::highest))]
fn highest_of(b: Bus) -> Option<u32>
    ensures { result ≡ (if highest b == 5 then None else Some (highest b)) }
{
    match b {
        Bus { hold: true, .. } => Some(0),
        Bus { screen: true, .. } => Some(1),
        Bus { dram: true, .. } => Some(2),
        Bus { host: true, .. } => Some(3),
        Bus {
            processor: true,
            ..
        } => Some(4),
        _ => None,
    }
}

// ---- the three calls

// Refused: nothing changes.
fn refuse(refusal: Refusal, b: Bus) -> BusAnswer
    ensures { result ≡ record { number = refusal_number refusal; bus = b } }
{
    BusAnswer {
        number: u8::from(refusal),
        bus: b,
    }
}

// A source asks for the bus: it waits from now on.
#[tactic(auto, unfolding(crate::specs::Order::asked))]
pub fn ask(b: Bus, source: u32) -> BusAnswer
    ensures { result ≡ asked b source }
{
    if is_waiting(b, source) {
        return refuse(Refusal::AlreadyWaiting, b);
    }
    if 4 < source {
        return refuse(Refusal::UnknownSource, b);
    }
    BusAnswer {
        number: 0,
        bus: set_source(b, source, true),
    }
}

// The highest waiting source gets the bus. It waits no more, unless it is hold.
#[tactic(auto, unfolding(crate::specs::Order::granted))]
pub fn grant(b: Bus) -> Granted
    ensures { result ≡ granted b }
{
    let Some(source) = highest_of(b) else {
        return Granted {
            number: u8::from(Refusal::NoneWaiting),
            source: 0,
            bus: b,
        };
    };
    if source == 0 {
        return Granted {
            number: 0,
            source,
            bus: b,
        };
    }
    Granted {
        number: 0,
        source,
        bus: set_source(b, source, false),
    }
}

// Hold waits no more, whether or not it was granted.
#[tactic(auto, unfolding(crate::specs::Order::released, crate::specs::Order::with_source))]
pub fn release(b: Bus) -> BusAnswer
    ensures { result ≡ released b }
{
    if !b.hold {
        return refuse(Refusal::NoneWaiting, b);
    }
    BusAnswer {
        number: 0,
        bus: Bus { hold: false, ..b },
    }
}
