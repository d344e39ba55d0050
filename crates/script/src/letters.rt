// The letters of the calls, by what they are calls of.
// A letter stays a byte, and each group has a function: the definitions `in_place_letter` to `known` are on bytes, one for each.
ghost use Rattle.std.specs.Prelude.{◌≡◌};
ghost use Rattle.script.specs.Script.{in_place_letter, host_letter, processor_letter, field_letter, bus_letter, block_letter};
ghost use Rattle.script.specs.Script.{setting_letter, whole_letter, plain_letter, lent_letter, known};

// Of the host, where the record is updated in place.
#[tactic(auto, unfolding(crate::specs::Script::in_place_letter))]
pub fn is_in_place_letter(l: u8) -> bool
    ensures { result ≡ in_place_letter l }
{
    matches!(l, b'H' | b'K')
}

// Of the host, by value or in place.
#[tactic(auto, unfolding(crate::specs::Script::host_letter))]
pub fn is_host_letter(l: u8) -> bool
    ensures { result ≡ host_letter l }
{
    matches!(l, b'R' | b'W') || is_in_place_letter(l)
}

// Of the processor.
#[tactic(auto, unfolding(crate::specs::Script::processor_letter))]
pub fn is_processor_letter(l: u8) -> bool
    ensures { result ≡ processor_letter l }
{
    matches!(l, b'P' | b'Q')
}

// Of fields.
#[tactic(auto, unfolding(crate::specs::Script::field_letter))]
pub fn is_field_letter(l: u8) -> bool
    ensures { result ≡ field_letter l }
{
    matches!(l, b'T' | b'S' | b'F')
}

// Of the bus.
#[tactic(auto, unfolding(crate::specs::Script::bus_letter))]
pub fn is_bus_letter(l: u8) -> bool
    ensures { result ≡ bus_letter l }
{
    matches!(l, b'A' | b'B' | b'C')
}

// Of blocks.
#[tactic(auto, unfolding(crate::specs::Script::block_letter))]
fn is_block_letter(l: u8) -> bool
    ensures { result ≡ block_letter l }
{
    matches!(l, b'I' | b'O')
}

// Of the calls that set the state.
#[tactic(auto, unfolding(crate::specs::Script::setting_letter))]
fn is_setting_letter(l: u8) -> bool
    ensures { result ≡ setting_letter l }
{
    matches!(l, b'N' | b'L' | b'G' | b'Z')
}

// Of the whole room and the whole list.
#[tactic(auto, unfolding(crate::specs::Script::whole_letter))]
pub fn is_whole_letter(l: u8) -> bool
    ensures { result ≡ whole_letter l }
{
    matches!(l, b'M' | b'J' | b'D')
}

// Of the calls that are lent nothing.
#[tactic(auto, unfolding(crate::specs::Script::plain_letter))]
pub fn is_plain_letter(l: u8) -> bool
    ensures { result ≡ plain_letter l }
{
    is_processor_letter(l) || is_bus_letter(l) || is_setting_letter(l)
}

// Of the calls that are lent memory.
#[tactic(auto, unfolding(crate::specs::Script::lent_letter))]
fn is_lent_letter(l: u8) -> bool
    ensures { result ≡ lent_letter l }
{
    is_host_letter(l) || is_field_letter(l) || is_block_letter(l)
}

// Of any call.
#[tactic(auto, unfolding(crate::specs::Script::known))]
pub(crate) fn is_letter(l: u8) -> bool
    ensures { result ≡ known l }
{
    is_plain_letter(l) || is_whole_letter(l) || is_lent_letter(l)
}
