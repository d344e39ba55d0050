// Bit addresses and word numbers; bytes, lanes and bits of a 16-bit word; one word of the lent memory.
// Document 01, "Memory and addresses", and what "The four host registers" says of lanes.
#![tactic(auto)]

mod refusals;

ghost use Rattle.std.specs.Prelude.{◌≡◌, ◌+◌, ◌*◌};
ghost use Rattle.words.specs.Addresses.{word_at, step};
ghost use Rattle.words.specs.Bytes.{lo, hi, bit, takes_low, takes_high, are_lanes, lay, shown, replaced};
ghost use Rattle.words.specs.Memory.{over_limit, fetch_at, Stored};

pub use refusals::Refusal;

// An address that counts bits. The pointer is one; all its 32 bits are kept.
#[derive(Clone, Copy, Debug, PartialEq, Eq)]
pub struct BitAddress(pub u32);

// A number that counts 16-bit words: sixteen bit addresses lie in each.
#[derive(Clone, Copy, Debug, PartialEq, Eq)]
pub struct WordNumber(pub u32);

// ---- addresses (functions and not `From`: laws say what each does, as `step_address_contract` and `word_of_contract`)

// The word that a bit address lies in.
pub fn word_of(a: BitAddress) -> WordNumber
    ensures { result ≡ word_at a }
{
    WordNumber(a.0 / 16)
}

// The bit address one word on, modulo 2^32: the step that fetch and store both take.
pub fn step_address(a: BitAddress) -> BitAddress
    ensures { result ≡ step a }
{
    BitAddress(a.0.wrapping_add(16))
}

// ---- bytes, lanes and bits (lanes are a number, since any may be given: `are_lanes` says which is refused)

// The low byte of a word.
pub fn low_byte(w: u16) -> u8
    ensures { result ≡ lo w }
{
    w.to_le_bytes()[0]
}

// The high byte of a word.
pub fn high_byte(w: u16) -> u8
    ensures { result ≡ hi w }
{
    w.to_le_bytes()[1]
}

// The word of two bytes, the low one first.
pub fn join_bytes(l: u8, h: u8) -> u16
    ensures { result ≡ l + 256 * h }
{
    u16::from_le_bytes([l, h])
}

// The number of four bytes, the lowest first.
pub fn join_four(a: u8, b: u8, c: u8, d: u8) -> u32
    ensures { result ≡ a + 256 * b + 65536 * c + 16777216 * d }
{
    u32::from_le_bytes([a, b, c, d])
}

// Bit i of a word; a word has no bit above 15.
#[tactic(auto, unfolding(crate::specs::Bytes::bit))]
pub fn bit_of(w: u16, i: u32) -> bool
    ensures { result ≡ bit w i }
{
    i < 16 && (w >> i) % 2 == 1
}

// The low byte is selected.
// (Two functions and no lane number handed on: `takes_low` and `takes_high` are two, and the names say more.)
#[tactic(auto, unfolding(crate::specs::Bytes::takes_low))]
pub fn selects_low(lanes: u32) -> bool
    ensures { result ≡ takes_low lanes }
{
    lanes == 1 || lanes == 3
}

// The high byte is selected.
#[tactic(auto, unfolding(crate::specs::Bytes::takes_high))]
pub fn selects_high(lanes: u32) -> bool
    ensures { result ≡ takes_high lanes }
{
    lanes == 2 || lanes == 3
}

// The number names lanes: 1, 2 or 3.
#[tactic(auto, unfolding(crate::specs::Bytes::are_lanes))]
pub fn names_lanes(n: u32) -> bool
    ensures { result ≡ are_lanes n }
{
    n == 1 || n == 2 || n == 3
}

// The word whose selected bytes are `l` and `h`, and whose others are those of `old`.
#[tactic(auto, unfolding(crate::specs::Bytes::lay))]
pub fn lay_bytes(lanes: u32, old: u16, l: u8, h: u8) -> u16
    ensures { result ≡ lay lanes old l h }
{
    let low = if selects_low(lanes) { l } else { low_byte(old) };
    let high = if selects_high(lanes) {
        h
    } else {
        high_byte(old)
    };
    join_bytes(low, high)
}

// The word as an answer shows it: an unselected byte is 0.
pub fn show_bytes(lanes: u32, w: u16) -> u16
    ensures { result ≡ shown lanes w }
{
    lay_bytes(lanes, 0, low_byte(w), high_byte(w))
}

// The word `old` with its selected bytes written: an unselected byte of `new` is ignored.
pub fn replace_bytes(lanes: u32, old: u16, new: u16) -> u16
    ensures { result ≡ replaced lanes old new }
{
    lay_bytes(lanes, old, low_byte(new), high_byte(new))
}

// ---- one word of the lent memory

// A memory of so many words is refused: number 1. It asks for the length alone, since some callers judge before words are lent.
pub fn is_over_limit(words: usize) -> bool
    ensures { result ≡ over_limit words }
{
    32768 < words
}

// One word of memory as a fetch finds it, or none where memory has no such word.
#[tactic(auto, unfolding(crate::specs::Memory::fetch_at))]
pub fn fetch_word(memory: &[u16], n: WordNumber) -> Option<u16>
    ensures { result ≡ fetch_at memory.now n }
{
    memory.get(n.0 as usize).copied()
}

// One word of memory replaced, and true; where it is not there, nothing and false, as `Stored` says.
// (`as usize`, since the library has no `From` for it.)
#[tactic(auto, unfolding(crate::specs::Memory::store_at))]
pub fn store_word(memory: &mut [u16], n: WordNumber, w: u16) -> bool
    ensures { Stored memory.old n w result memory.new }
{
    let i = n.0 as usize;
    if i < memory.len() {
        memory[i] = w;
        return true;
    }
    false
}
