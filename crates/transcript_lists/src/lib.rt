// A list of accesses as a call is lent it, one slice of numbers for each part: how many entries it holds, one of them taken out, one put
// in, and whether its kind and word can be said at all. Document 02, request (ii). Both forms of a list, the bytes of crate `transcript`
// and the lines of crate `transcript_lines`, are made from it and turned into it.
#![tactic(auto)]

ghost use Rattle.std.specs.Prelude.{◌≡◌, ◌<◌, ◌^◌, get_or, length, set, take};
ghost use Rattle.std.specs.Iterator.{YieldsFirst, item_count};
ghost use Rattle.transcript_spec.specs.InPlainWords.{first_places};
ghost use Rattle.transcript_spec.specs.Lists.{size, entry_at, entries_in, with_entry};
ghost use Rattle.transcript_spec.specs.Writing.{no_record};
ghost use Rattle.transcript_lists.specs.Lent.{lists_of, lists_in, entries_left, SameLists};

use transcript_spec::Entry;

// The four lists of a call that reads them.
#[derive(Clone, Copy)]
pub struct Lists<'a> {
    pub kinds: &'a [u32],
    pub registers: &'a [u32],
    pub lanes: &'a [u32],
    pub words: &'a [u32],
}

// The four lists of a call that fills them.
#[derive(Drop)]
pub struct ListsMut<'a> {
    pub kinds: &'a mut [u32],
    pub registers: &'a mut [u32],
    pub lanes: &'a mut [u32],
    pub words: &'a mut [u32],
}

impl<'a> Lists<'a> {
    // How many entries the lists hold: as many as the shortest has places.
    pub fn len(self) -> usize
        ensures { result ≡ size (lists_of self.entry) }
    {
        let Lists {
            kinds,
            registers,
            lanes,
            words,
        } = self;
        kinds
            .len()
            .min(registers.len())
            .min(lanes.len().min(words.len()))
    }

    // The lists of the first n entries: the first n numbers of each list, or all of them where it has fewer.
    pub fn first(self, n: usize) -> Lists<'a>
        ensures { lists_of result ≡ first_places n (lists_of self.entry) }
    {
        Lists {
            kinds: first_numbers(self.kinds, n),
            registers: first_numbers(self.registers, n),
            lanes: first_numbers(self.lanes, n),
            words: first_numbers(self.words, n),
        }
    }

    // Entry i; each part that its list doesn't have is 0.
    pub fn entry(self, i: usize) -> Entry
        ensures { result ≡ entry_at (lists_of self.entry) i }
    {
        Entry {
            kind: number_at(self.kinds, i),
            register: number_at(self.registers, i),
            lanes: number_at(self.lanes, i),
            word: number_at(self.words, i),
        }
    }

    // The entries, one after the other: so few that four bytes for each can be counted.
    pub fn entries(self) -> Entries<'a>
        ensures all { entries_left result ≡ entries_in (lists_of self.entry) }
        ensures few { length (entries_left result) < 2 ^ 62 }
    {
        Entries {
            list: self,
            place: 0,
        }
    }
}

// The entries that are still to come, of four lists.
#[derive(Drop)]
pub struct Entries<'a> {
    list: Lists<'a>,
    place: usize,
}

impl<'a> Iterator for Entries<'a> {
    type Item = Entry;

    ghost next_gives = { YieldsFirst entries_left };

    ghost remaining = { item_count entries_left };

    fn next(&mut self) -> Option<Entry> {
        if self.list.len() <= self.place {
            return None;
        }
        let e = self.list.entry(self.place);
        self.place += 1;
        Some(e)
    }
}

impl<'a> ListsMut<'a> {
    // How many entries the lists hold, as above.
    pub fn len(&self) -> usize
        ensures { result ≡ size (lists_in self.now) }
    {
        self.kinds
            .len()
            .min(self.registers.len())
            .min(self.lanes.len().min(self.words.len()))
    }

    // An entry put at place i; each part beyond its list's end is dropped.
    pub fn put(&mut self, i: usize, e: Entry)
        ensures same { SameLists self.old self.new }
        ensures put { lists_in self.new ≡ with_entry (lists_in self.old) i e }
    {
        put_number(self.kinds, i, e.kind);
        put_number(self.registers, i, e.register);
        put_number(self.lanes, i, e.lanes);
        put_number(self.words, i, e.word);
    }
}

// The first n numbers of a list, or all of them where there are fewer.
fn first_numbers(list: &[u32], n: usize) -> &[u32]
    ensures { result.now ≡ take n list.now }
{
    list.get(..n).unwrap_or(list)
}

// Number i of a list, 0 beyond its end.
fn number_at(list: &[u32], i: usize) -> u32
    ensures { result ≡ get_or list.now i 0 }
{
    list.get(i).copied().unwrap_or(0)
}

// A number put at place i of a list; beyond its end it is dropped. With `get_mut` in place of the test the proof didn't close.
fn put_number(list: &mut [u32], i: usize, n: u32)
    ensures { list.new ≡ set list.old i n }
{
    if i < list.len() {
        list[i] = n;
    }
}

// Neither a record nor a line says what the entry does: a word over 16 bits, a kind over 1, or a word for a read.
#[tactic(auto, unfolding(transcript_spec::specs::Writing::no_record))]
pub fn has_no_record(e: Entry) -> bool
    ensures { result ≡ no_record e }
{
    65535 < e.word || 1 < e.kind || e.kind == 0 && e.word != 0
}
