#![tactic(auto)]

// The store of a stream: the keys of the sets found so far, in a tree that the bits of a sought key steer through.
// It lies in four slices that the caller lends: the first words of the keys, the second ones, left links and right links.
ghost use Rattle.std.specs.Prelude.{◌≡◌, ◌-◌, ◌*◌, ◌<◌, ◌≤◌, length, get_or, SomeIff};
ghost use Rattle.keys.specs.Keys.{bits_per_row, most_tables};
ghost use Rattle.keys.specs.TwoWords.{number_in, number_of};
ghost use Rattle.refusals.specs.declared.Refusal.TheVariants.{DamagedStore};
ghost use Rattle.store.specs.Store.{store_in, most_records, room_of, link_of, search_of, filed, added, answer_of, store_after, Hangs};
ghost use Rattle.store.specs.Lent.{looked_of, offer_of, kept, room_for, Leaves, SameSlices};

use keys::Key;
use refusals::Refusal;

// The most records of a store: a link is a place plus 1 in 16 bits.
pub const MOST_RECORDS: usize = 65535;

// One of a record's two links: the right one, which bit 1 of a sought key turns to, or the left one.
#[derive(Clone, Copy)]
pub struct Link {
    pub place: usize,
    pub right: bool,
}

// What a search comes to, with the looks that it made: the place of the key's record, or the empty link that the key can be added at.
#[derive(Clone, Copy)]
pub enum Search {
    Found { place: usize, looks: usize },
    Absent { link: Link, looks: usize },
}

// A search met a link that passes the records, or had no bit left to turn by; this many looks were made.
#[derive(Clone, Copy)]
pub struct Damaged {
    pub looks: usize,
}

impl From<Damaged> for Refusal {
    ghost from_gives = { λ damaged refusal. refusal ≡ DamagedStore };

    fn from(_damaged: Damaged) -> Refusal {
        Refusal::DamagedStore
    }
}

// What an offer of a key comes to, with the looks that it took: it was there, or it was added.
#[derive(Clone, Copy)]
pub enum Offered {
    Known { looks: usize },
    Added { looks: usize },
}

// Keys in two slices, their first words and their second ones.
#[derive(Clone, Copy)]
pub struct Keys<'a> {
    pub low: &'a [u64],
    pub high: &'a [u64],
}

// The links of records, in two slices: the left ones and the right ones. A link holds a record's place plus 1, and 0 where it is empty.
#[derive(Clone, Copy)]
pub struct Links<'a> {
    pub left: &'a [u16],
    pub right: &'a [u16],
}

impl Link {
    // Writes into the link, of these left and right ones, that it names record `at`: its place plus 1.
    // The tree grows by this alone, wherever the keys lie.
    pub fn hang(self, left: &mut [u16], right: &mut [u16], at: usize)
        requires { (self.place < length left.old) × (self.place < length right.old) × (at < most_records) }
        ensures { Hangs left.old right.old self.place self.right at left.new right.new }
    {
        let named = (at + 1) as u16;
        if self.right {
            right[self.place] = named;
        } else {
            left[self.place] = named;
        }
    }
}

impl Links<'_> {
    // The place that a link names, or None where it is empty.
    // As a number of 64 bits, for a record's place plus 1 has room there.
    pub fn named(self, link: Link) -> Option<usize>
        requires { (link.place < length self.left.now) × (link.place < length self.right.now) }
        ensures { let l = link_of self.entry.left.now self.entry.right.now link.right link.place in SomeIff result (0 < l) (l - 1) }
    {
        let links = if link.right { self.right } else { self.left };
        (links[link.place] as usize).checked_sub(1)
    }
}

impl Keys<'_> {
    // The key of record p.
    // The only place that knows how a key lies in two slices.
    pub fn at(self, p: usize) -> Key
        requires { (p < length self.low.now) × (p < length self.high.now) }
        ensures { number_of result ≡ number_in (get_or self.entry.low.now p 0) (get_or self.entry.high.now p 0) }
    {
        Key {
            low: self.low[p],
            high: self.high[p],
        }
    }

    // Looks for a key from record 0 on, at most down to the depth `deepest`, where no bit is left to turn by.
    // Any numbers may lie in the slices: no search of a damaged store goes astray or on forever.
    pub fn find(
        self,
        links: Links<'_>,
        found: usize,
        sought: Key,
        deepest: usize,
    ) -> Result<Search, Damaged>
        requires { (0 < found) × (found ≤ room_of (length self.low.now) (length self.high.now) (length links.left.now) (length links.right.now)) × (deepest ≤ bits_per_row * most_tables) }
        ensures { looked_of result ≡ search_of (store_in self.entry.low.now self.entry.high.now links.entry.left.now links.entry.right.now found) (number_of sought) deepest }
    {
        let mut p: usize = 0;
        for d in 0..deepest {
            let looks = d + 1;
            if self.at(p).same(sought) {
                return Ok(Search::Found { place: p, looks });
            }
            let link = Link {
                place: p,
                right: sought.bit(d),
            };
            let Some(next) = links.named(link) else {
                return Ok(Search::Absent { link, looks });
            };
            if found <= next {
                return Err(Damaged { looks });
            }
            p = next;
        }
        // The last look: no bit is left to turn by.
        let looks = deepest + 1;
        if self.at(p).same(sought) {
            Ok(Search::Found { place: p, looks })
        } else {
            Err(Damaged { looks })
        }
    }
}

// How many records a store in these slices has room for: the shortest slice counts, and never more than 65,535.
// It asks no more than to read them, so that a store that is only looked at has its room too.
pub fn room(low: &[u64], high: &[u64], left: &[u16], right: &[u16]) -> usize
    ensures { result ≡ room_of (length low.now) (length high.now) (length left.now) (length right.now) }
{
    MOST_RECORDS
        .min(low.len())
        .min(high.len())
        .min(left.len())
        .min(right.len())
}

// The four slices of a store, lent to be written.
#[derive(Drop)]
pub struct Store<'a> {
    pub low: &'a mut [u64],
    pub high: &'a mut [u64],
    pub left: &'a mut [u16],
    pub right: &'a mut [u16],
}

impl<'a> Store<'a> {
    // How many records there is room for, as `room` says.
    // Every caller asks it before a record is written.
    pub fn room(&self) -> usize
        ensures { result ≡ room_for self.now }
    {
        room(&*self.low, &*self.high, &*self.left, &*self.right)
    }

    // The keys of the records.
    pub fn keys(&self) -> Keys<'_>
        ensures { (result.low.now ≡ self.now.low.now) × (result.high.now ≡ self.now.high.now) }
    {
        Keys {
            low: &*self.low,
            high: &*self.high,
        }
    }

    // The key of record p.
    pub fn key_at(&self, p: usize) -> Key
        requires { (p < length self.now.low.now) × (p < length self.now.high.now) }
        ensures { number_of result ≡ number_in (get_or self.now.low.now p 0) (get_or self.now.high.now p 0) }
    {
        self.keys().at(p)
    }

    // Looks for a key as `Keys::find` does.
    pub fn find(&self, found: usize, sought: Key, deepest: usize) -> Result<Search, Damaged>
        requires { (0 < found) × (found ≤ room_for self.now) × (deepest ≤ bits_per_row * most_tables) }
        ensures { looked_of result ≡ search_of (kept self.now found) (number_of sought) deepest }
    {
        let links = Links {
            left: &*self.left,
            right: &*self.right,
        };
        self.keys().find(links, found, sought, deepest)
    }

    // Writes a key as record `at`, with both links 0.
    // The first record of a store is this alone; each later one is named by a link besides.
    pub fn file_record(&mut self, at: usize, key: Key)
        requires { at < room_for self.old }
        ensures holds { Leaves self.new (filed (kept self.old at) (number_of key)) }
        ensures same { SameSlices self.old self.new }
    {
        self.low[at] = key.low;
        self.high[at] = key.high;
        self.left[at] = 0;
        self.right[at] = 0;
    }

    // Writes a key as the next record, which the empty link that ended its search then names.
    // The caller has asked that a record is free.
    pub fn add(&mut self, found: usize, key: Key, link: Link)
        requires { (found < room_for self.old) × (link.place < found) }
        ensures holds { Leaves self.new (added (kept self.old found) (number_of key) link.place link.right) }
        ensures same { SameSlices self.old self.new }
    {
        self.file_record(found, key);
        link.hang(self.left, self.right, found);
    }

    // Searches for a key, and adds it where it is absent and a record is free; else refusal 12, and 14 where the store is damaged.
    // This is the end of a trial: what the trial came to is in the store afterwards. A refused offer writes nothing and counts no looks.
    pub fn offer(&mut self, found: usize, sought: Key, deepest: usize) -> Result<Offered, Refusal>
        requires { (0 < found) × (found ≤ room_for self.old) × (deepest ≤ bits_per_row * most_tables) }
        ensures answer { let q = kept self.old found in result ≡ offer_of (answer_of q (search_of q (number_of sought) deepest)) }
        ensures holds { let q = kept self.old found in Leaves self.new (store_after q (number_of sought) (search_of q (number_of sought) deepest)) }
        ensures same { SameSlices self.old self.new }
    {
        match self.find(found, sought, deepest)? {
            Search::Found { looks, .. } => Ok(Offered::Known { looks }),
            Search::Absent { link, looks } if found < self.room() => {
                self.add(found, sought, link);
                Ok(Offered::Added { looks })
            }
            Search::Absent { .. } => Err(Refusal::FullStore),
        }
    }
}
