#![tactic(auto)]

// The hub's list: whether a list of keys, whose words lie in two slices, holds every maximal set once and nothing else.
// The list is itself the keys of a store: a search tree over it, whose links lie in arrays of the call, finds repeats and answers every search.
ghost use Rattle.std.specs.Prelude.{◌≡◌, ◌+◌, true, false, [], ◌≤◌, ◌<◌, length, get_or, eqb, MatchOption};
ghost use Rattle.keys.specs.Keys.{bits_per_row, key_of};
ghost use Rattle.keys.specs.TwoWords.{number_of};
ghost use Rattle.laws.specs.Tests.{lowest_below};
ghost use Rattle.disjunction.specs.Sets.{Maximal};
ghost use Rattle.disjunction.specs.Rule.{rows, trial};
ghost use Rattle.disjunction.specs.Standing.{gives_back, standing};
ghost use Rattle.rows.specs.World.{world_of, set_of, place_of};
ghost use Rattle.rows.specs.Named.{Named, There};
ghost use Rattle.hub.specs.Answers.{told_of};
ghost use Rattle.hub.specs.Verdicts.{seek, tried, tried_on, spoilt, verdict, Sound};
ghost use Rattle.hub.specs.Promises.{word_set, word_sets, answer_of, ChecksList};
ghost use Rattle.hub.specs.Searching.{world_in, listed_in, sets_in, among, lowest_of, out_of, Low, Linked, records_of, EndsAt};

use keys::Key;
use refusals::Refusal;
use sets::Layout;
use store::{Keys, Link, Links, MOST_RECORDS, Search};
use tables::{Catalogue, Row, Tables};

// The answer on a list: yes; no, by the entry at a place, from 0; or no, by the key of a set that is not listed.
#[derive(Clone, Copy)]
pub enum ListVerdict {
    Right,
    Entry(usize),
    Missing(Key),
}

// How many keys are listed: the words lie in two slices, and the shorter counts.
fn list_length(keys: Keys<'_>) -> usize
    ensures { result ≡ length (listed_in keys.entry) }
{
    keys.low.len().min(keys.high.len())
}

// How many of so many keys have a record in the tree.
// A list may be longer than a tree.
fn records_of(keys: usize) -> usize
    ensures { result ≡ records_of keys }
{
    keys.min(MOST_RECORDS)
}

// Whether the trial of the set's own row in table t gives the set back; where it has no row of t, nothing is tried.
// A set that comes back for each of its rows is maximal, and no other does.
fn gives_back(layout: &Layout<'_>, key: Key, t: usize) -> bool
    requires { Named layout.now.tables.catalogue (number_of key) × (t < layout.now.tables.catalogue.n) }
    ensures { result ≡ gives_back (world_in layout.now) (set_of layout.now.tables.catalogue (number_of key)) t }
{
    let row = key.row(t) as usize;
    row == 0 || layout.trial(key, Row { table: t, row }).key == key
}

// Whether a listed key is that of a maximal set: it names rows, and the trial of each of them gives the set back.
// No test for consistent or connected rows is made; the trials tell.
fn is_maximal(layout: &Layout<'_>, key: Key) -> bool
    ensures { result ≡ standing (world_in layout.now) (word_set layout.now.tables.catalogue (number_of key)) }
{
    rows::named(&layout.tables, key)
        && (0..layout.tables.catalogue.n).all(|t| gives_back(layout, key, t))
}

// The key of the set that the trial of a row on a maximal set comes to.
// A row of the set itself gives the set back, so that no trial is made twice.
fn reached_by(layout: &Layout<'_>, key: Key, row: Row) -> Key
    requires { Named layout.now.tables.catalogue (number_of key) × There layout.now.tables.catalogue row.table row.row × Maximal (world_in layout.now) (set_of layout.now.tables.catalogue (number_of key)) }
    ensures { number_of result ≡ key_of bits_per_row (trial (world_in layout.now) (set_of layout.now.tables.catalogue (number_of key)) (place_of row)).rows }
{
    if key.row(row.table) as usize == row.row {
        key
    } else {
        layout.trial(key, row).key
    }
}

// A list under check: the tables that its keys name rows of, the keys, and a search tree over the first of them, as many as are entered.
// The keys of the tree lie in the list already, so that a key comes into it by one link. The links lie here, in 262 kB of stack; there is no heap.
#[derive(Drop)]
struct HubList<'a> {
    layout: &'a Layout<'a>,
    keys: Keys<'a>,
    count: usize,
    left: [u16; MOST_RECORDS],
    right: [u16; MOST_RECORDS],
    entered: usize,
    ghost counted: { count ≡ length (listed_in keys) },
    ghost within: { entered ≤ count },
    ghost linked: { ∥ Linked layout.now.tables.catalogue.n keys.low.now keys.high.now left right (records_of entered) ∥₁ },
}

impl<'a> HubList<'a> {
    // A list with no entry in the tree yet.
    fn new(layout: &'a Layout<'a>, keys: Keys<'a>) -> HubList<'a>
        ensures { (result.layout.now ≡ layout.now) × (result.keys ≡ keys.entry) × (result.entered ≡ 0) }
    {
        HubList {
            layout,
            keys,
            count: list_length(keys),
            left: [0; MOST_RECORDS],
            right: [0; MOST_RECORDS],
            entered: 0,
        }
    }

    // The empty link of the tree that a search for a key ends at; None where the key has a record.
    // Every search of the check is this one, so that its time does not grow with the list.
    fn link_for(&self, key: Key) -> Option<Link>
        requires { (0 < self.now.entered) × Low self.now.layout.now.tables.catalogue.n (number_of key) }
        ensures { let k = records_of self.now.entered in MatchOption result (among (listed_in self.now.keys) k (number_of key) ≡ true) (EndsAt self.now.layout.now.tables.catalogue.n self.now.keys.low.now self.now.keys.high.now self.now.left self.now.right k (number_of key)) }
    {
        let links = Links {
            left: &self.left,
            right: &self.right,
        };
        let bits = Key::bits(self.layout.tables.catalogue.n);
        match self.keys.find(links, records_of(self.entered), key, bits) {
            Ok(Search::Absent { link, .. }) => Some(link),
            Ok(Search::Found { .. }) => None,
            // No search of this tree meets damage.
            Err(_) => None,
        }
    }

    // Whether this key is entry i's.
    fn is_entry(&self, i: usize, key: Key) -> bool
        requires { i < self.now.count }
        ensures { result ≡ eqb (get_or (listed_in self.now.keys) i 0) (number_of key) }
    {
        self.keys.at(i) == key
    }

    // Whether one of the entered keys is this one: a search of the tree, and for those without a record a look at each.
    fn has(&self, key: Key) -> bool
        requires { Low self.now.layout.now.tables.catalogue.n (number_of key) }
        ensures { result ≡ among (listed_in self.now.keys) self.now.entered (number_of key) }
    {
        if self.entered == 0 {
            return false;
        }
        self.link_for(key).is_none()
            || (records_of(self.entered)..self.entered).any(|i| self.is_entry(i, key))
    }

    // Whether the next entry repeats an earlier one; if not, it is entered, and comes into the tree where there is a record for it.
    fn enter(&mut self) -> bool
        requires { (self.old.entered < self.old.count) × Low self.old.layout.now.tables.catalogue.n (get_or (listed_in self.old.keys) self.old.entered 0) }
        ensures repeats { result ≡ among (listed_in self.old.keys) self.old.entered (get_or (listed_in self.old.keys) self.old.entered 0) }
        ensures entered { result ≡ false → self.new.entered ≡ self.old.entered + 1 }
        ensures same { (self.new.layout.now ≡ self.old.layout.now) × (self.new.keys ≡ self.old.keys) }
    {
        let i = self.entered;
        let key = self.keys.at(i);
        if i == 0 || MOST_RECORDS <= i {
            // No link names the first entry, and those past the last record have none.
            if self.has(key) {
                return true;
            }
            self.entered = i + 1;
            return false;
        }
        let Some(link) = self.link_for(key) else {
            return true;
        };
        link.hang(&mut self.left, &mut self.right, i);
        self.entered = i + 1;
        false
    }

    // The first entry that is not a maximal set or repeats an earlier one; None where there is none, and then all are entered.
    // Entries are judged before any set is looked for that is missing.
    fn first_spoilt(&mut self) -> Option<usize>
        requires { self.old.entered ≡ 0 }
        ensures first { lowest_of result ≡ lowest_below (length (listed_in self.old.keys)) (spoilt (world_in self.old.layout.now) (sets_in self.old.layout.now self.old.keys)) }
        ensures entered { result ≡ None → self.new.entered ≡ self.new.count }
        ensures same { (self.new.layout.now ≡ self.old.layout.now) × (self.new.keys ≡ self.old.keys) }
    {
        for i in 0..self.count {
            if !is_maximal(self.layout, self.keys.at(i)) || self.enter() {
                return Some(i);
            }
        }
        None
    }

    // The key of the first set that the trials of all rows on a listed set reach and that is not listed, if there is one.
    fn first_out(&self, key: Key) -> Option<Key>
        requires { (self.now.entered ≡ self.now.count) × Named self.now.layout.now.tables.catalogue (number_of key) × Maximal (world_in self.now.layout.now) (set_of self.now.layout.now.tables.catalogue (number_of key)) × Sound (world_in self.now.layout.now) (sets_in self.now.layout.now self.now.keys) }
        ensures { out_of result ≡ answer_of (seek (sets_in self.now.layout.now self.now.keys) (tried (world_in self.now.layout.now) (set_of self.now.layout.now.tables.catalogue (number_of key)) (rows (world_in self.now.layout.now)))) }
    {
        for j in 0..self.layout.measures.total {
            let row = self.layout.tables.row_at(j);
            let to = reached_by(self.layout, key, row);
            if !self.has(to) {
                return Some(to);
            }
        }
        None
    }

    // The key of the first set not listed that the trials over the listed sets reach, if there is one: entries in the hub's order, and rows in row order.
    // A list that no trial leaves holds every maximal set.
    fn first_missing(&self) -> Option<Key>
        requires { (self.now.entered ≡ self.now.count) × Sound (world_in self.now.layout.now) (sets_in self.now.layout.now self.now.keys) }
        ensures { out_of result ≡ answer_of (seek (sets_in self.now.layout.now self.now.keys) (tried_on (world_in self.now.layout.now) (sets_in self.now.layout.now self.now.keys))) }
    {
        for i in 0..self.count {
            if let Some(key) = self.first_out(self.keys.at(i)) {
                return Some(key);
            }
        }
        None
    }
}

// The verdict on the empty list: right where there is no row, else the first row's extension is missing.
// There is no listed set on which a row could be tried.
fn judge_none(layout: &Layout<'_>) -> ListVerdict
    ensures { told_of (Ok result) ≡ answer_of (verdict (world_in layout.now) []) }
{
    if layout.measures.total == 0 {
        return ListVerdict::Right;
    }
    let first = layout.tables.row_at(0);
    let alone = Key::none().with_row(first.table, first.row as u64);
    ListVerdict::Missing(layout.extend(alone, 0).key)
}

// The verdict on a list: the entries first, then what their trials reach.
fn judge(layout: &Layout<'_>, keys: Keys<'_>) -> ListVerdict
    ensures { told_of (Ok result) ≡ answer_of (verdict (world_in layout.now) (sets_in layout.now keys.entry)) }
{
    if list_length(keys) == 0 {
        return judge_none(layout);
    }
    let mut list = HubList::new(layout, keys);
    if let Some(i) = list.first_spoilt() {
        return ListVerdict::Entry(i);
    }
    match list.first_missing() {
        Some(key) => ListVerdict::Missing(key),
        None => ListVerdict::Right,
    }
}

// Checks the hub's list: whether it holds every maximal set once and nothing else, in any order.
// Any words may be listed, and the list may have any length. Refusals: those of the catalogue.
// The tables stay in the layout: see `Layout::new`.
pub fn check_list(
    cat: Catalogue,
    cells: &[u64],
    listed_low: &[u64],
    listed_high: &[u64],
) -> Result<ListVerdict, Refusal>
    ensures { ChecksList cat cells.now listed_low.now listed_high.now (told_of result) }
{
    tables::check(cat, cells.len())?;
    let keys = Keys {
        low: listed_low,
        high: listed_high,
    };
    let layout = Layout::new(
        Tables {
            catalogue: cat,
            cells,
        },
        list_length(keys),
    );
    Ok(judge(&layout, keys))
}
