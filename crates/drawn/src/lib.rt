// The tree records and snapshots of a book as pairs in the work words: one for each such key, and once they are sorted the last snapshot of an
// id, by the length that its value has at least; or that snapshot by a walk over the keys.
#![tactic(auto)]

ghost use Rattle.std.specs.Prelude.{◌≡◌, Some, true, cond, ◌&&◌, ◌+◌, ◌*◌, ◌^◌, ◌≤◌, ◌<◌, length, eqb, leb};
ghost use Rattle.pairs.specs.Pairs.{pairs_of};
ghost use Rattle.book.specs.Words.{holds, parent_word, id_of};
ghost use Rattle.book.specs.Turns.{held};
ghost use Rattle.walk.specs.Keys.{gather};
ghost use Rattle.walk.specs.Gives.{pair_in};
ghost use Rattle.maps.specs.LastKeys.{last_key, later, word_at};
ghost use Rattle.drawn.specs.Classes.{class_of, link_pair, latest, Alone, SnapshotAt};

use book::KeyFront;
use book::names::{btree_id, key_type};
use book::open::{Book, Key, Keys};
use pairs::SortedPairs;
use walk::put::put_pairs;

// Whether a key is a snapshot with a parent word, by its front.
#[inline]
pub fn has_parent(f: KeyFront) -> bool
    ensures { result ≡ (eqb f.btree 9 && eqb f.key_type 22) && leb 8 f.len }
{
    ((f.btree == btree_id::SNAPSHOTS) & (f.key_type == key_type::SNAPSHOT)) & (8 <= f.len)
}

// The class of a snapshot with so many value bytes.
fn class_of(bytes: usize) -> u64
    ensures class { result ≡ class_of bytes }
    ensures few { result ≤ 3 }
{
    if 40 <= bytes {
        return 3;
    }
    if 24 <= bytes {
        return 2;
    }
    1
}

// The pair of a key and its place in a map.
fn place_pair(key: Key<'_>, which: u64) -> (u64, u64)
    requires { which < 4 }
    ensures { (result.0 ≡ id_of (held key.entry)) × (result.1 ≡ which * 2 ^ 32 + key.entry.at) }
{
    (key.id() as u64, which * 0x1_0000_0000 + key.at as u64)
}

// The pair of a key, if it is a tree record or a snapshot with a parent word.
fn link_pair(key: Key<'_>) -> Option<(u64, u64)>
    ensures { pair_in result ≡ link_pair key.entry.at (held key.entry) }
{
    if key.holds(btree_id::SNAPSHOT_TREES, key_type::SNAPSHOT_TREE, 8) {
        return Some(place_pair(key, 0));
    }
    if has_parent(key.front) {
        return Some(place_pair(key, class_of(key.front.len)));
    }
    None
}

// Puts a pair for each tree record and each snapshot, in key order, and returns their number.
pub fn put_links(book: Book<'_>, work: &mut [u64]) -> usize
    requires { 2 * book.header.keys ≤ length work.old }
    ensures put { pairs_of work.new result ≡ gather link_pair book.entry.bytes.now book.entry.header.keys book.entry.places.keys }
    ensures few { result ≤ book.entry.header.keys }
{
    put_pairs(book, link_pair, work)
}

// The later of two places.
fn later_place(a: Option<u64>, b: Option<u64>) -> Option<u64>
    ensures { result ≡ later a b }
{
    match (a, b) {
        (Some(q), Some(r)) => Some(q.max(r)),
        (Some(q), None) => Some(q),
        (None, other) => other,
    }
}

// The last place of an id among the snapshots of a class and those above it: class after class, from the place `near`, where the pairs of the id end.
fn find_each(pairs: SortedPairs<'_>, near: usize, class: u64, number: u64) -> Option<u64>
    requires { (1 ≤ class) × (class ≤ 3) × (near ≤ pairs.count) }
    ensures { result ≡ latest class number (pairs_of pairs.entry.words.now pairs.entry.count) }
{
    let long = maps::find_place_near(pairs, near, 3, number);
    if class == 3 {
        return long;
    }
    let middle = maps::find_place_near(pairs, near, 2, number);
    let upper = later_place(middle, long);
    if class == 2 {
        return upper;
    }
    let short = maps::find_place_near(pairs, near, 1, number);
    later_place(short, upper)
}

// Whether the pair before place r is of a class or one above it, and the one before that is not.
fn is_alone(pairs: SortedPairs<'_>, r: usize, class: u64, number: u64) -> bool
    requires { (r ≤ pairs.count) × (class ≤ 3) }
    ensures { result ≡ true → Alone class number pairs.entry.words.now r }
{
    let low = class * 0x1_0000_0000;
    if r == 0 {
        return false;
    }
    if pairs::below(pairs.words, r - 1, number, low) {
        return false;
    }
    if r == 1 {
        return true;
    }
    pairs::below(pairs.words, r - 2, number, low)
}

// What a search from a place on finds: the place of a key, and where among the pairs it ended. Of the latter only its bound is promised: it is a place
// to start the next search from, and no answer depends on it.
#[derive(Clone, Copy)]
pub struct PlaceAt {
    pub at: usize,
    pub place: Option<u64>,
}

// The last place of an id among the snapshots of a class and those above it: where the id has one such pair only, one search finds it. It starts from
// pair `near`, such as that of the id before in a chain; from the count, it is among all pairs.
pub fn find_snapshot(pairs: SortedPairs<'_>, near: usize, class: u64, id: u32) -> PlaceAt
    requires { (1 ≤ class) × (class ≤ 3) × (near ≤ pairs.count) }
    ensures place { result.place ≡ latest class id (pairs_of pairs.entry.words.now pairs.entry.count) }
    ensures at { result.at ≤ pairs.entry.count }
{
    let number = id as u64;
    let at = pairs.lower_bound_near(near, number, 0x4_0000_0000);
    let place = if is_alone(pairs, at, class, number) {
        Some(pairs.second(at - 1) % 0x1_0000_0000)
    } else {
        find_each(pairs, at, class, number)
    };
    PlaceAt { at, place }
}

// The place of a key, if it is a snapshot of 8 value bytes or more with this id, else the place before.
fn last_with(key: Key<'_>, id: u32, last: Option<u64>) -> Option<u64>
    ensures { result ≡ cond (holds 9 22 8 (held key.entry) && eqb (id_of (held key.entry)) id) (Some key.entry.at) last }
{
    if key.holds(btree_id::SNAPSHOTS, key_type::SNAPSHOT, 8) && key.id() == id {
        return Some(key.at as u64);
    }
    last
}

// The place of the last snapshot of 8 value bytes or more with this id, by a walk over the keys.
pub fn last_snapshot(keys: Keys<'_>, id: u32) -> Option<u64>
    ensures { result ≡ last_key (holds 9 22 8) id_of keys.entry.book.now id keys.entry.left keys.entry.at }
{
    let mut last = None;
    for key in keys {
        last = last_with(key, id, last);
    }
    last
}

// The parent word of the snapshot at a place.
pub fn parent_at(book: &[u8], place: Option<u64>) -> Option<u32>
    requires { SnapshotAt book.now place }
    ensures { result ≡ word_at parent_word book.now place }
{
    match place {
        Some(at) => Some(Key::read(book, at as usize).word(4)),
        None => None,
    }
}
