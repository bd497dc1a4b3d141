// Searches of a book's tables, which stand in its bytes and rise by their first fields.
#![tactic(auto)]

ghost use Rattle.std.specs.Prelude.{◌≡◌, ◌+◌, ◌*◌, ◌≤◌, length};
ghost use Rattle.std.proofs.Common.{rules};
ghost use Rattle.search.specs.Bound.{LowerBound};
ghost use Rattle.book.specs.Maps.{lookup, lower_bound};
ghost use Rattle.book.specs.declared.Table.{Table};
ghost use Rattle.book.specs.Book.{words_table, gens_table, alloc_table, entry_at, words_from, alloc_from, data_type_of};
ghost use Rattle.book.specs.Walk.{Readable, first_at, Rising, alloc_entry_of};

use bits::Cursor;
use book::{AllocEntry, Entry, Table};
use search::Ordered;
pub use search::Window;
use std::marker::PhantomData;

// What a search from a place on finds: the word, and the place where it ended. Of the place only its bound is promised: it is a place to start the
// next search from, and no answer depends on it.
#[derive(Clone, Copy)]
pub struct WordAt {
    pub at: usize,
    pub word: Option<u32>,
}

// A kind of table: its rows, of one size, begin with the field that they rise by.
trait Row {
    ghost table: { Table };

    // The first field of row `i` of a table that starts at byte `start`.
    fn first(book: &[u8], start: usize, i: usize) -> u64
        requires { start + i * table.size + table.size ≤ length book.now }
        ensures { result ≡ first_at table book.now start i };

    ghost wide: { 2 ≤ table.size };
}

// A row of a parents or subvolumes table: two 32-bit words.
struct Words;

impl Row for Words {
    ghost table = { words_table };

    #[inline]
    fn first(book: &[u8], start: usize, i: usize) -> u64 {
        bits::be32(book, start + i * 8) as u64
    }

    ghost wide = { Prim.search rules };
}

// A row of a gens table: a bucket and its generation.
struct Gens;

impl Row for Gens {
    ghost table = { gens_table };

    #[inline]
    fn first(book: &[u8], start: usize, i: usize) -> u64 {
        bits::be64(book, start + i * 9)
    }

    ghost wide = { Prim.search rules };
}

// A row of an alloc table: a bucket and its data type.
// A size as a const parameter of one type for both would need a bound from below, which a parameter has not.
struct Alloc;

impl Row for Alloc {
    ghost table = { alloc_table };

    #[inline]
    fn first(book: &[u8], start: usize, i: usize) -> u64 {
        bits::be64(book, start + i * 10)
    }

    ghost wide = { Prim.search rules };
}

// The `count` rows of a table that starts at byte `start` of a book, whose first fields rise.
#[derive(Drop)]
struct Rows<'a, R: Row> {
    book: &'a [u8],
    start: usize,
    count: usize,
    of: PhantomData<R>,
    ghost rising: { Rising R.table book.now start count },
}

impl<R: Row> Ordered for Rows<'_, R> {
    type Target = u64;

    ghost number = { λ s. first_at R.table s.book.now s.start };

    ghost count = { λ s. s.count };

    ghost target = { λ x. x };

    // Steps double as long as there are rows.
    const FAR: usize = usize::MAX;

    #[inline]
    fn len(&self) -> usize {
        self.count
    }

    #[inline]
    fn is_below(&self, i: usize, x: u64) -> bool {
        R::first(self.book, self.start, i) < x
    }

    #[inline]
    fn is_place(&self, i: usize, x: u64) -> bool {
        R::first(self.book, self.start, i) == x
    }
}

// The entry of a table at byte `at`.
fn read_entry(book: &[u8], t: Table, at: usize) -> Entry
    requires { Readable t × (length book.now ≤ 1048576) × (at + t.size ≤ length book.now) }
    ensures { result ≡ entry_at t book.now at }
{
    let start = Cursor { at: 8 * at };
    let first = start.take(book, t.first);
    let c = first.next;
    let rest = c.take(book, 8 * t.size - t.first);
    Entry {
        first: first.value,
        rest: rest.value,
    }
}

// The second word that the table has for `id`, whose place is `i`.
fn word_at(book: &[u8], start: usize, count: usize, i: usize, id: u32) -> Option<u32>
    requires { Rising words_table book.now start count × LowerBound (first_at words_table book.now start) count id i }
    ensures { result ≡ (lookup id (words_from book.now count start)) }
{
    if i == count {
        return None;
    }
    let at = start + i * 8;
    if bits::be32(book, at) == id {
        return Some(bits::be32(book, at + 4));
    }
    None
}

// The word that a table of two 32-bit words has for `id`, and the place of `id`, by a search from the place `near`. Not inlined, so that `find_word` is.
#[inline(never)]
fn search_word(book: &[u8], start: usize, count: usize, near: usize, id: u32) -> WordAt
    requires { Rising words_table book.now start count × (near ≤ count) }
    ensures { (result.word ≡ (lookup id (words_from book.now count start))) × (result.at ≤ count) }
{
    let rows = Rows::<Words> {
        book,
        start,
        count,
        of: PhantomData,
    };
    let at = search::lower_bound_near(&rows, near, id as u64);
    let word = word_at(book, start, count, at, id);
    WordAt { at, word }
}

// The second word that a table of two 32-bit words has for `id`, a snapshot's parent or a subvolume's snapshot, and the place of `id`. The search starts
// from the place `near`, such as that of the id before in a chain; from the count, it is among all entries. Where the entry at `near` has the id, as
// mostly on a walk with hints, that is read and nothing is called.
#[inline(always)]
pub fn find_word(book: &[u8], start: usize, count: usize, near: usize, id: u32) -> WordAt
    requires { Rising words_table book.now start count × (near ≤ count) }
    ensures { (result.word ≡ (lookup id (words_from book.now count start))) × (result.at ≤ count) }
{
    if near < count && bits::be32(book, start + near * 8) == id {
        let word = Some(bits::be32(book, start + near * 8 + 4));
        return WordAt { at: near, word };
    }
    search_word(book, start, count, near, id)
}

// How many entries of a gens table stand before the first whose bucket is `bucket` or above.
pub fn gens_from(book: &[u8], start: usize, count: usize, bucket: u64) -> usize
    requires { Rising gens_table book.now start count }
    ensures { LowerBound (first_at gens_table book.now start) count bucket result }
{
    let rows = Rows::<Gens> {
        book,
        start,
        count,
        of: PhantomData,
    };
    search::lower_bound(&rows, bucket)
}

// How many entries of an alloc table stand before the first whose bucket is `bucket` or above. The search starts from the place `near`, such as that of
// another bucket; from the count, it is among all entries.
pub fn alloc_near(book: &[u8], start: usize, count: usize, near: usize, bucket: u64) -> usize
    requires { Rising alloc_table book.now start count × (near ≤ count) }
    ensures { (result ≡ lower_bound bucket (alloc_from book.now count start)) × (result ≤ count) }
{
    let rows = Rows::<Alloc> {
        book,
        start,
        count,
        of: PhantomData,
    };
    search::lower_bound_near(&rows, near, bucket)
}

// The data type of an alloc entry, by the rest of its bits.
fn data_type(rest: u64) -> Option<u8>
    ensures { result ≡ (data_type_of rest) }
{
    if rest / 32768 == 1 {
        return Some((rest / 128 % 256) as u8);
    }
    None
}

// The alloc entry at byte `at`.
pub fn alloc_entry(book: &[u8], at: usize) -> AllocEntry
    requires { (length book.now ≤ 1048576) × (at + 10 ≤ length book.now) }
    ensures { result ≡ alloc_entry_of (entry_at alloc_table book.now at) }
{
    let alloc = Table {
        size: 10,
        first: 64,
        typed: true,
    };
    let e = read_entry(book, alloc, at);
    let data_type = data_type(e.rest);
    AllocEntry {
        bucket: e.first,
        data_type,
    }
}
