// The parents of a book: an id's parent through a view of the table or by the snapshot keys, and the root above an id.
#![tactic(auto)]

ghost use Rattle.std.specs.Prelude.{◌≡◌, ◌≤◌};
ghost use Rattle.book.specs.Maps.{lookup};
ghost use Rattle.book.specs.Book.{words_table, words_from, book_of};
ghost use Rattle.book.specs.KeyMaps.{parents_of};
ghost use Rattle.book.specs.Walk.{Rising};
ghost use Rattle.parents.specs.Roots.{root_of};
ghost use Rattle.parents.specs.Chains.{root_answer};
ghost use Rattle.parents.specs.Sources.{reach_of, ByPairs, ByKeys, Sourced};

use book::open::Keys;
use pairs::SortedPairs;
use tables::WordAt;

// A view onto the parents table of a lent book.
#[derive(Clone, Copy)]
pub struct Parents<'a> {
    pub book: &'a [u8],
    pub start: usize,
    pub count: usize,
}

// Where the parents of a book are found.
#[derive(Clone, Copy)]
pub enum Source {
    // in its table: where that starts, and the number of its entries
    Table(usize, usize),
    // in its keys, by so many pairs of the work words
    Pairs(usize),
    // in its keys, by a walk over them: where they start, and their number
    Keys(usize, usize),
}

// The root above an id, and the number of parent links followed to it.
#[derive(Clone, Copy)]
pub struct Root {
    pub root: u32,
    pub links: u32,
}

// The most links that lead to a root.
const LINKS_MAX: u32 = 1024;

// A view of the table.
pub fn view<'a>(book: &'a [u8], start: usize, count: usize) -> Parents<'a>
    ensures { (result.book ≡ book.entry) × (result.start ≡ start) × (result.count ≡ count) }
{
    Parents { book, start, count }
}

// The parent that the table gives `id`, and the place of `id`: the view is taken apart, and the search is called. It starts from the place `near`,
// such as that of the id before in a chain; from the count, it is among all entries.
pub fn get<'a>(v: Parents<'a>, near: usize, id: u32) -> WordAt
    requires { Rising words_table v.book.now v.start v.count × (near ≤ v.count) }
    ensures { (result.word ≡ lookup id (words_from v.entry.book.now v.entry.count v.entry.start)) × (result.at ≤ v.entry.count) }
{
    tables::find_word(v.book, v.start, v.count, near, id)
}

// The same, for callers that hold no view: one is made and consulted here.
pub fn parent_of(book: &[u8], start: usize, count: usize, near: usize, id: u32) -> WordAt
    requires { Rising words_table book.now start count × (near ≤ count) }
    ensures { (result.word ≡ lookup id (words_from book.now count start)) × (result.at ≤ count) }
{
    get(view(book, start, count), near, id)
}

// How far a place near an id's own may lie.
pub fn reach(source: Source) -> usize
    ensures { result ≡ reach_of source }
{
    match source {
        Source::Table(_, count) => count,
        Source::Pairs(n) => n,
        Source::Keys(_, count) => count,
    }
}

// The parent of `id` by the first n pairs of the work words, searched from the place `near`, and the place of `id`.
fn parent_by_pairs(book: &[u8], work: &[u64], n: usize, near: usize, id: u32) -> WordAt
    requires { ByPairs book.now work.now n × (near ≤ n) }
    ensures { (result.word ≡ lookup id (parents_of (book_of book.now))) × (result.at ≤ n) }
{
    // Only the words of the pairs: were the length of all words handed on, each lookup would have an argument more than registers.
    let pairs = SortedPairs::new(&work[..2 * n], n);
    let found = drawn::find_snapshot(pairs, near, 1, id);
    WordAt {
        word: drawn::parent_at(book, found.place),
        at: found.at,
    }
}

// The parent of `id` by a walk over the keys.
fn parent_by_keys(book: &[u8], start: usize, count: usize, near: usize, id: u32) -> WordAt
    requires { ByKeys book.now start count }
    ensures { (result.word ≡ lookup id (parents_of (book_of book.now))) × (result.at ≡ near) }
{
    let keys = Keys {
        book,
        at: start,
        left: count,
    };
    let place = drawn::last_snapshot(keys, id);
    WordAt {
        word: drawn::parent_at(book, place),
        at: near,
    }
}

// The parent of `id`, wherever the book has it, and a place near its own.
pub fn parent_in(book: &[u8], work: &[u64], source: Source, near: usize, id: u32) -> WordAt
    requires { Sourced book.now work.now source × (near ≤ reach_of source) }
    ensures { (result.word ≡ lookup id (parents_of (book_of book.now))) × (result.at ≤ reach_of source) }
{
    match source {
        Source::Table(start, count) => parent_of(book, start, count, near, id),
        Source::Pairs(n) => parent_by_pairs(book, work, n, near, id),
        Source::Keys(start, count) => parent_by_keys(book, start, count, near, id),
    }
}

// The root above `id`, within 1,024 links.
pub fn root_of(book: &[u8], work: &[u64], source: Source, id: u32) -> Option<Root>
    requires { Sourced book.now work.now source }
    ensures { result ≡ root_answer (root_of (parents_of (book_of book.now)) id) }
{
    let mut at = id;
    let mut near = reach(source);
    for links in 0..=LINKS_MAX {
        let found = parent_in(book, work, source, near, at);
        near = found.at;
        let parent = found.word?;
        if parent == 0 {
            return Some(Root { root: at, links });
        }
        at = parent;
    }
    None
}
