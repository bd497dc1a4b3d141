// Whether bytes are a book: the refusals of documents 01 and 02 by the bytes, by one pass over the header, the tables
// and the keys.
#![tactic(auto)]

ghost use Rattle.std.specs.Prelude.{◌≡◌, true, ◌+◌, ◌*◌, ◌^◌, ◌<◌, ◌≤◌, length, is_ok, IfOk, IfErr};
ghost use Rattle.book.specs.Book.{header_of, words_table, entry_at, places_of, key_head};
ghost use Rattle.book.specs.Refusals.{
  bad_rest,
  entry_verdict,
  table_verdict,
  key_verdict,
  keys_verdict,
  parts_verdict,
  header_verdict,
  ◌then◌,
  Outcome,
  parse,
};
ghost use Rattle.book.specs.Walk.{Readable, front_of};
ghost use Rattle.scan.specs.Steps.{FirstBefore, Near, given, words_rise, start_of, counts_of};

use bits::{Cursor, Taken};
use book::names::btree_id;
use book::open::Book;
use book::refusal::{Reason, Refusal};
use book::{Header, KeyFront, Places, Table};

// The fields of a header in its first 8 bytes.
#[derive(Clone, Copy)]
struct HeaderStart {
    layout: u8,
    trees: bool,
    drawn: bool,
    spare: u16,
    version: u16,
    first_bucket: u16,
    keys: u16,
}

// The counts of the four tables.
#[derive(Clone, Copy)]
struct Counts {
    parents: u16,
    subvolumes: u16,
    gens: u16,
    alloc: u16,
}

// The fields of the first 8 bytes of a book.
fn read_start(book: &[u8]) -> HeaderStart
    requires { 8 ≤ length book.now }
    ensures { result ≡ start_of (header_of book.now) }
{
    let c = Cursor { at: 0 };
    let Taken {
        value: layout,
        next: c,
    } = c.take(book, 4);
    let Taken {
        value: trees,
        next: c,
    } = c.take(book, 1);
    let Taken {
        value: drawn,
        next: c,
    } = c.take(book, 1);
    let Taken {
        value: spare,
        next: c,
    } = c.take(book, 10);
    let Taken {
        value: version,
        next: c,
    } = c.take(book, 16);
    let Taken {
        value: first_bucket,
        next: c,
    } = c.take(book, 16);
    let keys = c.take(book, 16).value;
    HeaderStart {
        layout: layout as u8,
        trees: trees == 1,
        drawn: drawn == 1,
        spare: spare as u16,
        version: version as u16,
        first_bucket: first_bucket as u16,
        keys: keys as u16,
    }
}

// The counts of the four tables, in the last 8 bytes of the header.
fn read_counts(book: &[u8]) -> Counts
    requires { 32 ≤ length book.now }
    ensures { result ≡ counts_of (header_of book.now) }
{
    let c = Cursor { at: 192 };
    let Taken {
        value: parents,
        next: c,
    } = c.take(book, 16);
    let Taken {
        value: subvolumes,
        next: c,
    } = c.take(book, 16);
    let Taken {
        value: gens,
        next: c,
    } = c.take(book, 16);
    let alloc = c.take(book, 16).value;
    Counts {
        parents: parents as u16,
        subvolumes: subvolumes as u16,
        gens: gens as u16,
        alloc: alloc as u16,
    }
}

// The header of a book of 32 bytes or more.
fn read_header(book: &[u8]) -> Header
    requires { 32 ≤ length book.now }
    ensures { result ≡ header_of book.now }
{
    let start = read_start(book);
    let device = bits::be64(book, 8);
    let buckets = bits::be64(book, 16);
    let counts = read_counts(book);
    Header {
        layout: start.layout,
        trees: start.trees,
        drawn: start.drawn,
        spare: start.spare,
        version: start.version,
        first_bucket: start.first_bucket,
        keys: start.keys,
        device,
        buckets,
        parents: counts.parents,
        subvolumes: counts.subvolumes,
        gens: counts.gens,
        alloc: counts.alloc,
    }
}

// Where the tables and the keys of a book with this header start.
fn find_places(h: Header) -> Places
    ensures places { result ≡ places_of h }
    ensures near { Near result }
{
    let subvolumes = 32 + 8 * (h.parents as usize);
    let gens = subvolumes + 8 * (h.subvolumes as usize);
    let alloc = gens + 9 * (h.gens as usize);
    let keys = alloc + 10 * (h.alloc as usize);
    Places {
        parents: 32,
        subvolumes,
        gens,
        alloc,
        keys,
    }
}

// The first field of the entry of a table at byte `at`.
fn read_first(book: &[u8], t: Table, at: usize) -> u64
    requires { Readable t × (at + t.size ≤ length book.now) }
    ensures { result ≡ (entry_at t book.now at).first }
{
    if t.first == 32 {
        return bits::be32(book, at) as u64;
    }
    bits::be64(book, at)
}

// Whether the rest of an alloc entry has a spare bit set, or a data type without has-type.
fn bad_rest(rest: u64) -> bool
    ensures { result ≡ bad_rest true rest }
{
    (rest % 128 != 0) | ((rest / 32768 == 0) & (rest / 128 % 256 != 0))
}

// Whether the rest of the entry at byte `at` is one that its table may not hold: only an alloc table has such.
fn bad_entry(book: &[u8], t: Table, at: usize) -> bool
    requires { Readable t × (length book.now ≤ 1048576) × (at + t.size ≤ length book.now) }
    ensures { result ≡ bad_rest t.typed (entry_at t book.now at).rest }
{
    if !t.typed {
        return false;
    }
    let c = Cursor { at: 8 * at + 64 };
    let rest = c.take(book, 16);
    bad_rest(rest.value)
}

// The first field of the entry that is due at byte `at`, in a table that starts at byte `start`; the entry before, if there is one, has
// the first field `previous`.
fn check_entry(
    book: &[u8],
    t: Table,
    start: usize,
    at: usize,
    previous: u64,
) -> Result<u64, Refusal>
    requires readable { Readable t × (length book.now ≤ 1048576) × (start < 2 ^ 32) × (at < 2 ^ 32) }
    requires first_before { FirstBefore t book.now start at previous }
    ensures { result ≡ given (entry_verdict t book.now start at) (entry_at t book.now at).first }
{
    if book.len() < at + t.size {
        return Err(Reason::PastEnd.at(at));
    }
    if bad_entry(book, t, at) {
        return Err(Reason::SpareBit.at(at));
    }
    let first = read_first(book, t, at);
    if at < start + t.size {
        return Ok(first);
    }
    if first <= previous {
        return Err(Reason::NotRising.at(at));
    }
    Ok(first)
}

// The first refusal of the `count` entries of the table that starts at byte `start`.
fn entries_verdict(book: &[u8], t: Table, start: usize, count: u16) -> Result<(), Refusal>
    requires { Readable t × (length book.now ≤ 1048576) × (start < 2 ^ 31) }
    ensures { result ≡ table_verdict t book.now start count start }
{
    let mut at = start;
    let mut previous = 0;
    for _ in 0..count {
        previous = check_entry(book, t, start, at, previous)?;
        at += t.size;
    }
    Ok(())
}

// The same, at once where the table has no entries: the compiler puts this test in place, and an empty table costs no call.
fn table_verdict(book: &[u8], t: Table, start: usize, count: u16) -> Result<(), Refusal>
    requires { Readable t × (length book.now ≤ 1048576) × (start < 2 ^ 31) }
    ensures { result ≡ table_verdict t book.now start count start }
{
    if count == 0 {
        return Ok(());
    }
    entries_verdict(book, t, start, count)
}

// Whether the first words of the four entries of two words after the one at byte `at` rise, from that one's, `first`, on.
fn four_rise(book: &[u8], at: usize, first: u32) -> bool
    requires { (at + 40 ≤ length book.now) × (first ≡ (entry_at words_table book.now at).first) }
    ensures { result ≡ words_rise book.now 4 at }
{
    let one = bits::be32(book, at + 8);
    if one <= first {
        return false;
    }
    let two = bits::be32(book, at + 16);
    if two <= one {
        return false;
    }
    let three = bits::be32(book, at + 24);
    if three <= two {
        return false;
    }
    three < bits::be32(book, at + 32)
}

// Whether the first words of the `count` entries after the one at byte `start` rise: one entry to a turn.
fn each_rise(book: &[u8], start: usize, count: usize) -> bool
    requires { start + 8 * count + 8 ≤ length book.now }
    ensures { result ≡ words_rise book.now count start }
{
    let mut at = start;
    for _ in 0..count {
        if bits::be32(book, at + 8) <= bits::be32(book, at) {
            return false;
        }
        at += 8;
    }
    true
}

// The same, four entries to a turn, which is faster: the first word of the last is kept for the next turn.
fn words_rise(book: &[u8], start: usize, count: usize) -> bool
    requires { start + 8 * count + 8 ≤ length book.now }
    ensures { result ≡ words_rise book.now count start }
{
    let mut at = start;
    let mut first = bits::be32(book, at);
    for _ in 0..count / 4 {
        if !four_rise(book, at, first) {
            return false;
        }
        at += 32;
        first = bits::be32(book, at);
    }
    each_rise(book, at, count % 4)
}

// Whether the `count` entries of the table of two words that starts at byte `start` pass: that they end within the book is tested once.
fn words_pass(book: &[u8], start: usize, count: u16) -> bool
    requires { start < 2 ^ 31 }
    ensures { result ≡ is_ok (table_verdict words_table book.now start count start) }
{
    if count == 0 {
        return true;
    }
    if book.len() < start + 8 * (count as usize) {
        return false;
    }
    words_rise(book, start, (count - 1) as usize)
}

// The first refusal of a table of two words: it is looked for only where the table does not pass.
fn pairs_verdict(book: &[u8], start: usize, count: u16) -> Result<(), Refusal>
    requires { (length book.now ≤ 1048576) × (start < 2 ^ 31) }
    ensures { result ≡ table_verdict words_table book.now start count start }
{
    if words_pass(book, start, count) {
        return Ok(());
    }
    let words = Table {
        size: 8,
        first: 32,
        typed: false,
    };
    entries_verdict(book, words, start, count)
}

// The same, at once where the table has no entries.
fn words_verdict(book: &[u8], start: usize, count: u16) -> Result<(), Refusal>
    requires { (length book.now ≤ 1048576) × (start < 2 ^ 31) }
    ensures { result ≡ table_verdict words_table book.now start count start }
{
    if count == 0 {
        return Ok(());
    }
    pairs_verdict(book, start, count)
}

// The front of the key that is due at byte `at`, in a book with this trees mark.
fn read_key(book: &[u8], trees: bool, at: usize) -> Result<KeyFront, Refusal>
    requires { (length book.now ≤ 1048576) × (at < 2 ^ 32) }
    ensures { result ≡ given (key_verdict trees book.now at) (front_of (key_head book.now at)) }
{
    if book.len() < at + 28 {
        return Err(Reason::PastEnd.at(at));
    }
    let front = book::key_front(book, at);
    if book.len() < at + 28 + front.len {
        return Err(Reason::PastEnd.at(at));
    }
    if front.spare != 0 {
        return Err(Reason::SpareBit.at(at));
    }
    if (front.btree == btree_id::SNAPSHOT_TREES) & !trees {
        return Err(Reason::TreeKey.at(at));
    }
    Ok(front)
}

// The first refusal of the `count` keys from byte `start` on, after which the book ends.
fn keys_verdict(book: &[u8], trees: bool, count: u16, start: usize) -> Result<(), Refusal>
    requires { (length book.now ≤ 1048576) × (start < 2 ^ 31) }
    ensures { result ≡ keys_verdict trees book.now count start }
{
    let mut at = start;
    for _ in 0..count {
        let front = read_key(book, trees, at)?;
        at = at + 28 + front.len;
    }
    if at < book.len() {
        return Err(Reason::BytesLeft.at(at));
    }
    Ok(())
}

// The first refusal of the four tables and the keys.
fn parts_verdict(book: &[u8], h: Header, at: Places) -> Result<(), Refusal>
    requires { (length book.now ≤ 1048576) × Near at }
    ensures { result ≡ parts_verdict book.now h at }
{
    let gens = Table {
        size: 9,
        first: 64,
        typed: false,
    };
    let alloc = Table {
        size: 10,
        first: 64,
        typed: true,
    };
    words_verdict(book, at.parents, h.parents)?;
    words_verdict(book, at.subvolumes, h.subvolumes)?;
    table_verdict(book, gens, at.gens, h.gens)?;
    table_verdict(book, alloc, at.alloc, h.alloc)?;
    keys_verdict(book, h.trees, h.keys, at.keys)
}

// The most entries of a parents table.
const PARENTS_MAX: u16 = 4096;

// The first refusal of a header.
fn header_verdict(h: Header) -> Result<(), Refusal>
    ensures { result ≡ header_verdict h }
{
    if (h.layout != 1) | (h.spare != 0) {
        return Err(Reason::HeaderBad.at(0));
    }
    if h.drawn & (h.parents != 0) {
        return Err(Reason::DrawnTable.at(0));
    }
    if PARENTS_MAX < h.parents {
        return Err(Reason::ParentsMany.at(0));
    }
    Ok(())
}

// The first refusal of the header, the four tables and the keys.
fn content_verdict(book: &[u8], h: Header, at: Places) -> Result<(), Refusal>
    requires { (length book.now ≤ 1048576) × Near at }
    ensures { result ≡ (header_verdict h then parts_verdict book.now h at) }
{
    header_verdict(h)?;
    parts_verdict(book, h, at)
}

// The book that the bytes are, or why they are none.
pub fn scan(book: &[u8]) -> Result<Book<'_>, Refusal>
    ensures same { IfOk result (λ b. b.bytes.now ≡ book.now) }
    ensures refused { IfErr result (λ r. parse book.now ≡ Outcome.refused r.number r.place) }
{
    if 1048576 < book.len() {
        return Err(Reason::BookLong.at(0));
    }
    if book.len() < 32 {
        return Err(Reason::BookShort.at(0));
    }
    let header = read_header(book);
    let places = find_places(header);
    content_verdict(book, header, places)?;
    Ok(Book {
        bytes: book,
        header,
        places,
    })
}
