// The rule on free buckets: `free_space` (kinds 47 to 50).
#![tactic(auto)]

ghost use Rattle.std.specs.Prelude.{◌≡◌, cond, [], ◌++◌, ◌+◌, ◌-◌, ◌*◌, ◌^◌, ◌<◌, ◌≤◌, length, set};
ghost use Rattle.findings.specs.Findings.{only, each};
ghost use Rattle.findings.specs.Reports.{Reports};
ghost use Rattle.pairs.specs.Pairs.{pairs_of};
ghost use Rattle.book.specs.Maps.{lower_bound};
ghost use Rattle.book.specs.Book.{alloc_table, alloc_from, bkey, book_of};
ghost use Rattle.book.specs.Walk.{Rising};
ghost use Rattle.book.specs.Turns.{held};
ghost use Rattle.walk.specs.Keys.{gather};
ghost use Rattle.buckets.specs.FreeSpace.{
  is_run,
  run_end,
  no_run,
  held_run,
  set_findings,
  alloc_range,
  used_buckets,
  run_findings,
  gaps,
  gap_findings,
  free_space,
};
ghost use Rattle.buckets.specs.Steps.{
  run_pair,
  range_of,
  in_use_of,
  is_free_of,
  used_with,
  used_of,
  used_from,
  Marked,
  Below,
  entry_findings,
  gap_of,
  gaps_findings,
  Fair,
};

use book::names::{btree_id, key_type};
use book::open::{Book, Key};
use book::{AllocEntry, Header, KeyHead};
use findings::kind::Kind;
use findings::report::Report;
use marked::Runs;
use pairs::SortedPairs;

mod marked;

// A number of pairs, and a place in the alloc table from where the next search starts: of it only its bound is promised.
#[derive(Clone, Copy)]
struct Taken {
    put: usize,
    near: usize,
}

// The first of two numbers if the test holds, else the second.
fn choose(test: bool, a: u64, b: u64) -> u64
    ensures { result ≡ cond test a b }
{
    if test { a } else { b }
}

// What an age of 1 adds to the offset of a run.
const AGE_UNIT: u64 = 1 << 56;

// Where the run with the head k ends: its offset without the age in its top byte.
fn run_end(k: KeyHead) -> u64
    ensures { result ≡ run_end (bkey k []) }
{
    k.offset % AGE_UNIT
}

// Whether a key gives no run of the device: it starts before bucket 0, is on another device, or ends past the device's buckets.
fn no_run(h: Header, k: KeyHead) -> bool
    ensures { result ≡ no_run h (bkey k []) }
{
    let end = run_end(k);
    (end < (k.size as u64)) | ((k.inode != h.device) | (h.buckets < end))
}

// Puts the start and the end of the run with the head k behind the first n pairs, if it is one of the device, and returns their number with it.
fn put_run(h: Header, k: KeyHead, work: &mut [u64], n: usize) -> usize
    requires { 2 * n + 2 ≤ length work.old }
    ensures put { pairs_of work.new result ≡ pairs_of work.old n ++ held_run h (bkey k []) }
    ensures few { result ≤ n + 1 }
{
    if no_run(h, k) {
        return n;
    }
    let end = run_end(k);
    let start = (end - (k.size as u64)).max(h.first_bucket as u64);
    pairs::put_pair(work, n, start, end);
    n + 1
}

// Entries of an alloc table: the byte where the first of them starts, how many stand before it, and their number.
#[derive(Clone, Copy)]
struct Range {
    start: usize,
    low: usize,
    count: usize,
}

// The entries of an alloc table for the buckets from `from` up to `to`, looked for from the place `near` on.
fn find_range(book: &[u8], start: usize, count: usize, near: usize, from: u64, to: u64) -> Range
    requires { Rising alloc_table book.now start count × (length book.now ≤ 1048576) × (from ≤ to) × (near ≤ count) }
    ensures { result ≡ range_of start (alloc_from book.now count start) from to }
{
    let low = tables::alloc_near(book, start, count, near, from);
    let high = tables::alloc_near(book, start, count, low, to);
    Range {
        start: start + low * 10,
        low,
        count: high - low,
    }
}

// The same, at once where the table has no entries: the compiler puts this test in place, and a run costs no search then.
fn alloc_range(book: &[u8], start: usize, count: usize, near: usize, from: u64, to: u64) -> Range
    requires { Rising alloc_table book.now start count × (length book.now ≤ 1048576) × (from ≤ to) × (near ≤ count) }
    ensures { result ≡ range_of start (alloc_from book.now count start) from to }
{
    if count == 0 {
        return Range {
            start,
            low: 0,
            count: 0,
        };
    }
    find_range(book, start, count, near, from, to)
}

// Whether a data type says that its bucket is in use.
fn in_use(t: Option<u8>) -> bool
    ensures { result ≡ in_use_of t }
{
    match t {
        Some(x) => x != 0,
        None => false,
    }
}

// Whether a data type says that its bucket is free.
fn is_free(t: Option<u8>) -> bool
    ensures { result ≡ is_free_of t }
{
    match t {
        Some(x) => x == 0,
        None => false,
    }
}

// The buckets in use of some alloc entries: their number, and the first of them.
#[derive(Clone, Copy)]
struct Used {
    count: u64,
    first: u64,
}

// Those of the entry e and the entries after it, which give u.
fn with_entry(e: AllocEntry, u: Used) -> Used
    requires { u.count < 2 ^ 32 }
    ensures used { result ≡ used_with e u }
    ensures few { result.count ≤ u.count + 1 }
{
    let data_type = e.data_type;
    if in_use(data_type) {
        return Used {
            count: u.count + 1,
            first: e.bucket,
        };
    }
    u
}

// Those of the `count` alloc entries from byte `start` on, where the first is `none` if there is none.
fn used_among(book: &[u8], start: usize, count: usize, none: u64) -> Used
    requires { (length book.now ≤ 1048576) × (start + count * 10 ≤ length book.now) }
    ensures used { result ≡ used_of none (alloc_from book.now count start) }
    ensures few { result.count ≤ count }
{
    let mut u = Used {
        count: 0,
        first: none,
    };
    for i in (0..count).rev() {
        let e = tables::alloc_entry(book, start + i * 10);
        u = with_entry(e, u);
    }
    u
}

// Those of the entries from number `from` on of the `count` from byte `start` on, where those from number `to` on give u.
fn used_down(book: &[u8], start: usize, count: usize, from: usize, to: usize, u: Used) -> Used
    requires { (length book.now ≤ 1048576) × (start + count * 10 ≤ length book.now) × (from ≤ to) × (to ≤ count) × (u ≡ used_from book.now start count to) }
    ensures { result ≡ used_from book.now start count from }
{
    let mut used = u;
    for i in (from..to).rev() {
        let e = tables::alloc_entry(book, start + i * 10);
        used = with_entry(e, used);
    }
    used
}

// Puts u as mark k.
fn put_mark(marks: &mut [u64], k: usize, u: Used)
    requires { 2 * k + 2 ≤ length marks.old }
    ensures { marks.new ≡ set (set marks.old (2 * k) u.count) (2 * k + 1) u.first }
{
    let at = 2 * k;
    marks[at] = u.count;
    marks[at + 1] = u.first;
}

// Marks every 256th of the `count` alloc entries from byte `start` on with those in use from there on.
fn put_marks(book: &[u8], start: usize, count: usize, marks: &mut [u64])
    requires { (length book.now ≤ 1048576) × (start + count * 10 ≤ length book.now) × (count < 65536) × (length marks.old ≡ 514) }
    ensures { Marked book.now start count marks.new }
{
    let mut u = Used { count: 0, first: 0 };
    for k in (0..257usize).rev() {
        let from = (k * 256).min(count);
        let to = ((k + 1) * 256).min(count);
        u = used_down(book, start, count, from, to, u);
        put_mark(marks, k, u);
    }
}

// Those of the entries from number i on, from the next mark downwards.
fn used_from(book: &[u8], start: usize, count: usize, marks: &[u64], i: usize) -> Used
    requires { (length book.now ≤ 1048576) × (start + count * 10 ≤ length book.now) × (count < 65536) × (514 ≤ length marks.now) × Marked book.now start count marks.now × (i ≤ count) }
    ensures { result ≡ used_from book.now start count i }
{
    let k = (i + 255) / 256;
    let at = 2 * k;
    let u = Used {
        count: marks[at],
        first: marks[at + 1],
    };
    used_down(book, start, count, i, (k * 256).min(count), u)
}

// Those of n entries from number `low` on, where the first is `none` if there is none: by the marks, where that is less than to read them.
fn used_in(
    book: &[u8],
    start: usize,
    count: usize,
    marks: &[u64],
    low: usize,
    n: usize,
    none: u64,
) -> Used
    requires { (length book.now ≤ 1048576) × (start + count * 10 ≤ length book.now) × (count < 65536) × Marked book.now start count marks.now × (low + n ≤ count) }
    ensures used { result ≡ used_of none (alloc_from book.now n (start + low * 10)) }
    ensures few { result.count ≤ n }
{
    if (n <= 512) | (marks.len() < 514) {
        return used_among(book, start + low * 10, n, none);
    }
    let a = used_from(book, start, count, marks, low);
    let b = used_from(book, start, count, marks, low + n);
    let number = a.count - b.count;
    let first = choose(0 < number, a.first, none);
    Used {
        count: number,
        first,
    }
}

// What the buckets of a run from `start` up to `end` give; returns where the next search starts.
fn show_set(runs: Runs<'_, '_>, start: u64, end: u64, near: usize, report: &mut Report<'_>) -> usize
    requires { (start ≤ end) × (report.old.found < 2 ^ 62) × (near ≤ runs.book.header.alloc) }
    ensures reports { Reports report.old (set_findings runs.entry.book.header.first_bucket start (used_buckets (alloc_range start end (book_of runs.entry.book.bytes.now).alloc))) report.new }
    ensures few { (report.new.found ≤ report.old.found + 1) × (result ≤ runs.entry.book.header.alloc) }
{
    let book = runs.book;
    let count = book.header.alloc as usize;
    let range = alloc_range(book.bytes, book.places.alloc, count, near, start, end);
    let used = used_in(
        book.bytes,
        book.places.alloc,
        count,
        runs.marks,
        range.low,
        range.count,
        start,
    );
    let early = start < (book.header.first_bucket as u64);
    let named = choose(early, start, used.first);
    let more = choose(early, 1, 0);
    report.emit_if(
        early | (0 < used.count),
        Kind::BucketIncorrectlySetInFreespaceBtree,
        named,
        used.count + more,
    );
    range.low
}

// What a run gives; returns where the next search starts.
fn show_run(runs: &Runs<'_, '_>, key: Key<'_>, near: usize, report: &mut Report<'_>) -> usize
    requires { (report.old.found < 2 ^ 62) × (near ≤ runs.now.book.header.alloc) }
    ensures reports { Reports report.old (run_findings (book_of runs.now.book.bytes.now) (held key.entry)) report.new }
    ensures few { (report.new.found ≤ report.old.found + 1) × (result ≤ runs.now.book.header.alloc) }
{
    let head = key.head();
    let end = run_end(head);
    let size = head.size as u64;
    if no_run(runs.book.header, head) {
        report.emit(Kind::FreespaceEntryForNonexistentBucket, end, size);
        return near;
    }
    show_set(*runs, end - size, end, near, report)
}

// What a key gives, if it is a run, and its pair behind those counted.
fn take_run(
    runs: &Runs<'_, '_>,
    key: Key<'_>,
    t: Taken,
    report: &mut Report<'_>,
    work: &mut [u64],
) -> Taken
    requires { (report.old.found < 2 ^ 62) × (2 * t.put + 2 ≤ length work.old) × (t.near ≤ runs.now.book.header.alloc) }
    ensures reports { Reports report.old (only (is_run (held key.entry)) (run_findings (book_of runs.now.book.bytes.now) (held key.entry))) report.new }
    ensures put { pairs_of work.new result.put ≡ pairs_of work.old t.put ++ run_pair (book_of runs.now.book.bytes.now) key.entry.at (held key.entry) }
    ensures few { (report.new.found ≤ report.old.found + 1) × (result.put ≤ t.put + 1) × (result.near ≤ runs.now.book.header.alloc) }
{
    if !key.is(btree_id::FREESPACE, key_type::SET) {
        return t;
    }
    let near = show_run(runs, key, t.near, report);
    let put = put_run(runs.book.header, key.head(), work, t.put);
    Taken { put, near }
}

// What the runs give, and a pair for each of the device, those of size 0 too; returns the number of pairs.
fn take_runs(runs: &Runs<'_, '_>, report: &mut Report<'_>, work: &mut [u64]) -> usize
    requires { (report.old.found < 2 ^ 61) × (2 * runs.now.book.header.keys ≤ length work.old) }
    ensures reports { Reports report.old (each (λ _ k. only (is_run k) (run_findings (book_of runs.now.book.bytes.now) k)) 0 (book_of runs.now.book.bytes.now).keys) report.new }
    ensures put { pairs_of work.new result ≡ gather (run_pair (book_of runs.now.book.bytes.now)) runs.now.book.bytes.now runs.now.book.header.keys runs.now.book.places.keys }
    ensures few { (report.new.found ≤ report.old.found + runs.now.book.header.keys) × (result ≤ runs.now.book.header.keys) }
{
    let mut t = Taken { put: 0, near: 0 };
    for key in runs.book.keys() {
        t = take_run(runs, key, t, report, work);
    }
    t.put
}

// The same, by marks of the alloc entries.
fn marked_runs(book: Book<'_>, report: &mut Report<'_>, work: &mut [u64]) -> usize
    requires { (report.old.found < 2 ^ 61) × (2 * book.header.keys ≤ length work.old) }
    ensures reports { Reports report.old (each (λ _ k. only (is_run k) (run_findings (book_of book.entry.bytes.now) k)) 0 (book_of book.entry.bytes.now).keys) report.new }
    ensures put { pairs_of work.new result ≡ gather (run_pair (book_of book.entry.bytes.now)) book.entry.bytes.now book.entry.header.keys book.entry.places.keys }
    ensures few { (report.new.found ≤ report.old.found + book.entry.header.keys) × (result ≤ book.entry.header.keys) }
{
    let mut marks = [0; 514];
    put_marks(
        book.bytes,
        book.places.alloc,
        book.header.alloc as usize,
        &mut marks,
    );
    let runs = Runs {
        book,
        marks: &marks,
    };
    take_runs(&runs, report, work)
}

// The same, by marks where there are enough alloc entries for them.
fn all_runs(book: Book<'_>, report: &mut Report<'_>, work: &mut [u64]) -> usize
    requires { (report.old.found < 2 ^ 61) × (2 * book.header.keys ≤ length work.old) }
    ensures reports { Reports report.old (each (λ _ k. only (is_run k) (run_findings (book_of book.entry.bytes.now) k)) 0 (book_of book.entry.bytes.now).keys) report.new }
    ensures put { pairs_of work.new result ≡ gather (run_pair (book_of book.entry.bytes.now)) book.entry.bytes.now book.entry.header.keys book.entry.places.keys }
    ensures few { (report.new.found ≤ report.old.found + book.entry.header.keys) × (result ≤ book.entry.header.keys) }
{
    if book.header.alloc <= 512 {
        let none = [0; 1];
        let runs = Runs { book, marks: &none };
        return take_runs(&runs, report, work);
    }
    marked_runs(book, report, work)
}

// What the alloc entry e gives in a gap of which the buckets up to `at` are passed.
fn show_entry(e: AllocEntry, at: u64, report: &mut Report<'_>)
    requires { report.old.found < 2 ^ 62 }
    ensures reports { Reports report.old (entry_findings at e) report.new }
    ensures few { report.new.found ≤ report.old.found + 2 }
{
    let free = is_free(e.data_type);
    report.emit_if(
        at < e.bucket,
        Kind::HoleInAllocBtreeMissingInFreespaceBtree,
        at,
        e.bucket,
    );
    report.emit_if(
        free,
        Kind::BucketIncorrectlyUnsetInFreespaceBtree,
        e.bucket,
        0,
    );
}

// What a gap from `from` up to `to` gives, whose alloc entries are the `count` ones from byte `start` on.
fn show_entries(
    book: &[u8],
    start: usize,
    count: usize,
    from: u64,
    to: u64,
    report: &mut Report<'_>,
)
    requires { (length book.now ≤ 1048576) × (start + count * 10 ≤ length book.now) × Below to (alloc_from book.now count start) × (report.old.found < 2 ^ 61) }
    ensures reports { Reports report.old (gap_findings from (alloc_from book.now count start) to) report.new }
    ensures few { report.new.found ≤ report.old.found + 1 + 2 * count }
{
    let mut at = from;
    for i in 0..count {
        let e = tables::alloc_entry(book, start + i * 10);
        show_entry(e, at, report);
        at = e.bucket + 1;
    }
    let hole = Kind::HoleInAllocBtreeMissingInFreespaceBtree;
    report.emit_if(at < to, hole, at, to);
}

// What the buckets from `from` up to `to`, which no run holds, give; returns where the next search starts.
fn show_hole(book: &Book<'_>, near: usize, from: u64, to: u64, report: &mut Report<'_>) -> usize
    requires { (report.old.found < 2 ^ 61) × (from < to) × (near ≤ book.now.header.alloc) }
    ensures reports { Reports report.old (gap_of (book_of book.now.bytes.now).alloc from to) report.new }
    ensures few { (report.new.found ≤ report.old.found + 1 + 2 * (lower_bound to (book_of book.now.bytes.now).alloc - lower_bound from (book_of book.now.bytes.now).alloc)) × (result ≤ book.now.header.alloc) }
{
    let count = book.header.alloc as usize;
    let range = alloc_range(book.bytes, book.places.alloc, count, near, from, to);
    show_entries(book.bytes, range.start, range.count, from, to, report);
    range.low
}

// The same: nothing if there are none, by a test that the compiler puts in place.
fn show_gap(book: &Book<'_>, near: usize, from: u64, to: u64, report: &mut Report<'_>) -> usize
    requires { (report.old.found < 2 ^ 61) × (near ≤ book.now.header.alloc) }
    ensures reports { Reports report.old (gap_of (book_of book.now.bytes.now).alloc from to) report.new }
    ensures few { (report.new.found ≤ report.old.found + 1 + 2 * (lower_bound to (book_of book.now.bytes.now).alloc - lower_bound from (book_of book.now.bytes.now).alloc)) × (result ≤ book.now.header.alloc) }
{
    if from < to {
        return show_hole(book, near, from, to, report);
    }
    near
}

// What the gaps between the runs give, whose pairs these are.
fn show_gaps(book: Book<'_>, pairs: SortedPairs<'_>, report: &mut Report<'_>)
    requires { (pairs.count ≤ book.header.keys) × Fair book.header.first_bucket (pairs_of pairs.words.now pairs.count) × (report.old.found < 2 ^ 60) }
    ensures reports { Reports report.old (gaps_findings (book_of book.entry.bytes.now).alloc (gaps book.entry.header.first_bucket (pairs_of pairs.entry.words.now pairs.entry.count) book.entry.header.buckets)) report.new }
    ensures few { report.new.found ≤ report.old.found + book.entry.header.keys + 1 + 2 * book.entry.header.alloc }
{
    let mut near = 0;
    let mut from = book.header.first_bucket as u64;
    for i in 0..pairs.count {
        near = show_gap(&book, near, from, pairs.first(i), report);
        from = from.max(pairs.second(i));
    }
    show_gap(&book, near, from, book.header.buckets, report);
}

// The findings of runs of free buckets, then of the gaps between them.
pub fn free_space(book: Book<'_>, work: &mut [u64], report: &mut Report<'_>)
    requires room { 2 * book.header.keys ≤ length work.old }
    requires found { report.old.found < 2 ^ 58 }
    ensures reports { Reports report.old (free_space (book_of book.entry.bytes.now)) report.new }
    ensures few { report.new.found ≤ report.old.found + 2 * book.entry.header.keys + 1 + 2 * book.entry.header.alloc }
{
    let count = all_runs(book, report, work);
    sorting::sort_pairs(work, count);
    show_gaps(book, SortedPairs::new(work, count), report);
}
