// The rule on generations of buckets: `bucket_gens_against_alloc` (kind 46).
#![tactic(auto)]

ghost use Rattle.std.specs.Prelude.{◌≡◌, ◌++◌, ◌+◌, ◌*◌, ◌^◌, ◌<◌, ◌≤◌, length, take};
ghost use Rattle.findings.specs.Findings.{each};
ghost use Rattle.findings.specs.Reports.{Reports};
ghost use Rattle.pairs.specs.Pairs.{pairs_of, pair, has};
ghost use Rattle.book.specs.Maps.{lookup};
ghost use Rattle.book.specs.Book.{gens_table, entry_at, book_of};
ghost use Rattle.book.specs.Turns.{held};
ghost use Rattle.book.specs.Walk.{first_at};
ghost use Rattle.search.specs.Bound.{LowerBound};
ghost use Rattle.walk.specs.Keys.{gather};
ghost use Rattle.gens.specs.BucketGensAgainstAlloc.{or_zero, is_gens, gen_at, gens_of_key, bucket_gens_against_alloc};
ghost use Rattle.gens.specs.Steps.{gen_of, uncovered_of, key_gens, cover_pair, not_covered};

use book::names::{btree_id, key_type};
use book::open::{Book, Key};
use findings::kind::Kind;
use findings::report::Report;
use pairs::SortedPairs;

// An entry of the gens table: a bucket, and its generation.
#[derive(Clone, Copy)]
struct Entry {
    bucket: u64,
    generation: u8,
}

// The bucket of the entry at byte p.
#[inline]
fn bucket_at(book: &[u8], p: usize) -> u64
    requires { (length book.now ≤ 1048576) × (p + 9 ≤ length book.now) }
    ensures { result ≡ (entry_at gens_table book.now p).first }
{
    bits::be64(book, p)
}

// The entry at byte p.
#[inline]
fn entry_at(book: &[u8], p: usize) -> Entry
    requires { (length book.now ≤ 1048576) × (p + 9 ≤ length book.now) }
    ensures { (result.bucket ≡ (entry_at gens_table book.now p).first) × (result.generation ≡ (entry_at gens_table book.now p).rest) }
{
    Entry {
        bucket: bucket_at(book, p),
        generation: book[p + 8],
    }
}

// A place in the gens table, and a generation.
#[derive(Clone, Copy)]
struct Gen {
    at: usize,
    generation: u8,
}

// The generation that the gens table gives a bucket, 0 where it has none, and the place of the next bucket, by the place of this one.
fn next_gen(book: &Book<'_>, at: usize, bucket: u64) -> Gen
    requires { LowerBound (first_at gens_table book.now.bytes.now book.now.places.gens) book.now.header.gens bucket at }
    ensures generation { result.generation ≡ or_zero (lookup bucket (book_of book.now.bytes.now).gens) }
    ensures next { LowerBound (first_at gens_table book.now.bytes.now book.now.places.gens) book.now.header.gens (bucket + 1) result.at }
{
    if at == book.header.gens as usize {
        return Gen { at, generation: 0 };
    }
    let p = book.places.gens + at * 9;
    // The generation is read after the test, so that this stays a branch: to choose by moves made the merge half as slow again.
    if bucket_at(book.bytes, p) == bucket {
        let entry = entry_at(book.bytes, p);
        return Gen {
            at: at + 1,
            generation: entry.generation,
        };
    }
    Gen { at, generation: 0 }
}

// The finding of a recorded generation of a bucket.
fn show_gen(bucket: u64, recorded: u8, expected: u8, report: &mut Report<'_>)
    requires { report.old.found < 2 ^ 62 }
    ensures reports { Reports report.old (gen_of bucket recorded expected) report.new }
    ensures few { report.new.found ≤ report.old.found + 1 }
{
    report.emit_if(
        recorded != expected,
        Kind::IncorrectGenInBucketGens,
        bucket,
        recorded as u64,
    );
}

// The findings of the first 256 bytes of a value at `offset`: a merge with the gens table.
fn show_value(book: &Book<'_>, offset: u64, value: &[u8], report: &mut Report<'_>)
    requires { report.old.found < 2 ^ 61 }
    ensures reports { Reports report.old (each (gen_at (book_of book.now.bytes.now).gens offset) 0 (take 256 value.now)) report.new }
    ensures few { report.new.found ≤ report.old.found + 256 }
{
    let count = book.header.gens as usize;
    let base = offset % 0x100_0000_0000_0000 * 256;
    let mut at = tables::gens_from(book.bytes, book.places.gens, count, base);
    for i in 0..value.len().min(256) {
        let bucket = base + i as u64;
        let next = next_gen(book, at, bucket);
        show_gen(bucket, value[i], next.generation, report);
        at = next.at;
    }
}

// Whether a key is a bucket_gens key of the device.
fn is_gens(device: u64, key: Key<'_>) -> bool
    ensures { result ≡ is_gens device (held key.entry) }
{
    if key.is(btree_id::BUCKET_GENS, key_type::BUCKET_GENS) {
        return key.inode() == device;
    }
    false
}

// The findings of a key, if it is a bucket_gens key of the device; puts the pair of the offset that it covers behind the first n pairs then, and returns
// their number with it.
fn take_gens(
    book: &Book<'_>,
    key: Key<'_>,
    n: usize,
    work: &mut [u64],
    report: &mut Report<'_>,
) -> usize
    requires room { 2 * n + 2 ≤ length work.old }
    requires found { report.old.found < 2 ^ 61 }
    ensures reports { Reports report.old (key_gens book.now.header.device (book_of book.now.bytes.now).gens (held key.entry)) report.new }
    ensures put { pairs_of work.new result ≡ pairs_of work.old n ++ cover_pair book.now.header.device key.entry.at (held key.entry) }
    ensures few { (report.new.found ≤ report.old.found + 256) × (result ≤ n + 1) }
{
    if !is_gens(book.header.device, key) {
        return n;
    }
    let offset = key.offset();
    show_value(book, offset, key.value(), report);
    pairs::put_pair(work, n, offset, 0);
    n + 1
}

// The findings of the bucket_gens keys of the device; puts a pair for each, and returns their number.
// One pass over the keys does both: a second one to put the pairs would cost as much again.
fn take_keys(book: Book<'_>, work: &mut [u64], report: &mut Report<'_>) -> usize
    requires room { 2 * book.header.keys ≤ length work.old }
    requires found { report.old.found < 2 ^ 60 }
    ensures reports { Reports report.old (each (λ _ k. key_gens book.entry.header.device (book_of book.entry.bytes.now).gens k) 0 (book_of book.entry.bytes.now).keys) report.new }
    ensures put { pairs_of work.new result ≡ gather (cover_pair book.entry.header.device) book.entry.bytes.now book.entry.header.keys book.entry.places.keys }
    ensures few { (report.new.found ≤ report.old.found + book.entry.header.keys * 256) × (result ≤ book.entry.header.keys) }
{
    let mut n = 0;
    for key in book.keys() {
        n = take_gens(&book, key, n, work, report);
    }
    n
}

// A number of 256 buckets, and whether a key covers them.
#[derive(Clone, Copy)]
struct Cover {
    block: u64,
    covered: bool,
}

// Whether a block is covered, where the pairs are the offsets covered, by what is known of the block before.
fn cover_of(covers: SortedPairs<'_>, c: Cover, block: u64) -> Cover
    requires { c.covered ≡ has (pair c.block 0) (pairs_of covers.words.now covers.count) }
    ensures { (result.block ≡ block) × (result.covered ≡ has (pair block 0) (pairs_of covers.entry.words.now covers.entry.count)) }
{
    if c.block == block {
        return c;
    }
    let covered = covers.has(block, 0);
    Cover { block, covered }
}

// The finding of a bucket's generation, if no key covers the bucket.
fn show_uncovered(bucket: u64, generation: u8, covered: bool, report: &mut Report<'_>)
    requires { report.old.found < 2 ^ 62 }
    ensures reports { Reports report.old (uncovered_of covered bucket generation) report.new }
    ensures few { report.new.found ≤ report.old.found + 1 }
{
    report.emit_if(
        (generation != 0) & !covered,
        Kind::IncorrectGenInBucketGens,
        bucket,
        generation as u64,
    );
}

// The findings of the entries of the gens table, by the pairs of the offsets covered.
fn show_table(book: Book<'_>, covers: SortedPairs<'_>, report: &mut Report<'_>)
    requires { report.old.found < 2 ^ 60 }
    ensures reports { Reports report.old (each (λ _ e. not_covered (pairs_of covers.entry.words.now covers.entry.count) e.0 e.1) 0 (book_of book.entry.bytes.now).gens) report.new }
    ensures few { report.new.found ≤ report.old.found + book.entry.header.gens }
{
    let covered = covers.has(0, 0);
    let mut c = Cover { block: 0, covered };
    for i in 0..book.header.gens as usize {
        let entry = entry_at(book.bytes, book.places.gens + i * 9);
        c = cover_of(covers, c, entry.bucket / 256);
        show_uncovered(entry.bucket, entry.generation, c.covered, report);
    }
}

// The findings of generations that differ: by the bucket_gens keys, then by the gens table where no key covers a bucket.
pub fn bucket_gens_against_alloc(book: Book<'_>, work: &mut [u64], report: &mut Report<'_>)
    requires room { 2 * book.header.keys ≤ length work.old }
    requires found { report.old.found < 2 ^ 58 }
    ensures reports { Reports report.old (bucket_gens_against_alloc (book_of book.entry.bytes.now)) report.new }
    ensures few { report.new.found ≤ report.old.found + book.entry.header.keys * 256 + book.entry.header.gens }
{
    let count = take_keys(book, work, report);
    sorting::sort_pairs(work, count);
    let covers = SortedPairs::new(work, count);
    show_table(book, covers, report);
}
