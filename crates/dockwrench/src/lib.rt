// The main call, the two questions, and what their C entries answer, which are those of `dockwrench_c`.
#![tactic(auto)]

ghost use Rattle.std.specs.Prelude.{◌≡◌, ◌+◌, ◌*◌, ◌^◌, ◌<◌, ◌≤◌, length};
ghost use Rattle.findings.specs.Findings.{put, Encodable};
ghost use Rattle.rules.specs.Rules.{findings_of};
ghost use Rattle.book.specs.Book.{book_of};
ghost use Rattle.book.specs.KeyMaps.{parents_of};
ghost use Rattle.book.specs.Refusals.{parse};
ghost use Rattle.parents.specs.Roots.{root_of};
ghost use Rattle.parents.specs.Chains.{root_answer};
ghost use Rattle.subvolumes.specs.SubvolumeStates.{is_unavailable};
ghost use Rattle.dockwrench.specs.Steps.{asked_source};
ghost use Rattle.dockwrench.specs.Answers.{
  count_in,
  check_book,
  check_of,
  book_buffer,
  zeros,
  book_work,
  buffer_after,
  work_after,
  checked_answer,
  ancestor_of,
  availability_by,
  availability_of,
  ancestor_answer,
  availability_answer,
  packed,
  unpacked,
};
ghost use Rattle.dockwrench.specs.Claim.{Claim};

use book::open::Book;
use book::refusal::{Reason, Refusal};
use findings::report::Report;
pub use parents::Root;
use parents::Source;

// What the main call answers over a book: the count of findings, all of which are in the buffer; or the full count where not all fit.
#[derive(Clone, Copy)]
pub enum Checked {
    Found(usize),
    NoRoom(usize),
}

// What the availability question answers.
#[derive(Clone, Copy)]
pub enum Availability {
    Unavailable,
    Available,
}

// All rules over an accepted book and a work area that is long enough, which is zeroed then.
fn check_all(book: Book<'_>, findings: &mut [u8], work: &mut [u64]) -> usize
    requires { 2 * book.header.keys ≤ length work.old }
    ensures count { result ≡ length (findings_of (book_of book.entry.bytes.now)) }
    ensures buffer { findings.new ≡ put findings.old (findings_of (book_of book.entry.bytes.now)) }
    ensures whole { Encodable (findings_of (book_of book.entry.bytes.now)) }
    ensures work { work.new ≡ zeros (length work.old) }
    ensures few { result < 2 ^ 32 }
{
    let mut counts = [0u64; 0];
    let mut report = Report {
        buffer: findings,
        counts: &mut counts,
        found: 0,
    };
    judge::judge(book, work, &mut report);
    work.fill(0);
    report.found
}

// The count of findings, and whether a buffer holds them all.
fn count_in(room: usize, count: usize) -> Checked
    requires { count < 2 ^ 32 }
    ensures { result ≡ count_in room count }
{
    if room < 17 * count {
        return Checked::NoRoom(count);
    }
    Checked::Found(count)
}

// The main call over an accepted book.
fn check_book(book: Book<'_>, findings: &mut [u8], work: &mut [u64]) -> Result<Checked, Refusal>
    ensures answer { result ≡ check_book (book_of book.entry.bytes.now) (length findings.old) (length work.old) }
    ensures buffer { findings.new ≡ book_buffer (book_of book.entry.bytes.now) (length work.old) findings.old }
    ensures work { work.new ≡ book_work (book_of book.entry.bytes.now) work.old }
    ensures few { (checked_answer result).count < 2 ^ 32 }
    ensures claim { Claim book.entry.bytes.now (checked_answer result) findings.new }
{
    if work.len() < 2 * (book.header.keys as usize) {
        return Err(Reason::WorkShort.at(0));
    }
    let room = findings.len();
    let count = check_all(book, findings, work);
    Ok(count_in(room, count))
}

// The main call.
pub fn check(book: &[u8], findings: &mut [u8], work: &mut [u64]) -> Result<Checked, Refusal>
    ensures answer { result ≡ check_of (parse book.now) (length findings.old) (length work.old) }
    ensures buffer { findings.new ≡ buffer_after (parse book.now) (length work.old) findings.old }
    ensures work { work.new ≡ work_after (parse book.now) work.old }
    ensures few { (checked_answer result).count < 2 ^ 32 }
    ensures claim { Claim book.now (checked_answer result) findings.new }
{
    check_book(scan::scan(book)?, findings, work)
}

// Where a question finds the parents: it has no work area, and walks over the keys of a book with the drawn mark.
fn asked_source(book: Book<'_>) -> Source
    ensures { result ≡ asked_source book.entry.header book.entry.places }
{
    let h = book.header;
    let at = book.places;
    if h.drawn {
        return Source::Keys(at.keys, h.keys as usize);
    }
    Source::Table(at.parents, h.parents as usize)
}

// The root above an id, in an accepted book.
fn root_above(book: Book<'_>, id: u32) -> Option<Root>
    ensures { result ≡ root_answer (root_of (parents_of (book_of book.entry.bytes.now)) id) }
{
    let none = [0u64; 0];
    climb::root_above(book.bytes, &none, asked_source(book), id)
}

// The ancestor question: a root, or none within 1,024 links.
pub fn ask_ancestor(book: &[u8], id: u32) -> Result<Option<Root>, Refusal>
    ensures { result ≡ ancestor_of (parse book.now) id }
{
    Ok(root_above(scan::scan(book)?, id))
}

// Whether an id is in the set of unavailable subvolumes, in an accepted book.
fn is_available(book: Book<'_>, id: u32) -> Availability
    ensures { result ≡ availability_by (is_unavailable id (book_of book.entry.bytes.now).keys) }
{
    if subvolumes::is_unavailable(book, id) {
        return Availability::Unavailable;
    }
    Availability::Available
}

// The availability question.
pub fn ask_available(book: &[u8], id: u32) -> Result<Availability, Refusal>
    ensures { result ≡ availability_of (parse book.now) id }
{
    Ok(is_available(scan::scan(book)?, id))
}

// An answer as one number: 8 bits, 24 bits, 32 bits.
fn pack(number: usize, place: usize, count: usize) -> u64
    requires { (number < 256) × (place < 2 ^ 24) × (count < 2 ^ 32) }
    ensures packed { result ≡ packed (record { number = number; place = place; count = count }) }
    ensures apart { unpacked result ≡ record { number = number; place = place; count = count } }
{
    (number as u64) * 0x100_0000_0000_0000 + (place as u64) * 0x1_0000_0000 + (count as u64)
}

// The main call for C.
pub fn dockwrench_check(book: &[u8], findings: &mut [u8], work: &mut [u64]) -> u64
    ensures answer { result ≡ packed (checked_answer (check_of (parse book.now) (length findings.old) (length work.old))) }
    ensures apart { unpacked result ≡ checked_answer (check_of (parse book.now) (length findings.old) (length work.old)) }
    ensures buffer { findings.new ≡ buffer_after (parse book.now) (length work.old) findings.old }
    ensures work { work.new ≡ work_after (parse book.now) work.old }
    ensures claim { Claim book.now (unpacked result) findings.new }
{
    match check(book, findings, work) {
        Ok(Checked::Found(count)) => pack(0, 0, count),
        Ok(Checked::NoRoom(count)) => pack(Reason::FindingsExceed as usize, 0, count),
        Err(refusal) => pack(refusal.number, refusal.place, 0),
    }
}

// The ancestor question for C.
pub fn dockwrench_ancestor(book: &[u8], id: u32) -> u64
    ensures answer { result ≡ packed (ancestor_answer (ancestor_of (parse book.now) id)) }
    ensures apart { unpacked result ≡ ancestor_answer (ancestor_of (parse book.now) id) }
{
    match ask_ancestor(book, id) {
        Ok(Some(found)) => pack(0, found.links as usize, found.root as usize),
        Ok(None) => pack(Reason::NoRoot as usize, 0, 0),
        Err(refusal) => pack(refusal.number, refusal.place, 0),
    }
}

// The availability question for C.
pub fn dockwrench_unavailable(book: &[u8], id: u32) -> u64
    ensures answer { result ≡ packed (availability_answer (availability_of (parse book.now) id)) }
    ensures apart { unpacked result ≡ availability_answer (availability_of (parse book.now) id) }
{
    match ask_available(book, id) {
        Ok(Availability::Unavailable) => pack(0, 0, 1),
        Ok(Availability::Available) => pack(0, 0, 0),
        Err(refusal) => pack(refusal.number, refusal.place, 0),
    }
}
