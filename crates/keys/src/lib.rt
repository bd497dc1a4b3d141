// The rules on each key, and the btrees of which a book has keys.
#![tactic(auto)]

ghost use Rattle.std.specs.Prelude.{◌≡◌, ◌+◌, ◌*◌, ◌^◌, ◌<◌, ◌≤◌, length};
ghost use Rattle.bits.specs.Bits.{bits_at};
ghost use Rattle.findings.specs.Findings.{each};
ghost use Rattle.findings.specs.Reports.{Reports};
ghost use Rattle.book.specs.Book.{book_of};
ghost use Rattle.book.specs.Turns.{held};
ghost use Rattle.keys.specs.KeyFindings.{key_findings};
ghost use Rattle.keys.specs.Present.{present_in};
ghost use Rattle.keys.specs.Steps.{quiet};

use book::names::{btree_id, key_type};
use book::open::{Book, Key};
use findings::report::Report;
use states::Version;

// The four bytes from byte i on of the head that stands at a byte.
fn head_word(book: &[u8], at: usize, i: usize) -> u32
    requires { (length book.now ≤ 1048576) × (at + 28 ≤ length book.now) × (i ≤ 24) }
    ensures { result ≡ bits_at book.now (8 * at + 8 * i) 32 }
{
    bits::be32(book, at + i)
}

// Whether these rules say nothing of a key by what is read here: its front, its size and its snapshot.
fn is_quiet(key: Key<'_>) -> bool
    ensures { result ≡ quiet (held key.entry) }
{
    let btree = key.front.btree;
    let filed = (btree == btree_id::ALLOC)
        | ((btree == btree_id::BACKPOINTERS) | (btree == btree_id::BUCKET_GENS));
    if !((key.front.key_type == key_type::SET) & !filed) {
        return false;
    }
    let size = head_word(key.book, key.at, 4);
    let snapshot = head_word(key.book, key.at, 24);
    ((size == 0) | (btree == btree_id::FREESPACE)) & (snapshot == 0)
}

// What the rules on one key give: the key with this index.
fn judge_key(book: Book<'_>, key: Key<'_>, index: u64, report: &mut Report<'_>)
    requires { report.old.found < 2 ^ 60 }
    ensures reports { Reports report.old (key_findings (book_of book.entry.bytes.now) index (held key.entry)) report.new }
    ensures few { report.new.found ≤ report.old.found + 15 }
{
    if is_quiet(key) {
        return;
    }
    let head = key.head();
    let value = key.value();
    let version = Version(book.header.version);
    fields::check_key_device(head, book.header.device, index, report);
    types::check_key_type(head, index, report);
    fields::check_key_fields(head, value, index, report);
    states::check_state_words(version, head, value, index, report);
}

// The btrees of which a book has keys, as far as a rule across keys asks: without keys of its btrees such a rule has
// nothing to find.
#[derive(Clone, Copy, Default)]
pub struct Present {
    pub subvolumes: bool,
    pub snapshots: bool,
    pub gens: bool,
    pub trees: bool,
    pub children: bool,
}

impl Present {
    ghost use Rattle.std.specs.Prelude.{◌≡◌};
    ghost use Rattle.keys.specs.Present.{with_btree};

    // These, and a btree.
    #[tactic(auto, unfolding(crate::specs::Present::with_btree))]
    fn with(self, btree: u8) -> Present
        ensures { result ≡ with_btree self btree }
    {
        Present {
            subvolumes: self.subvolumes | (btree == btree_id::SUBVOLUMES),
            snapshots: self.snapshots | (btree == btree_id::SNAPSHOTS),
            gens: self.gens | (btree == btree_id::BUCKET_GENS),
            trees: self.trees | (btree == btree_id::SNAPSHOT_TREES),
            children: self.children | (btree == btree_id::SUBVOLUME_CHILDREN),
        }
    }
}

// "Each key in turn": what these rules find at the keys, and the btrees of these.
pub fn judge_keys(book: Book<'_>, report: &mut Report<'_>) -> Present
    requires { report.old.found < 2 ^ 59 }
    ensures reports { Reports report.old (each (key_findings (book_of book.entry.bytes.now)) 0 (book_of book.entry.bytes.now).keys) report.new }
    ensures few { report.new.found ≤ report.old.found + book.entry.header.keys * 15 }
    ensures present { result ≡ present_in (book_of book.entry.bytes.now).keys }
{
    let mut present = Present::default();
    for (index, key) in book.keys().enumerate() {
        present = present.with(key.front.btree);
        judge_key(book, key, index as u64, report);
    }
    present
}
