// The rule on the children of subvolumes.
#![tactic(auto)]

ghost use Rattle.std.specs.Prelude.{◌≡◌, ◌++◌, ◌+◌, ◌*◌, ◌%◌, ◌^◌, ◌<◌, ◌≤◌, length, get_or, drop};
ghost use Rattle.findings.specs.Findings.{only, each};
ghost use Rattle.findings.specs.Reports.{Reports};
ghost use Rattle.pairs.specs.Pairs.{pairs_of};
ghost use Rattle.book.specs.Maps.{lookup};
ghost use Rattle.book.specs.Book.{book_of};
ghost use Rattle.book.specs.Turns.{held};
ghost use Rattle.walk.specs.Keys.{key_at};
ghost use Rattle.walk.specs.Gives.{pair_in};
ghost use Rattle.maps.specs.Sorted.{last_at};
ghost use Rattle.book.specs.Words.{word};
ghost use Rattle.children.specs.SubvolumeChildren.{
  has_fs_parent,
  fs_parents,
  is_entry,
  missing_entry,
  wrong_entry,
  subvolume_children,
};
ghost use Rattle.children.specs.Steps.{child_pair, wrong_word, any_wrong, AtChild, Known};

use book::names::{btree_id, key_type};
use book::open::{Book, Key};
use findings::kind::Kind;
use findings::report::Report;
use gathered::Children;
use pairs::SortedPairs;
use states::{SUBVOL_DELETED, SUBVOL_STATE};
use walk::put::put_pairs;

mod gathered;

// Where the parent of a subvolume stands.
const SUBVOL_FS_PARENT: usize = 20;

// Whether a key is a subvolume with a parent that is not deleted.
fn has_fs_parent(key: Key<'_>) -> bool
    ensures { result ≡ has_fs_parent (held key.entry) }
{
    if !key.holds(btree_id::SUBVOLUMES, key_type::SUBVOLUME, 24) {
        return false;
    }
    if key.front.len < 44 {
        return true;
    }
    key.word(SUBVOL_STATE) != SUBVOL_DELETED
}

// The pair of a key, if it is a subvolume with a parent or an entry: its child, and its place or its parent.
fn child_pair(key: Key<'_>) -> Option<(u64, u64)>
    ensures { pair_in result ≡ child_pair key.entry.at (held key.entry) }
{
    if has_fs_parent(key) {
        return Some((key.offset(), key.at as u64));
    }
    if key.is(btree_id::SUBVOLUME_CHILDREN, key_type::SET) {
        let parent = key.inode().min(0x1_0000_0000);
        return Some((key.offset(), 0x1_0000_0000 + parent));
    }
    None
}

// The parent of the subvolume at a byte.
fn fs_parent(book: &[u8], at: usize) -> u32
    requires { AtChild book.now at }
    ensures { result ≡ word 20 (key_at book.now at) }
{
    Key::read(book, at).word(SUBVOL_FS_PARENT)
}

// The finding of pair i, if it is a subvolume's place and the last with its offset: it has a parent and no entry.
fn show_missing(children: &Children<'_, '_>, i: usize, report: &mut Report<'_>)
    requires { (i < children.now.pairs.count) × (report.old.found < 2 ^ 62) }
    ensures reports { Reports report.old (only (last_at 0 (drop i (pairs_of children.now.pairs.words.now children.now.pairs.count))) (missing_entry (book_of children.now.book.bytes.now).keys (get_or children.now.pairs.words.now (2 * i) 0, word 20 (key_at children.now.book.bytes.now (get_or children.now.pairs.words.now (2 * i + 1) 0 % 2 ^ 32))))) report.new }
    ensures few { report.new.found ≤ report.old.found + 1 }
{
    let pairs = &children.pairs;
    if maps::is_last(pairs.words, pairs.count, i, 0) {
        let child = pairs.first(i);
        let place = pairs.second(i) % 0x1_0000_0000;
        let parent = fs_parent(children.book.bytes, place as usize) as u64;
        let entry = pairs.has_from(i + 1, child, 0x1_0000_0000 + parent);
        let missing = (parent != 0) & !entry;
        report.emit_if(missing, Kind::SubvolChildrenEntryMissing, child, parent);
    }
}

// The findings of the subvolumes whose entry is missing.
fn show_missings(children: &Children<'_, '_>, report: &mut Report<'_>)
    requires { report.old.found < 2 ^ 60 }
    ensures reports { Reports report.old (each (λ _ e. missing_entry (book_of children.now.book.bytes.now).keys e) 0 (fs_parents (book_of children.now.book.bytes.now))) report.new }
    ensures few { report.new.found ≤ report.old.found + children.now.pairs.count }
{
    for i in 0..children.pairs.count {
        show_missing(children, i, report);
    }
}

// The parent of a child: its pairs are looked for from pair `from` on, if they start no earlier, else among all.
fn find_parent(children: &Children<'_, '_>, from: usize, child: u64) -> Option<u32>
    requires { from ≤ children.now.pairs.count }
    ensures { result ≡ lookup child (fs_parents (book_of children.now.book.bytes.now)) }
{
    let at = maps::find_place_from(children.pairs, from, 0, child)?;
    Some(fs_parent(children.book.bytes, at as usize))
}

// The finding of a key, if it is an entry and its child has another parent or is not there.
fn show_wrong(children: &Children<'_, '_>, key: Key<'_>, report: &mut Report<'_>)
    requires { report.old.found < 2 ^ 62 }
    ensures reports { Reports report.old (only (is_entry (held key.entry)) (wrong_entry (held key.entry) (lookup (held key.entry).offset (fs_parents (book_of children.now.book.bytes.now))))) report.new }
    ensures few { report.new.found ≤ report.old.found + 1 }
{
    if !key.is(btree_id::SUBVOLUME_CHILDREN, key_type::SET) {
        return;
    }
    let inode = key.inode();
    let child = key.offset();
    match find_parent(children, children.pairs.count, child) {
        Some(parent) => {
            let parent = parent as u64;
            let other = parent != inode;
            report.emit_if(other, Kind::SubvolChildrenEntryWrong, child, parent);
        },
        None => report.emit(Kind::SubvolChildrenEntryWrong, child, 0),
    }
}

// The findings of the entries whose child has another parent or is not there.
fn show_wrongs(children: &Children<'_, '_>, report: &mut Report<'_>)
    requires { report.old.found < 2 ^ 60 }
    ensures reports { Reports report.old (each (λ _ k. only (is_entry k) (wrong_entry k (lookup k.offset (fs_parents (book_of children.now.book.bytes.now))))) 0 (book_of children.now.book.bytes.now).keys) report.new }
    ensures few { report.new.found ≤ report.old.found + children.now.book.header.keys }
{
    for key in children.book.keys() {
        show_wrong(children, key, report);
    }
}

// A child and its parent.
#[derive(Clone, Copy)]
struct Child {
    number: u64,
    parent: Option<u32>,
}

// The child of pair i and its parent; `known` is that of the pair before, or any other.
fn child_at(children: &Children<'_, '_>, i: usize, known: Child) -> Child
    requires { (i < children.now.pairs.count) × Known (book_of children.now.book.bytes.now) known }
    ensures { (result.number ≡ get_or children.now.pairs.words.now (2 * i) 0) × Known (book_of children.now.book.bytes.now) result }
{
    let number = children.pairs.first(i);
    if number == known.number {
        return known;
    }
    let parent = find_parent(children, i, number);
    Child { number, parent }
}

// Whether the second word of a pair is that of an entry, and another one than this parent of the child makes.
fn is_wrong(second: u64, parent: Option<u32>) -> bool
    ensures { result ≡ wrong_word second parent }
{
    if second < 0x1_0000_0000 {
        return false;
    }
    match parent {
        Some(number) => { (0x2_0000_0000 <= second) | (second != 0x1_0000_0000 + number as u64) }
        None => true,
    }
}

// Whether some entry's child has another parent, or is not there.
fn has_wrong(children: &Children<'_, '_>) -> bool
    ensures { result ≡ any_wrong (fs_parents (book_of children.now.book.bytes.now)) (pairs_of children.now.pairs.words.now children.now.pairs.count) }
{
    let parent = find_parent(children, 0, 0);
    let mut child = Child { number: 0, parent };
    for i in 0..children.pairs.count {
        child = child_at(children, i, child);
        if is_wrong(children.pairs.second(i), child.parent) {
            return true;
        }
    }
    false
}

// The findings of both.
fn show_children(children: &Children<'_, '_>, report: &mut Report<'_>)
    requires { report.old.found < 2 ^ 59 }
    ensures reports { Reports report.old (subvolume_children (book_of children.now.book.bytes.now)) report.new }
    ensures few { report.new.found ≤ report.old.found + 2 * children.now.book.header.keys }
{
    show_missings(children, report);
    if has_wrong(children) {
        show_wrongs(children, report);
    }
}

// The findings of subvolumes whose entry is missing, then of entries that are wrong.
pub fn subvolume_children(book: Book<'_>, work: &mut [u64], report: &mut Report<'_>)
    requires room { 2 * book.header.keys ≤ length work.old }
    requires found { report.old.found < 2 ^ 58 }
    ensures reports { Reports report.old (subvolume_children (book_of book.entry.bytes.now)) report.new }
    ensures few { report.new.found ≤ report.old.found + 2 * book.entry.header.keys }
{
    let count = put_pairs(book, child_pair, work);
    sorting::sort_pairs(work, count);
    let pairs = SortedPairs::new(work, count);
    let children = Children { book, pairs };
    show_children(&children, report);
}
