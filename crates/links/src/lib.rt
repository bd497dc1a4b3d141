// The rule on the links between snapshots and their trees.
#![tactic(auto)]

ghost use Rattle.std.specs.Prelude.{◌≡◌, [], ◌∷◌, ◌++◌, cond, not, ◌&&◌, ◌||◌, ◌+◌, ◌*◌, ◌%◌, ◌^◌, ◌<◌, ◌≤◌, length, take, drop, get_or, eqb};
ghost use Rattle.findings.specs.Findings.{only, each, keep};
ghost use Rattle.findings.specs.Reports.{Reports};
ghost use Rattle.pairs.specs.Pairs.{pairs_of};
ghost use Rattle.book.specs.Maps.{lookup};
ghost use Rattle.book.specs.Book.{book_of};
ghost use Rattle.book.specs.KeyMaps.{parents_of};
ghost use Rattle.book.specs.Turns.{held};
ghost use Rattle.maps.specs.Sorted.{last_at};
ghost use Rattle.parents.specs.Sources.{reach_of};
ghost use Rattle.ancestors.specs.Lines.{Lined};
ghost use Rattle.book.specs.Words.{holds, subvolume_word, tree_word, skip_words, id_of};
ghost use Rattle.links.specs.SnapshotLinks.{
  tree_map,
  tree_of_map,
  is_the,
  is_other,
  master_findings,
  tree_findings,
  wrong_depth,
  bad_child,
  bad_skip,
  root_findings,
  backref_findings,
  child_findings,
  skip_findings,
  link_findings,
  snapshot_links,
};
ghost use Rattle.links.specs.Steps.{root_in, root_named, same_root, tree_at, source_of};

use ancestors::Line;
use book::names::{btree_id, key_type};
use book::open::{Book, Key};
use book::{Header, Places};
use findings::kind::Kind;
use findings::report::Report;
use linked::Linked;
use pairs::SortedPairs;
use parents::{Root, Source};

mod linked;

// Whether a word is there and is x.
fn is_the(word: Option<u32>, x: u32) -> bool
    ensures { result ≡ is_the x word }
{
    match word {
        Some(y) => y == x,
        None => false,
    }
}

// Whether a word is there and is not x.
fn is_other(word: Option<u32>, x: u32) -> bool
    ensures { result ≡ is_other x word }
{
    match word {
        Some(y) => y != x,
        None => false,
    }
}

// Whether a root is there and the word is its id.
fn same_root(word: Option<u32>, root: Option<Root>) -> bool
    ensures { result ≡ same_root word (root_in root) }
{
    match root {
        Some(found) => is_the(word, found.root),
        None => false,
    }
}

// Whether a root is there and the depth is not the number of links to it.
fn wrong_depth(depth: u32, root: Option<Root>) -> bool
    ensures { result ≡ wrong_depth depth (root_in root) }
{
    match root {
        Some(found) => depth != found.links,
        None => false,
    }
}

// The snapshot that the subvolumes table has for an id.
fn snapshot_of(book: Book<'_>, id: u32) -> Option<u32>
    ensures { result ≡ lookup id (book_of book.entry.bytes.now).subvolumes }
{
    let count = book.header.subvolumes as usize;
    tables::find_word(book.bytes, book.places.subvolumes, count, count, id).word
}

// Where the parents are found, once the first n pairs of the work words are those of all keys.
fn source_of(h: Header, at: Places, n: usize) -> Source
    ensures { result ≡ source_of h at n }
{
    if h.drawn {
        return Source::Pairs(n);
    }
    Source::Table(at.parents, h.parents as usize)
}

// Whether a child is there that does not have this snapshot as its parent.
fn bad_child(links: &Linked<'_, '_>, id: u32, child: u32) -> bool
    ensures { result ≡ bad_child (parents_of (book_of links.now.book.bytes.now)) id child }
{
    if child == 0 {
        return false;
    }
    let book = links.book;
    let source = source_of(book.header, book.places, links.pairs.count);
    let near = parents::reach(source);
    let found = parents::parent_in(book.bytes, links.pairs.words, source, near, child);
    !is_the(found.word, id)
}

// Whether a subvolume is there that has another snapshot than this one.
fn bad_backref(book: Book<'_>, id: u32, subvolume: u32) -> bool
    ensures { result ≡ not (eqb subvolume 0) && is_other id (lookup subvolume (book_of book.entry.bytes.now).subvolumes) }
{
    if subvolume == 0 {
        return false;
    }
    is_other(snapshot_of(book, subvolume), id)
}

// 1 for a skip word that names neither the snapshot nor an id above it, else 0.
fn count_skip(id: u32, skip: u32, above: bool) -> u64
    ensures counted { result ≡ cond (not (eqb skip 0) && not (eqb skip id || above)) 1 0 }
    ensures few { result ≤ 1 }
{
    if (skip != 0) & !((skip == id) | above) {
        return 1;
    }
    0
}

// How many of the three skip words of a snapshot are bad, by the first `len` ids.
fn count_skips(key: Key<'_>, ids: &[u32; 1024], len: usize, id: u32) -> u64
    requires { (40 ≤ length (held key).value) × (len ≤ 1024) × (length ids.now ≡ 1024) }
    ensures { result ≡ length (keep (bad_skip id (take len ids.now)) (skip_words (held key.entry))) }
{
    let a = key.word(28);
    let b = key.word(32);
    let c = key.word(36);
    if (a == 0) & (b == 0) & (c == 0) {
        return 0;
    }
    let above = ancestors::contains(ids, len, a, b, c);
    count_skip(id, a, above.a) + count_skip(id, b, above.b) + count_skip(id, c, above.c)
}

// The finding of a snapshot whose subvolume has another snapshot.
fn show_backref(book: Book<'_>, key: Key<'_>, id: u32, report: &mut Report<'_>)
    requires { (40 ≤ length (held key).value) × (report.old.found < 2 ^ 62) }
    ensures reports { Reports report.old (backref_findings (held key.entry) id (lookup (subvolume_word (held key.entry)) (book_of book.entry.bytes.now).subvolumes)) report.new }
    ensures few { report.new.found ≤ report.old.found + 1 }
{
    let subvolume = key.word(16);
    let bad = bad_backref(book, id, subvolume);
    report.emit_if(
        bad,
        Kind::SnapshotSubvolBackrefWrong,
        id as u64,
        subvolume as u64,
    );
}

// The findings of a snapshot's two children.
fn show_children(links: &Linked<'_, '_>, key: Key<'_>, id: u32, report: &mut Report<'_>)
    requires { (40 ≤ length (held key).value) × (report.old.found < 2 ^ 62) }
    ensures reports { Reports report.old (child_findings (held key.entry) id (parents_of (book_of links.now.book.bytes.now))) report.new }
    ensures few { report.new.found ≤ report.old.found + 2 }
{
    let left = key.word(8);
    let right = key.word(12);
    let one = bad_child(links, id, left);
    let other = bad_child(links, id, right);
    report.emit_if(one, Kind::SnapshotBadChild, id as u64, left as u64);
    report.emit_if(other, Kind::SnapshotBadChild, id as u64, right as u64);
}

// The finding of a snapshot's skip words, by the first `len` ids.
fn show_skips(key: Key<'_>, id: u32, ids: &[u32; 1024], len: usize, report: &mut Report<'_>)
    requires { (40 ≤ length (held key).value) × (len ≤ 1024) × (length ids.now ≡ 1024) × (report.old.found < 2 ^ 62) }
    ensures reports { Reports report.old (skip_findings (held key.entry) id (take len ids.now)) report.new }
    ensures few { report.new.found ≤ report.old.found + 1 }
{
    let bad = count_skips(key, ids, len, id);
    report.emit_if(bad != 0, Kind::SnapshotBadSkiplist, id as u64, bad);
}

// The root that the tree record of an id names: the last record of the id.
fn tree_root(links: &Linked<'_, '_>, id: u32) -> Option<u32>
    ensures { result ≡ root_named (lookup id (tree_map (book_of links.now.book.bytes.now))) }
{
    match maps::find_place(links.pairs, 0, id as u64) {
        Some(at) => Some(Key::read(links.book.bytes, at as usize).word(4)),
        None => None,
    }
}

// The tree that the snapshot of an id names: the last snapshot of the id.
fn tree_of(links: &Linked<'_, '_>, id: u32) -> Option<u32>
    ensures { result ≡ lookup id (tree_of_map (book_of links.now.book.bytes.now)) }
{
    let found = drawn::find_snapshot(links.pairs, links.pairs.count, 2, id);
    match found.place {
        Some(at) => Some(Key::read(links.book.bytes, at as usize).word(20)),
        None => None,
    }
}

// The findings of a snapshot's tree word and depth word, by the root above it.
fn show_root(
    links: &Linked<'_, '_>,
    key: Key<'_>,
    id: u32,
    root: Option<Root>,
    report: &mut Report<'_>,
)
    requires { (40 ≤ length (held key).value) × (report.old.found < 2 ^ 62) }
    ensures reports { Reports report.old (root_findings (held key.entry) id (lookup (tree_word (held key.entry)) (tree_map (book_of links.now.book.bytes.now))) (root_in root)) report.new }
    ensures few { report.new.found ≤ report.old.found + 2 }
{
    let tree = key.word(20);
    let depth = key.word(24);
    let same = same_root(tree_root(links, tree), root);
    let wrong = wrong_depth(depth, root);
    report.emit_if(
        !same,
        Kind::SnapshotToBadSnapshotTree,
        id as u64,
        tree as u64,
    );
    report.emit_if(wrong, Kind::SnapshotBadDepth, id as u64, depth as u64);
}

// The findings of a snapshot, by its line.
fn show_links(
    links: &Linked<'_, '_>,
    key: Key<'_>,
    line: Line,
    ids: &[u32; 1024],
    report: &mut Report<'_>,
)
    requires ready { (40 ≤ length (held key).value) × (report.old.found < 2 ^ 61) }
    requires lined { Lined (parents_of (book_of links.now.book.bytes.now)) ids.now line × (line.id ≡ id_of (held key)) }
    ensures reports { Reports report.old (link_findings (book_of links.now.book.bytes.now) (held key.entry)) report.new }
    ensures few { report.new.found ≤ report.old.found + 6 }
{
    let id = line.id;
    show_root(links, key, id, line.root, report);
    show_backref(links.book, key, id, report);
    show_children(links, key, id, report);
    show_skips(key, id, ids, line.len, report);
}

// The findings of a key, if it is a snapshot with all its words; returns its line, which is found from that of the snapshot before.
fn show_snapshot(
    links: &Linked<'_, '_>,
    key: Key<'_>,
    line: Line,
    ids: &mut [u32; 1024],
    hints: &mut [u16],
    report: &mut Report<'_>,
) -> Line
    requires few { report.old.found < 2 ^ 61 }
    requires lined_2 { Lined (parents_of (book_of links.now.book.bytes.now)) ids.old line × (line.near ≤ reach_of (source_of links.now.book.header links.now.book.places links.now.pairs.count)) }
    ensures reports { Reports report.old (only (holds 9 22 40 (held key.entry)) (link_findings (book_of links.now.book.bytes.now) (held key.entry))) report.new }
    ensures few_2 { report.new.found ≤ report.old.found + 6 }
    ensures lined { Lined (parents_of (book_of links.now.book.bytes.now)) ids.new result × (result.near ≤ reach_of (source_of links.now.book.header links.now.book.places links.now.pairs.count)) }
{
    if !key.holds(btree_id::SNAPSHOTS, key_type::SNAPSHOT, 40) {
        return line;
    }
    let book = links.book;
    let words = links.pairs.words;
    let source = source_of(book.header, book.places, links.pairs.count);
    let next = ancestors::line_beside(book.bytes, words, source, line, key.id(), ids, hints);
    show_links(links, key, next, ids, report);
    next
}

// The findings of the snapshots, in key order. The hints say where a walk up a chain found its parents before.
fn walk_snapshots(links: &Linked<'_, '_>, hints: &mut [u16], report: &mut Report<'_>)
    requires { report.old.found < 2 ^ 60 }
    ensures reports { Reports report.old (each (λ _ k. only (holds 9 22 40 k) (link_findings (book_of links.now.book.bytes.now) k)) 0 (book_of links.now.book.bytes.now).keys) report.new }
    ensures few { report.new.found ≤ report.old.found + links.now.book.header.keys * 6 }
{
    let mut ids = [0u32; 1024];
    let book = links.book;
    let source = source_of(book.header, book.places, links.pairs.count);
    let mut line = ancestors::line_of(book.bytes, links.pairs.words, source, 0, 0, &mut ids, hints);
    for key in book.keys() {
        line = show_snapshot(links, key, line, &mut ids, hints, report);
    }
}

// The same, with room for a hint for each entry of a parents table, of which there are 4,096 at most.
fn walk_with_hints(links: &Linked<'_, '_>, report: &mut Report<'_>)
    requires { report.old.found < 2 ^ 60 }
    ensures reports { Reports report.old (each (λ _ k. only (holds 9 22 40 k) (link_findings (book_of links.now.book.bytes.now) k)) 0 (book_of links.now.book.bytes.now).keys) report.new }
    ensures few { report.new.found ≤ report.old.found + links.now.book.header.keys * 6 }
{
    let mut hints = [0u16; 4096];
    walk_snapshots(links, &mut hints, report);
}

// Tables of fewer entries are searched without hints: to clear these would take longer than the searches.
const FEW_PARENTS: u16 = 64;

// The findings of the snapshots, in key order; those of a drawn book, which has no parents table, without hints.
fn show_snapshots(links: &Linked<'_, '_>, report: &mut Report<'_>)
    requires { report.old.found < 2 ^ 60 }
    ensures reports { Reports report.old (each (λ _ k. only (holds 9 22 40 k) (link_findings (book_of links.now.book.bytes.now) k)) 0 (book_of links.now.book.bytes.now).keys) report.new }
    ensures few { report.new.found ≤ report.old.found + links.now.book.header.keys * 6 }
{
    if links.book.header.parents < FEW_PARENTS {
        let mut none = [0u16; 0];
        walk_snapshots(links, &mut none, report);
        return;
    }
    walk_with_hints(links, report);
}

// The finding of a tree's subvolume: it is not there, or its snapshot is in another tree.
fn show_master(links: &Linked<'_, '_>, id: u32, subvolume: u32, report: &mut Report<'_>)
    requires { report.old.found < 2 ^ 62 }
    ensures reports { Reports report.old (master_findings (tree_of_map (book_of links.now.book.bytes.now)) id subvolume (lookup subvolume (book_of links.now.book.bytes.now).subvolumes)) report.new }
    ensures few { report.new.found ≤ report.old.found + 1 }
{
    let Some(snapshot) = snapshot_of(links.book, subvolume) else {
        report.emit(
            Kind::SnapshotTreeToMissingSubvol,
            id as u64,
            subvolume as u64,
        );
        return;
    };
    let other = is_other(tree_of(links, snapshot), id);
    report.emit_if(
        other,
        Kind::SnapshotTreeToWrongSubvol,
        id as u64,
        subvolume as u64,
    );
}

// The findings of a tree record.
fn show_tree(links: &Linked<'_, '_>, key: Key<'_>, report: &mut Report<'_>)
    requires { (8 ≤ length (held key).value) × (report.old.found < 2 ^ 61) }
    ensures reports { Reports report.old (tree_findings (book_of links.now.book.bytes.now) (tree_at key.entry.book.now (id_of (held key.entry), key.entry.at))) report.new }
    ensures few { report.new.found ≤ report.old.found + 2 }
{
    let id = key.id();
    let subvolume = key.word(0);
    let root = key.word(4);
    let back = is_the(tree_of(links, root), id);
    report.emit_if(
        !back,
        Kind::SnapshotTreeToBadRootSnapshot,
        id as u64,
        root as u64,
    );
    show_master(links, id, subvolume, report);
}

// The findings of pair i, if it is the last tree record of its id.
fn show_pair(links: &Linked<'_, '_>, i: usize, report: &mut Report<'_>)
    requires { (i < links.now.pairs.count) × (report.old.found < 2 ^ 61) }
    ensures reports { Reports report.old (only (last_at 0 (drop i (pairs_of links.now.pairs.words.now links.now.pairs.count))) (tree_findings (book_of links.now.book.bytes.now) (tree_at links.now.book.bytes.now (get_or links.now.pairs.words.now (2 * i) 0, get_or links.now.pairs.words.now (2 * i + 1) 0 % 2 ^ 32)))) report.new }
    ensures few { report.new.found ≤ report.old.found + 2 }
{
    let words = links.pairs.words;
    if maps::is_last(words, links.pairs.count, i, 0) {
        let at = (words[2 * i + 1] % 0x1_0000_0000) as usize;
        show_tree(links, Key::read(links.book.bytes, at), report);
    }
}

// The findings of the trees, in id order.
fn show_trees(links: &Linked<'_, '_>, report: &mut Report<'_>)
    requires { report.old.found < 2 ^ 60 }
    ensures reports { Reports report.old (each (λ _ e. tree_findings (book_of links.now.book.bytes.now) e) 0 (tree_map (book_of links.now.book.bytes.now))) report.new }
    ensures few { report.new.found ≤ report.old.found + links.now.pairs.count * 2 }
{
    for i in 0..links.pairs.count {
        show_pair(links, i, report);
    }
}

// The findings of links between snapshots and their trees, if the snapshot_trees btree is present.
pub fn snapshot_links(book: Book<'_>, work: &mut [u64], report: &mut Report<'_>)
    requires room { 2 * book.header.keys ≤ length work.old }
    requires found { report.old.found < 2 ^ 59 }
    ensures reports { Reports report.old (snapshot_links (book_of book.entry.bytes.now)) report.new }
    ensures few { report.new.found ≤ report.old.found + book.entry.header.keys * 8 }
{
    if !book.header.trees {
        return;
    }
    let count = drawn::put_links(book, work);
    sorting::sort_pairs(work, count);
    let pairs = SortedPairs::new(work, count);
    let links = Linked { book, pairs };
    show_trees(&links, report);
    show_snapshots(&links, report);
}
