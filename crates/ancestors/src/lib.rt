// The ids above a snapshot in an array of 1,024, found by a walk of its chain or from those above the snapshot before.
#![tactic(auto)]

ghost use Rattle.std.specs.Prelude.{◌≡◌, ◌∷◌, ◌+◌, ◌≤◌, ◌<◌, Some, min, length, take, drop};
ghost use Rattle.pairs.specs.Pairs.{has};
ghost use Rattle.book.specs.Maps.{lookup};
ghost use Rattle.book.specs.Book.{book_of};
ghost use Rattle.book.specs.KeyMaps.{parents_of};
ghost use Rattle.parents.specs.Sources.{reach_of, Sourced};
ghost use Rattle.ancestors.specs.Lines.{ancestors_of, Lined};
ghost use Rattle.ancestors.specs.Steps.{with_links, root_below};

use parents::{Root, Source, parent_in, reach};

// The ids above a snapshot, nearest first, and the root.
#[derive(Drop)]
pub struct Ancestors {
    pub ids: [u32; 1024],
    pub len: usize,
    pub root: Option<Root>,
}

// Which of three ids are among others.
#[derive(Clone, Copy)]
pub struct Among {
    pub a: bool,
    pub b: bool,
    pub c: bool,
}

// What is known of the ids above a snapshot that an array begins with: the snapshot, how many they are, and the root. From the place `near` the
// next snapshot is looked for.
#[derive(Clone, Copy)]
pub struct Line {
    pub id: u32,
    pub len: usize,
    pub root: Option<Root>,
    pub near: usize,
}

// The place from which the parent of the id at place `here` is looked for: where it was found before, if that is known,
// else `here`. A hint is that place plus one, or 0 where it is not known. Any numbers may stand there: of the place
// only its bound is promised, and no answer depends on a hint.
fn near_parent(hints: &[u16], here: usize, reach: usize) -> usize
    requires { here ≤ reach }
    ensures { result ≤ reach }
{
    if hints.len() <= here {
        return here;
    }
    let hint = hints[here] as usize;
    if hint == 0 {
        return here;
    }
    if reach < hint {
        return here;
    }
    hint - 1
}

// Notes that the parent of the id at place `here` was found at place `at`; places that no hint can hold are left out.
fn put_hint(hints: &mut [u16], here: usize, at: usize) {
    if hints.len() <= here {
        return;
    }
    if at < 65535 {
        hints[here] = (at + 1) as u16;
    }
}

// The ids above `id`, repeats included, and its root. `id` is looked for from the place `near`, and each id above it
// from where it was found before, by the hints; `below` is the place of the id before, and at first of none.
pub fn ancestors_of(
    book: &[u8],
    work: &[u64],
    source: Source,
    near: usize,
    id: u32,
    hints: &mut [u16],
) -> Ancestors
    requires { Sourced book.now work.now source × (near ≤ reach_of source) }
    ensures { result ≡ ancestors_of (parents_of (book_of book.now)) id }
{
    let mut ids = [0u32; 1024];
    let mut len: usize = 0;
    let mut at = id;
    let far = reach(source);
    let mut below = far;
    let mut from = near;
    loop {
        let found = parent_in(book, work, source, from, at);
        put_hint(hints, below, found.at);
        below = found.at;
        from = near_parent(hints, below, far);
        let Some(p) = found.word else {
            let root = None;
            return Ancestors { ids, len, root };
        };
        if p == 0 {
            let links = len as u32;
            let root = Some(Root { root: at, links });
            return Ancestors { ids, len, root };
        }
        if len == 1024 {
            let root = None;
            return Ancestors { ids, len, root };
        }
        ids[len] = p;
        len += 1;
        at = p;
    }
}

// Which of three ids are among the first `len` of a lent array: all are looked at, so that many are compared at once.
pub fn contains(ids: &[u32; 1024], len: usize, a: u32, b: u32, c: u32) -> Among
    requires { (len ≤ 1024) × (length ids.now ≡ 1024) }
    ensures { (result.a ≡ has a (take len ids.now)) × (result.b ≡ has b (take len ids.now)) × (result.c ≡ has c (take len ids.now)) }
{
    let mut found = Among {
        a: false,
        b: false,
        c: false,
    };
    for i in 0..len {
        let id = ids[i];
        found = Among {
            a: found.a | (a == id),
            b: found.b | (b == id),
            c: found.c | (c == id),
        };
    }
    found
}

// Puts `id` first, and the others of the first `end` ids one place up.
fn put_first(ids: &mut [u32; 1024], end: usize, id: u32)
    requires { (end ≤ 1024) × (length ids.old ≡ 1024) }
    ensures { (take end ids.new ≡ take end (id ∷ ids.old)) × (length ids.new ≡ 1024) }
{
    let mut before = id;
    for i in 0..end {
        let here = ids[i];
        ids[i] = before;
        before = here;
    }
}

// Takes the first id away, and puts the `end` ids after it one place down.
fn take_first(ids: &mut [u32; 1024], end: usize)
    requires { (end < 1024) × (length ids.old ≡ 1024) }
    ensures { (take end ids.new ≡ take end (drop 1 ids.old)) × (length ids.new ≡ 1024) }
{
    for i in 0..end {
        ids[i] = ids[i + 1];
    }
}

// The root of a child, by its parent's: a link more, and none past 1,024.
fn root_below(root: Option<Root>) -> Option<Root>
    ensures { result ≡ root_below root }
{
    let above = root?;
    if above.links < 1024 {
        return Some(Root {
            root: above.root,
            links: above.links + 1,
        });
    }
    None
}

// A root with this number of links to it, where a root is there.
fn with_links(root: Option<Root>, links: u32) -> Option<Root>
    ensures { result ≡ with_links root links }
{
    let root = root?.root;
    Some(Root { root, links })
}

// The line of `id`, by a walk of its chain with hints; `near` is a place near its own where the parents are found.
pub fn line_of(
    book: &[u8],
    work: &[u64],
    source: Source,
    near: usize,
    id: u32,
    ids: &mut [u32; 1024],
    hints: &mut [u16],
) -> Line
    requires { Sourced book.now work.now source × (near ≤ reach_of source) }
    ensures lined { Lined (parents_of (book_of book.now)) ids.new result }
    ensures same { (result.id ≡ id) × (result.near ≤ reach_of source) }
{
    let above = ancestors_of(book, work, source, near, id, hints);
    let all = above.ids;
    *ids = all;
    let root = above.root;
    Line {
        id,
        len: above.len,
        root,
        near,
    }
}

// The line of `id`, whose parent is `p`, from that of another snapshot: where this is the parent, it is put first, and where the parent is the
// other's too, the ids are the same.
fn line_under(
    book: &[u8],
    work: &[u64],
    source: Source,
    line: Line,
    near: usize,
    id: u32,
    p: u32,
    ids: &mut [u32; 1024],
    hints: &mut [u16],
) -> Line
    requires sourced { Sourced book.now work.now source × Lined (parents_of (book_of book.now)) ids.old line × (near ≤ reach_of source) }
    requires book_value { (lookup id (parents_of (book_of book.now)) ≡ Some p) × (0 < p) }
    ensures lined { Lined (parents_of (book_of book.now)) ids.new result }
    ensures same { (result.id ≡ id) × (result.near ≤ reach_of source) }
{
    let root = line.root;
    if p == line.id {
        let len = (line.len + 1).min(1024);
        put_first(ids, len, p);
        let root = root_below(root);
        return Line {
            id,
            len,
            root,
            near,
        };
    }
    let len = line.len;
    if (0 < len) & (ids[0] == p) {
        return Line {
            id,
            len,
            root,
            near,
        };
    }
    line_of(book, work, source, near, id, ids, hints)
}

// The line of `id` from that of another snapshot, by the parent of `id`.
fn line_by_parent(
    book: &[u8],
    work: &[u64],
    source: Source,
    line: Line,
    id: u32,
    ids: &mut [u32; 1024],
    hints: &mut [u16],
) -> Line
    requires { Sourced book.now work.now source × Lined (parents_of (book_of book.now)) ids.old line × (line.near ≤ reach_of source) }
    ensures lined { Lined (parents_of (book_of book.now)) ids.new result }
    ensures same { (result.id ≡ id) × (result.near ≤ reach_of source) }
{
    let found = parent_in(book, work, source, line.near, id);
    let near = found.at;
    let Some(p) = found.word else {
        return Line {
            id,
            len: 0,
            root: None,
            near,
        };
    };
    if p == 0 {
        return Line {
            id,
            len: 0,
            root: Some(Root { root: id, links: 0 }),
            near,
        };
    }
    line_under(book, work, source, line, near, id, p, ids, hints)
}

// The line of `id` from that of another snapshot: of the same, or of a child with a root, from which the first id is taken away; else by the
// parent of `id`.
pub fn line_beside(
    book: &[u8],
    work: &[u64],
    source: Source,
    line: Line,
    id: u32,
    ids: &mut [u32; 1024],
    hints: &mut [u16],
) -> Line
    requires { Sourced book.now work.now source × Lined (parents_of (book_of book.now)) ids.old line × (line.near ≤ reach_of source) }
    ensures lined { Lined (parents_of (book_of book.now)) ids.new result }
    ensures same { (result.id ≡ id) × (result.near ≤ reach_of source) }
{
    if id == line.id {
        return line;
    }
    let root = line.root;
    if (root.is_some() & (0 < line.len)) & (ids[0] == id) {
        let len = line.len - 1;
        take_first(ids, len);
        let root = with_links(root, len as u32);
        return Line {
            id,
            len,
            root,
            near: line.near,
        };
    }
    line_by_parent(book, work, source, line, id, ids, hints)
}
