// The root above an id: by one pass over the keys of a book whose parents are drawn from them, where its snapshots rise.
#![tactic(auto)]

ghost use Rattle.std.specs.Prelude.{◌≡◌, true, ◌≤◌, Some, Option};
ghost use Rattle.book.specs.Book.{book_of};
ghost use Rattle.book.specs.KeyMaps.{parents_of};
ghost use Rattle.book.specs.Turns.{held};
ghost use Rattle.parents.specs.declared.Root.{Root};
ghost use Rattle.parents.specs.Roots.{root_of};
ghost use Rattle.parents.specs.Chains.{root_answer};
ghost use Rattle.parents.specs.Sources.{ByKeys, Sourced};
ghost use Rattle.climb.specs.declared.Step.TheVariants.{End};
ghost use Rattle.climb.specs.Links.{link_of, least_after, rises_from, Says};

use book::open::{Key, Keys};
use parents::{Root, Source};

// A snapshot's id and its parent.
#[derive(Clone, Copy)]
struct Link {
    id: u32,
    parent: u32,
}

// What a key says of a walk up the parents: the id that it is at from there on and its links, its end, or that the keys before would be needed.
#[derive(Clone, Copy)]
enum Step {
    On { at: u32, links: u32 },
    End(Option<Root>),
    Lost,
}

// The link of a key, if it is a snapshot with a parent word.
fn link_at(key: Key<'_>) -> Option<Link>
    ensures { result ≡ link_of (held key.entry) }
{
    if drawn::has_parent(key.front) {
        return Some(Link {
            id: key.id(),
            parent: key.word(4),
        });
    }
    None
}

// The least id that the next snapshot may have, if this key has no lesser one than `least`.
fn least_after(link: Option<Link>, least: u64) -> Option<u64>
    ensures { result ≡ least_after least link }
{
    let Some(found) = link else {
        return Some(least);
    };
    let number = found.id as u64;
    if number < least {
        return None;
    }
    Some(number + 1)
}

// Whether the snapshots rise: each has a greater id than the one before, and the first no lesser one than `from`.
fn rises(keys: Keys<'_>, from: u64) -> bool
    ensures { result ≡ rises_from keys.entry.book.now keys.entry.left keys.entry.at from }
{
    let mut least = from;
    for key in keys {
        let link = link_at(key);
        let Some(next) = least_after(link, least) else {
            return false;
        };
        least = next;
    }
    true
}

// What the link of a key says, where `links` links have led to `at`: a snapshot above `at` says that `at` has none.
fn step_by(link: Option<Link>, at: u32, links: u32) -> Step
    requires { links ≤ 1024 }
    ensures { Says at links link result }
{
    let Some(found) = link else {
        return Step::On { at, links };
    };
    let id = found.id;
    let parent = found.parent;
    if id < at {
        return Step::On { at, links };
    }
    if at < id {
        return Step::End(None);
    }
    if parent == 0 {
        return Step::End(Some(Root { root: at, links }));
    }
    if links == 1024 {
        return Step::End(None);
    }
    if parent <= at {
        return Step::Lost;
    }
    Step::On {
        at: parent,
        links: links + 1,
    }
}

// What a walk ends with, a root or none, where the snapshots after it rise too.
fn settle(keys: Keys<'_>, least: u64, step: Step) -> Option<Option<Root>>
    ensures { (x : Option Root) → result ≡ Some x → (step ≡ End x) × (rises_from keys.entry.book.now keys.entry.left keys.entry.at least ≡ true) }
{
    let Step::End(root) = step else {
        return None;
    };
    if rises(keys, least) {
        return Some(root);
    }
    None
}

// The root above `id`, or none, by one pass over the keys, where the snapshots rise and the parents on the way do.
fn climb_keys(all: Keys<'_>, id: u32) -> Option<Option<Root>>
    requires { ByKeys all.book.now all.at all.left }
    ensures { (x : Option Root) → result ≡ Some x → x ≡ root_answer (root_of (parents_of (book_of all.entry.book.now)) id) }
{
    let mut keys = all;
    let mut least: u64 = 0;
    let mut at = id;
    let mut links: u32 = 0;
    while let Some(key) = keys.next() {
        let link = link_at(key);
        let next_least = least_after(link, least)?;
        let step = step_by(link, at, links);
        let Step::On { at: a, links: n } = step else {
            return settle(keys, next_least, step);
        };
        least = next_least;
        at = a;
        links = n;
    }
    Some(None)
}

// The root above `id`, within 1,024 links: by one pass over the keys of a drawn book whose snapshots rise, else link by link.
pub fn root_above(book: &[u8], work: &[u64], source: Source, id: u32) -> Option<Root>
    requires { Sourced book.now work.now source }
    ensures { result ≡ root_answer (root_of (parents_of (book_of book.now)) id) }
{
    if let Source::Keys(start, count) = source {
        let keys = Keys {
            book,
            at: start,
            left: count,
        };
        if let Some(root) = climb_keys(keys, id) {
            return root;
        }
    }
    parents::root_of(book, work, source, id)
}
