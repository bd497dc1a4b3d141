// A book and the pairs of its links.

ghost use Rattle.std.specs.Prelude.{◌≡◌, ◌≤◌};
ghost use Rattle.pairs.specs.Pairs.{pairs_of, sort};
ghost use Rattle.walk.specs.Keys.{gather};
ghost use Rattle.drawn.specs.Classes.{link_pair};

use book::open::Book;
use pairs::SortedPairs;

// A book, and the sorted pairs of the tree records and snapshots that its keys are.
#[derive(Clone, Copy)]
pub struct Linked<'a, 'b> {
    pub book: Book<'a>,
    pub pairs: SortedPairs<'b>,
    pub ghost few: { pairs.count ≤ book.header.keys },
    pub ghost all: { pairs_of pairs.words.now pairs.count ≡ sort (gather link_pair book.bytes.now book.header.keys book.places.keys) },
}
