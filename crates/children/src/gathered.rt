// A book and the pairs of its subvolumes and their entries.

ghost use Rattle.std.specs.Prelude.{◌≡◌, ◌≤◌};
ghost use Rattle.pairs.specs.Pairs.{pairs_of, sort};
ghost use Rattle.walk.specs.Keys.{gather};
ghost use Rattle.children.specs.Steps.{child_pair};

use book::open::Book;
use pairs::SortedPairs;

// A book, and the sorted pairs of the subvolumes with a parent and the entries that its keys are: those of a child stand together.
#[derive(Clone, Copy)]
pub struct Children<'a, 'b> {
    pub book: Book<'a>,
    pub pairs: SortedPairs<'b>,
    pub ghost few: { pairs.count ≤ book.header.keys },
    pub ghost all: { pairs_of pairs.words.now pairs.count ≡ sort (gather child_pair book.bytes.now book.header.keys book.places.keys) },
}
