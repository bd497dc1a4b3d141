// A book and the pairs of its states.

ghost use Rattle.std.specs.Prelude.{◌≡◌, ◌≤◌};
ghost use Rattle.pairs.specs.Pairs.{pairs_of, sort};
ghost use Rattle.walk.specs.Keys.{gather};
ghost use Rattle.subvolumes.specs.Steps.{state_pair};

use book::open::Book;
use pairs::SortedPairs;

// A book, and the sorted pairs of the live snapshots and tree records that its keys are: a group of pairs for each subvolume and each of both.
#[derive(Clone, Copy)]
pub struct States<'a, 'b> {
    pub book: Book<'a>,
    pub pairs: SortedPairs<'b>,
    pub ghost few: { pairs.count ≤ book.header.keys },
    pub ghost all: { pairs_of pairs.words.now pairs.count ≡ sort (gather state_pair book.bytes.now book.header.keys book.places.keys) },
}
