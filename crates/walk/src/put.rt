// What a rule gathers from the keys of a book before it judges: pairs of words in the work area.

ghost use Rattle.std.specs.Prelude.{◌≡◌, ℕ, List, ◌*◌, ◌≤◌, length};
ghost use Rattle.pairs.specs.Pairs.{pairs_of};
ghost use Rattle.book.specs.Book.{Bkey};
ghost use Rattle.walk.specs.Keys.{gather};
ghost use Rattle.walk.specs.Gives.{Gives};

use book::open::{Book, Key};

// Puts the pair that `pair_of` makes of each key, if it makes one, in key order, and returns their number.
pub fn put_pairs<F: Fn(Key<'_>) -> Option<(u64, u64)>>(
    book: Book<'_>,
    pair_of: F,
    work: &mut [u64],
) -> usize
    ghost of: { ℕ → Bkey → List ℕ }
    requires callable { F.IsAlwaysCallable pair_of }
    requires gives { Gives of (F.post pair_of) }
    requires room { 2 * book.header.keys ≤ length work.old }
    ensures put { pairs_of work.new result ≡ gather of book.entry.bytes.now book.entry.header.keys book.entry.places.keys }
    ensures few { result ≤ book.entry.header.keys }
{
    let mut n = 0;
    for key in book.keys() {
        if let Some((first, second)) = pair_of(key) {
            pairs::put_pair(work, n, first, second);
            n += 1;
        }
    }
    n
}
