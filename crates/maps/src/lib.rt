// The maps that rules make from the keys, as sorted pairs in the work words.
#![tactic(auto)]

ghost use Rattle.std.specs.Prelude.{◌≡◌, ◌+◌, ◌*◌, ◌^◌, ◌≤◌, ◌<◌, length, drop};
ghost use Rattle.pairs.specs.Pairs.{pair, pair_at, pairs_of, count_below};
ghost use Rattle.maps.specs.Places.{is_for, last_place, goes_on};
ghost use Rattle.maps.specs.Sorted.{last_at};

use pairs::SortedPairs;

// Whether pair i is of a map and has a number.
fn is_for(w: &[u64], i: usize, which: u64, number: u64) -> bool
    requires { 2 * i + 1 < length w.now }
    ensures { result ≡ is_for which number (pair_at w.now i) }
{
    let p = 2 * i;
    let first = w[p];
    let second = w[p + 1];
    (first == number) & (second / 0x1_0000_0000 == which)
}

// The place in the last pair of a map with a number: r pairs are below those that come after it.
fn place_before(pairs: SortedPairs<'_>, r: usize, which: u64, number: u64) -> Option<u64>
    requires { (which < 4) × (r ≡ count_below (pair number ((which + 1) * 2 ^ 32)) (pairs_of pairs.words.now pairs.count)) }
    ensures { result ≡ last_place which number (pairs_of pairs.entry.words.now pairs.entry.count) }
{
    if r == 0 {
        return None;
    }
    if is_for(pairs.words, r - 1, which, number) {
        Some(pairs.second(r - 1) % 0x1_0000_0000)
    } else {
        None
    }
}

// The place in the last pair of a map with a number.
pub fn find_place(pairs: SortedPairs<'_>, which: u64, number: u64) -> Option<u64>
    requires { which < 4 }
    ensures { result ≡ last_place which number (pairs_of pairs.entry.words.now pairs.entry.count) }
{
    let r = pairs.lower_bound(number, (which + 1) * 0x1_0000_0000);
    place_before(pairs, r, which, number)
}

// The same, looked for from pair `from` on, where the pairs of the number start no earlier.
pub fn find_place_from(pairs: SortedPairs<'_>, from: usize, which: u64, number: u64) -> Option<u64>
    requires { (which < 4) × (from ≤ pairs.count) }
    ensures { result ≡ last_place which number (pairs_of pairs.entry.words.now pairs.entry.count) }
{
    let r = pairs.lower_bound_from(from, number, (which + 1) * 0x1_0000_0000);
    place_before(pairs, r, which, number)
}

// The same, looked for from pair `near` by steps that double.
pub fn find_place_near(pairs: SortedPairs<'_>, near: usize, which: u64, number: u64) -> Option<u64>
    requires { (which < 4) × (near ≤ pairs.count) }
    ensures { result ≡ last_place which number (pairs_of pairs.entry.words.now pairs.entry.count) }
{
    let r = pairs.lower_bound_near(near, number, (which + 1) * 0x1_0000_0000);
    place_before(pairs, r, which, number)
}

// Whether there is a pair i among the first n, of a map and with a number.
fn goes_on(w: &[u64], n: usize, i: usize, which: u64, number: u64) -> bool
    requires { 2 * n ≤ length w.now }
    ensures { result ≡ goes_on which number (drop i (pairs_of w.now n)) }
{
    if i < n {
        return is_for(w, i, which, number);
    }
    false
}

// Whether pair i of the first n is of a map, and the last of its number.
pub fn is_last(w: &[u64], n: usize, i: usize, which: u64) -> bool
    requires { (2 * n ≤ length w.now) × (i < n) × (which < 4) }
    ensures { result ≡ last_at which (drop i (pairs_of w.now n)) }
{
    let p = 2 * i;
    let number = w[p];
    let own = is_for(w, i, which, number);
    let more = goes_on(w, n, i + 1, which, number);
    own & !more
}
