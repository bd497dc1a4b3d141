// Searches among items that stand in order: one trait, and the ways to look for a place among them.
#![tactic(auto)]

ghost use Rattle.std.specs.Prelude.{◌≡◌, ℕ, ◌+◌, ◌*◌, ◌^◌, ◌≤◌, ◌<◌, Bool, true, false};
ghost use Rattle.search.specs.Bound.{LowerBound, Bracket};

// Items in order, each of which can be compared with what is sought.
pub trait Ordered {
    type Target: Copy;

    // Item i, as a number: the items are in the order of these.
    ghost number: { Self → ℕ → ℕ };

    ghost count: { Self → ℕ };

    ghost target: { Self.Target → ℕ };

    // A step from a place near that is taken no more: all items on that side are searched then, so that a place far away costs few tries more.
    const FAR: usize;

    fn len(&self) -> usize
        ensures value { result ≡ count self.now }
        ensures few { result < 2 ^ 62 };

    // Whether item i is below x, and so each before it; else none from it on is. Computed with no branch, for the turns of a search that halves.
    fn is_below(&self, i: usize, x: Self::Target) -> bool
        requires { i < count self.now }
        ensures below { result ≡ true → Bracket (number self.now) (count self.now) (target x) (i + 1) (count self.now) }
        ensures not_below { result ≡ false → Bracket (number self.now) (count self.now) (target x) 0 i };

    // Whether i is known to be the place of x, by item i alone.
    fn is_place(&self, i: usize, x: Self::Target) -> bool
        requires { i < count self.now }
        ensures { result ≡ true → LowerBound (number self.now) (count self.now) (target x) i };

    // The same as `is_below`, for a try near a place: it may go by branches where these are quicker.
    #[inline]
    fn is_below_by_branch(&self, i: usize, x: Self::Target) -> bool
        requires { i < count self.now }
        ensures below { result ≡ true → Bracket (number self.now) (count self.now) (target x) (i + 1) (count self.now) }
        ensures not_below { result ≡ false → Bracket (number self.now) (count self.now) (target x) 0 i }
    {
        self.is_below(i, x)
    }
}

// Places among items: those from `low` to `high`.
#[derive(Clone, Copy)]
pub struct Window {
    pub low: usize,
    pub high: usize,
}

// How many items are below x: a number in the window. It is base or more, and at most base + size. A turn halves the size whichever way the comparison
// goes, and both choices compile to moves, so that no branch depends on an item.
#[inline]
fn bound_within<S: Ordered>(items: &S, window: Window, x: S::Target) -> usize
    requires { Bracket (S.number items.now) (S.count items.now) (S.target x) window.low window.high }
    ensures { LowerBound (S.number items.now) (S.count items.now) (S.target x) result }
{
    let mut base = window.low;
    let mut size = window.high - window.low;
    while 0 < size {
        let mid = base + (size - 1) / 2;
        let past = if items.is_below(mid, x) {
            mid + 1
        } else {
            base
        };
        base = if items.is_place(mid, x) { mid } else { past };
        size /= 2;
    }
    base
}

// How many items are below x.
#[inline]
pub fn lower_bound<S: Ordered>(items: &S, x: S::Target) -> usize
    ensures { LowerBound (S.number items.now) (S.count items.now) (S.target x) result }
{
    let all = Window {
        low: 0,
        high: items.len(),
    };
    bound_within(items, all, x)
}

// A window with the place of x, which is not before `from`: items from there on are tried, by steps that double.
#[inline]
fn window_up<S: Ordered>(items: &S, from: usize, x: S::Target) -> Window
    requires { Bracket (S.number items.now) (S.count items.now) (S.target x) from (S.count items.now) }
    ensures { Bracket (S.number items.now) (S.count items.now) (S.target x) result.low result.high }
{
    let count = items.len();
    let mut low = from;
    let mut step = 1;
    while step < S::FAR && step <= count - low {
        let i = low + step - 1;
        if !items.is_below_by_branch(i, x) {
            return Window { low, high: i };
        }
        low = i + 1;
        step *= 2;
    }
    Window { low, high: count }
}

// A window with the place of x, which is not after `to`: items before that are tried, by steps that double.
#[inline]
fn window_down<S: Ordered>(items: &S, to: usize, x: S::Target) -> Window
    requires few { S.count items.now < 2 ^ 62 }
    requires place { Bracket (S.number items.now) (S.count items.now) (S.target x) 0 to }
    ensures { Bracket (S.number items.now) (S.count items.now) (S.target x) result.low result.high }
{
    let mut high = to;
    let mut step = 1;
    while step < S::FAR && step <= high {
        let i = high - step;
        if items.is_place(i, x) {
            return Window { low: i, high: i };
        }
        if items.is_below_by_branch(i, x) {
            return Window { low: i + 1, high };
        }
        high = i;
        step *= 2;
    }
    Window { low: 0, high }
}

// A window with the place of x, found from item `near` upwards or downwards; of all items, where `near` is their count.
#[inline]
fn window_near<S: Ordered>(items: &S, near: usize, x: S::Target) -> Window
    requires { near ≤ S.count items.now }
    ensures { Bracket (S.number items.now) (S.count items.now) (S.target x) result.low result.high }
{
    if near == items.len() {
        return Window { low: 0, high: near };
    }
    if items.is_place(near, x) {
        return Window {
            low: near,
            high: near,
        };
    }
    if items.is_below_by_branch(near, x) {
        return window_up(items, near + 1, x);
    }
    window_down(items, near, x)
}

// The same as `lower_bound`, looked for from a place near by steps that double; from the count, it is among all items.
#[inline]
pub fn lower_bound_near<S: Ordered>(items: &S, near: usize, x: S::Target) -> usize
    requires near_inside { near ≤ S.count items.now }
    ensures { LowerBound (S.number items.now) (S.count items.now) (S.target x) result }
{
    let window = window_near(items, near, x);
    bound_within(items, window, x)
}
