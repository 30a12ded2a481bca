//! Searches of sorted elements.

ghost use Rattle.std.specs.Prelude.{◌≡◌, ◌≤◌, length, true};
ghost use Rattle.std.specs.List.Sorted.{IsSorted};
ghost use Rattle.ck_judge.specs.Searches.{EndsAt, EndsFrom, EndsUpTo};

/// The elements from one index on, up to another.
#[derive(Clone, Copy, Debug)]
pub struct Span {
    pub from: usize,
    pub to: usize,
}

/// The index of the first of the sorted elements that isn't below x, or their number. It looks in the span alone where
/// the search ends there, which takes time in the logarithm of its length, and else among all.
pub fn first_not_below<T: Ord>(elements: &[T], x: &T, span: Span) -> usize
    requires { IsSorted T.cmp elements.now }
    ensures { EndsAt T.cmp elements.now x.now result }
{
    let Span { from, to } = span;
    if from <= to
        && to <= elements.len()
        && ends_from(elements, x, from)
        && ends_up_to(elements, x, to)
    {
        search(elements, x, from, to)
    } else {
        search(elements, x, 0, elements.len())
    }
}

// Whether the search ends at this index or after it.
fn ends_from<T: Ord>(elements: &[T], x: &T, from: usize) -> bool
    requires { from ≤ length elements.now }
    ensures { result ≡ true → EndsFrom T.cmp elements.now x.now from }
{
    from == 0 || elements[from - 1].cmp(x).is_lt()
}

// Whether it ends at this index or before it.
fn ends_up_to<T: Ord>(elements: &[T], x: &T, to: usize) -> bool
    requires { to ≤ length elements.now }
    ensures { result ≡ true → EndsUpTo T.cmp elements.now x.now to }
{
    to == elements.len() || !elements[to].cmp(x).is_lt()
}

// Halves what is between the two until nothing is.
fn search<T: Ord>(elements: &[T], x: &T, from: usize, to: usize) -> usize
    requires sorted { IsSorted T.cmp elements.now }
    requires within { (from ≤ to) × (to ≤ length elements.now) }
    requires below { EndsFrom T.cmp elements.now x.now from }
    requires above { EndsUpTo T.cmp elements.now x.now to }
    ensures { EndsAt T.cmp elements.now x.now result }
{
    let mut low = from;
    let mut high = to;
    while low < high {
        let middle = low + (high - low) / 2;
        if elements[middle].cmp(x).is_lt() {
            low = middle + 1;
        } else {
            high = middle;
        }
    }
    low
}
