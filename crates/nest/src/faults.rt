// Whether a part of a nest is at fault: a number out of span, limits crossed, a dependence
// backward, equal to another or against the time vector.
ghost use Rattle.std.specs.Prelude.{◌≡◌, false, ℕ, ◌*◌, ◌/◌, ◌<◌, ◌≤◌, pos, nat_abs, [], length, map, take, get_or};
ghost use Rattle.std.specs.Prelude.{EachIndex, slice_index_or};
ghost use Rattle.std.specs.List.{list_any, zip};
ghost use Rattle.std.specs.Simd.{first_chunks};
ghost use Rattle.integers.specs.Lists.{repeats};
ghost use Rattle.integers.specs.Vector.{dots, eq_v};
ghost use Rattle.nest.specs.Nest.{max_depth, max_limit, max_component};
ghost use Rattle.nest.specs.Refusals.{outside, crossed, out_of_span, backward, against};

use crate::LoopNest;

// Whether x is not from low to high.
pub fn is_outside(low: i64, high: i64, x: i64) -> bool
    ensures { result ≡ outside low high x }
{
    !(low..=high).contains(&x)
}

// Whether a loop's limits are crossed or out of span.
fn is_crossed(lower: i64, upper: i64) -> bool
    ensures { result ≡ crossed (record { lower = lower; upper = upper }) }
{
    is_outside(-LoopNest::MAX_LIMIT, LoopNest::MAX_LIMIT, lower)
        || is_outside(-LoopNest::MAX_LIMIT, LoopNest::MAX_LIMIT, upper)
        || upper < lower
}

// Whether one of some numbers is not from low to high.
pub fn any_outside(xs: &[i64], low: i64, high: i64) -> bool
    ensures { result ≡ list_any (outside low high) xs.now }
{
    xs.iter().any(|x| is_outside(low, high, *x))
}

// Whether the limits of one of some loops are crossed or out of span.
pub fn any_crossed(lower: &[i64], upper: &[i64]) -> bool
    ensures { result ≡ list_any (λ l. crossed (record { lower = l.0; upper = l.1 })) (zip lower.now upper.now) }
{
    lower
        .iter()
        .zip(upper)
        .any(|(low, high)| is_crossed(*low, *high))
}

// Whether a dependence is zero or has a negative component before any positive one.
fn is_backward(dependence: &[i64]) -> bool
    ensures { result ≡ backward dependence.now }
{
    for component in dependence {
        if *component != 0 {
            return *component < 0;
        }
    }
    true
}

// Whether a component of a vector is out of span.
pub fn is_out_of_span(vector: &[i64]) -> bool
    ensures { result ≡ out_of_span vector.now }
{
    any_outside(vector, -LoopNest::MAX_COMPONENT, LoopNest::MAX_COMPONENT)
}

// Whether two dependences are equal.
// Kept: a loop over one with `enumerate`, and neither `==` nor a zip: with `==` the check of eight
// dependences of four components took two fifths more time.
fn are_equal(a: &[i64], b: &[i64]) -> bool
    ensures { result ≡ eq_v a.now b.now }
{
    if a.len() != b.len() {
        return false;
    }
    for (k, x) in a.iter().enumerate() {
        if *x != b[k] {
            return false;
        }
    }
    true
}

// The inner product of a time vector and as many numbers, which are in the span of an index.
// Kept: the sizes are asked of two single vectors, since a type for one would be made for this call
// alone, and taken apart in it.
pub fn inner_product(time: &[i64], xs: &[i64]) -> i64
    requires lengths { (length time.now ≡ length xs.now) × (length xs.now ≤ max_depth) }
    requires by_index { (k : ℕ) → k < length xs.now → (nat_abs (get_or time.now k (pos 0)) ≤ max_component)
        × (nat_abs (get_or xs.now k (pos 0)) ≤ max_limit) }
    ensures { result ≡ dots time.now xs.now }
{
    let mut sum: i64 = 0;
    // Kept: by a number and not by a zip, as in `are_equal`, for the time that it takes.
    for (k, p) in time.iter().enumerate() {
        sum += p * xs[k];
    }
    sum
}

// Whether P·d is below 1, of a time vector and as many components of a row, which are in span.
fn is_against(time: &[i64], row: &[i64; LoopNest::MAX_DEPTH]) -> bool
    requires lengths { length time.now ≤ max_depth }
    requires time_span { out_of_span time.now ≡ false }
    requires row_span { out_of_span (take (length time.now) row.now) ≡ false }
    ensures { result ≡ against time.now (take (length time.now) row.now) }
{
    inner_product(time, &row[..time.len()]) < 1
}

// Some dependences of n components, each in a row of its own.
// Kept: the methods differ in their predicate alone and are a line each; one function that takes
// the predicate would be given the same closures.
#[derive(Clone, Copy)]
pub struct Dependences<'a> {
    pub rows: &'a [[i64; LoopNest::MAX_DEPTH]],
    pub n: usize,
    ghost few: { n ≤ max_depth },
}

impl<'a> Dependences<'a> {
    // The first m of an array that has a place for each component.
    pub fn new(dependences: &'a [i64], m: usize, n: usize) -> Dependences<'a>
        requires { (n ≤ max_depth) × (m * max_depth ≤ length dependences.now) }
        ensures depth { result.n ≡ n }
        ensures rows { result.rows.now ≡ take m
            (first_chunks max_depth (length dependences.now / max_depth) dependences.now) }
    {
        let (rows, _) = dependences.as_chunks::<{ LoopNest::MAX_DEPTH }>();
        Dependences {
            rows: &rows[..m],
            n,
        }
    }

    // Whether one of them has a component out of span.
    pub fn any_out_of_span(&self) -> bool
        ensures { result ≡ list_any (λ row. out_of_span (take self.now.n row)) self.now.rows.now }
    {
        self.rows.iter().any(|row| is_out_of_span(&row[..self.n]))
    }

    // Whether one of them is backward.
    pub fn any_backward(&self) -> bool
        ensures { result ≡ list_any (λ row. backward (take self.now.n row)) self.now.rows.now }
    {
        self.rows.iter().any(|row| is_backward(&row[..self.n]))
    }

    // Whether one of them is equal to a dependence.
    fn has(&self, dependence: &[i64]) -> bool
        ensures { result ≡ list_any (λ row. eq_v dependence.now (take self.now.n row)) self.now.rows.now }
    {
        self.rows
            .iter()
            .any(|row| are_equal(dependence, &row[..self.n]))
    }

    // Whether two of them are equal.
    pub fn any_equal(&self) -> bool
        ensures { result ≡ repeats eq_v (map (take self.now.n) self.now.rows.now) }
    {
        let n = self.n;
        let mut rest = self.rows;
        while let Some((first, rows)) = rest.split_first() {
            if (Dependences { rows, n }).has(&first[..n]) {
                return true;
            }
            rest = rows;
        }
        false
    }

    // Whether P·d is below 1 for one of them, where all are in span.
    pub fn any_against(&self, time: &[i64]) -> bool
        requires lengths { length time.now ≡ self.now.n }
        requires time_span { out_of_span time.now ≡ false }
        requires row_spans { EachIndex self.now.rows.now
            (λ i. out_of_span (take self.now.n (slice_index_or self.now.rows.now i [])) ≡ false) }
        ensures { result ≡ list_any (λ row. against time.now (take self.now.n row)) self.now.rows.now }
    {
        self.rows.iter().any(|row| is_against(time, row))
    }
}
