// The source of an iteration along a dependence: the point, and its rank.
ghost use Rattle.std.specs.Prelude.{◌≡◌, ℕ, ◌+◌, ◌*◌, ◌<◌, ◌≤◌, pos, nat_abs, [], length, get_or};
ghost use Rattle.nest.specs.Nest.{padded, limits_in, dependence_at, max_depth, max_limit};
ghost use Rattle.nest.specs.Nest.{max_iterations, max_component};
ghost use Rattle.nest.specs.Points.{points, point_count, place_of, source};

use crate::faults::is_outside;
use crate::points::{distance, extent_of, index_at};
use crate::{LoopNest, Loops};

// The components of dependence i, of n components, in the array of the dependences.
// Kept: the field of a `LoopNest` is one array, as the C interface lends it, and is cut by places.
pub fn dependence_at(dependences: &[i64], n: usize, i: usize) -> &[i64]
    requires { i * max_depth + n ≤ length dependences.now }
    ensures { result.now ≡ dependence_at dependences.now n i }
{
    let from = i * LoopNest::MAX_DEPTH;
    &dependences[from..from + n]
}

// A point less a dependence, with 0 in the places behind the depth; both are in span.
// Kept: the sizes are asked of two single vectors, as in `inner_product`. One function for this and
// the `difference` of four numbers in `numbering` would take slices and ask what both ask.
pub fn difference(point: &[i64], dependence: &[i64]) -> [i64; LoopNest::MAX_DEPTH]
    requires lengths { (length point.now ≤ max_depth) × (length dependence.now ≡ length point.now) }
    requires by_index { (k : ℕ) → k < length point.now → (nat_abs (get_or point.now k (pos 0)) ≤ max_limit)
        × (nat_abs (get_or dependence.now k (pos 0)) ≤ max_component) }
    ensures { result ≡ padded max_depth (source point.now dependence.now) }
{
    let mut source = [0i64; LoopNest::MAX_DEPTH];
    // Kept: entries by index, since of what is written through a zip a proof learns nothing.
    for (k, (index, component)) in point.iter().zip(dependence).enumerate() {
        source[k] = index - component;
    }
    source
}

impl Loops<'_> {
    // The rank of the source of an iteration along a dependence; none where the source is none of
    // the index points. From the innermost loop outward, each index is what the extent of its loop
    // leaves of the iteration's rank.
    // Kept: the sizes are asked of a single vector, as in `inner_product`.
    pub fn source_rank(&self, dependence: &[i64], iteration: usize) -> Option<usize>
        requires lengths { length dependence.now ≡ length self.now.lower.now }
        requires limits { (point_count (limits_in self.now.lower.now self.now.upper.now) ≤ max_iterations)
            × (iteration < point_count (limits_in self.now.lower.now self.now.upper.now)) }
        requires by_index { (k : ℕ) → k < length dependence.now
            → nat_abs (get_or dependence.now k (pos 0)) ≤ max_component }
        ensures { result ≡ place_of (points (limits_in self.now.lower.now self.now.upper.now))
            (source (get_or (points (limits_in self.now.lower.now self.now.upper.now)) iteration [])
            dependence.now) }
    {
        let mut rest = iteration as u64;
        let mut stride: u64 = 1;
        let mut at: u64 = 0;
        // Kept: k goes down through three arrays. Of a `rev` behind a `zip` a proof learns nothing,
        // and one on each array in front of it is no plainer.
        for k in (0..self.lower.len()).rev() {
            let low = self.lower[k];
            let high = self.upper[k];
            let extent = extent_of(low, high);
            let index = index_at(low, rest % extent) - dependence[k];
            if is_outside(low, high, index) {
                return None;
            }
            at += distance(low, index) * stride;
            stride *= extent;
            rest /= extent;
        }
        Some(at as usize)
    }
}
