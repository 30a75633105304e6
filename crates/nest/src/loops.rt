// Some loops whose limits are not crossed: how many index points they have, the point of a rank and
// the rank of a point.
ghost use Rattle.std.specs.Prelude.{◌≡◌, false, ◌<◌, ◌≤◌, [], length, get_or};
ghost use Rattle.integers.specs.Lists.{any};
ghost use Rattle.nest.specs.Nest.{padded, depth_of, limits_in, limits_of, max_depth};
ghost use Rattle.nest.specs.NestParts.{nest_of_parts};
ghost use Rattle.nest.specs.Points.{points, point_count, place_of};
ghost use Rattle.nest.specs.Refusals.{crossed, refusal};

use crate::faults::is_outside;
use crate::points::{distance, extent_of, index_at};
use crate::{LoopNest, NestParts, to_size};

// The limits of some loops, outermost first, none of which are crossed.
#[derive(Clone, Copy)]
pub struct Loops<'a> {
    pub lower: &'a [i64],
    pub upper: &'a [i64],
    ghost lengths: { (length lower.now ≤ max_depth) × (length upper.now ≡ length lower.now) },
    ghost limits: { any crossed (limits_in lower.now upper.now) ≡ false },
}

impl Loops<'_> {
    // The number of their index points.
    pub fn point_count(&self) -> u64
        ensures { result ≡ point_count (limits_in self.now.lower.now self.now.upper.now) }
    {
        let mut total: u64 = 1;
        for (low, high) in self.lower.iter().zip(self.upper) {
            total *= extent_of(*low, *high);
        }
        total
    }

    // The index point of a rank, with 0 in the places behind the depth. From the innermost loop
    // outward, each index is what the extent of its loop leaves of the rank; the outermost is what
    // is left.
    pub fn point_at(&self, rank: usize) -> [i64; LoopNest::MAX_DEPTH]
        requires some { 1 ≤ length self.now.lower.now }
        requires point { rank < point_count (limits_in self.now.lower.now self.now.upper.now) }
        ensures { result ≡ padded max_depth
            (get_or (points (limits_in self.now.lower.now self.now.upper.now)) rank []) }
    {
        let mut point = [0i64; LoopNest::MAX_DEPTH];
        let mut rest = rank as u64;
        // Kept: k goes down through three arrays. Of a `rev` behind a `zip` a proof learns nothing,
        // and one on each array in front of it is no plainer.
        for k in (1..self.lower.len()).rev() {
            let extent = extent_of(self.lower[k], self.upper[k]);
            point[k] = index_at(self.lower[k], rest % extent);
            rest /= extent;
        }
        point[0] = index_at(self.lower[0], rest);
        point
    }

    // The rank of a point; none where it is none of the index points.
    pub fn rank_of(&self, point: &[i64]) -> Option<usize>
        requires { length point.now ≡ length self.now.lower.now }
        ensures { result ≡ place_of (points (limits_in self.now.lower.now self.now.upper.now)) point.now }
    {
        let mut rank: u64 = 0;
        for ((low, high), index) in self.lower.iter().zip(self.upper).zip(point) {
            if is_outside(*low, *high, *index) {
                return None;
            }
            rank = rank * extent_of(*low, *high) + distance(*low, *index);
        }
        Some(rank as usize)
    }
}

impl<'a> NestParts<'a> {
    // The loops of an accepted nest.
    pub fn loops(&self) -> Loops<'a>
        requires { refusal (nest_of_parts self.now) ≡ 0 }
        ensures depth { length result.lower.now ≡ depth_of (nest_of_parts self.now) }
        ensures limits { limits_in result.lower.now result.upper.now ≡ limits_of (nest_of_parts self.now) }
    {
        let n = to_size(self.depth);
        Loops {
            lower: &self.lower[..n],
            upper: &self.upper[..n],
        }
    }
}
