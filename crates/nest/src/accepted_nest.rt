// A nest that is known to be accepted.
ghost use Rattle.std.specs.Prelude.{◌≡◌, true, ◌<◌, [], length, get_or};
ghost use Rattle.nest.specs.Nest.{depth_of, count_of, limits_in, limits_of, to_ℕ, part, padded, max_depth};
ghost use Rattle.nest.specs.Points.{points_of, place_of, is_point, source};
ghost use Rattle.nest.specs.Refusals.{refusal, dependence};

use crate::source::{dependence_at, difference};
use crate::{LoopNest, Loops, to_size};

// An accepted nest, and how many iterations it has.
#[derive(Clone, Copy)]
pub struct AcceptedNest {
    pub nest: LoopNest,
    pub iterations: usize,
    ghost accepted: { refusal nest ≡ 0 },
    ghost counted: { iterations ≡ length (points_of nest) },
}

impl AcceptedNest {
    // Of a nest whose refusal is known to be 0: it is not checked again, and cannot be refused.
    pub fn new(nest: LoopNest) -> AcceptedNest
        requires { refusal nest ≡ 0 }
        ensures { result.nest ≡ nest }
    {
        let iterations = nest.parts().loops().point_count() as usize;
        AcceptedNest { nest, iterations }
    }

    // How many loops it has.
    pub fn depth(&self) -> usize
        ensures { result ≡ depth_of self.now.nest }
    {
        to_size(self.nest.depth)
    }

    // How many dependences it has.
    pub fn count(&self) -> usize
        ensures { result ≡ count_of self.now.nest }
    {
        to_size(self.nest.count)
    }

    // The dimension of its hypercube.
    pub fn cube(&self) -> usize
        ensures { result ≡ to_ℕ self.now.nest.cube }
    {
        to_size(self.nest.cube)
    }

    // Its loops.
    fn loops<'a>(&'a self) -> Loops<'a>
        ensures depth { length result.lower.now ≡ depth_of self.now.nest }
        ensures limits { limits_in result.lower.now result.upper.now ≡ limits_of self.now.nest }
    {
        self.nest.parts().loops()
    }

    // The index point of a rank, with 0 in the places behind the depth.
    pub fn point_of(&self, rank: usize) -> [i64; LoopNest::MAX_DEPTH]
        requires { rank < length (points_of self.now.nest) }
        ensures { result ≡ padded max_depth (get_or (points_of self.now.nest) rank []) }
    {
        self.loops().point_at(rank)
    }

    // The rank of a point; none where it is none of the index points.
    pub fn rank_of(&self, point: [i64; LoopNest::MAX_DEPTH]) -> Option<usize>
        ensures { result ≡ place_of (points_of self.now.nest) (part point 0 (depth_of self.now.nest)) }
    {
        self.loops().rank_of(&point[..self.depth()])
    }

    // Kept: point and number are clauses here and below, since a point is an array that callers
    // have from `point_of`, and a type for it would be unwrapped at once.
    // The source of an index point along dependence i, with 0 in the places behind the depth.
    pub fn source_of(
        &self,
        point: [i64; LoopNest::MAX_DEPTH],
        i: usize,
    ) -> [i64; LoopNest::MAX_DEPTH]
        requires { (is_point (points_of self.now.nest) (part point 0 (depth_of self.now.nest)) ≡ true)
            × (i < count_of self.now.nest) }
        ensures { result ≡ padded max_depth
            (source (part point 0 (depth_of self.now.nest)) (dependence self.now.nest i)) }
    {
        let n = self.depth();
        difference(&point[..n], dependence_at(&self.nest.dependences, n, i))
    }

    // The rank of the source of an index point along dependence i; none where the source is none of
    // the iterations.
    pub fn source_at(&self, point: [i64; LoopNest::MAX_DEPTH], i: usize) -> Option<usize>
        requires { (is_point (points_of self.now.nest) (part point 0 (depth_of self.now.nest)) ≡ true)
            × (i < count_of self.now.nest) }
        ensures { result ≡ place_of (points_of self.now.nest)
            (source (part point 0 (depth_of self.now.nest)) (dependence self.now.nest i)) }
    {
        let source = self.source_of(point, i);
        self.rank_of(source)
    }
}
