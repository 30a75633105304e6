// A loop nest held as numbers (document 01: sheet), its spans, its refusals 2 to
// 13, and its index points.
#![tactic(auto)]

mod accepted_nest;
mod faults;
mod lent;
mod loops;
mod points;
mod refusals;
mod source;

ghost use Rattle.std.specs.Prelude.{◌≡◌, pos, set};
ghost use Rattle.nest.specs.Nest.{empty_nest, with_shape, with_limits, with_time, with_dependence, with_boundary};
ghost use Rattle.nest.specs.Nest.{with_every_boundary, with_weight, to_ℕ, max_depth, max_dependences, max_cube};
ghost use Rattle.nest.specs.Nest.{max_limit, max_iterations, max_component, max_boundary, max_weight};
ghost use Rattle.nest.specs.NestParts.{nest_of_parts};

pub use crate::accepted_nest::AcceptedNest;
pub use crate::faults::{inner_product, is_outside};
pub use crate::lent::NestParts;
pub use crate::loops::Loops;
pub use crate::points::{distance, extent_of};
pub use crate::refusals::{
    Refusal, accept, check, check_header, check_parts, check_room, inspect, inspect_parts,
};
pub use crate::source::dependence_at;

// A loop nest. Every field may hold any number; `check` says whether the nest is accepted. Of each
// array the first `depth` or `count` places are part of the nest, and the others are ignored.
#[derive(Clone, Copy)]
pub struct LoopNest {
    // document 01: depth n
    pub depth: i64,
    // number of dependences m (document 01: offsets)
    pub count: i64,
    // dimension c of the hypercube; there are 2^c processors
    pub cube: i64,
    // the limits of each loop, outermost first
    pub lower: [i64; LoopNest::MAX_DEPTH],
    pub upper: [i64; LoopNest::MAX_DEPTH],
    // the time vector P (document 01: clock)
    pub time: [i64; LoopNest::MAX_DEPTH],
    // component k of dependence i is at place i * MAX_DEPTH + k
    pub dependences: [i64; LoopNest::MAX_DEPTH * LoopNest::MAX_DEPENDENCES],
    // one for each dependence: what a source outside the index points reads as that was reached by
    // it (document 02, U1: edges)
    pub boundaries: [i64; LoopNest::MAX_DEPENDENCES],
    // one for each dependence
    pub weights: [i64; LoopNest::MAX_DEPENDENCES],
}

impl LoopNest {
    pub const MAX_DEPTH: usize = 4;

    pub const MAX_DEPENDENCES: usize = 8;

    pub const MAX_CUBE: i64 = 6;

    pub const MAX_LIMIT: i64 = 1000;

    pub const MAX_ITERATIONS: usize = 4096;

    pub const MAX_COMPONENT: i64 = 16;

    pub const MAX_BOUNDARY: i64 = 65535;

    pub const MAX_WEIGHT: i64 = 255;

    // A nest with 0 in every place. It also says that the spans that the definitions name
    // are the constants above.
    pub fn empty() -> LoopNest
        ensures value { result ≡ empty_nest }
        ensures shape_spans { (LoopNest.MAX_DEPTH ≡ max_depth) × (LoopNest.MAX_DEPENDENCES ≡ max_dependences)
            × (LoopNest.MAX_CUBE ≡ pos max_cube) × (LoopNest.MAX_ITERATIONS ≡ max_iterations) }
        ensures number_spans { (LoopNest.MAX_LIMIT ≡ pos max_limit) × (LoopNest.MAX_COMPONENT ≡ pos max_component)
            × (LoopNest.MAX_BOUNDARY ≡ pos max_boundary) × (LoopNest.MAX_WEIGHT ≡ pos max_weight) }
    {
        LoopNest {
            depth: 0,
            count: 0,
            cube: 0,
            lower: [0; LoopNest::MAX_DEPTH],
            upper: [0; LoopNest::MAX_DEPTH],
            time: [0; LoopNest::MAX_DEPTH],
            dependences: [0; LoopNest::MAX_DEPTH * LoopNest::MAX_DEPENDENCES],
            boundaries: [0; LoopNest::MAX_DEPENDENCES],
            weights: [0; LoopNest::MAX_DEPENDENCES],
        }
    }

    // The nest in its parts.
    pub fn parts<'a>(&'a self) -> NestParts<'a>
        ensures { nest_of_parts result ≡ self.now }
    {
        NestParts {
            depth: self.depth,
            count: self.count,
            cube: self.cube,
            lower: &self.lower,
            upper: &self.upper,
            time: &self.time,
            dependences: &self.dependences,
            boundaries: &self.boundaries,
            weights: &self.weights,
        }
    }

    // The same nest with depth n, m dependences and cube dimension c.
    pub fn with_shape(self, depth: i64, count: i64, cube: i64) -> LoopNest
        ensures { result ≡ with_shape self depth count cube }
    {
        LoopNest {
            depth,
            count,
            cube,
            ..self
        }
    }

    // The same nest with other limits of loop k, counted from 0 at the outermost; unchanged
    // where there is no such place.
    pub fn with_limits(self, k: usize, lower: i64, upper: i64) -> LoopNest
        ensures { result ≡ with_limits self k lower upper }
    {
        LoopNest {
            lower: with_place(self.lower, k, lower),
            upper: with_place(self.upper, k, upper),
            ..self
        }
    }

    // The same nest with another component k of the time vector; unchanged
    // where there is no such place.
    pub fn with_time(self, k: usize, component: i64) -> LoopNest
        ensures { result ≡ with_time self k component }
    {
        LoopNest {
            time: with_place(self.time, k, component),
            ..self
        }
    }

    // The same nest with another component k of dependence i; unchanged where
    // there is no such place.
    pub fn with_dependence(self, i: usize, k: usize, component: i64) -> LoopNest
        ensures { result ≡ with_dependence self i k component }
    {
        let mut s = self;
        if i < LoopNest::MAX_DEPENDENCES && k < LoopNest::MAX_DEPTH {
            s.dependences[i * LoopNest::MAX_DEPTH + k] = component;
        }
        s
    }

    // The same nest with another boundary value of dependence i; unchanged where there is no such
    // place.
    pub fn with_boundary(self, i: usize, boundary: i64) -> LoopNest
        ensures { result ≡ with_boundary self i boundary }
    {
        LoopNest {
            boundaries: with_place(self.boundaries, i, boundary),
            ..self
        }
    }

    // The same nest with one boundary value for every dependence.
    pub fn with_every_boundary(self, boundary: i64) -> LoopNest
        ensures { result ≡ with_every_boundary self boundary }
    {
        LoopNest {
            boundaries: [boundary; LoopNest::MAX_DEPENDENCES],
            ..self
        }
    }

    // The same nest with another weight of dependence i; unchanged where there is no such place.
    pub fn with_weight(self, i: usize, weight: i64) -> LoopNest
        ensures { result ≡ with_weight self i weight }
    {
        LoopNest {
            weights: with_place(self.weights, i, weight),
            ..self
        }
    }
}

// An array with another number at place i; unchanged where there is no such place.
fn with_place<const N: usize>(mut array: [i64; N], i: usize, value: i64) -> [i64; N]
    ensures { result ≡ set array.entry i value }
{
    // Kept: a test and an index, since the proof with `get_mut` didn't close.
    if i < N {
        array[i] = value;
    }
    array
}

// A number that is not negative as a size; 0 for a negative one.
pub fn to_size(x: i64) -> usize
    ensures { result ≡ to_ℕ x }
{
    usize::try_from(x).unwrap_or(0)
}
