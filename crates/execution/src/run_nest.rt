// What a move asks of the nest that it runs, however that nest is stored.
ghost use Rattle.std.specs.Prelude.{◌≡◌, ◌<◌, [], length};
ghost use Rattle.nest.specs.declared.LoopNest.{LoopNest};
ghost use Rattle.nest.specs.Nest.{count_of, padded, max_depth};
ghost use Rattle.nest.specs.Points.{points_of, point};
ghost use Rattle.nest.specs.Refusals.{refusal};
ghost use Rattle.nest.specs.Sources.{source_rank};
ghost use Rattle.execution.specs.Inner.{option_in};

use nest::AcceptedNest;

// An accepted nest, in whatever form: a move is made on any such one.
pub trait RunNest {
    // The nest that it is.
    ghost nest_of: { Self → LoopNest };

    // How many iterations the nest has.
    fn iterations(&self) -> usize
        ensures { result ≡ length (points_of (nest_of self.now)) };

    // How many dependences it has.
    fn count(&self) -> usize
        ensures { result ≡ count_of (nest_of self.now) };

    // The rank of the source of iteration k along dependence i; none where the source is none of
    // the iterations.
    fn source(&self, k: usize, i: usize) -> Option<usize>
        requires { (k < length (points_of (nest_of self.now))) × (i < count_of (nest_of self.now)) }
        ensures { option_in result ≡ source_rank (nest_of self.now) k i };

    // The nest itself, for a compute.
    fn copied(&self) -> AcceptedNest
        ensures { result.nest ≡ nest_of self.now };

    // It is accepted.
    ghost accepted: { (s : Self) → refusal (nest_of s) ≡ 0 };
}

impl RunNest for AcceptedNest {
    ghost nest_of = { λ s. s.nest };

    ghost accepted = { λ s. s.accepted };

    // As it was counted.
    fn iterations(&self) -> usize {
        self.iterations
    }

    // Its own.
    fn count(&self) -> usize {
        AcceptedNest::count(self)
    }

    // Kept: by its own methods; the source by its loops' `source_rank` would ask for the sizes of
    // the dependence again.
    fn source(&self, k: usize, i: usize) -> Option<usize> {
        self.source_at(self.point_of(k), i)
    }

    // Itself.
    fn copied(&self) -> AcceptedNest {
        *self
    }
}
