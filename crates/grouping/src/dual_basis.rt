// The vectors that are chosen for a time vector P, with those that give coordinates along them.
ghost use Rattle.std.specs.Prelude.{◌≤◌};
ghost use Rattle.grouping.specs.Framed.{FramedIn, FramedIn-prop};
ghost use Rattle.grouping.specs.Limits.{max_group_size};

use crate::MAX_CHOSEN;
use numbering::Row;

// Kept: two arrays, since the definitions (`FramedIn`) take the vectors and their duals so.
// What does not depend on the iteration: P and three more vectors of a basis, the first `count` of
// them the chosen ones, and the vectors that give coordinates in it (specs/Framed.antt).
#[derive(Clone, Copy)]
pub struct Basis {
    pub p: Row,
    pub vectors: [Row; MAX_CHOSEN],
    pub duals: [Row; MAX_CHOSEN],
    pub d: i64,
    pub count: usize,
    ghost framed: { FramedIn p count vectors duals d } by { FramedIn-prop p count vectors duals d },
}

// A basis and the group size r by which coordinates along its grouping vector are divided.
#[derive(Clone, Copy)]
pub struct SizedBasis {
    pub basis: Basis,
    pub r: usize,
    pub ghost size: { (1 ≤ r) × (r ≤ max_group_size) },
}
