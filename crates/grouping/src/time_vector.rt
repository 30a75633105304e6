// A time vector, and what is asked of one vector to choose from (000, algorithm 1, steps 1 and 2).
// Kept: a clause and no type says that this one is in span, as in arithmetic.rt.
ghost use Rattle.std.specs.Prelude.{◌≡◌, not, ◌&&◌, eqb, pos, nat_abs, ◌≤ℤ◌};
ghost use Rattle.integers.specs.Vector.{dots, is_zero_v, AllWithin};
ghost use Rattle.grouping.specs.Framed.{AllWithin-prop};
ghost use Rattle.grouping.specs.Limits.{max_component};
ghost use Rattle.grouping.specs.Projection.{projection, multiplier};

use crate::arithmetic::{inner, is_zero, project, smallest_multiple};
use crate::dual_basis::Basis;
use crate::lattice::basis_from;
use numbering::{COMPONENTS, Row};

// The unit vectors.
const UNITS: [Row; COMPONENTS] = [[1, 0, 0, 0], [0, 1, 0, 0], [0, 0, 1, 0], [0, 0, 0, 1]];

// A time vector P: it is not zero, and its components are in span.
#[derive(Clone, Copy)]
pub struct TimeVector {
    pub p: Row,
    pub ghost within: { AllWithin max_component p } by { AllWithin-prop max_component p },
    pub ghost positive: { pos 1 ≤ℤ dots p p },
}

impl TimeVector {
    // r_i: the smallest positive number by which the projection of d becomes whole.
    pub(crate) fn multiplier(&self, d: Row) -> i64
        requires { AllWithin max_component d }
        ensures { result ≡ pos (multiplier self.now.p d) }
    {
        smallest_multiple(&project(self.p, d), inner(self.p, self.p))
    }

    // r_i = r, and the projection is not zero.
    pub(crate) fn may_group(&self, d: Row, r: i64) -> bool
        requires { AllWithin max_component d × (pos 0 ≤ℤ r) }
        ensures { result ≡ eqb (multiplier self.now.p d) (nat_abs r) && not (is_zero_v (projection self.now.p d)) }
    {
        self.multiplier(d) == r && !is_zero(project(self.p, d))
    }

    // The basis with no chosen vector: unit vectors beside a component of P that is not zero.
    pub(crate) fn start(&self) -> Basis
        ensures p_value { (result.p ≡ self.now.p) × (result.count ≡ 0) }
    {
        let [x, y, z, w] = UNITS;
        let p = self.p;
        if p[0] != 0 {
            return basis_from(0, p, [y, z, w]);
        }
        if p[1] != 0 {
            return basis_from(0, p, [x, z, w]);
        }
        if p[2] != 0 {
            return basis_from(0, p, [x, y, w]);
        }
        basis_from(0, p, [x, y, z])
    }
}
