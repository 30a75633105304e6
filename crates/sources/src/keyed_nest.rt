// An accepted nest with the keys of its index points.
ghost use Rattle.std.specs.Prelude.{◌≡◌, ◌≤◌, length};
ghost use Rattle.nest.specs.Points.{points_of};
ghost use Rattle.sources.specs.Keys.{keys_of};

use crate::keys_into;
use nest::AcceptedNest;

// An accepted nest and the keys of its index points, in loop order.
#[derive(Clone, Copy)]
pub struct KeyedNest<'a> {
    pub nest: &'a AcceptedNest,
    pub keys: &'a [i64],
    ghost keyed: { keys.now ≡ keys_of nest.now.nest },
}

impl<'a> KeyedNest<'a> {
    // With its keys, which stand in front of a lent table.
    pub fn new(nest: &'a AcceptedNest, table: &'a mut [i64]) -> KeyedNest<'a>
        requires { length (points_of nest.now.nest) ≤ length table.old }
        ensures { result.nest.now ≡ nest.now }
    {
        keys_into(nest, table);
        KeyedNest {
            nest,
            keys: &table[..nest.iterations],
        }
    }
}
