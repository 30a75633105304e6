// The sources of a loop nest's iterations, one after the other in loop order. Each index point has
// a key, a number; keys are in loop order, and the key of a source is the key of the iteration less
// that of the dependence. The sources along one dependence come in loop order too, so one cursor
// for each dependence, which only goes forward, finds them in the table of keys.
#![tactic(auto)]

mod keyed_nest;
mod seeking;

ghost use Rattle.std.specs.Prelude.{◌≡◌, false, [], ◌∷◌, map, ◌++◌, ◌+◌, ◌-◌, ◌^◌, ◌<◌, ◌≤◌, pos, nat_abs, ◌+ℤ◌};
ghost use Rattle.std.specs.Prelude.{length, drop};
ghost use Rattle.integers.specs.Lists.{any, tab};
ghost use Rattle.integers.specs.Vector.{AllWithin};
ghost use Rattle.nest.specs.Nest.{limit_at, padded, max_depth, max_dependences, max_limit, max_iterations};
ghost use Rattle.nest.specs.Points.{extent, points, points_of, point_count};
ghost use Rattle.nest.specs.Refusals.{crossed};
ghost use Rattle.sources.specs.Keys.{base, key_from, key, max_key, above, digits, keys_of, distances_of};
ghost use Rattle.sources.specs.Loops.{limit_of, loop_limits};

pub use crate::keyed_nest::KeyedNest;
pub use crate::seeking::Sources;
use nest::{AcceptedNest, LoopNest};
use std::array;

// Components are digits in this base.
const BASE: i64 = 4096;

// Half the base: components are smaller.
const HALF: i64 = 2048;

// The base is 2 to this power.
const BITS: usize = 12;

// The key of the vector of these components.
pub fn key_of(components: &[i64]) -> i64
    requires { (length components.now ≤ max_depth) × AllWithin max_limit components.now }
    ensures { result ≡ key components.now }
{
    let mut key: i64 = 0;
    for component in components {
        key = key * BASE + component;
    }
    key
}

// The key without its last digit.
// Kept: a key is a plain number of a lent table, so that it is in span is a clause here and below.
fn above_digit(key: i64) -> i64
    requires { nat_abs key ≤ max_key }
    ensures { result ≡ above key }
{
    (key + HALF) >> BITS
}

// The vector of n components that has this key.
pub fn vector_at(key: i64, n: usize) -> [i64; LoopNest::MAX_DEPTH]
    requires { (nat_abs key ≤ max_key) × (n ≤ max_depth) }
    ensures { result ≡ padded max_depth (digits n key) }
{
    let mut v = [0i64; LoopNest::MAX_DEPTH];
    let mut rest = key;
    // Kept: through `v[..n].iter_mut().rev()` a proof learns nothing of what is written.
    for k in (0..n).rev() {
        let above = above_digit(rest);
        v[k] = rest - above * BASE;
        rest = above;
    }
    v
}

// The limits of a loop.
// Kept: that they are not crossed is a clause, since the places behind the depth of a nest have
// limits too (`loops_of`), which may be any.
#[derive(Clone, Copy)]
struct Limits {
    lower: i64,
    upper: i64,
}

// The keys of a row of points, of which the first is given, into a table of as many entries.
fn row_into(first: i64, row: &mut [i64])
    requires { (nat_abs first ≤ max_key) × (length row.old ≤ max_iterations) }
    ensures { row.new ≡ tab (λ q. first +ℤ pos q) (length row.old) }
{
    for (q, key) in row.iter_mut().enumerate() {
        *key = first + q as i64;
    }
}

// The keys of the points of one loop, behind the digits of the outer indices, into the front of a
// table; answers how many there are.
fn row_from(limits: Limits, prefix: i64, keys: &mut [i64]) -> usize
    requires { (nat_abs prefix + nat_abs prefix < base ^ (max_depth - 1)) × (crossed (limit_of limits) ≡ false)
        × (extent (limit_of limits) ≤ length keys.old) }
    ensures value { result ≡ extent (limit_of limits) }
    ensures keys_after { keys.new
        ≡ map (key_from prefix) (points (limit_of limits ∷ [])) ++ drop (extent (limit_of limits)) keys.old }
{
    let first = prefix * BASE + limits.lower;
    let count = nest::extent_of(limits.lower, limits.upper) as usize;
    row_into(first, &mut keys[..count]);
    count
}

// The keys of the points of some loops, behind the digits of the outer indices, into the front of a
// table; answers how many there are. The last loop but one has its rows written with no further
// recursion.
fn keys_from(loops: &[Limits], prefix: i64, keys: &mut [i64]) -> usize
    requires { (1 ≤ length loops.now) × (length loops.now ≤ max_depth)
        × (nat_abs prefix + nat_abs prefix < base ^ (max_depth - length loops.now))
        × (any crossed (loop_limits loops.now) ≡ false)
        × (point_count (loop_limits loops.now) ≤ length keys.old) }
    ensures value { result ≡ point_count (loop_limits loops.now) }
    ensures keys_after { keys.new ≡ map (key_from prefix) (points (loop_limits loops.now))
        ++ drop (point_count (loop_limits loops.now)) keys.old }
{
    let outer = loops[0];
    let inner = &loops[1..];
    if inner.is_empty() {
        return row_from(outer, prefix, keys);
    }
    let first = prefix * BASE + outer.lower;
    let end = first + nest::extent_of(outer.lower, outer.upper) as i64;
    let mut written = 0;
    for behind in first..end {
        let rest = &mut keys[written..];
        written += if inner.len() == 1 {
            row_from(inner[0], behind, rest)
        } else {
            keys_from(inner, behind, rest)
        };
    }
    written
}

// The limits of the loops of an accepted nest, with those of the places behind them.
fn loops_of(s: &AcceptedNest) -> [Limits; LoopNest::MAX_DEPTH]
    ensures { map limit_of result ≡ tab (limit_at s.now.nest.lower s.now.nest.upper) max_depth }
{
    array::from_fn(|k| Limits {
        lower: s.nest.lower[k],
        upper: s.nest.upper[k],
    })
}

// The keys of all index points of an accepted nest, in loop order, into a table.
pub fn keys_into(s: &AcceptedNest, keys: &mut [i64])
    requires { length (points_of s.now.nest) ≤ length keys.old }
    ensures { keys.new ≡ keys_of s.now.nest ++ drop (length (points_of s.now.nest)) keys.old }
{
    let loops = loops_of(s);
    let n = s.depth();
    keys_from(&loops[..n], 0, keys);
}

// The keys of the dependences of an accepted nest, with 0 in the places behind their number.
pub fn distances_of(s: &AcceptedNest) -> [i64; LoopNest::MAX_DEPENDENCES]
    ensures { result ≡ padded max_dependences (distances_of s.now.nest) }
{
    let n = s.depth();
    let m = s.count();
    let mut distances = [0i64; LoopNest::MAX_DEPENDENCES];
    for (i, distance) in distances[..m].iter_mut().enumerate() {
        *distance = key_of(nest::dependence_at(&s.nest.dependences, n, i));
    }
    distances
}
