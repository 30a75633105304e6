// The sequential loop of a loop nest: the values of its iterations, into a lent table.
#![tactic(auto)]

ghost use Rattle.std.specs.Prelude.{◌≡◌, true, [], ◌++◌, ℕ, ◌*◌, ◌<◌, ◌≤◌, pos, length, get_or, take, drop};
ghost use Rattle.std.specs.Prelude.{IfSome, MatchOption};
ghost use Rattle.nest.specs.Nest.{to_ℕ, part, padded, depth_of, count_of, max_depth, max_iterations};
ghost use Rattle.nest.specs.Nest.{max_boundary, max_weight};
ghost use Rattle.nest.specs.Points.{points_of, rank, is_point, source};
ghost use Rattle.nest.specs.Refusals.{dependence};
ghost use Rattle.nest.specs.Outcomes.{number_in};
ghost use Rattle.sequential.specs.ByKeys.{value_in};
ghost use Rattle.sequential.specs.Edges.{weights_in, boundaries_in};
ghost use Rattle.sequential.specs.Sequential.{value_of, loop, rule_of, Fills};

use nest::{AcceptedNest, LoopNest, Refusal};
use sources::{KeyedNest, Sources};

// Values are below it.
const MODULUS: usize = 65536;

// How a value is read along a dependence: with this weight, and as this boundary value where the
// source is no iteration.
#[derive(Clone, Copy)]
struct Edge {
    weight: u8,
    boundary: u16,
}

impl Edge {
    // The weight times the value that is read, of an iteration or at the boundary.
    fn read(self, values: &[u16], source: Option<usize>) -> usize
        requires { IfSome source (λ j. j < length values.now) }
        ensures value { MatchOption source (result ≡ self.weight * self.boundary)
            (λ j. result ≡ self.weight * get_or values.now j 0) }
        ensures upper_bound { result ≤ max_weight * max_boundary }
    {
        let value = match source {
            Some(j) => values[j],
            None => self.boundary,
        };
        self.weight as usize * value as usize
    }
}

// How a value is read along dependence i of an accepted nest.
fn edge_at(s: &AcceptedNest, i: usize) -> Edge
    requires { i < count_of s.now.nest }
    ensures weight { result.weight ≡ to_ℕ (get_or s.now.nest.weights i (pos 0)) }
    ensures boundary { result.boundary ≡ to_ℕ (get_or s.now.nest.boundaries i (pos 0)) }
{
    Edge {
        weight: nest::to_size(s.nest.weights[i]) as u8,
        boundary: nest::to_size(s.nest.boundaries[i]) as u16,
    }
}

// The values of the iterations of an accepted nest, in front of a table.
#[derive(Clone, Copy)]
struct Known<'a> {
    nest: &'a AcceptedNest,
    values: &'a [u16],
    ghost room: { nest.now.iterations ≤ length values.now },
}

impl<'a> Known<'a> {
    // The weight of dependence i times the value that is read along it at an index point: the
    // source's, or the boundary value of dependence i where the source is no iteration.
    fn weighted_source(&self, point: [i64; LoopNest::MAX_DEPTH], i: usize) -> usize
        requires { let s = self.now.nest.now.nest in
            (is_point (points_of s) (part point 0 (depth_of s)) ≡ true) × (i < count_of s) }
        ensures value { let s = self.now.nest.now in
            result ≡ to_ℕ (get_or s.nest.weights i (pos 0)) * get_or (take s.iterations self.now.values.now)
            (rank (points_of s.nest) (source (part point 0 (depth_of s.nest)) (dependence s.nest i)))
            (to_ℕ (get_or s.nest.boundaries i (pos 0))) }
        ensures upper_bound { result ≤ max_weight * max_boundary }
    {
        let source = self.nest.source_at(point, i);
        edge_at(self.nest, i).read(self.values, source)
    }

    // The value of iteration k, whose index point is given: the weighted sum of its source values.
    fn value_from(&self, point: [i64; LoopNest::MAX_DEPTH], k: usize) -> u16
        requires { (k < self.now.nest.now.iterations)
            × (point ≡ padded max_depth (get_or (points_of self.now.nest.now.nest) k [])) }
        ensures { result
            ≡ value_of (rule_of self.now.nest.now.nest) self.now.nest.now.nest self.now.values.now k }
    {
        let m = self.nest.count();
        let mut sum = k;
        // Kept: a source and an edge are asked for by the dependence's number.
        for i in 0..m {
            sum += self.weighted_source(point, i);
        }
        (sum % MODULUS) as u16
    }
}

// The value of iteration k of an accepted nest, where the iterations have these values.
pub fn value_at(s: &AcceptedNest, values: &[u16], k: usize) -> u16
    requires { (k < s.now.iterations) × (s.now.iterations ≤ length values.now) }
    ensures { result ≡ value_of (rule_of s.now.nest) s.now.nest values.now k }
{
    let known = Known { nest: s, values };
    known.value_from(s.point_of(k), k)
}

// How values are read along the dependences of an accepted nest, in the first places.
fn edges_of(s: &AcceptedNest) -> [Edge; LoopNest::MAX_DEPENDENCES]
    ensures weights { (i : ℕ) → i < count_of s.now.nest
        → get_or (weights_in result) i 0 ≡ to_ℕ (get_or s.now.nest.weights i (pos 0)) }
    ensures boundaries { (i : ℕ) → i < count_of s.now.nest
        → get_or (boundaries_in result) i 0 ≡ to_ℕ (get_or s.now.nest.boundaries i (pos 0)) }
{
    let m = s.count();
    let mut edges = [Edge {
        weight: 0,
        boundary: 0,
    }; LoopNest::MAX_DEPENDENCES];
    for (i, edge) in edges[..m].iter_mut().enumerate() {
        *edge = edge_at(s, i);
    }
    edges
}

// The value of the iteration whose sources are asked for, where the iterations before it have these
// values: the weighted sum of its source values.
fn next_value(sources: &mut Sources, edges: &[Edge], values: &[u16]) -> u16
    requires iteration { sources.old.iteration < length sources.old.keys.now }
    requires few { length sources.old.keys.now ≤ max_iterations }
    requires room { length sources.old.keys.now ≤ length values.now }
    requires edges { length edges.now ≡ length sources.old.distances.now }
    ensures value { result ≡ value_in sources.old.keys.now sources.old.distances.now (weights_in edges.now)
        (boundaries_in edges.now) values.now sources.old.iteration (length edges.now) }
    ensures keys { sources.new.keys.now ≡ sources.old.keys.now }
    ensures distances { sources.new.distances.now ≡ sources.old.distances.now }
    ensures iteration { sources.new.iteration ≡ sources.old.iteration }
{
    let mut total = sources.iteration;
    for (i, edge) in edges.iter().enumerate() {
        total += edge.read(values, sources.source(i));
    }
    (total % MODULUS) as u16
}

// The values of the iterations of an accepted nest, in loop order, from the keys of its index
// points.
pub fn fill_by_keys(s: &KeyedNest, values: &mut [u16])
    requires { length (points_of s.now.nest.now.nest) ≤ length values.old }
    ensures { values.new
        ≡ loop (rule_of s.now.nest.now.nest) s.now.nest.now.nest (length (points_of s.now.nest.now.nest))
        ++ drop (length (points_of s.now.nest.now.nest)) values.old }
{
    let distances = sources::distances_of(s.nest);
    let edges = edges_of(s.nest);
    let m = s.nest.count();
    let mut sources = Sources::new(s.keys, &distances[..m]);
    // Kept: a value is stored in the table that the later ones are read from.
    for k in 0..s.keys.len() {
        values[k] = next_value(&mut sources, &edges[..m], values);
        sources.advance();
    }
}

// Up to so many iterations, the table of their keys is small.
const FEW_ITERATIONS: usize = 512;

// The values of the iterations of an accepted nest, in loop order, with room for so many keys.
fn fill_sized<const ROOM: usize>(s: &AcceptedNest, values: &mut [u16])
    requires values { s.now.iterations ≤ length values.old }
    requires room { (s.now.iterations ≤ ROOM) × (ROOM ≤ max_iterations) }
    ensures { values.new ≡ loop (rule_of s.now.nest) s.now.nest s.now.iterations ++ drop s.now.iterations values.old }
{
    let mut keys = [0i64; ROOM];
    let keyed = KeyedNest::new(s, &mut keys);
    fill_by_keys(&keyed, values);
}

// The same: the table of keys is no larger than it has to be, since it is cleared whole.
// Kept: the room of the table that these functions write is a clause. A type that held the loan
// would have to say what it leaves of it, so it is no plainer.
fn fill_values(s: &AcceptedNest, values: &mut [u16])
    requires { s.now.iterations ≤ length values.old }
    ensures { values.new ≡ loop (rule_of s.now.nest) s.now.nest s.now.iterations ++ drop s.now.iterations values.old }
{
    if s.iterations <= FEW_ITERATIONS {
        fill_sized::<FEW_ITERATIONS>(s, values);
    } else {
        fill_sized::<{ LoopNest::MAX_ITERATIONS }>(s, values);
    }
}

// The values of the sequential loop into a lent table, which has an entry for each iteration; or
// the first refusal, 2 to 14, with no entry changed.
pub fn fill(s: LoopNest, values: &mut [u16]) -> Result<(), Refusal>
    ensures { Fills s values.old (number_in result) values.new }
{
    let accepted = nest::accept(s)?;
    nest::check_room(accepted.iterations, &[values.len()])?;
    fill_values(&accepted, values);
    Ok(())
}
