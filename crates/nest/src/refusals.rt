// The refusals of the document ("Words from the rack"), and the first of a nest's.
ghost use Rattle.std.specs.Prelude.{◌≡◌, ◌*◌, ◌≤◌, pos, [], length, ltb, IfOk};
ghost use Rattle.std.specs.List.{list_any};
ghost use Rattle.nest.specs.Nest.{nest_from, max_depth};
ghost use Rattle.nest.specs.Outcomes.{code, number_in};
ghost use Rattle.nest.specs.NestParts.{nest_of_parts};
ghost use Rattle.nest.specs.Refusals.{refusal, first_met, header_order, limit_order, vector_order, weight_order};
ghost use Rattle.nest.specs.Refusals.{room_refusal, Checks, Inspects, inspection_of};

use crate::faults::{Dependences, any_crossed, any_outside, is_out_of_span, is_outside};
use crate::{AcceptedNest, LoopNest, Loops, NestParts, to_size};

// Why a call is refused: the words from the rack, each with its number in the document. 12 is not
// used: a time vector that is zero has P·d below 1 for every dependence, which is 11.
#[derive(Clone, Copy, Debug, PartialEq, Eq, Hash)]
pub enum Refusal {
    // smudged sheet: a line is missing, extra or not in columns
    MalformedText = 1,
    // no such depth: n out of span
    BadDepth = 2,
    // offset count: m out of span
    BadCount = 3,
    // rack too large: c out of span
    BadCube = 4,
    // crossed limits: a limit out of span, or lower above upper
    BadLimits = 5,
    // sheet too big: more than MAX_ITERATIONS index points
    TooManyPoints = 6,
    // clock span: a component of the time vector out of span
    BadTime = 7,
    // offset span: a component of a dependence out of span
    BadDependence = 8,
    // backward offset: a dependence is zero, or its first non-zero component is negative
    BackwardDependence = 9,
    // doubled offset: two dependences equal
    EqualDependences = 10,
    // against the clock: P·d below 1 for a dependence
    AgainstTime = 11,
    // weight span: a boundary value or a weight out of span
    BadWeight = 13,
    // short tray: a lent buffer has fewer entries than are needed
    ShortBuffer = 14,
    // waiting: compute, a source is not there
    Waiting = 15,
    // out of turn: delivery, no message, its source not computed, or already delivered
    OutOfTurn = 16,
    // idle card: compute, the processor has no iteration left
    IdleProcessor = 17,
    // no such place: no such processor, rank or dependence
    NoSuchPlace = 18,
    // no such row: index outside the outermost limits
    NoSuchRow = 19,
}

// A refusal is known outside by its number.
impl From<Refusal> for u8 {
    ghost from_gives = { λ refusal number. number ≡ code refusal };

    fn from(refusal: Refusal) -> u8 {
        refusal as u8
    }
}

// The first refusal of line 1: 2, 3 or 4.
pub fn check_header(depth: i64, count: i64, cube: i64) -> Result<(), Refusal>
    ensures { number_in result ≡ first_met (nest_from depth count cube [] [] [] [] [] []) header_order }
{
    if is_outside(1, LoopNest::MAX_DEPTH as i64, depth) {
        return Err(Refusal::BadDepth);
    }
    if is_outside(1, LoopNest::MAX_DEPENDENCES as i64, count) {
        return Err(Refusal::BadCount);
    }
    if is_outside(0, LoopNest::MAX_CUBE, cube) {
        return Err(Refusal::BadCube);
    }
    Ok(())
}

// The refusals 5 and 6, of n loops: the first.
// Kept: n and m stand beside the arrays here and below, since an array has places that are no part
// of the nest; `Loops` and `Dependences` are cut from them.
fn check_limits(lower: &[i64], upper: &[i64], n: usize) -> Result<(), Refusal>
    requires { (n ≤ max_depth) × (n ≤ length lower.now) × (n ≤ length upper.now) }
    ensures { number_in result ≡ first_met
        (nest_from (pos n) (pos 0) (pos 0) lower.now upper.now [] [] [] []) limit_order }
{
    let lower = &lower[..n];
    let upper = &upper[..n];
    if any_crossed(lower, upper) {
        return Err(Refusal::BadLimits);
    }
    let loops = Loops { lower, upper };
    if (LoopNest::MAX_ITERATIONS as u64) < loops.point_count() {
        return Err(Refusal::TooManyPoints);
    }
    Ok(())
}

// The refusals 7 to 11, of n loops and m dependences: the first.
fn check_vectors(time: &[i64], dependences: &[i64], n: usize, m: usize) -> Result<(), Refusal>
    requires { (n ≤ max_depth) × (n ≤ length time.now) × (m * max_depth ≤ length dependences.now) }
    ensures { number_in result ≡ first_met
        (nest_from (pos n) (pos m) (pos 0) [] [] time.now dependences.now
        [] []) vector_order }
{
    let time = &time[..n];
    if is_out_of_span(time) {
        return Err(Refusal::BadTime);
    }
    let listed = Dependences::new(dependences, m, n);
    if listed.any_out_of_span() {
        return Err(Refusal::BadDependence);
    }
    if listed.any_backward() {
        return Err(Refusal::BackwardDependence);
    }
    if listed.any_equal() {
        return Err(Refusal::EqualDependences);
    }
    if listed.any_against(time) {
        return Err(Refusal::AgainstTime);
    }
    Ok(())
}

// The refusal 13, of m dependences.
fn check_weights(boundaries: &[i64], weights: &[i64], m: usize) -> Result<(), Refusal>
    requires { (m ≤ length boundaries.now) × (m ≤ length weights.now) }
    ensures { number_in result ≡ first_met
        (nest_from (pos 0) (pos m) (pos 0) [] [] [] [] boundaries.now weights.now) weight_order }
{
    if any_outside(&boundaries[..m], 0, LoopNest::MAX_BOUNDARY) {
        return Err(Refusal::BadWeight);
    }
    if any_outside(&weights[..m], 0, LoopNest::MAX_WEIGHT) {
        return Err(Refusal::BadWeight);
    }
    Ok(())
}

// `check`, of a nest that is lent in its parts.
pub fn check_parts(s: &NestParts) -> Result<(), Refusal>
    ensures { number_in result ≡ refusal (nest_of_parts s.now) }
{
    check_header(s.depth, s.count, s.cube)?;
    let n = to_size(s.depth);
    let m = to_size(s.count);
    check_limits(s.lower, s.upper, n)?;
    check_vectors(s.time, s.dependences, n, m)?;
    check_weights(s.boundaries, s.weights, m)
}

// The first refusal, 2 to 13 in the document's order, of a nest with any content.
pub fn check(s: LoopNest) -> Result<(), Refusal>
    ensures { Checks s (number_in result) }
{
    check_parts(&s.parts())
}

// `inspect`, of a nest that is lent in its parts.
pub fn inspect_parts(s: &NestParts) -> Result<usize, Refusal>
    ensures { Inspects (nest_of_parts s.now) (inspection_of result) }
{
    check_parts(s)?;
    Ok(s.loops().point_count() as usize)
}

// The number of iterations of a nest, or its first refusal, 2 to 13.
pub fn inspect(s: LoopNest) -> Result<usize, Refusal>
    ensures { Inspects s (inspection_of result) }
{
    inspect_parts(&s.parts())
}

// The nest as one that is accepted, or its first refusal, 2 to 13.
pub fn accept(s: LoopNest) -> Result<AcceptedNest, Refusal>
    ensures number { number_in result ≡ refusal s }
    ensures same_nest { IfOk result (λ accepted. accepted.nest ≡ s) }
{
    let iterations = inspect(s)?;
    Ok(AcceptedNest {
        nest: s,
        iterations,
    })
}

// Whether one of some lent buffers has fewer entries than are needed.
fn any_short(needed: usize, rooms: &[usize]) -> bool
    ensures { result ≡ list_any (λ room. ltb room needed) rooms.now }
{
    rooms.iter().any(|room| *room < needed)
}

// 14 if one of some lent buffers has fewer entries than are needed.
pub fn check_room(needed: usize, rooms: &[usize]) -> Result<(), Refusal>
    ensures { number_in result ≡ room_refusal needed rooms.now }
{
    if any_short(needed, rooms) {
        return Err(Refusal::ShortBuffer);
    }
    Ok(())
}
