// A nest that is lent in its parts: its arrays stay where they are, and may lie anywhere.
ghost use Rattle.nest.specs.Nest.{Sized};

// The parts of a nest, of which each array has the places that a LoopNest's has.
#[derive(Clone, Copy)]
pub struct NestParts<'a> {
    pub depth: i64,
    pub count: i64,
    pub cube: i64,
    pub lower: &'a [i64],
    pub upper: &'a [i64],
    pub time: &'a [i64],
    pub dependences: &'a [i64],
    pub boundaries: &'a [i64],
    pub weights: &'a [i64],
    ghost sized: { Sized lower.now upper.now time.now dependences.now boundaries.now weights.now },
}
