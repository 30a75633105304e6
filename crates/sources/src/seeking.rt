// One cursor for each dependence, which goes forward in the table of keys from source to source.
ghost use Rattle.std.specs.Prelude.{◌≡◌, ℕ, ◌+◌, ◌<◌, ◌≤◌, pos, length, get_or, set, replicate, MatchOption};
ghost use Rattle.nest.specs.Nest.{max_dependences};
ghost use Rattle.sources.specs.Keys.{Searchable, Behind, Increasing, not_below, target_in, source_in};

use nest::LoopNest;

// Kept: distances are lent and cursors are its own; that the iteration is one of the table is a
// clause, since `advance` goes past the last.
// Finds the sources of the iterations of a table of keys, one iteration after the other, along some
// dependences, whose keys are their distances.
#[derive(Drop)]
pub struct Sources<'a> {
    pub keys: &'a [i64],
    pub distances: &'a [i64],
    // the iteration whose sources are asked for
    pub iteration: usize,
    // one for each dependence
    pub places: [usize; LoopNest::MAX_DEPENDENCES],
    // no more dependences than there are cursors
    pub ghost few: { length distances.now ≤ max_dependences },
    // the keys increase, so that sources can be searched for
    pub ghost searchable: { (i : ℕ) → i < length distances.now
        → Searchable keys.now (get_or distances.now i (pos 0)) },
    // no cursor is past the place of its source
    pub ghost behind: { iteration < length keys.now
        → Behind keys.now distances.now iteration (length distances.now) places },
}

// The place of the first key that is not below the target; none before place `from` is.
fn seek(keys: &[i64], from: usize, target: i64) -> usize
    requires { (from ≤ not_below target keys.now) × (not_below target keys.now < length keys.now) }
    ensures { result ≡ not_below target keys.now }
{
    let mut place = from;
    // Kept: the answer of `position` is an Option, whose arm for none is never met here; with it
    // steps took a third longer.
    while keys[place] < target {
        place += 1;
    }
    place
}

impl<'a> Sources<'a> {
    // All cursors at the first iteration.
    pub fn new(keys: &'a [i64], distances: &'a [i64]) -> Sources<'a>
        requires few { length distances.now ≤ max_dependences }
        requires searchable { (i : ℕ) → i < length distances.now
            → Searchable keys.now (get_or distances.now i (pos 0)) }
        ensures keys { result.keys.now ≡ keys.now }
        ensures distances { result.distances.now ≡ distances.now }
        ensures iteration { result.iteration ≡ 0 }
        ensures places { result.places ≡ replicate max_dependences 0 }
    {
        Sources {
            keys,
            distances,
            iteration: 0,
            places: [0; LoopNest::MAX_DEPENDENCES],
        }
    }

    // The rank of the source of this iteration along dependence i; none where it is no iteration.
    // The dependence's cursor goes forward to the source's place.
    pub fn source(&mut self, i: usize) -> Option<usize>
        requires in_table { self.old.iteration < length self.old.keys.now }
        requires listed { i < length self.old.distances.now }
        ensures value { let keys = self.old.keys.now in
            let source = source_in keys self.old.iteration (get_or self.old.distances.now i (pos 0)) in
            MatchOption result (source ≡ length keys) (λ j. (j < length keys) × (j ≡ source)) }
        ensures keys { self.new.keys.now ≡ self.old.keys.now }
        ensures distances { self.new.distances.now ≡ self.old.distances.now }
        ensures iteration { self.new.iteration ≡ self.old.iteration }
        ensures places { self.new.places ≡ set self.old.places i
            (not_below (target_in self.old.keys.now self.old.iteration (get_or self.old.distances.now i (pos 0)))
            self.old.keys.now) }
    {
        let target = self.keys[self.iteration] - self.distances[i];
        let place = seek(self.keys, self.places[i], target);
        self.places[i] = place;
        if self.keys[place] == target {
            Some(place)
        } else {
            None
        }
    }

    // On to the next iteration.
    pub fn advance(&mut self)
        requires { self.old.iteration < length self.old.keys.now }
        ensures keys { self.new.keys.now ≡ self.old.keys.now }
        ensures distances { self.new.distances.now ≡ self.old.distances.now }
        ensures iteration { self.new.iteration ≡ self.old.iteration + 1 }
        ensures places { self.new.places ≡ self.old.places }
    {
        self.iteration += 1;
    }
}
