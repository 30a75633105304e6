// A nest as 63 numbers in a row, in the order of LoopNest's fields.
ghost use Rattle.std.specs.Prelude.{◌≡◌, ◌+◌, ◌≤◌, ◌<◌, length, IfOk};
ghost use Rattle.std.proofs.lemmas.List.Edits.{sets};
ghost use Rattle.nest.specs.Nest.{count_of, part};
ghost use Rattle.nest.specs.NestParts.{nest_of_parts};
ghost use Rattle.nest.specs.Outcomes.{number_in};
ghost use Rattle.nest.specs.Points.{points_of};
ghost use Rattle.nest.specs.Refusals.{refusal};
ghost use Rattle.nest.specs.Sources.{source_rank};
ghost use Rattle.execution.specs.Inner.{option_in};
ghost use Rattle.foreign.specs.Numbers.{nest_in, numbers_of, number_count};

use execution::RunNest;
use nest::{AcceptedNest, LoopNest, NestParts, Refusal};

// Where the parts of a nest begin; the depth, the number of dependences and the cube
// dimension stand before them.
const LOWER: usize = 3;

const UPPER: usize = LOWER + LoopNest::MAX_DEPTH;

const TIME: usize = UPPER + LoopNest::MAX_DEPTH;

const DEPENDENCES: usize = TIME + LoopNest::MAX_DEPTH;

const BOUNDARIES: usize = DEPENDENCES + LoopNest::MAX_DEPTH * LoopNest::MAX_DEPENDENCES;

const WEIGHTS: usize = BOUNDARIES + LoopNest::MAX_DEPENDENCES;

// How many numbers a nest has.
pub const NUMBERS: usize = WEIGHTS + LoopNest::MAX_DEPENDENCES;

// The numbers from place `at` on, as an array.
fn part_at<const N: usize>(numbers: &[i64; NUMBERS], at: usize) -> [i64; N]
    requires { at + N ≤ number_count }
    ensures { result ≡ part numbers.now at N }
{
    <[i64; N]>::try_from(&numbers[at..at + N]).unwrap()
}

// The nest that 63 numbers are.
// Kept: README names this function, and what is public stays; `From` would be a second one.
pub fn nest_in(numbers: &[i64; NUMBERS]) -> LoopNest
    ensures { result ≡ nest_in numbers.now }
{
    LoopNest {
        depth: numbers[0],
        count: numbers[1],
        cube: numbers[2],
        lower: part_at(numbers, LOWER),
        upper: part_at(numbers, UPPER),
        time: part_at(numbers, TIME),
        dependences: part_at(numbers, DEPENDENCES),
        boundaries: part_at(numbers, BOUNDARIES),
        weights: part_at(numbers, WEIGHTS),
    }
}

// Puts numbers over a part of others, from place `at` on.
// Kept: tried in `numbers_of` itself, seven copies into ranges of one array: each asks for the
// length that the ones before it left, so the code is as long and its proof longer.
fn put(out: &mut [i64], at: usize, numbers: &[i64])
    requires { at + length numbers.now ≤ length out.old }
    ensures { out.new ≡ sets out.old at numbers.now }
{
    out[at..at + numbers.len()].copy_from_slice(numbers);
}

// The 63 numbers of a nest.
// Kept: README names this function, and what is public stays; `From` would be a second one.
pub fn numbers_of(s: LoopNest) -> [i64; NUMBERS]
    ensures { result ≡ numbers_of s }
{
    let mut numbers = [0i64; NUMBERS];
    put(&mut numbers, 0, &[s.depth, s.count, s.cube]);
    put(&mut numbers, LOWER, &s.lower);
    put(&mut numbers, UPPER, &s.upper);
    put(&mut numbers, TIME, &s.time);
    put(&mut numbers, DEPENDENCES, &s.dependences);
    put(&mut numbers, BOUNDARIES, &s.boundaries);
    put(&mut numbers, WEIGHTS, &s.weights);
    numbers
}

// The nest that 63 numbers are, lent in its parts, which stay where they are.
fn parts_in<'a>(numbers: &'a [i64; NUMBERS]) -> NestParts<'a>
    ensures { nest_of_parts result ≡ nest_in numbers.now }
{
    NestParts {
        depth: numbers[0],
        count: numbers[1],
        cube: numbers[2],
        lower: &numbers[LOWER..UPPER],
        upper: &numbers[UPPER..TIME],
        time: &numbers[TIME..DEPENDENCES],
        dependences: &numbers[DEPENDENCES..BOUNDARIES],
        boundaries: &numbers[BOUNDARIES..WEIGHTS],
        weights: &numbers[WEIGHTS..NUMBERS],
    }
}

// 63 numbers that are an accepted nest, which stay where they are, and how many iterations it has.
#[derive(Clone, Copy)]
pub struct AcceptedNumbers<'a> {
    pub numbers: &'a [i64; NUMBERS],
    pub iterations: usize,
    ghost accepted: { refusal (nest_in numbers.now) ≡ 0 },
    ghost counted: { iterations ≡ length (points_of (nest_in numbers.now)) },
}

// `accept` of the nest that 63 numbers are.
// Kept: the C interface gives a nest as 63 numbers, and a delivery through it copies none of them.
pub fn accept_in<'a>(numbers: &'a [i64; NUMBERS]) -> Result<AcceptedNumbers<'a>, Refusal>
    ensures number { number_in result ≡ refusal (nest_in numbers.now) }
    ensures same_numbers { IfOk result (λ accepted. accepted.numbers.now ≡ numbers.now) }
{
    let iterations = nest::inspect_parts(&parts_in(numbers))?;
    Ok(AcceptedNumbers {
        numbers,
        iterations,
    })
}

impl RunNest for AcceptedNumbers<'_> {
    ghost nest_of = { λ s. nest_in s.numbers.now };

    ghost accepted = { λ s. s.accepted };

    // As it was counted.
    fn iterations(&self) -> usize {
        self.iterations
    }

    // Where it stands in the numbers.
    fn count(&self) -> usize {
        nest::to_size(self.numbers[1])
    }

    // By the loops where they stand, with no copy of the nest.
    fn source(&self, k: usize, i: usize) -> Option<usize> {
        let nest = parts_in(self.numbers);
        let loops = nest.loops();
        let dependence = nest::dependence_at(nest.dependences, loops.lower.len(), i);
        loops.source_rank(dependence, k)
    }

    // The one that the numbers are.
    fn copied(&self) -> AcceptedNest {
        AcceptedNest {
            nest: nest_in(self.numbers),
            iterations: self.iterations,
        }
    }
}
