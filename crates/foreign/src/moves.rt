// A move and its answer as numbers.
ghost use Rattle.std.specs.Prelude.{◌≡◌};
ghost use Rattle.nest.specs.Outcomes.{number_in};
ghost use Rattle.execution.specs.Answer.{answer_in};
ghost use Rattle.execution.specs.Entry.{layout_in, state_in, move_of, Makes};
ghost use Rattle.foreign.specs.Numbers.{move_in, made_in, nest_in};

use crate::nests::{NUMBERS, accept_in};
use execution::{Delivery, Done, Move};
use nest::{LoopNest, Refusal};

// The kinds of a move, numbered as in the machine's log.
// Kept: the C interface gives a kind as a number (`rowlock_move`, whose contract cites `move_in`).
pub const COMPUTE: usize = 1;

// Kept: the C interface gives a kind as a number, as above.
pub const DELIVER: usize = 2;

// A processor that no machine has: the number behind the last of the largest hypercube.
// Kept: the C interface may ask for any kind; `move_in` answers a move all the same, and cannot
// fail.
const NO_PROCESSOR: usize = 1 << LoopNest::MAX_CUBE;

// The move that numbers ask for: a kind that is neither asks for a compute on a processor that is
// not there, which is refused with 18.
// Kept: README names this function, and what is public stays; `From` would be a second one.
pub fn move_in(kind: usize, first: usize, second: usize) -> Move
    ensures { result ≡ move_in kind first second }
{
    match kind {
        COMPUTE => Move::Compute(first),
        DELIVER => Move::Deliver(Delivery {
            rank: first,
            dependence: second,
        }),
        _ => Move::Compute(NO_PROCESSOR),
    }
}

// The number of an answer: 0 for a call that is done, or the number of its refusal.
// Kept: the C interface. C has no Result, so an answer is told by its number.
pub fn number_of<T>(answer: &Result<T, Refusal>) -> u8
    ensures { result ≡ number_in answer.now }
{
    match answer {
        Ok(_) => 0,
        Err(refusal) => u8::from(*refusal),
    }
}

// What an answer carries.
// Kept: README names this function, and what is public stays; `From` would be a second one.
pub fn made_in(answer: Result<Done, Refusal>) -> [usize; 2]
    ensures { result ≡ made_in (answer_in answer) }
{
    let Ok(made) = answer else {
        return [0, 0];
    };
    match made {
        Done::Computed(c) => [c.rank, c.value as usize],
        Done::Delivered(d) => [d.rank, d.dependence],
    }
}

// `make_move` of the nest that 63 numbers are, which stays where it is, and is copied for a compute
// alone.
pub fn make_move_in(
    numbers: &[i64; NUMBERS],
    what: Move,
    steps: &[u32],
    processors: &[u8],
    values: &mut [u16],
    done: &mut [u8],
    delivered: &mut [u8],
) -> Result<Done, Refusal>
    ensures { Makes (nest_in numbers.now) (layout_in steps.now processors.now)
        (state_in values.old done.old delivered.old)
        (move_of what) (answer_in result)
        (state_in values.new done.new delivered.new) }
{
    let accepted = accept_in(numbers)?;
    execution::make_accepted_move(&accepted, what, steps, processors, values, done, delivered)
}
