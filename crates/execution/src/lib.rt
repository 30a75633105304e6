// The run of a loop nest, move by move: a processor computes its next iteration, or a message is
// delivered. specs/ has the rules, the reference machine and the claim about a whole list of
// moves; proofs/ has its proof.
#![tactic(auto)]

mod finding;
mod run_nest;

ghost use Rattle.std.specs.Prelude.{◌≡◌, ◌≤◌, ◌^◌, length};
ghost use Rattle.nest.specs.Nest.{to_ℕ, max_cube};
ghost use Rattle.nest.specs.Points.{points_of};
ghost use Rattle.execution.specs.Rules.{compute};
ghost use Rattle.execution.specs.Answer.{answer_in};
ghost use Rattle.execution.specs.Entry.{layout_in, state_in, move_of, Makes};
ghost use Rattle.execution.specs.Inner.{tables_layout, state_lent, Room, Answers, Leaves, Delivers};

use crate::finding::Seen;
pub use crate::run_nest::RunNest;
use nest::{AcceptedNest, LoopNest, Refusal};

// A message, by the iteration that gets it and the dependence that it comes along.
#[derive(Clone, Copy, Debug, PartialEq, Eq)]
pub struct Delivery {
    pub rank: usize,
    pub dependence: usize,
}

// A move: a processor computes its next iteration, or a message is delivered. Any
// numbers may be asked for.
#[derive(Clone, Copy, Debug, PartialEq, Eq)]
pub enum Move {
    Compute(usize),
    Deliver(Delivery),
}

// What a caller asks for.
// Kept: document 01 names this form, a move within a struct of what is asked for.
#[derive(Clone, Copy, Debug, PartialEq, Eq)]
pub struct Request {
    pub what: Move,
}

// The iteration that a compute took, and the value that it wrote.
#[derive(Clone, Copy, Debug, PartialEq, Eq)]
pub struct Computation {
    pub rank: usize,
    pub value: u16,
}

// What a move did.
#[derive(Clone, Copy, Debug, PartialEq, Eq)]
pub enum Done {
    Computed(Computation),
    Delivered(Delivery),
}

// The tables of a plan that a run looks at: the step and the processor of each iteration.
#[derive(Clone, Copy)]
pub struct PlanTables<'a> {
    pub steps: &'a [u32],
    pub processors: &'a [u8],
}

// The state of a run: of each iteration its value, whether it is done, and which of its messages
// are delivered.
#[derive(Drop)]
pub struct RunState<'a> {
    pub values: &'a mut [u16],
    pub done: &'a mut [u8],
    pub delivered: &'a [u8],
}

// How many processors there are: 2^c, at most 64.
fn processors_in(s: &AcceptedNest) -> usize
    ensures { (result ≡ 2 ^ to_ℕ s.now.nest.cube) × (result ≤ 2 ^ max_cube) }
{
    1usize << s.cube()
}

// A compute on processor p, of an accepted nest: the iteration that it takes gets its value and its
// done byte, if its sources are there.
pub fn compute(
    s: &AcceptedNest,
    p: usize,
    tables: PlanTables,
    state: RunState,
) -> Result<Done, Refusal>
    requires room { Room s.now.iterations (tables_layout tables) (state_lent state) }
    ensures answers { Answers s.now.nest (tables_layout tables.entry)
        (state_lent state.entry) (compute p) (answer_in result) }
    ensures leaves { Leaves s.now.nest (tables_layout tables.entry)
        (state_lent state.entry) (compute p)
        (state_in state.exit.0.now state.exit.1.0.now state.entry.delivered.now) }
{
    if processors_in(s) <= p {
        return Err(Refusal::NoSuchPlace);
    }
    let processor = p as u8;
    let RunState {
        values,
        done,
        delivered,
    } = state;
    let n = s.iterations;
    let seen = Seen {
        processors: &tables.processors[..n],
        done: &done[..n],
        delivered: &delivered[..n],
    };
    let Some(k) = seen.next_iteration(tables.steps, processor) else {
        return Err(Refusal::IdleProcessor);
    };
    if !seen.all_there(s, processor, k) {
        return Err(Refusal::Waiting);
    }
    let value = sequential::value_at(s, values, k);
    values[k] = value;
    done[k] = 1;
    Ok(Done::Computed(Computation { rank: k, value }))
}

// A delivery of a message, of an accepted nest: its bit is set, if it is a message that can be
// delivered.
// Kept: three buffers, cut into a `Seen` here as in `compute`, since one of them is written then.
fn deliver<N: RunNest>(
    s: &N,
    message: Delivery,
    processors: &[u8],
    done: &[u8],
    delivered: &mut [u8],
) -> Result<Done, Refusal>
    requires { (length (points_of (N.nest_of s.now)) ≤ length processors.now)
        × (length (points_of (N.nest_of s.now)) ≤ length done.now)
        × (length (points_of (N.nest_of s.now)) ≤ length delivered.old) }
    ensures { Delivers (N.nest_of s.now) processors.now done.now delivered.old
        message.rank message.dependence (answer_in result) delivered.new }
{
    let k = message.rank;
    let i = message.dependence;
    let n = s.iterations();
    if n <= k || s.count() <= i {
        return Err(Refusal::NoSuchPlace);
    }
    let seen = Seen {
        processors: &processors[..n],
        done: &done[..n],
        delivered: &delivered[..n],
    };
    if !seen.is_ready(s.source(k, i), message) {
        return Err(Refusal::OutOfTurn);
    }
    delivered[k] = finding::with_bit(delivered[k], i);
    Ok(Done::Delivered(message))
}

// Makes a move of an accepted nest, on the step and processor tables of a plan and on the state's
// three buffers, all of any content. Answers what the move did, or its refusal, 14, then 18, 17, 15
// or 16, with no buffer changed.
// Kept: five buffers, as document 01 and the C interface lend them to a move.
pub fn make_accepted_move<N: RunNest>(
    s: &N,
    what: Move,
    steps: &[u32],
    processors: &[u8],
    values: &mut [u16],
    done: &mut [u8],
    delivered: &mut [u8],
) -> Result<Done, Refusal>
    ensures { Makes (N.nest_of s.now) (layout_in steps.now processors.now)
        (state_in values.old done.old delivered.old)
        (move_of what) (answer_in result)
        (state_in values.new done.new delivered.new) }
{
    let rooms = [
        steps.len(),
        processors.len(),
        values.len(),
        done.len(),
        delivered.len(),
    ];
    nest::check_room(s.iterations(), &rooms)?;
    // Kept: which move is made is data of the caller's, so an enum is plainer than closures.
    match what {
        Move::Compute(p) => {
            let tables = PlanTables { steps, processors };
            let state = RunState {
                values,
                done,
                delivered,
            };
            compute(&s.copied(), p, tables, state)
        }
        Move::Deliver(message) => deliver(s, message, processors, done, delivered),
    }
}

// Makes the move that is asked for, on the step and processor tables of a plan and on the state's
// three buffers, all of any content. Answers what the move did, or its refusal, 2 to 14, then 18,
// 17, 15 or 16, with no buffer changed.
pub fn make_move(
    s: LoopNest,
    request: Request,
    steps: &[u32],
    processors: &[u8],
    values: &mut [u16],
    done: &mut [u8],
    delivered: &mut [u8],
) -> Result<Done, Refusal>
    ensures { Makes s (layout_in steps.now processors.now)
        (state_in values.old done.old delivered.old)
        (move_of request.what) (answer_in result)
        (state_in values.new done.new delivered.new) }
{
    let accepted = nest::accept(s)?;
    make_accepted_move(
        &accepted,
        request.what,
        steps,
        processors,
        values,
        done,
        delivered,
    )
}
