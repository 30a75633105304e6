// The entries on numbers and slices, for callers in C and Rust: the crate rowlock_c exports them,
// as a static library. c/rowlock.h has their prototypes, and says what the pointers have to be.
//
// A nest is lent as its 63 numbers. What an entry answers beside its number (counts, lengths, a
// span, a nest that was read) is stored through a reference of its own, zeros where the call is
// refused: it is a part of the answer. `rows::row` answers a part of a lent table, which C cannot
// take: `rowlock_locate` says where that part lies.
//
// Kept: the C interface. C has no Result, so each entry answers a number and stores the rest.
#![tactic(auto)]

ghost use Rattle.nest.specs.Refusals.{Checks, Inspects};
ghost use Rattle.nest_text.specs.Text.{Writes};
ghost use Rattle.rows.specs.Rows.{Locates};
ghost use Rattle.sequential.specs.Sequential.{Fills};
ghost use Rattle.partition.specs.Sending.{Bounds};
ghost use Rattle.planner.specs.Plan.{tables_in, Plans};
ghost use Rattle.planner.specs.Listing.{Lists};
ghost use Rattle.execution.specs.Entry.{layout_in, state_in};
ghost use Rattle.foreign.specs.Numbers.{nest_in, move_in, span_from, planning_from, ReadsInto, MakesInto};

use foreign::{NUMBERS, made_in, make_move_in, move_in, nest_in, number_of, numbers_of};
use nest::LoopNest;

// How many counts a plan has.
pub const COUNTS: usize = 5;

// The number of a nest's first refusal, 2 to 13, or 0.
pub fn rowlock_check(numbers: &[i64; NUMBERS]) -> u8
    ensures { Checks (nest_in numbers.now) result }
{
    number_of(&nest::check(nest_in(numbers)))
}

// The same, with the number of iterations of an accepted nest; 0 for a refused one.
pub fn rowlock_inspect(numbers: &[i64; NUMBERS], iterations: &mut usize) -> u8
    ensures { Inspects (nest_in numbers.now)
        (record { refusal = result; iterations = iterations.new }) }
{
    let known = nest::inspect(nest_in(numbers));
    *iterations = known.unwrap_or(0);
    number_of(&known)
}

// To how many other blocks a block of a nest's plan sends at most, before it is planned; or the
// number of the first refusal, 2 to 13, with 0.
pub fn rowlock_most_receivers(numbers: &[i64; NUMBERS], most: &mut usize) -> u8
    ensures { Bounds (nest_in numbers.now)
        (record { refusal = result; most = most.new }) }
{
    let bound = partition::most_receivers(nest_in(numbers));
    *most = bound.unwrap_or(0);
    number_of(&bound)
}

// A nest from its text: 0 with the nest, unused places 0; or the number of the first refusal, 1 to
// 13, with a nest of zeros.
pub fn rowlock_read(text: &[u8], numbers: &mut [i64; NUMBERS]) -> u8
    ensures { ReadsInto text.now result numbers.new }
{
    let read = nest_text::read(text);
    *numbers = numbers_of(read.unwrap_or(LoopNest::empty()));
    number_of(&read)
}

// The text of a nest into a lent buffer, and how many bytes it has; or the number of the first
// refusal, 2 to 14, with 0 bytes and the buffer as it was.
pub fn rowlock_write(numbers: &[i64; NUMBERS], out: &mut [u8], bytes: &mut usize) -> u8
    ensures { Writes (nest_in numbers.now) out.old
        (record { refusal = result; length = bytes.new }) out.new }
{
    let written = nest_text::write(nest_in(numbers), out);
    *bytes = written.unwrap_or(0);
    number_of(&written)
}

// Where the row of an outermost index lies in a table of so many entries, by its start and its
// length; or the number of the first refusal, 2 to 14, then 19, with zeros.
pub fn rowlock_locate(
    numbers: &[i64; NUMBERS],
    entries: usize,
    index: i64,
    span: &mut [usize; 2],
) -> u8
    ensures { Locates (nest_in numbers.now) entries index (span_from result span.new) }
{
    let at = rows::locate(nest_in(numbers), entries, index);
    *span = match at {
        Ok(row) => [row.start, row.length],
        Err(_) => [0, 0],
    };
    number_of(&at)
}

// The values of the sequential loop into a lent table; or the number of the first refusal, 2 to 14,
// with the table as it was.
pub fn rowlock_fill(numbers: &[i64; NUMBERS], values: &mut [u16]) -> u8
    ensures { Fills (nest_in numbers.now) values.old result values.new }
{
    number_of(&sequential::fill(nest_in(numbers), values))
}

// The plan of a nest into four lent tables, and its counts (iterations, steps, blocks, processors
// that hold an iteration, messages); or the number of the first refusal, 2 to 14, with every count
// 0 and the tables as they were.
pub fn rowlock_plan(
    numbers: &[i64; NUMBERS],
    steps: &mut [u32],
    blocks: &mut [u16],
    processors: &mut [u8],
    values: &mut [u16],
    counts: &mut [usize; COUNTS],
) -> u8
    ensures { Plans (nest_in numbers.now)
        (tables_in steps.old blocks.old processors.old values.old)
        (planning_from result counts.new)
        (tables_in steps.new blocks.new processors.new values.new) }
{
    let plan = planner::plan(nest_in(numbers), steps, blocks, processors, values);
    *counts = match plan {
        Ok(p) => [p.iterations, p.steps, p.blocks, p.processors, p.messages],
        Err(_) => [0; COUNTS],
    };
    number_of(&plan)
}

// The plan of a nest as text, from the nest's text into a lent buffer, and how many bytes it has;
// or the number of the first refusal, 1 to 14, with 0 bytes and the buffer as it was.
pub fn rowlock_list(text: &[u8], out: &mut [u8], bytes: &mut usize) -> u8
    ensures { Lists text.now out.old
        (record { refusal = result; length = bytes.new }) out.new }
{
    let listed = planner::list(text, out);
    *bytes = listed.unwrap_or(0);
    number_of(&listed)
}

// Makes a move on the tables of a plan and on a state, all of any content. Kind 1 is a compute on
// processor `first`, kind 2 a delivery for rank `first` along dependence number `second`; any other
// kind is refused with 18.
// Answers 0, or the number of the refusal, 2 to 18, with no buffer of the state changed. `made` has
// the rank and the value of the iteration computed, or the rank and the dependence number of the
// message delivered; zeros where refused.
pub fn rowlock_move(
    numbers: &[i64; NUMBERS],
    kind: usize,
    first: usize,
    second: usize,
    steps: &[u32],
    processors: &[u8],
    values: &mut [u16],
    done: &mut [u8],
    delivered: &mut [u8],
    made: &mut [usize; 2],
) -> u8
    ensures { MakesInto (nest_in numbers.now) (layout_in steps.now processors.now)
        (state_in values.old done.old delivered.old)
        (move_in kind first second) result made.new
        (state_in values.new done.new delivered.new) }
{
    let what = move_in(kind, first, second);
    let answer = make_move_in(numbers, what, steps, processors, values, done, delivered);
    *made = made_in(answer);
    number_of(&answer)
}
