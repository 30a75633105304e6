// The plan of a loop nest: its steps, blocks, processors and values, and the counts of them (000,
// algorithms 1 and 2); and its listing.
#![tactic(auto)]

mod lines;

ghost use Rattle.std.specs.Prelude.{◌≡◌, ◌++◌, ◌≤◌, ◌+◌, ◌*◌, length, drop};
ghost use Rattle.std.proofs.lemmas.List.Edits.{sets};
ghost use Rattle.nest.specs.Points.{points_of};
ghost use Rattle.sources.specs.Keys.{keys_of};
ghost use Rattle.partition.specs.Partition.{steps_of, blocks_of, block_count};
ghost use Rattle.mapping.specs.Mapping.{processors_of};
ghost use Rattle.sequential.specs.Sequential.{values_of};
ghost use Rattle.planner.specs.Listing.{row_bytes, plan_text, Lists};
ghost use Rattle.nest_text.specs.Answered.{writing_of};
ghost use Rattle.planner.specs.Plan.{plan_answer, tables_in, Plans};
ghost use Rattle.planner.specs.Answered.{made_of, planning_of};

use mapping::BlockGroups;
use nest::{AcceptedNest, LoopNest, Refusal};
use sources::KeyedNest;

// The counts of a plan.
#[derive(Clone, Copy, Debug, PartialEq, Eq)]
pub struct Counts {
    pub iterations: usize,
    pub steps: usize,
    pub blocks: usize,
    // processors that hold an iteration
    pub processors: usize,
    pub messages: usize,
}

// The blocks and the processors of the iterations of an accepted nest, from the keys of its index
// points, into two tables. Answers how many blocks there are.
fn place_blocks(s: &KeyedNest, blocks: &mut [u16], processors: &mut [u8]) -> usize
    requires { (s.now.nest.now.iterations ≤ length blocks.old) × (s.now.nest.now.iterations ≤ length processors.old) }
    ensures value { result ≡ block_count s.now.nest.now.nest }
    ensures blocks_after { blocks.new
        ≡ blocks_of s.now.nest.now.nest ++ drop s.now.nest.now.iterations blocks.old }
    ensures processors_after { processors.new
        ≡ processors_of s.now.nest.now.nest ++ drop s.now.nest.now.iterations processors.old }
{
    let mut groups = [[0; numbering::COMPONENTS]; LoopNest::MAX_ITERATIONS];
    let count = partition::blocks_into(s, &mut groups, blocks);
    let groups = BlockGroups {
        rows: &groups[..count],
    };
    let blocks = &blocks[..s.nest.iterations];
    mapping::processors_into(&groups, s.nest.cube(), blocks, processors);
    count
}

// The plan of an accepted nest, into four tables.
// Kept: each table is lent by itself, as to `plan`; a type over the four would have to say what
// stands in each before and after, as the clauses do.
fn make(
    s: &AcceptedNest,
    steps: &mut [u32],
    blocks: &mut [u16],
    processors: &mut [u8],
    values: &mut [u16],
) -> Counts
    requires { (s.now.iterations ≤ length steps.old) × (s.now.iterations ≤ length blocks.old)
        × (s.now.iterations ≤ length processors.old) × (s.now.iterations ≤ length values.old) }
    ensures value { made_of result ≡ plan_answer s.now.nest 0 }
    ensures steps_after { steps.new ≡ steps_of s.now.nest ++ drop s.now.iterations steps.old }
    ensures blocks_after { blocks.new ≡ blocks_of s.now.nest ++ drop s.now.iterations blocks.old }
    ensures processors_after { processors.new ≡ processors_of s.now.nest ++ drop s.now.iterations processors.old }
    ensures values_after { values.new ≡ values_of s.now.nest ++ drop s.now.iterations values.old }
{
    let iterations = s.iterations;
    let mut table = [0i64; LoopNest::MAX_ITERATIONS];
    let keyed = KeyedNest::new(s, &mut table);
    let step_count = partition::steps_into(&keyed, steps);
    let block_count = place_blocks(&keyed, blocks, processors);
    let processor_count = mapping::processor_count(&processors[..iterations]);
    let message_count = mapping::message_count(&keyed, processors);
    sequential::fill_by_keys(&keyed, values);
    Counts {
        iterations,
        steps: step_count,
        blocks: block_count,
        processors: processor_count,
        messages: message_count,
    }
}

// The plan of a loop nest, into four tables: its counts, or the first refusal, 2 to 14, with the
// tables as they were.
// Kept: four tables, as the entry of C and the document have them.
pub fn plan(
    s: LoopNest,
    steps: &mut [u32],
    blocks: &mut [u16],
    processors: &mut [u8],
    values: &mut [u16],
) -> Result<Counts, Refusal>
    ensures { Plans s
        (tables_in steps.old blocks.old processors.old values.old)
        (planning_of result)
        (tables_in steps.new blocks.new processors.new values.new) }
{
    let accepted = nest::accept(s)?;
    let rooms = [steps.len(), blocks.len(), processors.len(), values.len()];
    nest::check_room(accepted.iterations, &rooms)?;
    Ok(make(&accepted, steps, blocks, processors, values))
}

// The lines of an accepted nest's plan into a lent buffer that has room for them.
fn put_plan(s: &AcceptedNest, out: &mut [u8])
    requires { row_bytes * (s.now.iterations + 1) ≤ length out.old }
    ensures { out.new ≡ sets out.old 0 (plan_text s.now.nest) }
{
    let mut steps = [0u32; LoopNest::MAX_ITERATIONS];
    let mut blocks = [0u16; LoopNest::MAX_ITERATIONS];
    let mut processors = [0u8; LoopNest::MAX_ITERATIONS];
    let mut values = [0u16; LoopNest::MAX_ITERATIONS];
    let made = make(s, &mut steps, &mut blocks, &mut processors, &mut values);
    let end = lines::put_counts(
        out,
        0,
        [
            made.iterations,
            made.steps,
            made.blocks,
            made.processors,
            made.messages,
        ],
    );
    lines::put_rows(
        out,
        end,
        &steps[..s.iterations],
        &blocks,
        &processors,
        &values,
    );
}

// The plan of a loop nest as text, from the nest's text into a lent buffer: its length, or the
// first refusal, 1 to 14, with no byte changed.
pub fn list(text: &[u8], out: &mut [u8]) -> Result<usize, Refusal>
    ensures { Lists text.now out.old (writing_of result) out.new }
{
    let s = nest_text::read(text)?;
    let accepted = nest::accept(s)?;
    let length = lines::LINE * (accepted.iterations + 1);
    nest::check_room(length, &[out.len()])?;
    put_plan(&accepted, out);
    Ok(length)
}
