// The processors: the codes of a block's values, joined; an iteration is where its block is.
ghost use Rattle.std.specs.Prelude.{◌≡◌, ◌++◌, ℕ, ◌<◌, ◌≤◌, [], length, get_or, drop};
ghost use Rattle.integers.specs.Lists.{tab};
ghost use Rattle.nest.specs.Nest.{max_cube, max_iterations};
ghost use Rattle.mapping.specs.Mapping.{joined};
ghost use Rattle.mapping.specs.GroupNumbers.{values_in, values_of, processors_in};
ghost use Rattle.mapping.specs.Held.{held, Holds};

use crate::block_groups::BlockGroups;
use crate::dealing::deal;
use crate::directions::{Direction, column_of};
use nest::LoopNest;
use numbering::Row;

// The processor of a row: the codes of its values, joined, the first direction highest.
fn processor_of(directions: &[Direction; LoopNest::MAX_DEPTH], row: &Row) -> u8
    requires { Holds (held directions.now) row.now }
    ensures { result ≡ joined 0 (held directions.now) (values_of row.now) }
{
    let mut p = 0u64;
    // Kept: a column by index, since it is told by the number of its direction (`column_of`).
    for (j, direction) in directions.iter().enumerate() {
        p = (p << direction.bits) + direction.code_of(row[column_of(j)]);
    }
    p as u8
}

// The processor of each row, in directions that hold all of them.
#[tactic(auto, using(numbering::proofs::Filled::filled_none, numbering::proofs::Filled::filled_more))]
fn fill_processors(
    directions: &[Direction; LoopNest::MAX_DEPTH],
    rows: &[Row],
    processors: &mut [u8],
)
    requires { (length rows.now ≤ length processors.old)
        × ((k : ℕ) → k < length rows.now → Holds (held directions.now) (get_or rows.now k [])) }
    ensures { processors.new ≡ tab (λ k. joined 0 (held directions.now) (values_in rows.now k)) (length rows.now)
        ++ drop (length rows.now) processors.old }
{
    // Kept: entries by index, since of what is written through a zip a proof learns nothing.
    for (k, row) in rows.iter().enumerate() {
        processors[k] = processor_of(directions, row);
    }
}

// The processors of the blocks, in a hypercube of dimension c.
fn block_processors(groups: &BlockGroups, c: usize, processors: &mut [u8])
    requires { (c ≤ max_cube) × (length groups.now.rows.now ≤ length processors.old) }
    ensures { processors.new ≡ processors_in groups.now.rows.now (length groups.now.rows.now) c
        ++ drop (length groups.now.rows.now) processors.old }
{
    let directions = deal(groups.directions(), c);
    fill_processors(&directions, groups.rows, processors);
}

// The processor of each iteration: that of its block.
#[tactic(auto, using(numbering::proofs::Filled::filled_none, numbering::proofs::Filled::filled_more))]
fn place_iterations(owners: &[u8], blocks: &[u16], processors: &mut [u8])
    requires { (length blocks.now ≤ length processors.old)
        × ((k : ℕ) → k < length blocks.now → get_or blocks.now k 0 < length owners.now) }
    ensures { processors.new ≡ tab (λ k. get_or owners.now (get_or blocks.now k 0) 0) (length blocks.now)
        ++ drop (length blocks.now) processors.old }
{
    // Kept: entries by index, as above.
    for (k, block) in blocks.iter().enumerate() {
        processors[k] = owners[*block as usize];
    }
}

// The processors of the iterations, whose blocks are given, in a hypercube of dimension c.
// Kept: c is a plain number of the nest, handed on to `deal`, where a type for it would be
// unwrapped.
pub fn processors_into(groups: &BlockGroups, c: usize, blocks: &[u16], processors: &mut [u8])
    requires limits { (length groups.now.rows.now ≤ max_iterations) × (c ≤ max_cube) }
    requires blocks { (length blocks.now ≤ length processors.old)
        × ((k : ℕ) → k < length blocks.now → get_or blocks.now k 0 < length groups.now.rows.now) }
    ensures { let owners = processors_in groups.now.rows.now (length groups.now.rows.now) c in
        processors.new ≡ tab (λ k. get_or owners (get_or blocks.now k 0) 0) (length blocks.now)
        ++ drop (length blocks.now) processors.old }
{
    let mut owners = [0u8; LoopNest::MAX_ITERATIONS];
    block_processors(groups, c, &mut owners);
    place_iterations(&owners, blocks, processors);
}
