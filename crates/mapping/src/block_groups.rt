// The groups of the blocks, and the directions that their values span (000, algorithm 2; document
// 01: cards).
ghost use Rattle.std.specs.Prelude.{◌≡◌, ◌<◌, ◌≤◌, length};
ghost use Rattle.nest.specs.Nest.{max_depth};
ghost use Rattle.partition.specs.Heads.{props};
ghost use Rattle.mapping.specs.GroupNumbers.{column_of, RowsInSpan, column, span_of, directions_in};
ghost use Rattle.mapping.specs.Held.{direction_of, held};

use crate::directions::{Direction, column_of};
use nest::LoopNest;
use numbering::Row;

// The groups of the blocks: row b has the numbers of block b's group.
#[derive(Clone, Copy)]
pub struct BlockGroups<'a> {
    pub rows: &'a [Row],
    // there is a block
    pub ghost some: { 1 ≤ length rows.now },
    // the numbers are in span
    pub ghost span: { RowsInSpan rows.now (length rows.now) } by { Prim.hlevel props },
}

impl<'a> BlockGroups<'a> {
    // The direction whose values stand in column j, with no bits.
    fn direction_in(&self, j: usize) -> Direction
        requires { j < max_depth }
        ensures { direction_of result ≡ span_of (column self.now.rows.now j (length self.now.rows.now)) }
    {
        let mut least = self.rows[0][j];
        let mut greatest = least;
        for row in &self.rows[1..] {
            least = least.min(row[j]);
            greatest = greatest.max(row[j]);
        }
        Direction {
            least,
            width: greatest.abs_diff(least) + 1,
            bits: 0,
        }
    }

    // The directions, the class last, with no bits.
    pub(crate) fn directions(&self) -> [Direction; LoopNest::MAX_DEPTH]
        ensures { held result ≡ directions_in self.now.rows.now (length self.now.rows.now) }
    {
        let none = Direction {
            least: 0,
            width: 0,
            bits: 0,
        };
        let mut directions = [none; LoopNest::MAX_DEPTH];
        for (j, direction) in directions.iter_mut().enumerate() {
            let column = column_of(j);
            *direction = self.direction_in(column);
        }
        directions
    }
}
