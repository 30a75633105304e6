// The row of one outermost index, as a part of the caller's own table (document 01, "The row").
#![tactic(auto)]

ghost use Rattle.nest.specs.Outcomes.{number_in};
ghost use Rattle.rows.specs.Rows.{Locates, Cuts};
ghost use Rattle.rows.specs.Answered.{span_in, part_in};

use nest::{LoopNest, Refusal};

// Where a row lies in a table: its first entry, and how many there are.
#[derive(Clone, Copy, Debug, PartialEq, Eq)]
pub struct RowSpan {
    pub start: usize,
    pub length: usize,
}

// Where the row of an outermost index lies in a table of so many entries; or the first refusal, 2
// to 14, then 19.
pub fn locate(s: LoopNest, entries: usize, index: i64) -> Result<RowSpan, Refusal>
    ensures { Locates s entries index (span_in result) }
{
    let accepted = nest::accept(s)?;
    nest::check_room(accepted.iterations, &[entries])?;
    let lowest = s.lower[0];
    let highest = s.upper[0];
    if nest::is_outside(lowest, highest, index) {
        return Err(Refusal::NoSuchRow);
    }
    let length = accepted.iterations / nest::extent_of(lowest, highest) as usize;
    let place = nest::distance(lowest, index) as usize;
    Ok(RowSpan {
        start: place * length,
        length,
    })
}

// The row of an outermost index, as a part of the lent table; or the first refusal, 2 to 14, then
// 19.
pub fn row<'a>(s: LoopNest, table: &'a [u16], index: i64) -> Result<&'a [u16], Refusal>
    ensures { Cuts s table.now index (part_in result) (number_in result) }
{
    let at = locate(s, table.len(), index)?;
    Ok(&table[at.start..at.start + at.length])
}
