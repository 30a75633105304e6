// Directions, their parts and Gray codes (000, algorithm 2; document 01: cards).
ghost use Rattle.std.specs.Prelude.{◌≡◌, ◌+◌, ◌^◌, ◌<◌, ◌≤◌, nat_abs, ◌-ℤ◌, ◌≤ℤ◌, length};
ghost use Rattle.nest.specs.Nest.{to_ℕ, max_depth, max_cube, max_iterations};
ghost use Rattle.mapping.specs.Mapping.{next_turn, takes_bit, part_of, gray};
ghost use Rattle.mapping.specs.GroupNumbers.{max_number, column_of, RowsInSpan, column, span_of, directions_in};
ghost use Rattle.mapping.specs.Held.{direction_of, held, HoldsValue};

use crate::gray::gray_of;
use nest::LoopNest;
use numbering::Row;

// A direction: the least value and the width over all groups, and the bits that it was dealt.
#[derive(Clone, Copy)]
pub struct Direction {
    pub least: i64,
    pub width: u64,
    pub bits: u64,
}

impl Direction {
    // Whether it takes another bit.
    // Kept: the bound of the bits is a clause, of all directions together in `deal_bit`.
    #[tactic(auto, using(crate::proofs::Small::shifted), unfolding(crate::specs::Mapping::takes_bit))]
    pub fn takes_bit(self) -> bool
        requires { self.bits ≤ max_cube }
        ensures { result ≡ takes_bit (direction_of self) }
    {
        1 << (self.bits + 1) <= self.width
    }

    // The part of a value. A direction without a bit has one part, part 0.
    fn part_of(self, value: i64) -> u64
        requires { HoldsValue (direction_of self) value }
        ensures { result ≡ part_of (direction_of self) value }
    {
        if self.bits == 0 {
            return 0;
        }
        (value.abs_diff(self.least) << self.bits) / self.width
    }

    // The Gray code of a value's part.
    pub fn code_of(self, value: i64) -> u64
        requires { HoldsValue (direction_of self) value }
        ensures { result ≡ gray (part_of (direction_of self) value) }
    {
        gray_of(self.part_of(value))
    }
}

// The direction behind k, going round.
#[tactic(auto, unfolding(crate::specs::Mapping::next_turn))]
pub fn next_turn(k: usize) -> usize
    requires { k < max_depth }
    ensures { result ≡ next_turn max_depth k }
{
    (k + 1) % LoopNest::MAX_DEPTH
}

// The column of direction j: a row begins with the class, which is the last direction.
#[tactic(auto, unfolding(crate::specs::GroupNumbers::column_of))]
pub fn column_of(j: usize) -> usize
    requires { j < max_depth }
    ensures { result ≡ column_of j }
{
    next_turn(j)
}
