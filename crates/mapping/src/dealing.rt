// The dealing of the hypercube's bits to the directions (000, algorithm 2; document 01: cards).
ghost use Rattle.std.specs.Prelude.{◌≡◌, ◌<◌, ◌≤◌};
ghost use Rattle.nest.specs.Nest.{max_depth, max_cube};
ghost use Rattle.mapping.specs.Mapping.{deal_bit, dealt, bits_of};
ghost use Rattle.mapping.specs.Held.{held, deal_of};

use crate::directions::{Direction, next_turn};
use nest::LoopNest;

// The directions with the bits dealt so far, and the one whose turn is next.
#[derive(Clone, Copy)]
struct Dealing {
    directions: [Direction; LoopNest::MAX_DEPTH],
    turn: usize,
}

impl Dealing {
    // One bit to the first direction that can take it, going round from the one whose turn it is.
    fn deal_bit(&mut self)
        requires { (self.old.turn < max_depth) × (bits_of (held self.old.directions) ≤ max_cube) }
        ensures { deal_of self.new.directions self.new.turn
            ≡ deal_bit max_depth (deal_of self.old.directions self.old.turn) }
    {
        // Kept: it counts how many are asked; which one is asked goes round, from `turn`.
        for _ in 0..LoopNest::MAX_DEPTH {
            let k = self.turn;
            self.turn = next_turn(k);
            if self.directions[k].takes_bit() {
                self.directions[k].bits += 1;
                return;
            }
        }
    }
}

// The directions when c bits are dealt.
#[tactic(auto, using(crate::proofs::Arrays::dealing_end))]
pub fn deal(
    directions: [Direction; LoopNest::MAX_DEPTH],
    c: usize,
) -> [Direction; LoopNest::MAX_DEPTH]
    requires { (c ≤ max_cube) × (bits_of (held directions) ≡ 0) }
    ensures { held result ≡ dealt c (held directions) }
{
    let mut dealing = Dealing {
        directions,
        turn: 0,
    };
    // Kept: it counts the bits; there is nothing to go over.
    for _ in 0..c {
        dealing.deal_bit();
    }
    dealing.directions
}
