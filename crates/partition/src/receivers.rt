// To how many other blocks a block sends at most, known before the nest is planned (document 02,
// U3; 000, theorem 2).
ghost use Rattle.std.specs.Prelude.{◌≡◌, ◌-◌, ◌*◌, ◌≤◌};
ghost use Rattle.nest.specs.Nest.{max_dependences};
ghost use Rattle.partition.specs.Partition.{chosen_of};
ghost use Rattle.partition.specs.Sending.{Bounds, receivers_of};

use crate::inputs::basis_of;
use nest::{AcceptedNest, LoopNest, Refusal};

// β of an accepted nest: how many vectors are chosen, the grouping vector among them.
fn chosen_count(s: &AcceptedNest) -> usize
    ensures { result ≡ chosen_of s.now.nest }
{
    basis_of(s).basis.count
}

// 2m - β. Of the m dependences β are chosen, and along each of those a block sends to one other
// block at most; along each of the rest to two.
fn bound(m: usize, chosen: usize) -> usize
    requires { (chosen ≤ m) × (m ≤ max_dependences) }
    ensures { result ≡ 2 * m - chosen }
{
    2 * m - chosen
}

// To how many other blocks a block of a nest's plan sends at most, 2m - β; or the nest's first
// refusal, 2 to 13.
pub fn most_receivers(s: LoopNest) -> Result<usize, Refusal>
    ensures { Bounds s (receivers_of result) }
{
    let accepted = nest::accept(s)?;
    Ok(bound(accepted.count(), chosen_count(&accepted)))
}
