// The ordinal of each number of a table: how many distinct smaller ones stand there. A flag for
// each number that does, then a running count of the flags.
ghost use Rattle.std.specs.Prelude.{◌≡◌, map, ℕ, ◌<◌, ◌≤◌, length, get_or};
ghost use Rattle.integers.specs.Lists.{tab, total};
ghost use Rattle.nest.specs.Nest.{max_iterations};
ghost use Rattle.partition.specs.KeySteps.{Counted, Cleared, flags, standing, ordinals, max_values};

use nest::LoopNest;
use numbering::COMPONENTS;

// Up to so many values from the least P·j to the greatest, the table of flags is small.
const FEW_VALUES: usize = 4096;

// There are no more in any nest that document 02 allows: four loops, whose limits need not be a
// box.
const MAX_VALUES: usize = 2
    * (COMPONENTS * (LoopNest::MAX_COMPONENT as usize * LoopNest::MAX_LIMIT as usize))
    + 1;

// Sets the flag of each number.
fn mark(numbers: &[u32], table: &mut [u16])
    requires { Counted numbers.now (length table.old) × Cleared table.old }
    ensures { table.new ≡ flags numbers.now (length table.old) }
{
    for number in numbers {
        table[*number as usize] = 1;
    }
}

// Each entry becomes the sum of those before it; answers the sum of all.
fn running(table: &mut [u16]) -> usize
    requires { (v : ℕ) → v ≤ length table.old → total (tab (λ u. get_or table.old u 0) v) ≤ max_iterations }
    ensures value { result ≡ total (tab (λ u. get_or table.old u 0) (length table.old)) }
    ensures table_after { table.new ≡ tab (λ v. total (tab (λ u. get_or table.old u 0) v)) (length table.old) }
{
    let mut sum: u16 = 0;
    for entry in table.iter_mut() {
        let flag = *entry;
        *entry = sum;
        sum += flag;
    }
    usize::from(sum)
}

// Each number becomes the entry of a table at its place.
fn look_up(numbers: &mut [u32], table: &[u16])
    requires { Counted numbers.old (length table.now) }
    ensures { numbers.new ≡ map (λ x. get_or table.now x 0) numbers.old }
{
    for number in numbers.iter_mut() {
        *number = u32::from(table[*number as usize]);
    }
}

// Each number below `range` becomes its ordinal, in a table of flags that has room for so many;
// answers how many distinct numbers there are.
fn ordinals_sized<const ROOM: usize>(numbers: &mut [u32], range: usize) -> usize
    requires { Counted numbers.old range × (range ≤ ROOM) × (ROOM ≤ max_values) }
    ensures value { result ≡ standing numbers.old range }
    ensures numbers_after { numbers.new ≡ ordinals numbers.old }
{
    let mut table = [0u16; ROOM];
    let flags = &mut table[..range];
    mark(numbers, flags);
    let many = running(flags);
    look_up(numbers, flags);
    many
}

// The same: the table is no larger than the values ask, since it is cleared whole.
pub fn ordinals_into(numbers: &mut [u32], range: usize) -> usize
    requires { Counted numbers.old range × (range ≤ max_values) }
    ensures value { result ≡ standing numbers.old range }
    ensures numbers_after { numbers.new ≡ ordinals numbers.old }
{
    if range <= FEW_VALUES {
        return ordinals_sized::<FEW_VALUES>(numbers, range);
    }
    ordinals_sized::<MAX_VALUES>(numbers, range)
}
