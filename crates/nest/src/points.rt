// The indices of one loop: how many there are, and how far each is from the lowest.
ghost use Rattle.std.specs.Prelude.{◌≡◌, false, ◌≤◌, pos, nat_abs, ◌+ℤ◌, ◌-ℤ◌, ◌≤ℤ◌};
ghost use Rattle.nest.specs.Nest.{to_ℕ, max_limit, max_iterations};
ghost use Rattle.nest.specs.Points.{extent};
ghost use Rattle.nest.specs.Refusals.{crossed};

// How far an index is above the lowest of its loop.
pub fn distance(lower: i64, index: i64) -> u64
    requires { lower ≤ℤ index }
    ensures { result ≡ to_ℕ (index -ℤ lower) }
{
    index.abs_diff(lower)
}

// How many indices a loop has whose limits are not crossed.
// Kept: two numbers, which stand in two arrays of a nest, as the C interface has them.
pub fn extent_of(lower: i64, upper: i64) -> u64
    requires { crossed (record { lower = lower; upper = upper }) ≡ false }
    ensures { result ≡ extent (record { lower = lower; upper = upper }) }
{
    distance(lower, upper) + 1
}

// The index that is q places above the lowest of its loop.
pub fn index_at(lower: i64, q: u64) -> i64
    requires { (nat_abs lower ≤ max_limit) × (q ≤ max_iterations) }
    ensures { result ≡ lower +ℤ pos q }
{
    lower + q as i64
}
