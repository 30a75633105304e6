// Writing lines, and the text of an accepted nest, into a lent buffer.
ghost use Rattle.std.specs.Prelude.{◌≡◌, ℕ, ◌+◌, ◌*◌, ◌<◌, ◌≤◌, pos, length, get_or};
ghost use mathlib.Core.List.{[], ◌∷◌, ◌++◌, flat_map};
ghost use Rattle.integers.specs.Lists.{tab};
ghost use Rattle.nest.specs.Nest.{dependence_at, depth_of, count_of, boundaries_of, max_depth, max_dependences};
ghost use Rattle.nest_text.specs.Fields.{columns, field_of};
ghost use Rattle.nest_text.specs.Text.{line, text_of, limit_width, line_length};
ghost use Rattle.nest_text.specs.Reader.{value_count};
ghost use Rattle.nest_text.specs.Stored.{Stored, EachInColumns};

use crate::fields::write_at;
use crate::lengths::Layout;
use crate::{COLUMNS, NEWLINE};
use nest::{AcceptedNest, LoopNest};

// Writes numbers as fields, one after the other, and answers the place behind them.
// Kept: it takes and answers a place, as `put_line` does.
pub fn put_fields(out: &mut [u8], at: usize, numbers: &[i64]) -> usize
    requires { (at + columns * length numbers.now ≤ length out.old)
        × EachInColumns numbers.now 0 (length numbers.now) }
    ensures { Stored out.old at (flat_map field_of numbers.now) out.new result }
{
    let mut end = at;
    for z in numbers {
        write_at(out, end, *z);
        end += COLUMNS;
    }
    end
}

// Writes numbers as a line: their fields, and byte 10.
// Kept: it is public, and is called with a buffer and a place, and answers the place behind. A
// cursor that holds both is no plainer: each of its methods would have to say that it still holds
// the same buffer.
pub fn put_line(out: &mut [u8], at: usize, numbers: &[i64]) -> usize
    requires { (at + line_length (length numbers.now) ≤ length out.old)
        × EachInColumns numbers.now 0 (length numbers.now) }
    ensures { Stored out.old at (line numbers.now) out.new result }
{
    let end = put_fields(out, at, numbers);
    out[end] = NEWLINE;
    end + 1
}

// Writes the limits of the loops, a line for each.
// Kept: it takes and answers a place, as `put_line` does.
pub fn put_limits(out: &mut [u8], at: usize, lower: &[i64], upper: &[i64]) -> usize
    requires { (at + line_length limit_width * length lower.now ≤ length out.old)
        × (length upper.now ≡ length lower.now)
        × EachInColumns lower.now 0 (length lower.now) × EachInColumns upper.now 0 (length upper.now) }
    ensures { Stored out.old at
        (flat_map line (tab (λ k. get_or lower.now k (pos 0) ∷ get_or upper.now k (pos 0) ∷ []) (length lower.now)))
        out.new result }
{
    let mut end = at;
    for (low, high) in lower.iter().zip(upper) {
        end = put_line(out, end, &[*low, *high]);
    }
    end
}

// Writes m dependences of n components, a line for each.
// Kept: it takes and answers a place, as `put_line` does.
pub fn put_dependences(
    out: &mut [u8],
    at: usize,
    dependences: &[i64; LoopNest::MAX_DEPTH * LoopNest::MAX_DEPENDENCES],
    n: usize,
    m: usize,
) -> usize
    requires { (at + line_length n * m ≤ length out.old)
        × ((n ≤ max_depth)
        × ((m ≤ max_dependences) × ((i : ℕ) → i < m → EachInColumns dependences.now (i * max_depth) n))) }
    ensures { Stored out.old at (flat_map line (tab (dependence_at dependences.now n) m))
        out.new result }
{
    let mut end = at;
    for row in dependences.chunks_exact(LoopNest::MAX_DEPTH).take(m) {
        end = put_line(out, end, &row[..n]);
    }
    end
}

// Writes the last line: boundary values, and weights.
// Kept: it takes and answers a place, as `put_line` does.
pub fn put_last(out: &mut [u8], at: usize, boundaries: &[i64], weights: &[i64]) -> usize
    requires { (at + line_length (length boundaries.now + length weights.now) ≤ length out.old)
        × EachInColumns boundaries.now 0 (length boundaries.now)
        × EachInColumns weights.now 0 (length weights.now) }
    ensures { Stored out.old at (line (boundaries.now ++ weights.now)) out.new result }
{
    let weights_at = put_fields(out, at, boundaries);
    put_line(out, weights_at, weights)
}

// Writes the text of an accepted nest, laid out so, from the buffer's first byte on.
pub fn put_text(s: &AcceptedNest, layout: Layout, out: &mut [u8])
    requires { (layout.loops ≡ depth_of s.now.nest) × (layout.dependences ≡ count_of s.now.nest)
        × (layout.last ≡ value_count (boundaries_of s.now.nest) + count_of s.now.nest)
        × (length (text_of s.now.nest) ≤ length out.old) }
    ensures { Stored out.old 0 (text_of s.now.nest) out.new (length (text_of s.now.nest)) }
{
    let s = s.nest;
    let n = layout.loops;
    let m = layout.dependences;
    let values = layout.last - m;
    let limits_at = put_line(out, 0, &[s.depth, s.count, s.cube]);
    let time_at = put_limits(out, limits_at, &s.lower[..n], &s.upper[..n]);
    let dependences_at = put_line(out, time_at, &s.time[..n]);
    let last_at = put_dependences(out, dependences_at, &s.dependences, n, m);
    put_last(out, last_at, &s.boundaries[..values], &s.weights[..m]);
}
