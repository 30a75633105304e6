// The lines of the listing.
ghost use Rattle.std.specs.Prelude.{◌≡◌, ℕ, ◌+◌, ◌*◌, ◌<◌, ◌≤◌, pos, length, get_or};
ghost use mathlib.Core.List.{[], ◌∷◌, map, flat_map};
ghost use Rattle.nest.specs.Nest.{max_iterations};
ghost use Rattle.integers.specs.Lists.{tab};
ghost use Rattle.nest_text.specs.Fields.{seven_digits};
ghost use Rattle.nest_text.specs.Text.{line};
ghost use Rattle.nest_text.specs.Stored.{Stored};
ghost use Rattle.planner.specs.Listing.{row_width, row_bytes, row_of};

// How many numbers a line has.
pub const NUMBERS: usize = 5;

// The bytes of a line: six columns for each number, and the byte that ends the line.
pub const LINE: usize = nest_text::COLUMNS * NUMBERS + 1;

// Writes a line of numbers that six columns hold.
// Kept: buffer and place are taken and a place is answered, here and below, as by
// `nest_text::put_line`.
pub fn put_counts(out: &mut [u8], at: usize, counts: [usize; NUMBERS]) -> usize
    requires { (at + row_bytes ≤ length out.old) × ((i : ℕ) → i < row_width → get_or counts i 0 < seven_digits) }
    ensures { Stored out.old at (line (map pos counts)) out.new result }
{
    let numbers = counts.map(|count| count as i64);
    nest_text::put_line(out, at, &numbers)
}

// Writes the line of an iteration.
fn put_row(
    out: &mut [u8],
    at: usize,
    rank: usize,
    step: u32,
    block: u16,
    processor: u8,
    value: u16,
) -> usize
    requires { (at + row_bytes ≤ length out.old) × ((rank < seven_digits) × (step < seven_digits)) }
    ensures { (result ≡ at + row_bytes)
        × Stored out.old at (line (pos rank ∷ pos step ∷ pos block ∷ pos processor ∷ pos value ∷ []))
        out.new result }
{
    let counts = [
        rank,
        step as usize,
        block as usize,
        processor as usize,
        value as usize,
    ];
    put_counts(out, at, counts)
}

// Writes a line for each iteration, of which there are as many as steps: rank, step, block,
// processor, value.
pub fn put_rows(
    out: &mut [u8],
    at: usize,
    steps: &[u32],
    blocks: &[u16],
    processors: &[u8],
    values: &[u16],
) -> usize
    requires iterations_in_bounds { (at + row_bytes * length steps.now ≤ length out.old)
        × (length steps.now ≤ max_iterations) }
    requires iterations_in_bounds_2 { (length steps.now ≤ length blocks.now)
        × (length steps.now ≤ length processors.now) × (length steps.now ≤ length values.now) }
    requires by_index { (k : ℕ) → k < length steps.now → get_or steps.now k 0 < seven_digits }
    ensures { Stored out.old at
        (flat_map line (tab (row_of steps.now blocks.now processors.now
        values.now) (length steps.now))) out.new result }
{
    let rows = steps.iter().zip(blocks).zip(processors).zip(values);
    let mut end = at;
    for (rank, (((step, block), processor), value)) in rows.enumerate() {
        end = put_row(out, end, rank, *step, *block, *processor, *value);
    }
    end
}
