// Projection lines of the index points in loop order, found by the points' keys: the iteration
// before one on its line is the source along the line's vector.
ghost use Rattle.std.specs.Prelude.{◌≡◌, ◌++◌, map, ℕ, ◌<◌, ◌≤◌, length, get_or, take, drop};
ghost use Rattle.integers.specs.Vector.{AllWithin};
ghost use Rattle.nest.specs.Nest.{max_limit, max_iterations};
ghost use Rattle.sources.specs.Keys.{source_in, Searchable};
ghost use Rattle.numbering.specs.Tables.{RowsWithin};
ghost use Rattle.partition.specs.GroupRows.{LinesOf};
ghost use Rattle.partition.specs.Heads.{heads_to, lines_to, points_by, props};

use numbering::Row;
use sources::Sources;

// Projection lines: the keys of the index points, of `depth` indices each, and the first iteration
// of each line.
#[derive(Clone, Copy)]
pub struct Lines<'a> {
    pub keys: &'a [i64],
    pub depth: usize,
    pub heads: &'a [u16],
    pub ghost lines: { LinesOf keys.now depth heads.now } by { Prim.hlevel props },
}

impl<'a> Lines<'a> {
    // The index points of the first iterations into the rows of a table.
    pub fn points_into(&self, points: &mut [Row])
        requires { length points.old ≡ length self.now.heads.now }
        ensures { (points.new ≡ points_by self.now.keys.now self.now.depth self.now.heads.now)
            × RowsWithin max_limit points.new }
    {
        // Kept: heads by index, since of what is written through a zip a proof learns nothing.
        for (l, point) in points.iter_mut().enumerate() {
            let head = usize::from(self.heads[l]);
            *point = sources::vector_at(self.keys[head], self.depth);
        }
    }
}

// The number of each iteration's line into a table, where the key of an iteration is `distance`
// above that of the one before it on its line; and the first iteration of each line into another.
// Answers how many lines there are.
pub fn lines_into(keys: &[i64], distance: i64, heads: &mut [u16], lines: &mut [u16]) -> usize
    requires { (length keys.now ≤ max_iterations) × (length keys.now ≤ length heads.old)
        × (length keys.now ≤ length lines.old) × Searchable keys.now distance }
    ensures result_value { (let before : ℕ → ℕ = λ k. source_in keys.now k distance in
        result ≡ length (heads_to before (length keys.now))) }
    ensures heads_after { (let before : ℕ → ℕ = λ k. source_in keys.now k distance in
        take result heads.new ≡ heads_to before (length keys.now)) }
    ensures lines_after { (let before : ℕ → ℕ = λ k. source_in keys.now k distance in
        let many = length keys.now in
        lines.new ≡ lines_to before many ++ drop many lines.old) }
{
    let distances = [distance];
    let mut sources = Sources::new(keys, &distances);
    let mut count = 0;
    // Kept: k is stored itself, and the table of lines is read where it is written.
    for k in 0..keys.len() {
        lines[k] = match sources.source(0) {
            Some(j) if j < k => lines[j],
            _ => {
                let line = count as u16;
                heads[count] = k as u16;
                count += 1;
                line
            }
        };
        sources.advance();
    }
    count
}

// Each entry of a table replaced by the number that it leads to.
pub fn spread(numbers: &[u16], table: &mut [u16])
    requires { (length numbers.now ≤ max_iterations)
        × ((k : ℕ) → k < length table.old → get_or table.old k 0 < length numbers.now) }
    ensures { table.new ≡ map (λ l. get_or numbers.now l 0) table.old }
{
    for entry in table.iter_mut() {
        *entry = numbers[usize::from(*entry)];
    }
}
