// The lines of a loop nest's text, read into a nest.
ghost use Rattle.std.specs.Prelude.{◌≡◌, [], ◌+◌, ◌<◌, ◌≤◌, length};
ghost use Rattle.nest.specs.Nest.{depth_of, count_of, max_depth, max_dependences};
ghost use Rattle.nest_text.specs.Answered.{reading_of};
ghost use Rattle.nest_text.specs.Reader.{max_fields, line_of, header_read, body_read};
ghost use Rattle.nest_text.specs.Reader.{with_time_line, with_dependence_line, with_boundary_line, with_last_line};
ghost use Rattle.nest_text.specs.Reader.{with_line, filled};

use crate::lengths::Layout;
use crate::{COLUMNS, HEADER_FIELDS, NEWLINE, fields};
use nest::{LoopNest, Refusal};

// the most fields that a line has: the boundary values and the weights
pub const MAX_FIELDS: usize = LoopNest::MAX_DEPENDENCES + LoopNest::MAX_DEPENDENCES;

// The numbers of a line, with 0 in every place that has no field.
pub type Row = [i64; MAX_FIELDS];

// The line of k fields with which the text begins. Each field is read as a part of the line.
pub fn read_line(text: &[u8], k: usize) -> Option<Row>
    requires { k ≤ max_fields }
    ensures { result ≡ line_of k text.now }
{
    let end = COLUMNS * k;
    if *text.get(end)? != NEWLINE {
        return None;
    }
    let mut row = [0; MAX_FIELDS];
    // Kept: places by index, since of what is written through a zip a proof learns nothing.
    for (i, field) in text[..end].chunks_exact(COLUMNS).enumerate() {
        row[i] = fields::read_field(field)?;
    }
    Some(row)
}

// Line 1: its numbers in a nest that is else of zeros; or its first refusal, 1 to 4.
pub fn read_header(text: &[u8]) -> Result<LoopNest, Refusal>
    ensures { reading_of result ≡ header_read text.now }
{
    let row = read_line(text, HEADER_FIELDS).ok_or(Refusal::MalformedText)?;
    let header = LoopNest::empty().with_shape(row[0], row[1], row[2]);
    nest::check_header(header.depth, header.count, header.cube)?;
    Ok(header)
}

// The nest with its time vector.
pub fn with_time_line(mut s: LoopNest, row: &Row) -> LoopNest
    ensures { result ≡ with_time_line s row.now }
{
    s.time.copy_from_slice(&row[..LoopNest::MAX_DEPTH]);
    s
}

// The nest with the components of dependence i.
pub fn with_dependence_line(mut s: LoopNest, i: usize, row: &Row) -> LoopNest
    requires { i < max_dependences }
    ensures { result ≡ with_dependence_line s i row.now }
{
    let from = i * LoopNest::MAX_DEPTH;
    let to = from + LoopNest::MAX_DEPTH;
    s.dependences[from..to].copy_from_slice(&row[..LoopNest::MAX_DEPTH]);
    s
}

// The nest with the boundary values that its last line says: the first number for all dependences,
// or one for each.
// Kept: the layout, the nest and the row, as the definition of this name takes them.
pub fn with_boundary_line(mut s: LoopNest, layout: Layout, row: &Row) -> LoopNest
    ensures { result ≡ with_boundary_line layout.dependences layout.last s row.now }
{
    let m = layout.dependences;
    let values = &mut s.boundaries[0..m];
    if layout.last == 1 + m {
        values.fill(row[0]);
    } else {
        values.copy_from_slice(&row[..m]);
    }
    s
}

// The nest with the boundary values and the weights that its last line says.
// Kept: the layout, the nest and the row, as the definition of this name takes them.
pub fn with_last_line(s: LoopNest, layout: Layout, row: &Row) -> LoopNest
    ensures { result ≡ with_last_line layout.dependences layout.last s row.now }
{
    let mut t = with_boundary_line(s, layout, row);
    let from = layout.last - layout.dependences;
    t.weights
        .copy_from_slice(&row[from..from + LoopNest::MAX_DEPENDENCES]);
    t
}

// The nest with the numbers of line i, counted from 0, of those behind line 1.
// Kept: the layout, the nest and the row, as the definition of this name takes them.
pub fn with_line(s: LoopNest, layout: Layout, i: usize, row: &Row) -> LoopNest
    ensures { result ≡ with_line layout.loops layout.dependences layout.last s i row.now }
{
    let n = layout.loops;
    if i < n {
        s.with_limits(i, row[0], row[1])
    } else if i == n {
        with_time_line(s, row)
    } else if i <= n + layout.dependences {
        with_dependence_line(s, i - (n + 1), row)
    } else {
        with_last_line(s, layout, row)
    }
}

// The lines behind line 1, put into the nest that line 1 says, where all are in form.
pub fn read_body(text: &[u8], header: LoopNest) -> Option<LoopNest>
    requires { (depth_of header ≤ max_depth) × (count_of header ≤ max_dependences)
        × (header ≡ filled (depth_of header) (count_of header) header.cube []) }
    ensures { result ≡ body_read (depth_of header) (count_of header) header.cube text.now }
{
    let n = nest::to_size(header.depth);
    let m = nest::to_size(header.count);
    let layout = Layout::of_text(n, m, text.len());
    let mut s = header;
    let mut rest = text;
    // Kept: no buffer has the lines: what line i holds is told by its number.
    for i in 0..layout.line_count() {
        let k = layout.width(i);
        let row = read_line(rest, k)?;
        s = with_line(s, layout, i, &row);
        rest = &rest[COLUMNS * k + 1..];
    }
    if !rest.is_empty() {
        return None;
    }
    Some(s)
}
