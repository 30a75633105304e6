// How a text is laid out: its lines, the fields of each, and its bytes.
ghost use Rattle.std.specs.Prelude.{◌≡◌, ◌+◌, ◌<◌, ◌≤◌, get_or};
ghost use Rattle.nest.specs.Nest.{depth_of, count_of, boundaries_of, max_depth, max_dependences};
ghost use Rattle.nest_text.specs.Text.{body_length, text_length, widths};
ghost use Rattle.nest_text.specs.Reader.{max_fields, last_width, value_count};

use crate::{COLUMNS, HEADER_FIELDS, LIMIT_FIELDS};
use nest::AcceptedNest;

// What stands behind line 1: a line of limits for each loop, the time vector, a line for each
// dependence, and a last line of so many fields.
#[derive(Clone, Copy)]
pub struct Layout {
    pub loops: usize,
    pub dependences: usize,
    // the boundary values, one or one for each dependence, and a weight for each dependence
    pub last: usize,
    ghost within: { (loops ≤ max_depth) × (dependences ≤ max_dependences)
        × (dependences ≤ last) × (last ≤ dependences + max_dependences) },
}

impl Layout {
    // That of a text with so many bytes behind line 1: one boundary value for all dependences where
    // it is as long as such a text, one for each otherwise.
    pub fn of_text(loops: usize, dependences: usize, bytes: usize) -> Layout
        requires { (loops ≤ max_depth) × (dependences ≤ max_dependences) }
        ensures { (result.loops ≡ loops) × (result.dependences ≡ dependences)
            × (result.last ≡ last_width loops dependences bytes) }
    {
        let short = Layout {
            loops,
            dependences,
            last: 1 + dependences,
        };
        let long = Layout {
            loops,
            dependences,
            last: dependences + dependences,
        };
        if bytes == short.body_length() {
            return short;
        }
        long
    }

    // That of what is written for a nest: one boundary value for all dependences where they are all
    // equal.
    pub fn of_nest(s: &AcceptedNest) -> Layout
        ensures { (result.loops ≡ depth_of s.now.nest) × (result.dependences ≡ count_of s.now.nest)
            × (result.last ≡ value_count (boundaries_of s.now.nest) + count_of s.now.nest) }
    {
        let nest = s.nest;
        let dependences = nest::to_size(nest.count);
        let values = value_count(&nest.boundaries[..dependences]);
        Layout {
            loops: nest::to_size(nest.depth),
            dependences,
            last: values + dependences,
        }
    }

    // How many bytes stand behind line 1.
    pub fn body_length(self) -> usize
        ensures { result ≡ body_length self.loops self.dependences self.last }
    {
        let limits = (COLUMNS * LIMIT_FIELDS + 1) * self.loops;
        let vectors = (COLUMNS * self.loops + 1) * (self.dependences + 1);
        let last = COLUMNS * self.last + 1;
        limits + vectors + last
    }

    // How many bytes the text has with line 1.
    pub fn text_length(self) -> usize
        ensures { result ≡ text_length self.loops self.dependences self.last }
    {
        COLUMNS * HEADER_FIELDS + 1 + self.body_length()
    }

    // How many lines stand behind line 1.
    pub fn line_count(self) -> usize
        ensures { result ≡ self.loops + 1 + self.dependences + 1 }
    {
        self.loops + 1 + self.dependences + 1
    }

    // How many fields line i of them has, counted from 0.
    pub fn width(self, i: usize) -> usize
        requires { i < self.loops + 1 + self.dependences + 1 }
        ensures { (result ≡ get_or (widths self.loops self.dependences self.last) i 0) × (result ≤ max_fields) }
    {
        if i < self.loops {
            LIMIT_FIELDS
        } else if i <= self.loops + self.dependences {
            self.loops
        } else {
            self.last
        }
    }
}

// Equal boundary values are written as one for all dependences.
const ONE_FOR_ALL: usize = 1;

// How many of a nest's boundary values are written: one where they are all equal.
pub fn value_count(boundaries: &[i64]) -> usize
    ensures { result ≡ value_count boundaries.now }
{
    match boundaries.split_first() {
        Some((first, others)) if others.iter().any(|z| z != first) => boundaries.len(),
        _ => ONE_FOR_ALL,
    }
}
