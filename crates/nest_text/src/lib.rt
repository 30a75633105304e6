// The text of a loop nest (document 01, "The sheet"): read from bytes, written into a lent buffer.
#![tactic(auto)]

mod fields;
mod lengths;
mod reader;
mod writer;

ghost use Rattle.nest_text.specs.Answered.{reading_of, writing_of};
ghost use Rattle.nest_text.specs.Text.{Reads, Writes};

use crate::lengths::Layout;
pub use crate::writer::put_line;
use nest::{LoopNest, Refusal};

// the columns of a field, one byte each
pub const COLUMNS: usize = 6;

// the byte that ends a line
pub const NEWLINE: u8 = b'\n';

// the fields of line 1: depth, number of dependences, cube dimension
pub const HEADER_FIELDS: usize = 3;

// the fields of a loop's line: lower and upper limit
pub const LIMIT_FIELDS: usize = 2;

// A loop nest from its text, unused places 0; or the first refusal.
pub fn read(text: &[u8]) -> Result<LoopNest, Refusal>
    ensures { Reads text.now (reading_of result) }
{
    let header = reader::read_header(text)?;
    let behind = &text[COLUMNS * HEADER_FIELDS + 1..];
    let s = reader::read_body(behind, header).ok_or(Refusal::MalformedText)?;
    nest::check(s)?;
    Ok(s)
}

// The text of an accepted nest into a lent buffer: its length; or the first refusal, 2 to 14, with
// no byte changed.
pub fn write(s: LoopNest, out: &mut [u8]) -> Result<usize, Refusal>
    ensures { Writes s out.old (writing_of result) out.new }
{
    let accepted = nest::accept(s)?;
    let layout = Layout::of_nest(&accepted);
    let length = layout.text_length();
    if out.len() < length {
        return Err(Refusal::ShortBuffer);
    }
    writer::put_text(&accepted, layout, out);
    Ok(length)
}
