// The planning program: reads the text of a loop nest from standard input and prints its plan, or
// the number of the first refusal alone (document 01, "A listing in full").
#![tactic(auto)]

ghost use Rattle.std.specs.Prelude.{◌≡◌, List, [], ◌∷◌, ℕ, ◌≤◌, pos, length, take, IfOk, IfSome, OnOk};
ghost use Rattle.std.specs.Counts.{IsPrefixLen};
ghost use Rattle.std.specs.Io.KnownBytes.{Appends};
ghost use Rattle.nest_text.specs.Text.{line, read_most};
ghost use Rattle.nest_text.specs.Stored.{Stored};
ghost use Rattle.planner.specs.Listing.{listing, listing_most};

use std::io;
use std::io::{Read, Write};

// one byte more than the longest text that is accepted: what is read decides every input
const MOST_READ: usize = 394;

// the bytes of the longest listing: 31 for each of 4096 iterations, and for the counts
const MOST_PRINTED: usize = 127007;

// The buffer that the text is read into. It has room for so many bytes of an input that they decide
// what is printed.
#[tactic(auto, using(crate::proofs::Input::input_decided))]
fn input_buffer() -> [u8; MOST_READ]
    ensures read_most_value { read_most ≡ length result }
    ensures by_index { (text : List ℕ) → listing (take (length result) text) ≡ listing text }
{
    [0; MOST_READ]
}

// Writes a line of one number.
fn put_number(out: &mut [u8], x: u8) -> usize
    requires { 7 ≤ length out.old }
    ensures { (result ≡ 7) × Stored out.old 0 (line (pos x ∷ [])) out.new result }
{
    nest_text::put_line(out, 0, &[i64::from(x)])
}

// Writes what is printed for a text into a buffer that has room for the longest listing; answers
// how many bytes that is.
fn put_listing(text: &[u8], out: &mut [u8]) -> usize
    requires { listing_most ≤ length out.old }
    ensures stored { Stored out.old 0 (listing text.now) out.new result }
    ensures prefix_len { IsPrefixLen result out.new }
{
    match planner::list(text, out) {
        Ok(length) => length,
        Err(refusal) => put_number(out, refusal.into()),
    }
}

// Reads until the buffer is full or the input ends; answers how many bytes that is. They are the
// first of the input.
fn read_full<R: Read>(input: &mut R, buffer: &mut [u8]) -> io::Result<usize>
    ensures prefix_len { IfOk result (λ n. IsPrefixLen n buffer.new) }
    ensures bytes { IfOk result (λ n. IfSome (R.remaining input.old)
        (λ text. take n buffer.new ≡ take (length buffer.new) text)) }
{
    let mut filled = 0;
    // Kept: std's `read_exact` says nothing of an input that ends early; `read_to_end` allocates.
    while filled < buffer.len() {
        let more = input.read(&mut buffer[filled..])?;
        if more == 0 {
            break;
        }
        filled += more;
    }
    Ok(filled)
}

// Writes what is printed for the whole text that is on `input`, and nothing else.
fn print_listing<R: Read, W: Write>(input: &mut R, output: &mut W) -> io::Result<()>
    ensures { OnOk result (IfSome (R.remaining input.old)
        (λ text. Appends (W.contents output.old) (W.contents output.new) (listing text))) }
{
    let mut text = input_buffer();
    let given = read_full(input, &mut text)?;
    let mut out = [0u8; MOST_PRINTED];
    let length = put_listing(&text[..given], &mut out);
    output.write_all(&out[..length])
}

fn main(rt: HostRuntime) -> io::Result<()> {
    print_listing(&mut rt.stdin(), &mut rt.stdout())
}
