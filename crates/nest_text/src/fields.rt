// A number in six columns, read and written: spaces, an optional minus, digits; no leading zero and
// no minus zero.
ghost use Rattle.std.specs.Prelude.{◌≡◌, ◌&&◌, if◌then◌else◌, ◌++◌, [], ◌+◌, ◌-◌, ◌<◌, ◌≤◌, ◌%◌, ltb, nat_abs};
ghost use Rattle.std.specs.Prelude.{length, take, drop};
ghost use Rattle.nest_text.specs.Fields.{columns, zero_digit, seven_digits, is_digit};
ghost use Rattle.nest_text.specs.Fields.{no_leading_zero, blanks_of, digits_of, signed_of, read_of};
ghost use Rattle.nest_text.specs.Fields.{digits_to, field_of};
ghost use Rattle.nest_text.specs.Stored.{InColumns};

use crate::COLUMNS;

// the byte before a number that has fewer digits than columns
const SPACE: u8 = b' ';

// the byte before the digits of a negative number
const MINUS: u8 = b'-';

// the byte of the digit 0; those of 1 to 9 follow it
const ZERO: u8 = b'0';

// How many spaces come first.
pub fn blanks(f: &[u8]) -> usize
    ensures { (result ≡ blanks_of f.now) × (result ≤ length f.now) }
{
    f.iter().take_while(|b| **b == SPACE).count()
}

// The digit that a byte says.
pub fn digit(b: u8) -> Option<u32>
    ensures { result ≡ (if is_digit b then Some (b - zero_digit) else None) }
{
    char::from(b).to_digit(10)
}

// Some byte stands there, and the first is no leading zero.
pub fn well_led(d: &[u8]) -> bool
    ensures { result ≡ (ltb 0 (length d.now) && no_leading_zero d.now) }
{
    match d {
        [] => false,
        [first, ..] => *first != ZERO || d.len() == 1,
    }
}

// The number that a run of digits says.
// Kept: the most bytes are a clause of three functions, each of which is given a part of the field
// of the one before it; a type for six bytes would be made again for each part.
pub fn digits(d: &[u8]) -> Option<u32>
    requires { length d.now ≤ columns }
    ensures { result ≡ digits_of d.now }
{
    if !well_led(d) {
        return None;
    }
    let mut value = 0;
    for b in d {
        value = value * 10 + digit(*b)?;
    }
    Some(value)
}

// The number that digits with an optional minus before them say; minus zero is none.
pub fn signed(d: &[u8]) -> Option<i64>
    requires { length d.now ≤ columns }
    ensures { result ≡ signed_of d.now }
{
    if d.first() != Some(&MINUS) {
        return digits(d).map(i64::from);
    }
    let n = digits(&d[1..])?;
    if n == 0 {
        return None;
    }
    Some(-i64::from(n))
}

// The number that a field says.
pub fn read_field(f: &[u8]) -> Option<i64>
    requires { length f.now ≤ columns }
    ensures { result ≡ read_of f.now }
{
    signed(&f[blanks(f)..])
}

// The byte of a number's last digit.
// Kept: char::from_digit answers an Option of a char, which is no plainer as a byte.
pub fn digit_byte(n: u64) -> u8
    ensures { result ≡ zero_digit + n % 10 }
{
    ZERO + (n % 10) as u8
}

// Writes the digits of n at the end of a field, and answers where they begin.
pub fn put_digits(out: &mut [u8], n: u64) -> usize
    requires { (length out.old ≡ columns) × (n < seven_digits) }
    ensures { (out.new ≡ take result out.old ++ digits_to columns n [])
        × ((result < columns) × (result + length (digits_to columns n []) ≡ columns)) }
{
    let mut rest = n;
    // Kept: the column is what is answered, so that a plainer loop would have to count it beside.
    for at in (1..out.len()).rev() {
        out[at] = digit_byte(rest);
        if rest < 10 {
            return at;
        }
        rest /= 10;
    }
    out[0] = digit_byte(rest);
    0
}

// Writes a number as a field: spaces, its digits at the end, and a minus before them.
pub fn write_field(out: &mut [u8], z: i64)
    requires { (length out.old ≡ columns) × InColumns z }
    ensures { out.new ≡ field_of z }
{
    out.fill(SPACE);
    let at = put_digits(out, z.unsigned_abs());
    if z.is_negative() {
        out[at - 1] = MINUS;
    }
}

// Writes a number as the field at column `from` of a line.
// Kept: it takes a place in a buffer, as `put_line` does.
pub fn write_at(line: &mut [u8], from: usize, z: i64)
    requires { (from + columns ≤ length line.old) × InColumns z }
    ensures { line.new
        ≡ take from line.old ++ (field_of z ++ drop (from + columns) line.old) }
{
    write_field(&mut line[from..from + COLUMNS], z);
}
