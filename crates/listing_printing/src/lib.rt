//! The lines that the listing program prints, as bytes of a lent slice.
#![tactic(auto)]

ghost use Rattle.std.specs.Prelude.{◌≡◌, [], ◌∷◌, ◌+◌, ◌*◌, ◌≤◌, ◌<◌, length};
ghost use Rattle.words.specs.Put.{put};
ghost use Rattle.listing_printing.specs.Lines.{spelled, line_of, lines_from};

const ZERO: u8 = 48;

const COMMA: u8 = 44;

const LINE_END: u8 = 10;

const COST: u8 = 67;

const RIDE: u8 = 82;

// The words of a row before its rides, and the words of a ride.
const LINE_WORDS: usize = 3;

// Writes a byte at index at.
fn put_byte(out: &mut [u8], at: usize, byte: u8)
    requires { at < length out.old }
    ensures { (out.new ≡ put at (byte ∷ []) out.old)
        × (length out.new ≡ length out.old) }
{
    out[at] = byte;
}

// Writes the decimal digits of a number, from index at on. Returns the index after them.
// Stays: of a Cursor over a slice std's write! promises no bytes, and the clause value of put_line names them.
fn put_number(out: &mut [u8], at: usize, n: u32) -> usize
    requires { at + length (spelled n) ≤ length out.old }
    ensures { (result ≡ at + length (spelled n))
        × (out.new ≡ put at (spelled n) out.old)
        × (length out.new ≡ length out.old) }
{
    if n < 10 {
        out[at] = ZERO + n as u8;
        return at + 1;
    }
    let end = put_number(out, at, n / 10);
    out[end] = ZERO + (n % 10) as u8;
    end + 1
}

// Writes a comma and a number, from index at on. Returns the index after them.
fn put_field(out: &mut [u8], at: usize, n: u32) -> usize
    requires { at + 11 ≤ length out.old }
    ensures value { (result ≡ at + length (44 ∷ spelled n))
        × (out.new ≡ put at (44 ∷ spelled n) out.old)
        × (length out.new ≡ length out.old) }
    ensures upper_bound { result ≤ at + 11 }
{
    put_byte(out, at, COMMA);
    put_number(out, at + 1, n)
}

// Writes the line of a letter and numbers, from index start on. Returns the index after it.
pub fn put_line(out: &mut [u8], start: usize, letter: u8, numbers: &[u32]) -> usize
    requires { start + 11 * length numbers.now + 2 ≤ length out.old }
    ensures value { (result ≡ start + length (line_of letter numbers.now))
        × (out.new ≡ put start (line_of letter numbers.now) out.old)
        × (length out.new ≡ length out.old) }
    ensures upper_bound { result ≤ start + 11 * length numbers.now + 2 }
{
    put_byte(out, start, letter);
    let mut at = start + 1;
    for n in numbers {
        at = put_field(out, at, *n);
    }
    put_byte(out, at, LINE_END);
    at + 1
}

// Writes the lines of so many rows, whose words stand at the beginning of the answer, from index start on. Returns the
// index after them.
pub fn put_rows(out: &mut [u8], start: usize, answer: &[u32], rows: u32) -> usize
    requires { start + 12 * length answer.now ≤ length out.old }
    ensures value { (result ≡ start + length (lines_from answer.now rows 0))
        × (out.new ≡ put start (lines_from answer.now rows 0) out.old)
        × (length out.new ≡ length out.old) }
    ensures upper_bound { result ≤ length out.new }
{
    let mut at = start;
    let mut left = rows;
    let mut rides = 0;
    for words in answer.chunks_exact(LINE_WORDS) {
        if rides == 0 {
            if left == 0 {
                return at;
            }
            at = put_line(out, at, COST, words);
            left -= 1;
            rides = words[2];
            continue;
        }
        at = put_line(out, at, RIDE, words);
        rides -= 1;
    }
    at
}
