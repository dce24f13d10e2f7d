//! The lines of the listing's input: its bytes up to the next line end, of which no more are kept than tell what the
//! line prints.
#![tactic(auto)]

ghost use Rattle.std.specs.Prelude.{◌≡◌, cond, [], ◌∷◌, ◌++◌, ◌≤◌, length, take, drop};
ghost use Rattle.listing_output.specs.Bytes.{Keeps};

const LINE_END: u8 = 10;

// One byte more than a query may have: what the first bytes of a line print is what the line prints, by the law
// `cut_printed`.
pub const LINE_BYTES: usize = listing_queries::BYTES_MOST + 1;

// How many bytes of the input were taken, how many of the first ones of a line are kept, and whether it has ended.
#[derive(Clone, Copy)]
pub struct Cut {
    pub used: usize,
    pub kept: usize,
    pub whole: bool,
}

// Keeps a byte of a line, if there is room for it. Returns how many are kept.
fn keep(line: &mut [u8], kept: usize, b: u8) -> usize
    requires { (kept ≤ 17) × (length line.old ≡ 17) }
    ensures { (take result line.new ≡ take 17 (take kept line.old ++ b ∷ []))
        × (result ≤ 17)
        × (length line.new ≡ length line.old) }
{
    if kept < LINE_BYTES {
        line[kept] = b;
        return kept + 1;
    }
    kept
}

// Keeps the bytes of a line up to its end, or to the end of the bytes that are there.
pub fn keep_line(line: &mut [u8], before: usize, bytes: &[u8]) -> Cut
    requires { (before ≤ 17) × (length line.old ≡ 17) }
    ensures { Keeps
        (take before line.old)
        bytes.now
        (take result.kept line.new)
        (cond result.whole (10 ∷ drop result.used bytes.now) [])
        × (result.used ≤ length bytes.now)
        × (result.kept ≤ 17)
        × (length line.new ≡ length line.old) }
{
    let n = bytes.len();
    let mut kept = before;
    let mut i = 0;
    while i < n {
        let b = bytes[i];
        if b == LINE_END {
            return Cut {
                used: i + 1,
                kept,
                whole: true,
            };
        }
        kept = keep(line, kept, b);
        i += 1;
    }
    Cut {
        used: i,
        kept,
        whole: false,
    }
}
