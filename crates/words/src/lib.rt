//! Words in lent slices: what a slice holds once some words were put into it. The laws speak of lists of numbers and so
//! serve every width.
#![tactic(auto)]

ghost use Rattle.std.specs.Prelude.{◌≡◌, ◌+◌, ◌≤◌, ◌<◌, length, get_or};
ghost use Rattle.words.specs.Put.{put};
ghost use Rattle.words.specs.Below.{Below};

// The word at index i, as a number.
pub fn word(s: &[u16], i: usize) -> u32
    requires { i < length s.now }
    ensures { (result ≡ get_or s.now i 0) × (result < 65536) }
{
    s[i] as u32
}

// Copies src into dst, from index at on.
pub fn copy<T: Copy>(dst: &mut [T], at: usize, src: &[T])
    requires { at + length src.now ≤ length dst.old }
    ensures dst_after { dst.new ≡ put at src.now dst.old }
    ensures dst_len_unchanged { length dst.new ≡ length dst.old }
{
    for (i, &word) in src.iter().enumerate() {
        dst[at + i] = word;
    }
}

// Writes the numbers of src, each of which fits 16 bits, as words into dst, from index at on.
pub fn narrow(dst: &mut [u16], at: usize, src: &[u32])
    requires { (at + length src.now ≤ length dst.old) × Below 65536 src.now }
    ensures dst_after { dst.new ≡ put at src.now dst.old }
    ensures dst_len_unchanged { length dst.new ≡ length dst.old }
{
    for (i, &number) in src.iter().enumerate() {
        dst[at + i] = number as u16;
    }
}
