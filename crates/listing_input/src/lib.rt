//! From a timetable's text, and from the bytes of the listing's input, chunk by chunk, to the bytes printed. The
//! program itself only moves bytes.
#![tactic(auto)]

ghost use Rattle.std.specs.Prelude.{◌≡◌, ◌≤◌, length, take, drop};
ghost use Rattle.words.specs.Put.{put};
ghost use Rattle.reading.specs.Reading.{read_words};
ghost use Rattle.listing_output.specs.Printed.{made_number, store_slice, text_printed, text_tables, end_printed};
ghost use Rattle.listing_output.specs.Bytes.{Prints};

use listing_stores::Made;

pub const TABLE_WORDS: usize = 16384;

const TIMETABLE: u8 = 88;

// How many bytes of the input were taken, how many of the first ones of a line are kept, how many bytes are printed,
// and which store was made last.
#[derive(Clone, Copy)]
pub struct Taken {
    pub used: usize,
    pub kept: usize,
    pub count: usize,
    pub made: Made,
}

// Takes bytes of the input up to the first line end among them, and writes what the line prints that ends there. The
// bytes of a line whose end is not there are kept in `line`, after the first `kept` of it.
pub fn answer_bytes(
    timetable: &[u16],
    lines: &[u16],
    store: &mut [u16],
    work: &mut [u32],
    bytes: &[u8],
    line: &mut [u8],
    kept: usize,
    last: Made,
    out: &mut [u8],
) -> Taken
    requires work_len { (length work.old ≡ 16384) × (length store.old ≡ 32768) × (length out.old ≡ 196654) }
    requires number_value { (last.number ≡ made_number timetable.now lines.now last.source)
        × (store.old ≡ store_slice timetable.now lines.now last.source) }
    requires kept_bound { (kept ≤ 17) × (length line.old ≡ 17) }
    ensures number_value_2 { (result.made.number ≡ made_number timetable.now lines.now result.made.source)
        × (store.new ≡ store_slice timetable.now lines.now result.made.source) }
    ensures prints { Prints
        timetable.now
        lines.now
        (take kept line.old)
        bytes.now
        (take result.count out.new)
        (take result.kept line.new)
        (drop result.used bytes.now)
        × (result.count ≤ length out.new)
        × (result.kept ≤ 17)
        × (result.used ≤ length bytes.now) }
    ensures out_len_unchanged { (length out.new ≡ length out.old)
        × (length store.new ≡ length store.old)
        × (length line.new ≡ length line.old) }
{
    let cut = listing_lines::keep_line(line, kept, bytes);
    if !cut.whole {
        return Taken {
            used: bytes.len(),
            kept: cut.kept,
            count: 0,
            made: last,
        };
    }
    let len = cut.kept;
    let printed = listing_answers::answer_line(
        timetable,
        lines,
        store,
        work,
        &line[0..len],
        last,
        out,
    );
    let made = printed.made;
    Taken {
        used: cut.used,
        kept: 0,
        count: printed.count,
        made,
    }
}

// Writes what bytes print that stand after the last line end. Returns the length.
pub fn answer_end(bytes: &[u8], out: &mut [u8]) -> usize
    requires { length out.old ≡ 196654 }
    ensures { (result ≡ length (end_printed bytes.now))
        × (out.new ≡ put 0 (end_printed bytes.now) out.old)
        × (length out.new ≡ length out.old)
        × (result ≤ length out.new) }
{
    if bytes.len() == 0 {
        return 0;
    }
    listing_answers::misshapen(out)
}

// Reads a timetable's text and builds its line tables, and writes what the text prints. Returns the length of that, 0
// where the text is accepted.
pub fn load(
    text: &[u8],
    timetable: &mut [u16],
    lines: &mut [u16],
    work: &mut [u32],
    out: &mut [u8],
) -> usize
    requires { (length timetable.old ≡ 16384) × (length out.old ≡ 196654) }
    ensures value { (result ≡ length (text_printed text.now))
        × (out.new ≡ put 0 (text_printed text.now) out.old)
        × (length out.new ≡ length out.old)
        × (result ≤ length out.new) }
    ensures timetable_after { (timetable.new ≡ read_words text.now timetable.old)
        × (lines.new
        ≡ text_tables text.now timetable.new lines.old (length work.old)) }
{
    match reading::read(text, timetable) {
        Ok(_) => {
            let _ = lines_call::build(timetable, lines, work);
            return 0;
        }
        Err(refused) => {
            let number = refused.refusal.number();
            return listing_printing::put_line(out, 0, TIMETABLE, &[number, refused.line]);
        }
    }
}
