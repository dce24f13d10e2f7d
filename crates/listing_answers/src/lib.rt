//! What a line of the listing's input prints: the rows of a query, or the number that it is refused by.
#![tactic(auto)]

ghost use Rattle.std.specs.Prelude.{◌≡◌, ◌≤◌, length};
ghost use Rattle.words.specs.Put.{put};
ghost use Rattle.listing_queries.specs.Query.{input_number};
ghost use Rattle.listing_printing.specs.Lines.{misshapen_line};
ghost use Rattle.lines_check.specs.Asked.{query_number};
ghost use Rattle.listing_output.specs.Printed.{made_number, store_slice, query_printed, line_printed};

use listing_queries::Query;
use listing_stores::Made;

const MISSHAPEN: u32 = 2;

// How many bytes a line of the input prints, and which store was made last.
// Stays: a slice of out in place of the count would borrow it, and the clauses say what out.new holds.
#[derive(Clone, Copy)]
pub struct Printed {
    pub count: usize,
    pub made: Made,
}

// Writes what a query prints that has passed its own questions: the 15 of its source's store, then its own 14 or 15, or
// its rows.
fn answer_stored(
    timetable: &[u16],
    lines: &[u16],
    store: &mut [u16],
    work: &mut [u32],
    query: Query,
    last: Made,
    out: &mut [u8],
) -> Printed
    requires { (length work.old ≡ 16384)
        × (length store.old ≡ 32768)
        × (length out.old ≡ 196654)
        × (last.number ≡ made_number timetable.now lines.now last.source)
        × (store.old ≡ store_slice timetable.now lines.now last.source)
        × (query_number timetable.now lines.now 16384 query.from query.to query.minute ≡ 0) }
    ensures number_value { (result.made.number ≡ made_number timetable.now lines.now result.made.source)
        × (store.new ≡ store_slice timetable.now lines.now result.made.source) }
    ensures count_value { (result.count
        ≡ length
        (query_printed timetable.now lines.now query.from query.to query.minute))
        × (out.new
        ≡ put
        0
        (query_printed timetable.now lines.now query.from query.to query.minute)
        out.old)
        × (length out.new ≡ length out.old)
        × (length store.new ≡ length store.old)
        × (result.count ≤ length out.new) }
{
    let made = listing_stores::stored(timetable, lines, work, query.from, store, last);
    let count = listing_stores::show_made(timetable, lines, store, work, query, made.number, out);
    Printed { count, made }
}

// Writes what a query prints: its 11 or 12, then the 15 of its source's store, then its own 14 or 15, or its rows.
fn answer_query(
    timetable: &[u16],
    lines: &[u16],
    store: &mut [u16],
    work: &mut [u32],
    query: Query,
    last: Made,
    out: &mut [u8],
) -> Printed
    requires work_len { (length work.old ≡ 16384) × (length store.old ≡ 32768) × (length out.old ≡ 196654) }
    requires number_value { (last.number ≡ made_number timetable.now lines.now last.source)
        × (store.old ≡ store_slice timetable.now lines.now last.source) }
    ensures number_value_2 { (result.made.number ≡ made_number timetable.now lines.now result.made.source)
        × (store.new ≡ store_slice timetable.now lines.now result.made.source) }
    ensures count_value { (result.count
        ≡ length
        (query_printed timetable.now lines.now query.from query.to query.minute))
        × (out.new
        ≡ put
        0
        (query_printed timetable.now lines.now query.from query.to query.minute)
        out.old)
        × (length out.new ≡ length out.old)
        × (length store.new ≡ length store.old)
        × (result.count ≤ length out.new) }
{
    match lines_check::query_number(timetable, lines, work, query.from, query.to, query.minute) {
        Ok(()) => answer_stored(timetable, lines, store, work, query, last, out),
        Err(refusal) => {
            let count = listing_stores::refuse(out, query, refusal.number());
            Printed { count, made: last }
        }
    }
}

// Writes the line of a misshapen line of the input, such as the bytes after the last line end. Returns its length.
pub fn misshapen(out: &mut [u8]) -> usize
    requires { length out.old ≡ 196654 }
    ensures { (result ≡ length (misshapen_line (input_number None)))
        × (out.new ≡ put 0 (misshapen_line (input_number None)) out.old)
        × (length out.new ≡ length out.old)
        × (result ≤ length out.new) }
{
    listing_printing::put_line(out, 0, listing_stores::REFUSED, &[MISSHAPEN])
}

// Writes what a line of the input prints, from index 0 of out on.
pub fn answer_line(
    timetable: &[u16],
    lines: &[u16],
    store: &mut [u16],
    work: &mut [u32],
    line: &[u8],
    last: Made,
    out: &mut [u8],
) -> Printed
    requires work_len { (length work.old ≡ 16384) × (length store.old ≡ 32768) × (length out.old ≡ 196654) }
    requires number_value { (last.number ≡ made_number timetable.now lines.now last.source)
        × (store.old ≡ store_slice timetable.now lines.now last.source) }
    ensures number_value_2 { (result.made.number ≡ made_number timetable.now lines.now result.made.source)
        × (store.new ≡ store_slice timetable.now lines.now result.made.source) }
    ensures count_value { (result.count
        ≡ length (line_printed timetable.now lines.now line.now))
        × (out.new
        ≡ put
        0
        (line_printed timetable.now lines.now line.now)
        out.old)
        × (length out.new ≡ length out.old)
        × (length store.new ≡ length store.old)
        × (result.count ≤ length out.new) }
{
    match listing_queries::read_query(line) {
        Some(query) => answer_query(timetable, lines, store, work, query, last, out),
        None => {
            let count = misshapen(out);
            Printed { count, made: last }
        }
    }
}
