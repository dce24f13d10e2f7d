//! The store of a query's source, made or still held, and what the query prints from it.
#![tactic(auto)]

ghost use Rattle.std.specs.Prelude.{◌≡◌, ◌≤◌, length, replicate};
ghost use Rattle.words.specs.Put.{put};
ghost use Rattle.listing_printing.specs.Lines.{refused_line, answered};
ghost use Rattle.lines_check.specs.Asked.{query_number};
ghost use Rattle.listing_output.specs.Printed.{made_number, store_slice, query_printed};

use listing_queries::Query;

pub const STORE_WORDS: usize = 32768;

const ANSWER_WORDS: usize = 16384;

// Room for the lines of an answer: four numbers in the first, and three in the line of each three words.
pub const OUT_BYTES: usize = 196654;

const ANSWERED: u8 = 81;

pub const REFUSED: u8 = 78;

// The source whose store was made last, and the number of that call.
#[derive(Clone, Copy)]
pub struct Made {
    pub source: u32,
    pub number: u32,
}

// Makes the store of a source.
pub fn make(
    timetable: &[u16],
    lines: &[u16],
    work: &mut [u32],
    source: u32,
    store: &mut [u16],
) -> Made
    requires { (length work.old ≡ 16384) × (length store.old ≡ 32768) }
    ensures { (result.source ≡ source)
        × (result.number ≡ made_number timetable.now lines.now source)
        × (store.new ≡ store_slice timetable.now lines.now source)
        × (length store.new ≡ length store.old) }
{
    store.fill(0);
    match store_call::make_store(timetable, lines, work, source, store) {
        Ok(_) => Made { source, number: 0 },
        Err(refusal) => Made {
            source,
            number: refusal.number(),
        },
    }
}

// The store of a source, which is the one that was made last or else is made.
pub fn stored(
    timetable: &[u16],
    lines: &[u16],
    work: &mut [u32],
    source: u32,
    store: &mut [u16],
    last: Made,
) -> Made
    requires work_len { (length work.old ≡ 16384) × (length store.old ≡ 32768) }
    requires number_value { (last.number ≡ made_number timetable.now lines.now last.source)
        × (store.old ≡ store_slice timetable.now lines.now last.source) }
    ensures { (result.source ≡ source)
        × (result.number ≡ made_number timetable.now lines.now source)
        × (store.new ≡ store_slice timetable.now lines.now source)
        × (length store.new ≡ length store.old) }
{
    if last.source == source {
        return last;
    }
    make(timetable, lines, work, source, store)
}

// Writes the line of a query that is refused. Returns its length.
pub fn refuse(out: &mut [u8], query: Query, number: u32) -> usize
    requires { length out.old ≡ 196654 }
    ensures { (result ≡ length (refused_line query.from query.to query.minute number))
        × (out.new
        ≡ put 0 (refused_line query.from query.to query.minute number) out.old)
        × (length out.new ≡ length out.old)
        × (result ≤ length out.new) }
{
    listing_printing::put_line(
        out,
        0,
        REFUSED,
        &[query.from, query.to, query.minute, number],
    )
}

// Writes the lines of a query with so many rows, which stand at the beginning of the answer. Returns their length.
fn answer_lines(out: &mut [u8], query: Query, rows: u32, answer: &[u32]) -> usize
    requires { (length out.old ≡ 196654) × (length answer.now ≡ 16384) }
    ensures { (result ≡ length (answered query.from query.to query.minute rows answer.now))
        × (out.new
        ≡ put 0 (answered query.from query.to query.minute rows answer.now) out.old)
        × (length out.new ≡ length out.old)
        × (result ≤ length out.new) }
{
    let at = listing_printing::put_line(
        out,
        0,
        ANSWERED,
        &[query.from, query.to, query.minute, rows],
    );
    listing_printing::put_rows(out, at, answer, rows)
}

// Writes the lines of a query that has passed its own questions and whose store was made, or its 14 or 15. Returns
// their length. The answer holds zeros before.
fn show(
    timetable: &[u16],
    lines: &[u16],
    store: &[u16],
    work: &mut [u32],
    query: Query,
    answer: &mut [u32],
    out: &mut [u8],
) -> usize
    requires { (length work.old ≡ 16384)
        × (length out.old ≡ 196654)
        × (length answer.old ≡ 16384)
        × (answer.old ≡ replicate 16384 0)
        × (query_number timetable.now lines.now 16384 query.from query.to query.minute ≡ 0)
        × (made_number timetable.now lines.now query.from ≡ 0)
        × (store.now ≡ store_slice timetable.now lines.now query.from) }
    ensures { (result
        ≡ length
        (query_printed timetable.now lines.now query.from query.to query.minute))
        × (out.new
        ≡ put
        0
        (query_printed timetable.now lines.now query.from query.to query.minute)
        out.old)
        × (length out.new ≡ length out.old)
        × (result ≤ length out.new) }
{
    match query_call::query(
        timetable,
        lines,
        store,
        work,
        query.from,
        query.to,
        query.minute,
        answer,
    ) {
        Ok(count) => answer_lines(out, query, count, answer),
        Err(refusal) => refuse(out, query, refusal.number()),
    }
}

// Writes the lines of a query that has passed its own questions and whose store was made, or its 14 or 15, from an
// answer slice of its own. Returns their length.
fn show_fresh(
    timetable: &[u16],
    lines: &[u16],
    store: &[u16],
    work: &mut [u32],
    query: Query,
    out: &mut [u8],
) -> usize
    requires { (length work.old ≡ 16384)
        × (length out.old ≡ 196654)
        × (query_number timetable.now lines.now 16384 query.from query.to query.minute ≡ 0)
        × (made_number timetable.now lines.now query.from ≡ 0)
        × (store.now ≡ store_slice timetable.now lines.now query.from) }
    ensures { (result
        ≡ length
        (query_printed timetable.now lines.now query.from query.to query.minute))
        × (out.new
        ≡ put
        0
        (query_printed timetable.now lines.now query.from query.to query.minute)
        out.old)
        × (length out.new ≡ length out.old)
        × (result ≤ length out.new) }
{
    let mut answer = [0u32; ANSWER_WORDS];
    show(timetable, lines, store, work, query, &mut answer, out)
}

// Writes what a query prints that has passed its own questions, where the call that made its source's store returned
// this number: that 15, or what is shown from the store. Returns the length.
pub fn show_made(
    timetable: &[u16],
    lines: &[u16],
    store: &[u16],
    work: &mut [u32],
    query: Query,
    number: u32,
    out: &mut [u8],
) -> usize
    requires { (length work.old ≡ 16384)
        × (length out.old ≡ 196654)
        × (query_number timetable.now lines.now 16384 query.from query.to query.minute ≡ 0)
        × (number ≡ made_number timetable.now lines.now query.from)
        × (store.now ≡ store_slice timetable.now lines.now query.from) }
    ensures { (result
        ≡ length
        (query_printed timetable.now lines.now query.from query.to query.minute))
        × (out.new
        ≡ put
        0
        (query_printed timetable.now lines.now query.from query.to query.minute)
        out.old)
        × (length out.new ≡ length out.old)
        × (result ≤ length out.new) }
{
    if number != 0 {
        return refuse(out, query, number);
    }
    show_fresh(timetable, lines, store, work, query, out)
}
