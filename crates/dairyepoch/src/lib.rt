//! The public calls as a display's host of C or Rust sees them: numbers and slices only, and no condition is left for
//! the host to meet. Each passes on to a proved call and has that call's equations. include/dairyepoch.h declares them.
#![tactic(auto)]

ghost use Rattle.std.specs.Prelude.{◌≡◌, length};
ghost use Rattle.timetable.specs.Words.{timetable_number};
ghost use Rattle.reading.specs.Reading.{read_reply, read_words};
ghost use Rattle.lines_tables.specs.Building.{build_reply, build_words};
ghost use Rattle.lines_check.specs.Question10.{tables_number};
ghost use Rattle.lines_alone.specs.Drawn.{alone_number};
ghost use Rattle.lines_turned.specs.Turning.{by_trip_reply, by_trip_words, by_stop_reply, by_stop_words};
ghost use Rattle.promises.specs.DirectQuery.{direct_reply, direct_words};
ghost use Rattle.promises.specs.StoreCall.{store_reply, store_after};
ghost use Rattle.promises.specs.Query.{ask_reply, ask_words};
ghost use Rattle.promises.specs.Changes.{cancel_reply, cancel_timetable, cancel_lines, add_reply, add_timetable};
ghost use Rattle.promises.specs.Changes.{add_lines};
ghost use Rattle.promises.specs.Packed.{packed, packed_reply, packed_count};
ghost use Rattle.dairyepoch.specs.Packed.{packed_place};

use replies_packed::{pack, pack_asked, pack_count, pack_reply};

// What 1 in the index of a piece counts; its length stands below.
const PIECE: u32 = 65536;

// Reads a timetable text into the lent timetable words.
#[unsafe(no_mangle)]
pub extern "C" fn dairyepoch_read(text: &[u8], timetable: &mut [u16]) -> u64
    ensures reply { result ≡ packed_reply (read_reply text.now (length timetable.old)) }
    ensures words { timetable.new ≡ read_words text.now timetable.old }
{
    pack_reply(reading::read(text, timetable))
}

// Questions 8 and 9 to lent timetable words.
#[unsafe(no_mangle)]
pub extern "C" fn dairyepoch_check_timetable(timetable: &[u16]) -> u64
    ensures { result ≡ packed (timetable_number timetable.now) 0 }
{
    pack_asked(timetable_check::timetable_number(timetable))
}

// Builds the line tables of timetable words, with lent working space.
#[unsafe(no_mangle)]
pub extern "C" fn dairyepoch_build_lines(
    timetable: &[u16],
    lines: &mut [u16],
    work: &mut [u32],
) -> u64
    ensures reply { result
        ≡ packed_count
        (build_reply timetable.now (length lines.old) (length work.old)) }
    ensures words { lines.new
        ≡ build_words timetable.now lines.old (length work.old) }
{
    pack_count(lines_call::build(timetable, lines, work))
}

// Questions 8, 9 and 10 to a timetable and line tables lent with it.
#[unsafe(no_mangle)]
pub extern "C" fn dairyepoch_check_lines(timetable: &[u16], lines: &[u16], work: &mut [u32]) -> u64
    ensures { result
        ≡ packed
        (tables_number timetable.now lines.now (length work.old))
        0 }
{
    pack_asked(lines_check::tables_number(timetable, lines, work))
}

// Translates line tables to times by trip, then by stop.
#[unsafe(no_mangle)]
pub extern "C" fn dairyepoch_times_by_trip(
    timetable: &[u16],
    lines: &[u16],
    work: &mut [u32],
    other: &mut [u16],
) -> u64
    ensures reply { result
        ≡ packed_count
        (by_trip_reply
        timetable.now
        lines.now
        (length work.old)
        (length other.old)) }
    ensures words { other.new
        ≡ by_trip_words
        timetable.now
        lines.now
        (length work.old)
        other.old }
{
    pack_count(lines_turned::by_trip(timetable, lines, work, other))
}

// Translates line tables with times by trip back to times by stop, then by trip.
#[unsafe(no_mangle)]
pub extern "C" fn dairyepoch_times_by_stop(
    timetable: &[u16],
    other: &[u16],
    work: &mut [u32],
    lines: &mut [u16],
) -> u64
    ensures reply { result
        ≡ packed_count
        (by_stop_reply
        timetable.now
        other.now
        (length work.old)
        (length lines.old)) }
    ensures words { lines.new
        ≡ by_stop_words
        timetable.now
        other.now
        (length work.old)
        lines.old }
{
    pack_count(lines_turned::by_stop(timetable, other, work, lines))
}

// The direct rides from one station to another at a minute, row by row in the lent answer.
#[unsafe(no_mangle)]
pub extern "C" fn dairyepoch_direct(
    timetable: &[u16],
    lines: &[u16],
    work: &mut [u32],
    from: u32,
    to: u32,
    minute: u32,
    answer: &mut [u32],
) -> u64
    ensures reply { result
        ≡ packed_count
        (direct_reply
        timetable.now
        lines.now
        (length work.old)
        from
        to
        minute
        (length answer.old)) }
    ensures words { answer.new
        ≡ direct_words
        timetable.now
        lines.now
        (length work.old)
        from
        to
        minute
        answer.old }
{
    pack_count(query_direct::direct(timetable, lines, work, from, to, minute, answer))
}

// Questions 8 and 10 to line tables lent without a timetable.
#[unsafe(no_mangle)]
pub extern "C" fn dairyepoch_check_lines_alone(lines: &[u16], work: &mut [u32]) -> u64
    ensures { result ≡ packed (alone_number lines.now (length work.old)) 0 }
{
    pack_asked(lines_alone::alone_number(lines, work))
}

// Where in the lent line tables the numbers of a line's trips stand: the index of the first, and how many there are.
#[unsafe(no_mangle)]
pub extern "C" fn dairyepoch_line_trips(lines: &[u16], work: &mut [u32], line: u32) -> u64
    ensures { result ≡ packed_place lines.now (length work.old) line }
{
    match lines_piece::line_place(lines, work, line) {
        Ok(place) => {
            let trips = lines_piece::line_trips(lines, work, line);
            let count = trips.len();
            pack(0, place.start * PIECE + count as u32)
        }
        Err(refusal) => pack(refusal.number(), 0),
    }
}

// Makes the store of a source.
#[unsafe(no_mangle)]
pub extern "C" fn dairyepoch_make_store(
    timetable: &[u16],
    lines: &[u16],
    work: &mut [u32],
    source: u32,
    store: &mut [u16],
) -> u64
    ensures reply { result
        ≡ packed_count
        (store_reply
        timetable.now
        lines.now
        (length work.old)
        source
        (length store.old)) }
    ensures words { store.new
        ≡ store_after
        timetable.now
        lines.now
        (length work.old)
        source
        store.old }
{
    pack_count(store_call::make_store(timetable, lines, work, source, store))
}

// Answers a query from a store, row by row in the lent answer.
#[unsafe(no_mangle)]
pub extern "C" fn dairyepoch_query(
    timetable: &[u16],
    lines: &[u16],
    store: &[u16],
    work: &mut [u32],
    from: u32,
    to: u32,
    minute: u32,
    answer: &mut [u32],
) -> u64
    ensures reply { result
        ≡ packed_count
        (ask_reply
        timetable.now
        lines.now
        store.now
        (length work.old)
        from
        to
        minute
        (length answer.old)) }
    ensures words { answer.new
        ≡ ask_words
        timetable.now
        lines.now
        store.now
        (length work.old)
        from
        to
        minute
        answer.old }
{
    pack_count(query_call::query(timetable, lines, store, work, from, to, minute, answer))
}

// Cancels the trip of this number: the timetable and its line tables are those of the trips that now run.
#[unsafe(no_mangle)]
pub extern "C" fn dairyepoch_cancel_trip(
    timetable: &mut [u16],
    lines: &mut [u16],
    work: &mut [u32],
    trip: u32,
) -> u64
    ensures reply { result
        ≡ packed_count (cancel_reply timetable.old lines.old (length work.old) trip) }
    ensures timetable { timetable.new
        ≡ cancel_timetable timetable.old lines.old (length work.old) trip }
    ensures lines { lines.new
        ≡ cancel_lines timetable.old lines.old (length work.old) trip }
{
    pack_count(changes::cancel(timetable, lines, work, trip))
}

// Adds a trip of this number by its lines: the timetable and its line tables are those of the trips that now run.
#[unsafe(no_mangle)]
pub extern "C" fn dairyepoch_add_trip(
    timetable: &mut [u16],
    lines: &mut [u16],
    work: &mut [u32],
    trip: u32,
    text: &[u8],
) -> u64
    ensures reply { result
        ≡ packed_reply (add_reply timetable.old lines.old (length work.old) trip
        text.now) }
    ensures timetable { timetable.new
        ≡ add_timetable timetable.old lines.old (length work.old) trip
        text.now }
    ensures lines { lines.new
        ≡ add_lines timetable.old lines.old (length work.old) trip
        text.now }
{
    pack_reply(changes::add(timetable, lines, work, trip, text))
}
