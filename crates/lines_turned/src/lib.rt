//! Line tables with times by trip, then by stop: the layout that no other call takes, and the two calls that translate
//! to it and back.
#![tactic(auto)]

ghost use Rattle.std.specs.Prelude.{◌≡◌, true, ◌+◌, ◌*◌, ◌≤◌, ◌<◌, length, get_or, drop};
ghost use Rattle.std.proofs.Math.Seq.{slice};
ghost use Rattle.words.specs.Put.{put};
ghost use Rattle.timetable.specs.Words.{timetable_of, is_timetable};
ghost use Rattle.questions.specs.Refused.{number_seen};
ghost use Rattle.replies.specs.Reply.{reply_seen};
ghost use Rattle.replies.specs.Replies.{values_of};
ghost use Rattle.lines_tables.specs.Tables.{table_words};
ghost use Rattle.lines_check.specs.Question10.{are_tables};
ghost use Rattle.lines_lookup.specs.Lookup.{line_at};
ghost use Rattle.lines_turned.specs.ByTrip.{words_by_trip};
ghost use Rattle.lines_turned.specs.Turned.{stepped, turned_trips, times_from, line_end, turned_line, starts};
ghost use Rattle.lines_turned.specs.Held.{Held};
ghost use Rattle.lines_turned.specs.Turning.{are_by_trip, slices_number, own_reply, own_words};
ghost use Rattle.lines_turned.specs.Turning.{by_trip_reply, by_trip_values, by_trip_words};
ghost use Rattle.lines_turned.specs.Turning.{by_stop_reply, by_stop_values, by_stop_words};

use lines_lookup::Line;
use questions::Refusal;

// The words of all slices that a caller lends at least, and the words of a position on a line.
const WORDS_LEAST: usize = lines_tables::WORDS_LEAST;

const POSITION_WORDS: usize = lines_tables::POSITION_WORDS;

// The index where the times of a line begin.
fn times_from(l: Line) -> usize
    requires { line_end l ≤ 16384 }
    ensures { result ≡ times_from l }
{
    l.at + 2 + l.trips + POSITION_WORDS * l.positions
}

// Writes the times of one trip at so many stops, from index at on. Its first arrival stands at index from of the
// tables, on a line of so many trips.
// Stays: one walk for this and same_trip wants a trait for 16 and 32 bits, and one to put or compare, with their laws.
fn write_trip(lines: &[u16], from: usize, trips: usize, stops: usize, out: &mut [u16], at: usize)
    requires { (from ≤ 32768) × (trips ≤ 16384) × (stops ≤ 16384) × (at + 2 * stops ≤ length out.old) }
    ensures out_after { out.new ≡ put at (stepped lines.now from trips stops) out.old }
    ensures out_len_unchanged { length out.new ≡ length out.old }
{
    let mut k = from;
    for p in 0..stops {
        let arrive = lines_lookup::peek(lines, k);
        let depart = lines_lookup::peek(lines, k + trips);
        words::narrow(out, at + 2 * p, &[arrive as u32, depart as u32]);
        k += 2 * trips;
    }
}

// Writes the times of a line, trip by trip.
fn write_trips(lines: &[u16], l: Line, out: &mut [u16])
    requires { (line_end l ≤ 16384) × (16384 ≤ length out.old) }
    ensures out_after { out.new
        ≡ put (times_from l) (turned_trips lines.now (times_from l) l.trips l.positions l.trips)
        out.old }
    ensures out_len_unchanged { length out.new ≡ length out.old }
{
    let from = times_from(l);
    let mut at = from;
    for j in 0..l.trips {
        write_trip(lines, from + j, l.trips, l.positions, out, at);
        at += 2 * l.positions;
    }
}

// Writes all words of a line, those before its times as they are.
fn write_line(lines: &[u16], l: Line, out: &mut [u16])
    requires { (line_end l ≤ 16384) × (16384 ≤ length lines.now) × (16384 ≤ length out.old) }
    ensures out_after { out.new ≡ put l.at (turned_line lines.now l) out.old }
    ensures out_len_unchanged { length out.new ≡ length out.old }
{
    let from = times_from(l);
    copy_part(lines, l.at, from, out);
    write_trips(lines, l, out);
}

// Copies the words from one index up to before another to the same place.
fn copy_part(lines: &[u16], from: usize, end: usize, out: &mut [u16])
    requires { (from ≤ end) × (end ≤ length lines.now) × (end ≤ length out.old) }
    ensures out_after { out.new ≡ put from (slice from end lines.now) out.old }
    ensures out_len_unchanged { length out.new ≡ length out.old }
{
    for k in from..end {
        out[k] = lines[k];
    }
}

// Writes the timetable's tables, which are lent with times by stop, with times by trip.
fn write_turned(words: &[u16], lines: &[u16], other: &mut [u16])
    requires { (16384 ≤ length words.now)
        × Held words.now lines.now
        × (16384 ≤ length lines.now)
        × (16384 ≤ length other.old) }
    ensures other_after { other.new
        ≡ put 0 (words_by_trip (timetable_of words.now)) other.old }
    ensures other_len_unchanged { length other.new ≡ length other.old }
{
    let count = lines_lookup::peek(lines, 1);
    copy_part(lines, 0, 4 + count, other);
    for i in 0..count {
        write_line(lines, lines_lookup::line_at(lines, i), other);
    }
    let stations = words::word(words, 0) as usize;
    let index = lines_lookup::peek(lines, 3);
    copy_part(
        lines,
        index,
        lines_lookup::peek(lines, index + stations),
        other,
    );
}

// Question 10 to line tables, and their words with times by trip. Returns the number of lines.
fn turn(words: &[u16], lines: &[u16], work: &mut [u32], other: &mut [u16]) -> Result<u32, Refusal>
    requires { (16384 ≤ length words.now)
        × (is_timetable words.now ≡ true)
        × (16384 ≤ length lines.now)
        × (length work.old ≡ 16384)
        × (16384 ≤ length other.old) }
    ensures value { reply_seen result ≡ own_reply words.now (are_tables words.now lines.now) }
    ensures other_after { other.new
        ≡ own_words
        (are_tables words.now lines.now)
        (words_by_trip (timetable_of words.now))
        other.old }
{
    if !lines_check::are_tables(words, lines, work) {
        return Err(Refusal::OtherTables);
    }
    write_turned(words, lines, other);
    Ok(words::word(lines, 1))
}

// The word of 32 bits at index i, or 0 past the end.
fn long_at(work: &[u32], i: usize) -> u32
    ensures { result ≡ get_or work.now i 0 }
{
    if i < work.len() {
        return work[i];
    }
    0
}

// The line at place i of tables in working space.
fn long_line(work: &[u32], i: usize) -> Line
    requires { i < 65536 }
    ensures { result ≡ line_at work.now i }
{
    let at = long_at(work, 4 + i) as usize;
    let positions = long_at(work, at) as usize;
    let trips = long_at(work, at + 1) as usize;
    Line {
        at,
        positions,
        trips,
    }
}

// Whether the words from one index up to before another are the same in both.
// Stays: words of 32 bits are held against words of 16, which no == of slices does.
fn same_part(work: &[u32], from: usize, end: usize, other: &[u16]) -> bool
    requires { (from ≤ end) × (end ≤ length work.now) × (end ≤ length other.now) }
    ensures { result ≡ starts (slice from end work.now) (drop from other.now) }
{
    for k in from..end {
        if work[k] != words::word(other, k) {
            return false;
        }
    }
    true
}

// Whether arrival and departure of a trip at one stop stand at index at. They are held so many words apart, the arrival
// at index k.
fn same_stop(work: &[u32], k: usize, trips: usize, other: &[u16], at: usize) -> bool
    requires { (k ≤ 4294967296) × (trips ≤ 16384) × (at + 2 ≤ length other.now) }
    ensures { result ≡ starts (stepped work.now k trips 1) (drop at other.now) }
{
    if long_at(work, k) != words::word(other, at) {
        return false;
    }
    long_at(work, k + trips) == words::word(other, at + 1)
}

// Whether the times of one trip at so many stops stand from index at on. Its first arrival stands at index from of the
// tables, on a line of so many trips.
fn same_trip(
    work: &[u32],
    from: usize,
    trips: usize,
    stops: usize,
    other: &[u16],
    at: usize,
) -> bool
    requires { (from ≤ 32768) × (trips ≤ 16384) × (stops ≤ 16384) × (at + 2 * stops ≤ length other.now) }
    ensures { result ≡ starts (stepped work.now from trips stops) (drop at other.now) }
{
    let mut k = from;
    for p in 0..stops {
        if !same_stop(work, k, trips, other, at + 2 * p) {
            return false;
        }
        k += 2 * trips;
    }
    true
}

// Whether the times of a line stand there, trip by trip.
fn same_trips(work: &[u32], l: Line, other: &[u16]) -> bool
    requires { (line_end l ≤ 16384) × (16384 ≤ length other.now) }
    ensures { result
        ≡ starts (turned_trips work.now (times_from l) l.trips l.positions l.trips)
        (drop (times_from l) other.now) }
{
    let from = times_from(l);
    let mut at = from;
    for j in 0..l.trips {
        if !same_trip(work, from + j, l.trips, l.positions, other, at) {
            return false;
        }
        at += 2 * l.positions;
    }
    true
}

// Whether all words of a line stand there, with times by trip.
fn same_line(work: &[u32], l: Line, other: &[u16]) -> bool
    requires { (line_end l ≤ 16384) × (16384 ≤ length work.now) × (16384 ≤ length other.now) }
    ensures { result ≡ starts (turned_line work.now l) (drop l.at other.now) }
{
    let from = times_from(l);
    if !same_part(work, l.at, from, other) {
        return false;
    }
    same_trips(work, l, other)
}

// Whether the words are the timetable's tables with times by trip, where working space holds them with times by stop.
fn is_turned(words: &[u16], work: &[u32], other: &[u16]) -> bool
    requires { (16384 ≤ length words.now)
        × Held words.now work.now
        × (16384 ≤ length work.now)
        × (16384 ≤ length other.now) }
    ensures { result ≡ are_by_trip words.now other.now }
{
    let count = long_at(work, 1) as usize;
    if !same_part(work, 0, 4 + count, other) {
        return false;
    }
    for i in 0..count {
        if !same_line(work, long_line(work, i), other) {
            return false;
        }
    }
    let stations = words::word(words, 0) as usize;
    let index = long_at(work, 3) as usize;
    same_part(work, index, long_at(work, index + stations) as usize, other)
}

// Question 10 to tables with times by trip, and their words with times by stop. Returns the number of lines.
fn turn_back(
    words: &[u16],
    other: &[u16],
    work: &mut [u32],
    lines: &mut [u16],
) -> Result<u32, Refusal>
    requires { (16384 ≤ length words.now)
        × (is_timetable words.now ≡ true)
        × (16384 ≤ length other.now)
        × (length work.old ≡ 16384)
        × (16384 ≤ length lines.old) }
    ensures value { reply_seen result ≡ own_reply words.now (are_by_trip words.now other.now) }
    ensures lines_after { lines.new
        ≡ own_words
        (are_by_trip words.now other.now)
        (table_words (timetable_of words.now))
        lines.old }
{
    let count = lines_tables::write_tables(words, work);
    if !is_turned(words, work, other) {
        return Err(Refusal::OtherTables);
    }
    words::narrow(lines, 0, &work[..count]);
    Ok(work[1])
}

// Questions 8 and 9 to a timetable, to tables, working space and a result slice of so many words.
fn slices_number(words: &[u16], tables: usize, work: usize, res: usize) -> Result<(), Refusal>
    ensures { number_seen result ≡ slices_number words.now tables work res }
{
    if words.len() < WORDS_LEAST {
        return Err(Refusal::Space);
    }
    if tables < WORDS_LEAST {
        return Err(Refusal::Space);
    }
    if work < WORDS_LEAST {
        return Err(Refusal::Space);
    }
    if res < WORDS_LEAST {
        return Err(Refusal::Space);
    }
    if timetable_check::is_timetable(words) {
        return Ok(());
    }
    Err(Refusal::NoTimetable)
}

// Writes line tables with times by trip if no question is in the way.
fn by_trip_asked(
    words: &[u16],
    lines: &[u16],
    work: &mut [u32],
    other: &mut [u16],
) -> Result<u32, Refusal>
    ensures value { reply_seen result
        ≡ by_trip_reply
        words.now
        lines.now
        (length work.old)
        (length other.old) }
    ensures other_after { other.new
        ≡ by_trip_words
        words.now
        lines.now
        (length work.old)
        other.old }
{
    slices_number(words, lines.len(), work.len(), other.len())?;
    turn(words, lines, &mut work[0..WORDS_LEAST], other)
}

// Writes line tables with times by stop if no question is in the way.
fn by_stop_asked(
    words: &[u16],
    other: &[u16],
    work: &mut [u32],
    lines: &mut [u16],
) -> Result<u32, Refusal>
    ensures value { reply_seen result
        ≡ by_stop_reply
        words.now
        other.now
        (length work.old)
        (length lines.old) }
    ensures lines_after { lines.new
        ≡ by_stop_words
        words.now
        other.now
        (length work.old)
        lines.old }
{
    slices_number(words, other.len(), work.len(), lines.len())?;
    turn_back(words, other, &mut work[0..WORDS_LEAST], lines)
}

// Translates line tables to times by trip, then by stop. Working space may hold any words afterwards.
pub fn by_trip(
    words: &[u16],
    lines: &[u16],
    work: &mut [u32],
    other: &mut [u16],
) -> Result<u32, Refusal>
    ensures reply { reply_seen result
        ≡ by_trip_reply
        words.now
        lines.now
        (length work.old)
        (length other.old) }
    ensures values { values_of (reply_seen result)
        ≡ by_trip_values
        words.now
        lines.now
        (length work.old)
        (length other.old) }
    ensures words { other.new
        ≡ by_trip_words
        words.now
        lines.now
        (length work.old)
        other.old }
{
    by_trip_asked(words, lines, work, other)
}

// Translates line tables with times by trip back to times by stop, then by trip. Working space may hold any words
// afterwards.
pub fn by_stop(
    words: &[u16],
    other: &[u16],
    work: &mut [u32],
    lines: &mut [u16],
) -> Result<u32, Refusal>
    ensures reply { reply_seen result
        ≡ by_stop_reply
        words.now
        other.now
        (length work.old)
        (length lines.old) }
    ensures values { values_of (reply_seen result)
        ≡ by_stop_values
        words.now
        other.now
        (length work.old)
        (length lines.old) }
    ensures words { lines.new
        ≡ by_stop_words
        words.now
        other.now
        (length work.old)
        lines.old }
{
    by_stop_asked(words, other, work, lines)
}
