//! Trips cancelled and trips added during the day: the timetable's words and its line tables after a change, which are
//! those built afresh from the trips that now run, in rising number.
#![tactic(auto)]

ghost use Rattle.std.specs.Prelude.{◌≡◌, true, false, ◌≤◌, ◌<◌, length};
ghost use Rattle.words.specs.Put.{put};
ghost use Rattle.timetable.specs.Changes.{without, runs_as, place_of};
ghost use Rattle.timetable.specs.Words.{words, trip_count, timetable_of, is_timetable};
ghost use Rattle.changes_words.specs.Appended.{left_out};
ghost use Rattle.lines_order.specs.Order.{OrderOf};
ghost use Rattle.lines_tables.specs.Tables.{table_words};
ghost use Rattle.lines_tables.specs.Building.{line_count};
ghost use Rattle.lines_check.specs.Question10.{tables_number};
ghost use Rattle.replies.specs.Reply.{reply_seen};
ghost use Rattle.reading.specs.Reply.{read_seen};
ghost use Rattle.promises.specs.Changes.{cancel_reply, cancel_timetable, cancel_lines, add_reply, add_timetable};
ghost use Rattle.promises.specs.Changes.{add_lines};

use questions::Refusal;
use reading::RefusedLine;

// Builds the line tables of the timetable after a change, whose trips are given in order. Returns the number of lines.
fn rebuild(timetable: &[u16], order: &[u16], lines: &mut [u16], work: &mut [u32]) -> u32
    requires { (16384 ≤ length timetable.now)
        × (is_timetable timetable.now ≡ true)
        × (length order.now ≡ 256)
        × OrderOf (timetable_of timetable.now).trips order.now
        × (16384 ≤ length lines.old)
        × (16384 ≤ length work.old) }
    ensures lines_after { lines.new
        ≡ put 0 (table_words (timetable_of timetable.now)) lines.old }
    ensures value { result ≡ line_count (timetable_of timetable.now) }
{
    lines_call::build_tables(
        timetable,
        order,
        lines,
        &mut work[0..lines_tables::WORDS_LEAST],
    )
}

// Takes the trip at this place out of the timetable, and out of its trips in order.
fn take_out(timetable: &mut [u16], order: &mut [u16], place: usize)
    requires { (16384 ≤ length timetable.old)
        × (is_timetable timetable.old ≡ true)
        × (place < trip_count timetable.old)
        × (length order.old ≡ 256)
        × OrderOf (timetable_of timetable.old).trips order.old }
    ensures timetable_after { timetable.new
        ≡ put 0 (words (left_out (timetable_of timetable.old) place)) timetable.old }
    ensures order_of { OrderOf (without place (timetable_of timetable.old).trips) order.new }
    ensures timetable_len_unchanged { (length timetable.new ≡ length timetable.old)
        × (length order.new ≡ 256) }
{
    lines_order::leave_out(timetable, order, place as u16);
    changes_words::leave_out(timetable, place);
}

// Cancels the trip of this number, where questions 8 to 10 have their yes and the trips are given in order.
fn cancel_asked(
    timetable: &mut [u16],
    lines: &mut [u16],
    work: &mut [u32],
    order: &mut [u16],
    trip: u32,
) -> Result<u32, Refusal>
    requires work_value { tables_number timetable.old lines.old (length work.old) ≡ 0 }
    requires order_len { (length order.old ≡ 256) × OrderOf (timetable_of timetable.old).trips order.old }
    ensures value { reply_seen result
        ≡ cancel_reply timetable.old lines.old (length work.old) trip }
    ensures timetable_after { timetable.new
        ≡ cancel_timetable timetable.old lines.old (length work.old) trip }
    ensures lines_after { lines.new
        ≡ cancel_lines timetable.old lines.old (length work.old) trip }
{
    let place = changes_places::place_of(timetable, trip);
    if !changes_places::is_running(timetable, place, trip) {
        return Err(Refusal::NotRunning);
    }
    take_out(timetable, order, place);
    let count = rebuild(timetable, order, lines, work);
    Ok(count)
}

// Cancels the trip of this number. Working space may hold any words afterwards.
pub fn cancel(
    timetable: &mut [u16],
    lines: &mut [u16],
    work: &mut [u32],
    trip: u32,
) -> Result<u32, Refusal>
    ensures reply { reply_seen result
        ≡ cancel_reply timetable.old lines.old (length work.old) trip }
    ensures timetable { timetable.new
        ≡ cancel_timetable timetable.old lines.old (length work.old) trip }
    ensures lines { lines.new
        ≡ cancel_lines timetable.old lines.old (length work.old) trip }
{
    let mut order = [0u16; lines_order::ORDER_WORDS];
    lines_check::order_number(timetable, lines, work, &mut order)?;
    cancel_asked(timetable, lines, work, &mut order, trip)
}

// Adds a trip of this number, which does not run, at its place.
fn add_free(
    timetable: &mut [u16],
    lines: &mut [u16],
    work: &mut [u32],
    order: &mut [u16],
    trip: u32,
    text: &[u8],
    place: usize,
) -> Result<u32, RefusedLine>
    requires work_value { (tables_number timetable.old lines.old (length work.old) ≡ 0)
        × (place ≡ place_of trip (timetable_of timetable.old).numbers)
        × (place ≤ trip_count timetable.old)
        × (runs_as trip (timetable_of timetable.old).numbers ≡ false) }
    requires order_len { (length order.old ≡ 256) × OrderOf (timetable_of timetable.old).trips order.old }
    ensures value { read_seen result
        ≡ add_reply timetable.old lines.old (length work.old) trip
        text.now }
    ensures timetable_after { timetable.new
        ≡ add_timetable timetable.old lines.old (length work.old) trip
        text.now }
    ensures lines_after { lines.new
        ≡ add_lines timetable.old lines.old (length work.old) trip
        text.now }
{
    let mut extra = [0u16; timetable::WORDS_LEAST];
    changes_extra::read_trip(timetable, trip, text, &mut extra)?;
    changes_words::put_in(timetable, place, &extra);
    lines_order::put_in(timetable, order, place as u16);
    let count = rebuild(timetable, order, lines, work);
    Ok(count)
}

// Adds a trip of this number, where questions 8 to 10 have their yes and the trips are given in order.
fn add_asked(
    timetable: &mut [u16],
    lines: &mut [u16],
    work: &mut [u32],
    order: &mut [u16],
    trip: u32,
    text: &[u8],
) -> Result<u32, RefusedLine>
    requires work_value { tables_number timetable.old lines.old (length work.old) ≡ 0 }
    requires order_len { (length order.old ≡ 256) × OrderOf (timetable_of timetable.old).trips order.old }
    ensures value { read_seen result
        ≡ add_reply timetable.old lines.old (length work.old) trip
        text.now }
    ensures timetable_after { timetable.new
        ≡ add_timetable timetable.old lines.old (length work.old) trip
        text.now }
    ensures lines_after { lines.new
        ≡ add_lines timetable.old lines.old (length work.old) trip
        text.now }
{
    let place = changes_places::place_of(timetable, trip);
    if changes_places::is_running(timetable, place, trip) {
        return Err(RefusedLine {
            refusal: Refusal::Running,
            line: 0,
        });
    }
    add_free(timetable, lines, work, order, trip, text, place)
}

// Adds a trip of this number by its lines. Working space may hold any words afterwards.
pub fn add(
    timetable: &mut [u16],
    lines: &mut [u16],
    work: &mut [u32],
    trip: u32,
    text: &[u8],
) -> Result<u32, RefusedLine>
    ensures reply { read_seen result
        ≡ add_reply timetable.old lines.old (length work.old) trip
        text.now }
    ensures timetable { timetable.new
        ≡ add_timetable timetable.old lines.old (length work.old) trip
        text.now }
    ensures lines { lines.new
        ≡ add_lines timetable.old lines.old (length work.old) trip
        text.now }
{
    let mut order = [0u16; lines_order::ORDER_WORDS];
    lines_check::order_number(timetable, lines, work, &mut order)?;
    add_asked(timetable, lines, work, &mut order, trip, text)
}
