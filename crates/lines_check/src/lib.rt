//! The questions that are put to a query before it is looked at: 8 to 12. Question 10 here is about line tables lent
//! with a timetable: are they its own?
#![tactic(auto)]

ghost use Rattle.std.specs.Prelude.{◌≡◌, true, ◌≤◌, length, take};
ghost use Rattle.lists.specs.Lists.{same};
ghost use Rattle.timetable.specs.Words.{timetable_of, is_timetable};
ghost use Rattle.lines_order.specs.Order.{OrderOf};
ghost use Rattle.questions.specs.Refused.{number_seen};
ghost use Rattle.lines_check.specs.Question10.{are_tables, tables_number};
ghost use Rattle.lines_check.specs.Asked.{listed, named, query_number};
ghost use Rattle.lines_check.specs.Ordered.{Ordered};

use questions::Refusal;

// The last minute of the two days that a timetable has.
const LAST_MINUTE: u32 = timetable::LAST_MINUTE;

// Whether the first count words of both are the same. Those that differ are counted to the end: without a way out in
// between, several are compared at a time.
fn same_words(lines: &[u16], work: &[u32], count: usize) -> bool
    requires { (count ≤ length lines.now) × (count ≤ length work.now) × (length work.now ≡ 16384) }
    ensures { result ≡ same (take count work.now) (take count lines.now) }
{
    let mut others = 0u32;
    for i in 0..count {
        others += u32::from(work[i] != words::word(lines, i));
    }
    others == 0
}

// Whether the line tables are those of the timetable, whose trips are given in order. Working space may hold any words
// afterwards.
fn match_tables(words: &[u16], order: &[u16], lines: &[u16], work: &mut [u32]) -> bool
    requires { (16384 ≤ length words.now)
        × (is_timetable words.now ≡ true)
        × (length order.now ≡ 256)
        × OrderOf (timetable_of words.now).trips order.now
        × (16384 ≤ length lines.now)
        × (length work.old ≡ 16384) }
    ensures { result ≡ are_tables words.now lines.now }
{
    let count = lines_tables::write_in_order(words, order, work);
    same_words(lines, work, count)
}

// Whether the line tables are those of the timetable. Working space may hold any words afterwards.
pub fn are_tables(words: &[u16], lines: &[u16], work: &mut [u32]) -> bool
    requires { (16384 ≤ length words.now)
        × (is_timetable words.now ≡ true)
        × (16384 ≤ length lines.now)
        × (length work.old ≡ 16384) }
    ensures { result ≡ are_tables words.now lines.now }
{
    let mut order = [0u16; lines_order::ORDER_WORDS];
    lines_order::order_trips(words, words::word(words, 1) as usize, &mut order);
    match_tables(words, &order, lines, work)
}

// Questions 8, 9 and 10 to a timetable and line tables lent with it. Where each has its yes, the array has the trips in
// order afterwards. Working space may hold any words.
pub fn order_number(
    words: &[u16],
    lines: &[u16],
    work: &mut [u32],
    order: &mut [u16],
) -> Result<(), Refusal>
    requires { length order.old ≡ 256 }
    ensures value { number_seen result
        ≡ tables_number words.now lines.now (length work.old) }
    ensures ordered { Ordered (number_seen result) words.now order.new }
    ensures order_len { length order.new ≡ 256 }
{
    if words.len() < timetable::WORDS_LEAST {
        return Err(Refusal::Space);
    }
    if lines.len() < lines_tables::WORDS_LEAST {
        return Err(Refusal::Space);
    }
    if work.len() < lines_tables::WORDS_LEAST {
        return Err(Refusal::Space);
    }
    if !timetable_check::is_timetable(words) {
        return Err(Refusal::NoTimetable);
    }
    lines_order::order_trips(words, words::word(words, 1) as usize, order);
    if match_tables(words, order, lines, &mut work[0..lines_tables::WORDS_LEAST]) {
        return Ok(());
    }
    Err(Refusal::OtherTables)
}

// Questions 8, 9 and 10 to a timetable and line tables lent with it. Working space may hold any words afterwards.
pub fn tables_number(words: &[u16], lines: &[u16], work: &mut [u32]) -> Result<(), Refusal>
    ensures { number_seen result
        ≡ tables_number words.now lines.now (length work.old) }
{
    let mut order = [0u16; lines_order::ORDER_WORDS];
    order_number(words, lines, work, &mut order)
}

// Whether the timetable lists this station.
pub fn is_listed(words: &[u16], station: u32) -> bool
    requires { 16384 ≤ length words.now }
    ensures { result ≡ listed (timetable_of words.now) station }
{
    if station < 1 {
        return false;
    }
    station <= words::word(words, 0)
}

// Whether the timetable lists both stations, and they differ.
fn are_named(words: &[u16], from: u32, to: u32) -> bool
    requires { 16384 ≤ length words.now }
    ensures { result ≡ named (timetable_of words.now) from to }
{
    if !is_listed(words, from) {
        return false;
    }
    if !is_listed(words, to) {
        return false;
    }
    from != to
}

// Questions 8 to 12 to a query. Working space may hold any words afterwards.
pub fn query_number(
    words: &[u16],
    lines: &[u16],
    work: &mut [u32],
    from: u32,
    to: u32,
    minute: u32,
) -> Result<(), Refusal>
    ensures { number_seen result
        ≡ query_number words.now lines.now (length work.old) from to minute }
{
    tables_number(words, lines, work)?;
    if !are_named(words, from, to) {
        return Err(Refusal::NotNamed);
    }
    if LAST_MINUTE < minute {
        return Err(Refusal::Minute);
    }
    Ok(())
}
