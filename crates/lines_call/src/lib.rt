//! The call that builds line tables: questions 8 and 9, then the tables in the words that are lent.
#![tactic(auto)]

ghost use Rattle.std.specs.Prelude.{◌≡◌, true, ◌≤◌, length};
ghost use Rattle.words.specs.Put.{put};
ghost use Rattle.timetable.specs.Words.{timetable_of, is_timetable};
ghost use Rattle.lines_order.specs.Order.{OrderOf};
ghost use Rattle.lines_tables.specs.Model.{lines_at, table_at};
ghost use Rattle.replies.specs.Reply.{reply_seen};
ghost use Rattle.replies.specs.Replies.{values_of};
ghost use Rattle.lines_tables.specs.Building.{build_reply, build_values, build_words};

use questions::Refusal;

// Writes the line tables of a timetable, whose trips are given in order, to working space, and then as words of 16
// bits. Returns the number of lines.
pub fn build_tables(words: &[u16], order: &[u16], lines: &mut [u16], work: &mut [u32]) -> u32
    requires { (16384 ≤ length words.now)
        × (is_timetable words.now ≡ true)
        × (length order.now ≡ 256)
        × OrderOf (timetable_of words.now).trips order.now
        × (16384 ≤ length lines.old)
        × (length work.old ≡ 16384) }
    ensures lines_after { lines.new ≡ put 0 (table_at words.now) lines.old }
    ensures value { result ≡ length (lines_at words.now) }
{
    let count = lines_tables::write_in_order(words, order, work);
    words::narrow(lines, 0, &work[..count]);
    work[1]
}

// Builds the line tables if no question is in the way.
fn build_asked(words: &[u16], lines: &mut [u16], work: &mut [u32]) -> Result<u32, Refusal>
    ensures value { reply_seen result
        ≡ build_reply words.now (length lines.old) (length work.old) }
    ensures lines_after { lines.new
        ≡ build_words words.now lines.old (length work.old) }
{
    if words.len() < timetable::WORDS_LEAST {
        return Err(Refusal::Space);
    }
    if lines.len() < lines_tables::WORDS_LEAST {
        return Err(Refusal::Space);
    }
    if work.len() < lines_tables::WORDS_LEAST {
        return Err(Refusal::Space);
    }
    if !timetable_check::is_timetable(words) {
        return Err(Refusal::NoTimetable);
    }
    let mut order = [0u16; lines_order::ORDER_WORDS];
    lines_order::order_trips(words, words::word(words, 1) as usize, &mut order);
    let count = build_tables(
        words,
        &order,
        lines,
        &mut work[0..lines_tables::WORDS_LEAST],
    );
    Ok(count)
}

// Builds the line tables of a timetable in the lent words. Working space may hold any words afterwards.
pub fn build(words: &[u16], lines: &mut [u16], work: &mut [u32]) -> Result<u32, Refusal>
    ensures reply { reply_seen result
        ≡ build_reply words.now (length lines.old) (length work.old) }
    ensures values { values_of (reply_seen result)
        ≡ build_values words.now (length lines.old) (length work.old) }
    ensures words { lines.new
        ≡ build_words words.now lines.old (length work.old) }
{
    build_asked(words, lines, work)
}
