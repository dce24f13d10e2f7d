//! The answer from a store that is well made: the rows that a rider is shown, with questions 14 and 15.
#![tactic(auto)]

ghost use Rattle.std.specs.Prelude.{◌≡◌, ◌≤◌, length};
ghost use Rattle.promises.specs.Query.{kept};
ghost use Rattle.query_minutes.specs.Minutes.{no_points, leads};
ghost use Rattle.query_minutes.specs.Ending.{LeadsEnd};
ghost use Rattle.query_arcs.specs.Kept.{LeastKept};
ghost use Rattle.query_arcs.specs.Granted.{Granted};
ghost use Rattle.query_rows.specs.Named.{AllNamed};
ghost use Rattle.replies.specs.Reply.{reply_seen};
ghost use Rattle.query_answer.specs.Answer.{shown_reply, shown_words};

use query_arcs::Query;
use query_minutes::{MINUTES, NO_POINTS, Rows};
use questions::Refusal;

// Writes the rows, of which there are some, if the answer has room for them: it is measured before a word is written.
fn show_rows(
    words: &[u16],
    lines: &[u16],
    store: &[u16],
    asked: Query,
    best: &[u32],
    who: &mut [u16],
    rows: Rows,
    answer: &mut [u32],
    work: &mut [u32],
) -> Result<u32, Refusal>
    requires { Granted words.now lines.now store.now asked.from asked.to asked.minute
        × LeastKept asked.minute (kept words.now store.now asked.from asked.to asked.minute) best.now
        × AllNamed words.now store.now asked.from asked.to asked.minute best.now who.old
        × (length best.now ≡ 2880)
        × (length who.old ≡ 2880)
        × (rows.count ≡ length (leads no_points 0 best.now))
        × (1 ≤ rows.count)
        × (rows.count ≤ 2880)
        × LeadsEnd best.now rows.end
        × (2880 ≤ length work.old) }
    ensures value { reply_seen result
        ≡ shown_reply
        words.now
        store.now
        asked.from
        asked.to
        asked.minute
        (length answer.old) }
    ensures answer_after { answer.new
        ≡ shown_words
        words.now
        store.now
        asked.from
        asked.to
        asked.minute
        answer.old }
{
    let end = rows.end;
    let long = query_rows::measure(words, lines, store, asked, end, best, who, work);
    if answer.len() < long {
        return Err(Refusal::Room);
    }
    query_rows::write_rows(words, lines, store, asked, end, best, who, answer, work);
    Ok(rows.count as u32)
}

// Answers a query from a store that is well made. Working space may hold any words afterwards.
pub fn show(
    words: &[u16],
    lines: &[u16],
    store: &[u16],
    work: &mut [u32],
    from: usize,
    to: usize,
    minute: usize,
    answer: &mut [u32],
) -> Result<u32, Refusal>
    requires { Granted words.now lines.now store.now from to minute × (2880 ≤ length work.old) }
    ensures value { reply_seen result
        ≡ shown_reply
        words.now
        store.now
        from
        to
        minute
        (length answer.old) }
    ensures answer_after { answer.new
        ≡ shown_words words.now store.now from to minute answer.old }
{
    let mut best = [NO_POINTS; MINUTES];
    let mut who = [0u16; MINUTES];
    let asked = Query { from, to, minute };
    query_arcs::note_arcs(words, lines, store, asked, &mut best, &mut who);
    let rows = query_minutes::find_rows(&best);
    if rows.count < 1 {
        return Err(Refusal::NoConnection);
    }
    show_rows(
        words, lines, store, asked, &best, &mut who, rows, answer, work,
    )
}
