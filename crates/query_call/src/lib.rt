//! The query from a store: questions 8 to 13, then the answer from the store.
#![tactic(auto)]

ghost use Rattle.std.specs.Prelude.{◌≡◌, ◌≤◌, length};
ghost use Rattle.timetable.specs.Words.{timetable_of};
ghost use Rattle.stores.specs.Words.{well_made};
ghost use Rattle.lines_check.specs.Asked.{query_number};
ghost use Rattle.replies.specs.Reply.{reply_seen};
ghost use Rattle.replies.specs.Replies.{values_of};
ghost use Rattle.promises.specs.Query.{ask_reply, ask_values, ask_words};

use questions::Refusal;

// Whether the store is well made for the stations of the timetable.
fn is_made(words: &[u16], store: &[u16], work: &mut [u32]) -> bool
    requires { (1 ≤ length words.now) × (16384 ≤ length work.old) }
    ensures { result ≡ well_made (length (timetable_of words.now).stations) store.now }
{
    let stations = words::word(words, 0) as usize;
    query_store::is_well_made(store, stations, work)
}

// Answers the query if the store is well made; the questions of every query have their yes.
fn query_stored(
    words: &[u16],
    lines: &[u16],
    store: &[u16],
    work: &mut [u32],
    from: u32,
    to: u32,
    minute: u32,
    answer: &mut [u32],
) -> Result<u32, Refusal>
    requires { query_number words.now lines.now (length work.old) from to minute ≡ 0 }
    ensures value { reply_seen result
        ≡ ask_reply
        words.now
        lines.now
        store.now
        (length work.old)
        from
        to
        minute
        (length answer.old) }
    ensures answer_after { answer.new
        ≡ ask_words
        words.now
        lines.now
        store.now
        (length work.old)
        from
        to
        minute
        answer.old }
{
    if !is_made(words, store, work) {
        return Err(Refusal::NoStore);
    }
    query_answer::show(
        words,
        lines,
        store,
        work,
        from as usize,
        to as usize,
        minute as usize,
        answer,
    )
}

// Answers the query if no question is in the way.
fn query_asked(
    words: &[u16],
    lines: &[u16],
    store: &[u16],
    work: &mut [u32],
    from: u32,
    to: u32,
    minute: u32,
    answer: &mut [u32],
) -> Result<u32, Refusal>
    ensures value { reply_seen result
        ≡ ask_reply
        words.now
        lines.now
        store.now
        (length work.old)
        from
        to
        minute
        (length answer.old) }
    ensures answer_after { answer.new
        ≡ ask_words
        words.now
        lines.now
        store.now
        (length work.old)
        from
        to
        minute
        answer.old }
{
    lines_check::query_number(words, lines, work, from, to, minute)?;
    query_stored(words, lines, store, work, from, to, minute, answer)
}

// The query from a store: from one station to another at a minute. Working space may hold any words afterwards.
pub fn query(
    words: &[u16],
    lines: &[u16],
    store: &[u16],
    work: &mut [u32],
    from: u32,
    to: u32,
    minute: u32,
    answer: &mut [u32],
) -> Result<u32, Refusal>
    ensures reply { reply_seen result
        ≡ ask_reply
        words.now
        lines.now
        store.now
        (length work.old)
        from
        to
        minute
        (length answer.old) }
    ensures values { values_of (reply_seen result)
        ≡ ask_values
        words.now
        lines.now
        store.now
        (length work.old)
        from
        to
        minute
        (length answer.old) }
    ensures words { answer.new
        ≡ ask_words
        words.now
        lines.now
        store.now
        (length work.old)
        from
        to
        minute
        answer.old }
{
    query_asked(words, lines, store, work, from, to, minute, answer)
}
