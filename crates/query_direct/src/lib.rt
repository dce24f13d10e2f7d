//! Direct rides: the costs of the query from the first trips of the lines, and for each cost the ride that is shown.
#![tactic(auto)]

mod costs;

ghost use Rattle.std.specs.Prelude.{◌≡◌, length};
ghost use Rattle.replies.specs.Reply.{reply_seen};
ghost use Rattle.replies.specs.Replies.{values_of};
ghost use Rattle.promises.specs.DirectQuery.{direct_reply, direct_values, direct_words};
ghost use Rattle.query_direct.specs.Shown.{found_reply, found_answer};

use query_kept::{KEPT_WORDS, ROW_WORDS};
use query_minutes::{MINUTES, NO_POINTS};
use questions::Refusal;

// Answers a query from line tables that belong to the timetable. The answer is measured before a word is written.
fn show(
    v: &[u16],
    kept: &mut [u32],
    from: usize,
    to: usize,
    minute: usize,
    answer: &mut [u32],
) -> Result<u32, Refusal>
    requires { length kept.old ≡ 11520 }
    ensures value { reply_seen result ≡ found_reply v.now from to minute (length answer.old) }
    ensures answer_after { answer.new ≡ found_answer v.now from to minute answer.old }
{
    let mut best = [NO_POINTS; MINUTES];
    let count = costs::find_costs(v, from, to, minute, &mut best);
    if count < 1 {
        return Err(Refusal::NoConnection);
    }
    if answer.len() < ROW_WORDS * count {
        return Err(Refusal::Room);
    }
    query_kept::find_rides(v, from, to, minute, &best, kept);
    query_kept::write_rows(&best, kept, minute, answer);
    Ok(count as u32)
}

// Answers the query if no question is in the way.
fn direct_asked(
    words: &[u16],
    lines: &[u16],
    work: &mut [u32],
    from: u32,
    to: u32,
    minute: u32,
    answer: &mut [u32],
) -> Result<u32, Refusal>
    ensures value { reply_seen result
        ≡ direct_reply
        words.now
        lines.now
        (length work.old)
        from
        to
        minute
        (length answer.old) }
    ensures answer_after { answer.new
        ≡ direct_words
        words.now
        lines.now
        (length work.old)
        from
        to
        minute
        answer.old }
{
    lines_check::query_number(words, lines, work, from, to, minute)?;
    let kept = &mut work[0..KEPT_WORDS];
    show(
        lines,
        kept,
        from as usize,
        to as usize,
        minute as usize,
        answer,
    )
}

// The direct rides from one station to another at a minute. Working space may hold any words afterwards.
pub fn direct(
    words: &[u16],
    lines: &[u16],
    work: &mut [u32],
    from: u32,
    to: u32,
    minute: u32,
    answer: &mut [u32],
) -> Result<u32, Refusal>
    ensures reply { reply_seen result
        ≡ direct_reply
        words.now
        lines.now
        (length work.old)
        from
        to
        minute
        (length answer.old) }
    ensures values { values_of (reply_seen result)
        ≡ direct_values
        words.now
        lines.now
        (length work.old)
        from
        to
        minute
        (length answer.old) }
    ensures words { answer.new
        ≡ direct_words
        words.now
        lines.now
        (length work.old)
        from
        to
        minute
        answer.old }
{
    direct_asked(words, lines, work, from, to, minute, answer)
}
