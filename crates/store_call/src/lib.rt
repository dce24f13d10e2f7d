//! The store call: the sequences of stations where changing can pay, for one source.
#![tactic(auto)]

ghost use Rattle.std.specs.Prelude.{◌≡◌, true, ◌≤◌, length};
ghost use Rattle.timetable.specs.Words.{station_count, is_timetable};
ghost use Rattle.promises.specs.StoreCall.{store_reply, store_values, store_after};
ghost use Rattle.replies.specs.Reply.{reply_seen};
ghost use Rattle.replies.specs.Replies.{values_of};
ghost use Rattle.store_call.specs.Made.{made_reply, made_after};

use questions::Refusal;

// A store has fewer arcs than this.
const TARGETS: usize = 16384;

// Makes and writes the store of the source.
fn make(words: &[u16], work: &mut [u32], source: usize, store: &mut [u16]) -> Result<u32, Refusal>
    requires { (16384 ≤ length words.now)
        × (is_timetable words.now ≡ true)
        × (1 ≤ source)
        × (source ≤ station_count words.now)
        × (source ≤ 64)
        × (length work.old ≡ 16384) }
    ensures { (reply_seen result ≡ made_reply words.now source (length store.old))
        × (store.new ≡ made_after words.now source store.old) }
{
    let mut targets = [0u8; TARGETS];
    let counts = store_growth::make_tree(words, source, work, &mut targets);
    if !counts.fits {
        return Err(Refusal::Room);
    }
    let count = 2 + 3 * counts.n + 2 * counts.m;
    if store.len() < count {
        return Err(Refusal::Room);
    }
    store_tree::write_store(words, work, &targets, counts.n, counts.m, store);
    Ok(count as u32)
}

// The store of one source, if no question is in the way.
fn store_asked(
    words: &[u16],
    lines: &[u16],
    work: &mut [u32],
    source: u32,
    store: &mut [u16],
) -> Result<u32, Refusal>
    ensures value { reply_seen result
        ≡ store_reply
        words.now
        lines.now
        (length work.old)
        source
        (length store.old) }
    ensures store_after { store.new
        ≡ store_after
        words.now
        lines.now
        (length work.old)
        source
        store.old }
{
    lines_check::tables_number(words, lines, work)?;
    if !lines_check::is_listed(words, source) {
        return Err(Refusal::NotNamed);
    }
    let space = &mut work[0..lines_tables::WORDS_LEAST];
    make(words, space, source as usize, store)
}

// The store of one source. Working space may hold any words afterwards.
pub fn make_store(
    words: &[u16],
    lines: &[u16],
    work: &mut [u32],
    source: u32,
    store: &mut [u16],
) -> Result<u32, Refusal>
    ensures reply { reply_seen result
        ≡ store_reply
        words.now
        lines.now
        (length work.old)
        source
        (length store.old) }
    ensures values { values_of (reply_seen result)
        ≡ store_values
        words.now
        lines.now
        (length work.old)
        source
        (length store.old) }
    ensures words { store.new
        ≡ store_after
        words.now
        lines.now
        (length work.old)
        source
        store.old }
{
    store_asked(words, lines, work, source, store)
}
