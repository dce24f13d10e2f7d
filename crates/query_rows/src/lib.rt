//! The rows of a query, from the least penalty for each minute of arrival and the arc that has it. The minutes whose
//! penalty is below those of all earlier ones are the rows. Each row's arc is named and the row is measured by the
//! arc's number of rides (`measure`), and only then are its rides looked for and written (`write_rows`): an answer
//! that does not fit is refused before a word of it is written, and there is no room to keep the rides of all rows
//! until it is known to fit. Where several arcs tie, naming the arc means trying them all, so that the connection of
//! such a row is found twice.
#![tactic(auto)]

ghost use Rattle.std.specs.Prelude.{◌≡◌, ◌∷◌, ◌+◌, ◌-◌, ◌*◌, ◌≤◌, ◌<◌, length, get_or, take};
ghost use Rattle.words.specs.Put.{put};
ghost use Rattle.query_store.specs.Entries.{arc_count};
ghost use Rattle.query_store.specs.Paths.{arc_path};
ghost use Rattle.query_store.specs.Made.{Made};
ghost use Rattle.promises.specs.Query.{kept, rows, row_words};
ghost use Rattle.query_minutes.specs.Ending.{LeadsEnd};
ghost use Rattle.query_arcs.specs.Kept.{LeastKept};
ghost use Rattle.query_arcs.specs.Granted.{Granted};
ghost use Rattle.query_arcs.specs.Arcs.{rides_along};
ghost use Rattle.query_winner.specs.Winning.{Leading};
ghost use Rattle.query_winner.specs.Leader.{Leader, Named};
ghost use Rattle.query_rows.specs.Written.{Written, Room};
ghost use Rattle.query_rows.specs.Named.{NamedRow, AllNamed, AllLed};

use query_arcs::{Query, STATIONS_MOST};
use query_minutes::NO_POINTS;
use query_winner::{NUMBERS_MOST, Row};
use results::{Cost, Points};

// The words of a row before the numbers of its rides.
const ROW_WORDS: usize = 3;

// How many words the row of a connection that goes by arc k has.
fn row_length(store: &[u16], k: usize) -> usize
    requires { Made store.now × (k < arc_count store.now) }
    ensures { (result ≡ 3 + 3 * rides_along (arc_path store.now k)) × (result ≤ 195) }
{
    let mut path = [0u16; STATIONS_MOST];
    let r = query_arcs::read_arc(store, k, &mut path);
    ROW_WORDS + 3 * r
}

// Names the arc of the connection that is shown for a row, and returns how many words the row has.
fn name_arc(
    words: &[u16],
    lines: &[u16],
    store: &[u16],
    asked: Query,
    row: Row,
    who: &mut [u16],
    work: &mut [u32],
) -> usize
    requires { Granted words.now lines.now store.now asked.from asked.to asked.minute
        × Leading words.now store.now asked.from asked.to asked.minute row.arrive row.points.0
        × Named words.now store.now asked.from asked.to asked.minute row.arrive row.points.0
        (get_or who.old row.arrive 0)
        × (row.arrive < 2880)
        × (length who.old ≡ 2880)
        × (2880 ≤ length work.old) }
    ensures named_row { NamedRow
        words.now
        store.now
        asked.from
        asked.to
        asked.minute
        row.arrive
        row.points.0
        result
        who.old
        who.new
        × (result ≤ 195) }
    ensures who_len_unchanged { (length who.new ≡ length who.old)
        × (length work.new ≡ length work.old) }
{
    let arrive = row.arrive;
    let named = words::word(who, arrive) as usize;
    let arc = query_winner::leading_arc(words, lines, store, asked, row, named, work);
    who[arrive] = (arc + 1) as u16;
    row_length(store, arc)
}

// How many words all rows have, which arrive before minute `end`. best has the least penalty for each minute of
// arrival; the arc of each row is named.
pub fn measure(
    words: &[u16],
    lines: &[u16],
    store: &[u16],
    asked: Query,
    end: usize,
    best: &[u32],
    who: &mut [u16],
    work: &mut [u32],
) -> usize
    requires { Granted words.now lines.now store.now asked.from asked.to asked.minute
        × LeastKept asked.minute (kept words.now store.now asked.from asked.to asked.minute) best.now
        × AllNamed words.now store.now asked.from asked.to asked.minute best.now who.old
        × LeadsEnd best.now end
        × (length best.now ≡ 2880)
        × (length who.old ≡ 2880)
        × (2880 ≤ length work.old) }
    ensures value { (result
        ≡ length (row_words (rows words.now store.now asked.from asked.to asked.minute)))
        × AllLed
        words.now
        store.now
        asked.from
        asked.to
        asked.minute
        best.now
        who.new }
    ensures who_len_unchanged { (length who.new ≡ length who.old)
        × (length work.new ≡ length work.old) }
{
    let mut count = 0;
    let mut least = Points(NO_POINTS);
    // No connection arrives before the minute of the query.
    for arrive in asked.minute..end {
        let points = query_minutes::points_at(best, arrive);
        if !query_minutes::less(points, least) {
            continue;
        }
        least = points;
        let row = Row { arrive, points };
        count += name_arc(words, lines, store, asked, row, who, work);
    }
    count
}

// Writes a row from index at on: its cost, the number of rides and their numbers. Returns the index after it.
fn put_row(answer: &mut [u32], at: usize, cost: Cost, rides: usize, shown: &[u32]) -> usize
    requires { (rides ≤ 64) × (length shown.now ≡ 192) × (at + (3 + 3 * rides) ≤ length answer.old) }
    ensures answer_after { answer.new
        ≡ put at
        (cost.minutes.0 ∷ cost.points.0 ∷ rides ∷ take (3 * rides) shown.now)
        answer.old }
    ensures answer_len_unchanged { (length answer.new ≡ length answer.old) × (result ≡ at + (3 + 3 * rides)) }
{
    query_minutes::write_cost(answer, at, cost);
    answer[at + 2] = rides as u32;
    words::copy(answer, at + ROW_WORDS, &shown[..3 * rides]);
    at + (ROW_WORDS + 3 * rides)
}

// Writes a row from index at on. Returns the index after it. who has the arc of its connection.
fn write_row(
    words: &[u16],
    lines: &[u16],
    store: &[u16],
    asked: Query,
    who: &[u16],
    row: Row,
    answer: &mut [u32],
    at: usize,
    work: &mut [u32],
) -> usize
    requires { Granted words.now lines.now store.now asked.from asked.to asked.minute
        × Leading words.now store.now asked.from asked.to asked.minute row.arrive row.points.0
        × Leader words.now store.now asked.from asked.to asked.minute row.arrive row.points.0
        (get_or who.now row.arrive 0 - 1)
        × (1 ≤ get_or who.now row.arrive 0)
        × (row.arrive < 2880)
        × (length who.now ≡ 2880)
        × (2880 ≤ length work.old)
        × Room words.now store.now asked.from asked.to asked.minute row.arrive row.points.0 at
        answer.old }
    ensures written { Written
        words.now
        store.now
        asked.from
        asked.to
        asked.minute
        row.arrive
        row.points.0
        at
        result
        answer.old
        answer.new }
    ensures answer_len_unchanged { (length answer.new ≡ length answer.old)
        × (length work.new ≡ length work.old) }
{
    let k = words::word(who, row.arrive) as usize - 1;
    let mut shown = [0u32; NUMBERS_MOST];
    let x = query_winner::find_shown(words, lines, store, asked, k, row, &mut shown, work);
    let points = row.points;
    let cost = Cost {
        minutes: query_minutes::minutes_between(asked.minute, row.arrive),
        points,
    };
    put_row(answer, at, cost, x.rides, &shown)
}

// Writes all rows, in rising duration: one for each arrival minute whose penalty is below those of all earlier minutes.
// They arrive before minute `end`. who has the arc of each of them.
pub fn write_rows(
    words: &[u16],
    lines: &[u16],
    store: &[u16],
    asked: Query,
    end: usize,
    best: &[u32],
    who: &[u16],
    answer: &mut [u32],
    work: &mut [u32],
)
    requires { Granted words.now lines.now store.now asked.from asked.to asked.minute
        × LeastKept asked.minute (kept words.now store.now asked.from asked.to asked.minute) best.now
        × AllLed words.now store.now asked.from asked.to asked.minute best.now who.now
        × LeadsEnd best.now end
        × (length best.now ≡ 2880)
        × (length who.now ≡ 2880)
        × (2880 ≤ length work.old)
        × (length (row_words (rows words.now store.now asked.from asked.to asked.minute))
        ≤ length answer.old) }
    ensures answer_after { answer.new
        ≡ put
        0
        (row_words (rows words.now store.now asked.from asked.to asked.minute))
        answer.old }
    ensures answer_len_unchanged { length answer.new ≡ length answer.old }
{
    let mut here = 0;
    let mut least = Points(NO_POINTS);
    // No connection arrives before the minute of the query.
    for arrive in asked.minute..end {
        let points = query_minutes::points_at(best, arrive);
        if !query_minutes::less(points, least) {
            continue;
        }
        least = points;
        let row = Row { arrive, points };
        here = write_row(words, lines, store, asked, who, row, answer, here, work);
    }
}
