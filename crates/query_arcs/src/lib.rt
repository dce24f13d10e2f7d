//! What the arcs of a query's target pay: for each minute of arrival the least penalty of their connections, and the
//! arc that alone has it. The arcs are gone along one after the other, each by itself, and what it pays is merged into
//! what those before it pay. A connection may be left out that arrives later than another and costs no less.
#![tactic(auto)]

ghost use Rattle.std.specs.Prelude.{◌≡◌, ◌+◌, ◌-◌, ◌*◌, ◌≤◌, ◌<◌, min, length, get_or, take, set};
ghost use Rattle.query_store.specs.Entries.{arc_count, arc_target};
ghost use Rattle.query_store.specs.Paths.{arc_path};
ghost use Rattle.query_store.specs.Made.{Made};
ghost use Rattle.promises.specs.Query.{kept};
ghost use Rattle.query_minutes.specs.Minutes.{no_points, blank};
ghost use Rattle.query_arcs.specs.Kept.{LeastKept};
ghost use Rattle.query_arcs.specs.Merged.{unnamed, sole_of, Bound, Outside, Merged};
ghost use Rattle.query_arcs.specs.Granted.{Granted};
ghost use Rattle.query_arcs.specs.Arcs.{rides_along, NotedAll};

use query_minutes::{MINUTES, NO_POINTS};
use results::Points;

// Room for the stations of a pattern: for each change where one alights and where one boards, and the target.
pub const STATIONS_MOST: usize = 128;

// A query: from one station to another at a minute.
#[derive(Clone, Copy)]
pub struct Query {
    pub from: usize,
    pub to: usize,
    pub minute: usize,
}

// The word of the arc that alone reaches a minute for the least penalty, once arc k reaches it for some points: that of
// arc k if it pays less than those before, their own if it pays more, and none if it pays the same.
fn sole_arc(k: usize, best: Points, named: u16, points: Points) -> u16
    requires { k + 1 < 65536 }
    ensures { result ≡ sole_of k best.0 named points.0 }
{
    if query_minutes::less(points, best) {
        return (k + 1) as u16;
    }
    if query_minutes::less(best, points) {
        return named;
    }
    0
}

// Merges what arc k alone pays in minute m into the least penalties, and blanks it.
fn merge_minute(k: usize, m: usize, mine: &mut [u32], best: &mut [u32], who: &mut [u16])
    requires { (k + 1 < 65536)
        × (m < length mine.old)
        × (m < length best.old)
        × (m < length who.old) }
    ensures { (mine.new ≡ set mine.old m no_points)
        × (best.new
        ≡ set best.old m (min (get_or best.old m 0) (get_or mine.old m 0)))
        × (who.new
        ≡ set
        who.old
        m
        (sole_of k (get_or best.old m 0) (get_or who.old m 0) (get_or mine.old m 0))) }
{
    let points = query_minutes::points_at(mine, m);
    let least = query_minutes::points_at(best, m);
    let named = who[m];
    who[m] = sole_arc(k, least, named, points);
    let low = query_minutes::lesser(least, points);
    query_minutes::set_points(best, m, low);
    query_minutes::set_points(mine, m, Points(NO_POINTS));
}

// Merges the least penalties of arc k alone into those of the arcs before it, and blanks them. The arc reaches no
// minute before `from`, and none from `to` on.
fn merge(k: usize, from: usize, to: usize, mine: &mut [u32], best: &mut [u32], who: &mut [u16])
    requires { (k + 1 < 65536)
        × (to ≤ 2880)
        × Outside from to mine.old
        × Bound best.old who.old
        × (length mine.old ≡ 2880)
        × (length best.old ≡ 2880)
        × (length who.old ≡ 2880) }
    ensures merged { Merged
        k
        mine.old
        best.old
        who.old
        best.new
        who.new
        × (mine.new ≡ blank) }
    ensures mine_len_unchanged { (length mine.new ≡ length mine.old)
        × (length best.new ≡ length best.old)
        × (length who.new ≡ length who.old) }
{
    for m in from..to {
        if query_minutes::same(query_minutes::points_at(mine, m), Points(NO_POINTS)) {
            continue;
        }
        merge_minute(k, m, mine, best, who);
    }
}

// Writes the stations of the pattern of arc k, without the source, and returns how many rides it has: one more than
// changes.
pub fn read_arc(store: &[u16], k: usize, path: &mut [u16]) -> usize
    requires { Made store.now × (k < arc_count store.now) × (length path.old ≡ 128) }
    ensures path_after { (take (2 * result - 1) path.new ≡ arc_path store.now k)
        × (2 * result - 1 ≡ length (arc_path store.now k))
        × (result ≡ rides_along (arc_path store.now k))
        × (1 ≤ result)
        × (result ≤ 64) }
    ensures path_len_unchanged { length path.new ≡ length path.old }
{
    let stations = query_store::arc_pattern(store, k, path);
    stations / 2 + 1
}

// Lowers the least penalties to those of the connections of arc k, and notes the minutes that it alone reaches for the
// least penalty. The array for its own penalties, and the two to go along it, are blank before and after.
fn note_arc(
    words: &[u16],
    lines: &[u16],
    store: &[u16],
    asked: Query,
    k: usize,
    p: &mut [u32],
    q: &mut [u32],
    mine: &mut [u32],
    best: &mut [u32],
    who: &mut [u16],
)
    requires { Granted words.now lines.now store.now asked.from asked.to asked.minute
        × (k < arc_count store.now)
        × (arc_target store.now k ≡ asked.to)
        × (p.old ≡ blank)
        × (q.old ≡ blank)
        × (mine.old ≡ blank)
        × Bound best.old who.old
        × NotedAll words.now store.now asked.from asked.to asked.minute k best.old who.old
        × (length p.old ≡ 2880)
        × (length q.old ≡ 2880)
        × (length mine.old ≡ 2880)
        × (length best.old ≡ 2880)
        × (length who.old ≡ 2880) }
    ensures p_after { (p.new ≡ blank)
        × (q.new ≡ blank)
        × (mine.new ≡ blank)
        × Bound best.new who.new
        × NotedAll
        words.now
        store.now
        asked.from
        asked.to
        asked.minute
        (k + 1)
        best.new
        who.new }
    ensures p_len { (length p.new ≡ 2880)
        × (length q.new ≡ 2880)
        × (length mine.new ≡ length mine.old)
        × (length best.new ≡ length best.old)
        × (length who.new ≡ length who.old) }
{
    let mut path = [0u16; STATIONS_MOST];
    let r = read_arc(store, k, &mut path);
    let reached = query_costs::note_pattern(
        words,
        lines,
        asked.from,
        asked.minute,
        &path,
        r,
        p,
        q,
        mine,
    );
    merge(k, reached.from, reached.to, mine, best, who);
}

// Notes the least penalty for each minute of arrival, of the connections whose pattern is stored, and the arc that
// alone has it. One that arrives later than another and costs no less may be left out.
pub fn note_arcs(
    words: &[u16],
    lines: &[u16],
    store: &[u16],
    asked: Query,
    best: &mut [u32],
    who: &mut [u16],
)
    requires { Granted words.now lines.now store.now asked.from asked.to asked.minute
        × (best.old ≡ blank)
        × (length best.old ≡ 2880)
        × (who.old ≡ unnamed)
        × (length who.old ≡ 2880) }
    ensures { LeastKept
        asked.minute
        (kept words.now store.now asked.from asked.to asked.minute)
        best.new
        × NotedAll
        words.now
        store.now
        asked.from
        asked.to
        asked.minute
        (arc_count store.now)
        best.new
        who.new
        × (length best.new ≡ 2880)
        × (length who.new ≡ 2880) }
{
    let mut p = [NO_POINTS; MINUTES];
    let mut q = [NO_POINTS; MINUTES];
    let mut mine = [NO_POINTS; MINUTES];
    let arcs = query_store::arc_count(store);
    for k in 0..arcs {
        if !query_store::counts(store, k, asked.to) {
            continue;
        }
        note_arc(
            words, lines, store, asked, k, &mut p, &mut q, &mut mine, best, who,
        );
    }
}
