//! The connection that is shown for a row: of all that have its arrival and its points, along any arc of the target,
//! the one that goes before the others by the rule for equal cost. Each arc is gone along for the one that is first
//! along it (`find_arc`), and where several arcs have one all are tried (`choose`).
#![tactic(auto)]

ghost use Rattle.std.specs.Prelude.{◌≡◌, ◌+◌, ◌*◌, ◌≤◌, ◌<◌, length, take};
ghost use Rattle.lists.specs.Lists.{before};
ghost use Rattle.query_store.specs.Entries.{arc_count, arc_target};
ghost use Rattle.query_arcs.specs.Granted.{Granted};
ghost use Rattle.query_winner.specs.Keys.{key_words};
ghost use Rattle.query_winner.specs.Winning.{Leading, Winning};
ghost use Rattle.query_winner.specs.Trying.{Sized, wins_test, ArcTried, Tried};
ghost use Rattle.query_winner.specs.Leader.{Leader, Named};

use query_arcs::{Query, STATIONS_MOST};
use query_layers::Sought;
use results::Points;

// Room for the numbers of all rides of a connection: a pattern has at most 64 rides.
pub const NUMBERS_MOST: usize = 192;

// A row: when its connection arrives, and what it pays.
#[derive(Clone, Copy)]
pub struct Row {
    pub arrive: usize,
    pub points: Points,
}

// The connection that goes before all others tried so far: whether there is one, its arc, when it departs, and how many
// rides it has. The numbers of its rides stand in an array beside it.
#[derive(Clone, Copy)]
pub struct Winner {
    pub found: bool,
    pub arc: usize,
    pub depart: usize,
    pub rides: usize,
}

// Whether the first n words of one come before those of the other, compared number by number.
fn words_before(a: &[u32], b: &[u32], n: usize) -> bool
    requires { (n ≤ length a.now) × (n ≤ length b.now) }
    ensures { result ≡ before (take n a.now) (take n b.now) }
{
    for i in 0..n {
        if a[i] < b[i] {
            return true;
        }
        if b[i] < a[i] {
            return false;
        }
    }
    false
}

// Whether g goes before f, by the rule for equal cost: it departs later, or has fewer rides, or their numbers come
// first.
fn goes_before(g: Winner, tried: &[u32], f: Winner, shown: &[u32]) -> bool
    requires { (g.depart ≤ 2879)
        × (f.depart ≤ 2879)
        × (3 * g.rides ≤ length tried.now)
        × (3 * g.rides ≤ length shown.now)
        × (g.rides ≤ 64) }
    ensures { result
        ≡ before
        (key_words g.depart g.rides (take (3 * g.rides) tried.now))
        (key_words f.depart f.rides (take (3 * f.rides) shown.now)) }
{
    if f.depart < g.depart {
        return true;
    }
    if g.depart < f.depart {
        return false;
    }
    if g.rides < f.rides {
        return true;
    }
    if f.rides < g.rides {
        return false;
    }
    words_before(tried, shown, 3 * g.rides)
}

// The connection of arc k that goes before all others of the arc with the arrival and the points of a row, if there is
// one. The numbers of its rides are written.
fn find_arc(
    words: &[u16],
    lines: &[u16],
    store: &[u16],
    asked: Query,
    k: usize,
    row: Row,
    tried: &mut [u32],
    work: &mut [u32],
) -> Winner
    requires { Granted words.now lines.now store.now asked.from asked.to asked.minute
        × Leading words.now store.now asked.from asked.to asked.minute row.arrive row.points.0
        × (row.arrive < 2880)
        × (k < arc_count store.now)
        × (arc_target store.now k ≡ asked.to)
        × (length tried.old ≡ 192)
        × (2880 ≤ length work.old) }
    ensures arc_tried { ArcTried
        words.now
        store.now
        asked.from
        asked.to
        asked.minute
        row.arrive
        row.points.0
        k
        result
        tried.new
        × Sized result }
    ensures tried_len_unchanged { (length tried.new ≡ length tried.old)
        × (length work.new ≡ length work.old) }
{
    let mut path = [0u16; STATIONS_MOST];
    let r = query_arcs::read_arc(store, k, &mut path);
    let points = row.points;
    let sought = Sought {
        source: asked.from,
        minute: asked.minute,
        arrive: row.arrive,
        points,
    };
    let f = query_shown::first_of_pattern(words, lines, sought, &path, r, tried, work);
    Winner {
        found: f.found,
        arc: k,
        depart: f.depart,
        rides: r,
    }
}

// Whether what was tried goes before the winner so far, or is the first that was found.
fn wins(f: Winner, tried: &[u32], x: Winner, shown: &[u32]) -> bool
    requires { Sized f × Sized x × (length tried.now ≡ 192) × (length shown.now ≡ 192) }
    ensures { result ≡ wins_test f tried.now x shown.now }
{
    if !f.found {
        return false;
    }
    if !x.found {
        return true;
    }
    goes_before(f, tried, x, shown)
}

// The winner once arc k is tried too: what is found along it, if that goes before the winner so far.
fn try_arc(
    words: &[u16],
    lines: &[u16],
    store: &[u16],
    asked: Query,
    k: usize,
    row: Row,
    x: Winner,
    tried: &mut [u32],
    shown: &mut [u32],
    work: &mut [u32],
) -> Winner
    requires { Granted words.now lines.now store.now asked.from asked.to asked.minute
        × Leading words.now store.now asked.from asked.to asked.minute row.arrive row.points.0
        × (row.arrive < 2880)
        × (k < arc_count store.now)
        × (arc_target store.now k ≡ asked.to)
        × Sized x
        × Tried words.now store.now asked.from asked.to asked.minute row.arrive row.points.0 k x
        shown.old
        × (length tried.old ≡ 192)
        × (length shown.old ≡ 192)
        × (2880 ≤ length work.old) }
    ensures tried { Tried
        words.now
        store.now
        asked.from
        asked.to
        asked.minute
        row.arrive
        row.points.0
        (k + 1)
        result
        shown.new
        × Sized result }
    ensures tried_len_unchanged { (length tried.new ≡ length tried.old)
        × (length shown.new ≡ length shown.old)
        × (length work.new ≡ length work.old) }
{
    let f = find_arc(words, lines, store, asked, k, row, tried, work);
    if !wins(f, tried, x, shown) {
        return x;
    }
    words::copy(shown, 0, &tried[..3 * f.rides]);
    f
}

// The arc of the connection that is shown for a row: all arcs are tried.
fn choose(
    words: &[u16],
    lines: &[u16],
    store: &[u16],
    asked: Query,
    row: Row,
    work: &mut [u32],
) -> usize
    requires { Granted words.now lines.now store.now asked.from asked.to asked.minute
        × Leading words.now store.now asked.from asked.to asked.minute row.arrive row.points.0
        × (row.arrive < 2880)
        × (2880 ≤ length work.old) }
    ensures leader { Leader words.now store.now asked.from asked.to asked.minute
        row.arrive row.points.0 result }
    ensures work_len_unchanged { length work.new ≡ length work.old }
{
    let mut tried = [0u32; NUMBERS_MOST];
    let mut shown = [0u32; NUMBERS_MOST];
    let mut x = Winner {
        found: false,
        arc: 0,
        depart: 0,
        rides: 0,
    };
    let arcs = query_store::arc_count(store);
    for k in 0..arcs {
        if !query_store::counts(store, k, asked.to) {
            continue;
        }
        x = try_arc(
            words, lines, store, asked, k, row, x, &mut tried, &mut shown, work,
        );
    }
    x.arc
}

// The arc of the connection that is shown for a row. It is known where its minute has a word, which is one more; else
// it is looked for.
pub fn leading_arc(
    words: &[u16],
    lines: &[u16],
    store: &[u16],
    asked: Query,
    row: Row,
    named: usize,
    work: &mut [u32],
) -> usize
    requires { Granted words.now lines.now store.now asked.from asked.to asked.minute
        × Leading words.now store.now asked.from asked.to asked.minute row.arrive row.points.0
        × Named words.now store.now asked.from asked.to asked.minute row.arrive row.points.0 named
        × (named < 65536)
        × (row.arrive < 2880)
        × (2880 ≤ length work.old) }
    ensures leader { Leader words.now store.now asked.from asked.to asked.minute
        row.arrive row.points.0 result
        × (result + 1 < 65536) }
    ensures work_len_unchanged { length work.new ≡ length work.old }
{
    if named == 0 {
        return choose(words, lines, store, asked, row, work);
    }
    named - 1
}

// The connection that is shown for a row, found along its arc. The numbers of its rides are written.
pub fn find_shown(
    words: &[u16],
    lines: &[u16],
    store: &[u16],
    asked: Query,
    k: usize,
    row: Row,
    shown: &mut [u32],
    work: &mut [u32],
) -> Winner
    requires { Granted words.now lines.now store.now asked.from asked.to asked.minute
        × Leading words.now store.now asked.from asked.to asked.minute row.arrive row.points.0
        × Leader words.now store.now asked.from asked.to asked.minute row.arrive row.points.0 k
        × (row.arrive < 2880)
        × (length shown.old ≡ 192)
        × (2880 ≤ length work.old) }
    ensures winning { Winning
        words.now
        store.now
        asked.from
        asked.to
        asked.minute
        row.arrive
        row.points.0
        result
        shown.new }
    ensures work_len_unchanged { length work.new ≡ length work.old }
{
    find_arc(words, lines, store, asked, k, row, shown, work)
}
