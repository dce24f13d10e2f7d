//! The least penalties along one stored pattern, change by change: for each minute the least with which one is ready to
//! board at the present station by then. They are held for a span of minutes alone, from the first by which one is
//! ready to the last at which a ride arrives and one can leave again: before it there are none, and behind it the last
//! of them stands for all. The words outside the span are blank, so that to go on only those of the span are made
//! blank again.
#![tactic(auto)]

ghost use Rattle.std.specs.Prelude.{◌≡◌, true, not, ◌+◌, ◌-◌, ◌*◌, ◌≤◌, ◌<◌, length, get_or};
ghost use Rattle.timetable.specs.Words.{timetable_of, is_timetable};
ghost use Rattle.connections.specs.Connections.{net};
ghost use Rattle.lines_check.specs.Question10.{are_tables};
ghost use Rattle.query_places.specs.Candidates.{near_read};
ghost use Rattle.query_minutes.specs.Minutes.{no_points, blank, lowered};
ghost use Rattle.query_costs.specs.Lowest.{lowest};
ghost use Rattle.query_costs.specs.Spans.{Within, widened};
ghost use Rattle.query_costs.specs.Falling.{Falls};
ghost use Rattle.query_costs.specs.Layering.{taken_all, taken_way, start_of, first_value, NoneBefore};
ghost use Rattle.query_costs.specs.Fitting.{Fits, Fitting, Priced};
ghost use Rattle.query_costs.specs.Turning.{held, spare};
ghost use Rattle.query_costs.specs.Onward.{Listed, Stations, change_words};
ghost use Rattle.query_costs.specs.Patterns.{changes_to};
ghost use Rattle.query_costs.specs.Lowered.{Lowered};

use query_minutes::{MINUTES, NO_POINTS};
use query_rides::{Ride, Way};
use results::{Cost, Minutes, Points};

// The minutes from one up to another.
#[derive(Clone, Copy)]
pub struct Span {
    pub from: usize,
    pub to: usize,
}

// The span of no minutes.
fn nothing() -> Span
    ensures { (result.from ≡ 2880) × (result.to ≡ 0) }
{
    Span {
        from: MINUTES,
        to: 0,
    }
}

// The span with a minute more. A minute after the two days is left out: nothing is noted for it.
fn widen(s: Span, m: usize) -> Span
    ensures { result ≡ widened s m }
{
    if MINUTES <= m {
        return s;
    }
    Span {
        from: s.from.min(m),
        to: s.to.max(m + 1),
    }
}

// Makes the words of a span blank, where the others are.
fn clear(p: &mut [u32], s: Span)
    requires { (length p.old ≡ 2880) × Within s blank p.old }
    ensures p_after { p.new ≡ blank }
    ensures p_len_unchanged { length p.new ≡ length p.old }
{
    for m in s.from..s.to {
        query_minutes::set_points(p, m, Points(NO_POINTS));
    }
}

// Who is ready at a minute is ready at each later one: each penalty of the span is lowered to the least so far. Outside
// the span there is none.
fn lowest_so_far(p: &mut [u32], s: Span)
    requires { (length p.old ≡ 2880) × Within s blank p.old }
    ensures p_unchanged { (lowest no_points p.new ≡ lowest no_points p.old)
        × Falls s p.new }
    ensures p_len_unchanged { length p.new ≡ length p.old }
{
    let mut least = Points(NO_POINTS);
    // A span of no minutes may end before it begins.
    for m in s.from.min(s.to)..s.to {
        least = query_minutes::lesser(least, query_minutes::points_at(p, m));
        query_minutes::set_points(p, m, least);
    }
}

// What one has paid who is ready by a minute, where one is: behind the span that is the last of its penalties.
fn paid_by(p: &[u32], s: Span, m: usize) -> Points
    requires { Falls s p.now × (m < 2880) × (get_or (lowest no_points p.now) m 0 < no_points) }
    ensures { result.0 ≡ get_or (lowest no_points p.now) m 0 }
{
    query_minutes::points_at(p, m.min(s.to - 1))
}

// The first minute by which one is ready, where no one is before minute from; 2,880 if no one ever is.
fn first_value(p: &[u32], from: usize) -> usize
    requires { (length p.now ≡ 2880) × (from ≤ 2880) × NoneBefore from p.now }
    ensures { (result ≡ first_value p.now) × (from ≤ result) × (result ≤ 2880) }
{
    for m in from..MINUTES {
        if query_minutes::less(query_minutes::points_at(p, m), Points(NO_POINTS)) {
            return m;
        }
    }
    MINUTES
}

// Before the first ride one is ready from the minute of the query on, and has paid nothing.
fn start(minute: usize, p: &mut [u32]) -> Span
    requires { (minute < 2880) × (p.old ≡ blank) × (length p.old ≡ 2880) }
    ensures p_after { lowest no_points p.new ≡ start_of minute }
    ensures falls { Falls result p.new × (result.from ≡ minute) }
    ensures p_len_unchanged { length p.new ≡ length p.old }
{
    query_minutes::set_points(p, minute, Points(0));
    Span {
        from: minute,
        to: minute + 1,
    }
}

// Notes a ride for one who has paid what p holds for its departure: when he can leave again, after a change that takes
// and costs so much, and what he has paid by then. Returns the span noted so far with that minute.
fn note_ride(p: &[u32], s: Span, ride: Ride, change: Cost, best: &mut [u32], noted: Span) -> Span
    requires { Falls s p.now
        × Fits (lowest no_points p.now) ride
        × (change.minutes.0 ≤ 240)
        × (change.points.0 ≤ 1000) }
    ensures best_after { best.new
        ≡ lowered
        best.old
        (ride.arrive + change.minutes.0)
        (get_or (lowest no_points p.now) ride.depart 0 + ride.points.0 + change.points.0) }
    ensures best_len_unchanged { length best.new ≡ length best.old }
    ensures value { result ≡ widened noted (ride.arrive + change.minutes.0) }
{
    let points = ride.points;
    let price = change.points;
    let wait = change.minutes;
    let stood = paid_by(p, s, ride.depart);
    let paid = query_minutes::sum(query_minutes::sum(stood, points), price);
    let ready = query_minutes::minute_after(ride.arrive, wait);
    query_minutes::note(best, ready, paid);
    widen(noted, ready)
}

// Notes the rides from one station to another, for one who is ready there as p holds it for a span, each to the nearest
// place of the other: who rides on arrives later and pays no less. Returns the span of the minutes noted.
fn note_rides(
    lines: &[u16],
    from: usize,
    to: usize,
    s: Span,
    p: &[u32],
    change: Cost,
    best: &mut [u32],
) -> Span
    requires { Falls s p.now
        × (length best.old ≡ 2880)
        × Fitting (lowest no_points p.now) (near_read lines.now from s.from to)
        × (change.minutes.0 ≤ 240)
        × (change.points.0 ≤ 1000) }
    ensures best_after { best.new
        ≡ taken_all
        (lowest no_points p.now)
        change.minutes.0
        change.points.0
        best.old
        (near_read lines.now from s.from to) }
    ensures best_len_unchanged { length best.new ≡ length best.old }
    ensures within { Within result best.old best.new × (result.from ≤ 2880) }
{
    let mut noted = nothing();
    let mut next = query_rides::begin(lines, from, to, s.from);
    while let Some(c) = next {
        noted = note_ride(p, s, query_rides::tell(lines, c), change, best, noted);
        next = query_rides::next_nearest(lines, s.from, c);
    }
    noted
}

// Notes those rides, if there is a way of changing after them. Returns the span of the minutes noted.
fn note_way(
    lines: &[u16],
    from: usize,
    to: usize,
    s: Span,
    p: &[u32],
    way: Way,
    best: &mut [u32],
) -> Span
    requires { Falls s p.now
        × (length best.old ≡ 2880)
        × Fitting (lowest no_points p.now) (near_read lines.now from s.from to)
        × Priced way }
    ensures best_after { best.new
        ≡ taken_way
        (lowest no_points p.now)
        way
        best.old
        (near_read lines.now from s.from to) }
    ensures best_len_unchanged { length best.new ≡ length best.old }
    ensures within { Within result best.old best.new × (result.from ≤ 2880) }
{
    if !way.found {
        return nothing();
    }
    let here = way.here;
    let change = way.change;
    let cost = query_rides::cost_of(here, change);
    note_rides(lines, from, to, s, p, cost, best)
}

// One ride and the change after it: from the least penalties at station from, by a ride to the station alighted at, to
// those at the station boarded at. The words of p are blank afterwards, as those of q were before. Returns the span of
// q, from the first minute on by which one is ready there.
fn step(
    words: &[u16],
    lines: &[u16],
    from: usize,
    alighted: usize,
    boarded: usize,
    s: Span,
    p: &mut [u32],
    q: &mut [u32],
) -> Span
    requires in_bounds { (16384 ≤ length words.now) × (is_timetable words.now ≡ true) × Listed words.now alighted }
    requires falls { Falls s p.old
        × (q.old ≡ blank)
        × (length p.old ≡ 2880)
        × (length q.old ≡ 2880)
        × Fitting (lowest no_points p.old) (near_read lines.now from s.from alighted) }
    ensures q_after { lowest no_points q.new
        ≡ change_words
        words.now
        (lowest no_points p.old)
        alighted
        boarded
        (near_read lines.now from s.from alighted) }
    ensures p_after { (p.new ≡ blank)
        × (length p.new ≡ length p.old)
        × (length q.new ≡ length q.old) }
    ensures falls_2 { Falls result q.new
        × (result.from ≡ first_value (lowest no_points q.new))
        × (result.from ≤ 2880) }
{
    let way = query_rides::way_between(words, alighted, boarded);
    let noted = note_way(lines, from, alighted, s, p, way, q);
    clear(p, s);
    lowest_so_far(q, noted);
    let first = first_value(q, noted.from);
    Span {
        from: first,
        to: noted.to,
    }
}

// The last ride: lowers the penalties of the minutes of arrival. The words of p are blank afterwards. Returns the span
// of the minutes noted.
fn finish(lines: &[u16], from: usize, to: usize, s: Span, p: &mut [u32], best: &mut [u32]) -> Span
    requires { Falls s p.old
        × (length p.old ≡ 2880)
        × (length best.old ≡ 2880)
        × Fitting (lowest no_points p.old) (near_read lines.now from s.from to) }
    ensures best_after { best.new
        ≡ taken_all (lowest no_points p.old) 0 0 best.old
        (near_read lines.now from s.from to) }
    ensures p_after { (p.new ≡ blank)
        × (length p.new ≡ length p.old)
        × (length best.new ≡ length best.old) }
    ensures within { Within result best.old best.new }
{
    let none = Cost {
        minutes: Minutes(0),
        points: Points(0),
    };
    let noted = note_rides(lines, from, to, s, p, none, best);
    clear(p, s);
    noted
}

// A step from the array that holds the present penalties, q if they have changed places, to the other.
fn step_turned(
    words: &[u16],
    lines: &[u16],
    from: usize,
    alighted: usize,
    boarded: usize,
    s: Span,
    turned: bool,
    p: &mut [u32],
    q: &mut [u32],
) -> Span
    requires in_bounds { (16384 ≤ length words.now) × (is_timetable words.now ≡ true) × Listed words.now alighted }
    requires falls { Falls s (held turned p.old q.old)
        × (spare turned p.old q.old ≡ blank)
        × (length p.old ≡ 2880)
        × (length q.old ≡ 2880)
        × Fitting (lowest no_points (held turned p.old q.old)) (near_read lines.now from s.from alighted) }
    ensures q_after { lowest no_points (held (not turned) p.new q.new)
        ≡ change_words
        words.now
        (lowest no_points (held turned p.old q.old))
        alighted
        boarded
        (near_read lines.now from s.from alighted) }
    ensures q_after_2 { (spare (not turned) p.new q.new ≡ blank)
        × (length p.new ≡ 2880)
        × (length q.new ≡ 2880) }
    ensures falls_2 { Falls result (held (not turned) p.new q.new)
        × (result.from ≡ first_value (lowest no_points (held (not turned) p.new q.new)))
        × (result.from ≤ 2880) }
{
    if turned {
        return step(words, lines, from, alighted, boarded, s, q, p);
    }
    step(words, lines, from, alighted, boarded, s, p, q)
}

// The last ride, likewise. Both are blank afterwards.
fn finish_turned(
    lines: &[u16],
    from: usize,
    to: usize,
    s: Span,
    turned: bool,
    p: &mut [u32],
    q: &mut [u32],
    best: &mut [u32],
) -> Span
    requires { Falls s (held turned p.old q.old)
        × (spare turned p.old q.old ≡ blank)
        × (length p.old ≡ 2880)
        × (length q.old ≡ 2880)
        × (length best.old ≡ 2880)
        × Fitting (lowest no_points (held turned p.old q.old)) (near_read lines.now from s.from to) }
    ensures best_after { best.new
        ≡ taken_all
        (lowest no_points (held turned p.old q.old))
        0
        0
        best.old
        (near_read lines.now from s.from to) }
    ensures p_after { (p.new ≡ blank)
        × (q.new ≡ blank)
        × (length p.new ≡ length p.old)
        × (length q.new ≡ length q.old)
        × (length best.new ≡ length best.old) }
    ensures within { Within result best.old best.new }
{
    if turned {
        return finish(lines, from, to, s, q, best);
    }
    finish(lines, from, to, s, p, best)
}

// Lowers the penalties of the arrival minutes to those of the connections of one pattern of r rides: from the source at
// the minute or later, with the r - 1 changes that the path names first, each by the stations alighted and boarded at,
// to the station after them. One that arrives later than another of them and costs no less may be left out. Returns the
// span of the minutes noted: outside it no penalty changes. The two arrays p and q to go along it are blank before and
// after.
pub fn note_pattern(
    words: &[u16],
    lines: &[u16],
    source: usize,
    minute: usize,
    path: &[u16],
    r: usize,
    p: &mut [u32],
    q: &mut [u32],
    best: &mut [u32],
) -> Span
    requires in_bounds { (16384 ≤ length words.now)
        × (is_timetable words.now ≡ true)
        × (are_tables words.now lines.now ≡ true) }
    requires listed { Listed words.now source × (minute < 2880) }
    requires le_r { (1 ≤ r) × (r ≤ 64) × (2 * r - 1 ≤ length path.now) × Stations words.now path.now (2 * r - 1) }
    requires p_value { (p.old ≡ blank)
        × (q.old ≡ blank)
        × (length p.old ≡ 2880)
        × (length q.old ≡ 2880)
        × (length best.old ≡ 2880) }
    ensures lowered { Lowered
        (net (timetable_of words.now))
        source
        minute
        (changes_to path.now (r - 1))
        (get_or path.now (2 * r - 2) 0)
        best.old
        best.new }
    ensures p_after { (p.new ≡ blank)
        × (q.new ≡ blank)
        × (length p.new ≡ 2880)
        × (length q.new ≡ 2880)
        × (length best.new ≡ length best.old) }
    ensures within { Within result best.old best.new }
{
    let mut s = start(minute, p);
    let mut turned = false;
    let mut from = source;
    for j in 0..r - 1 {
        let alighted = words::word(path, 2 * j) as usize;
        let boarded = words::word(path, 2 * j + 1) as usize;
        s = step_turned(words, lines, from, alighted, boarded, s, turned, p, q);
        if MINUTES <= s.from {
            return nothing();
        }
        turned = !turned;
        from = boarded;
    }
    let to = words::word(path, 2 * r - 2) as usize;
    finish_turned(lines, from, to, s, turned, p, q, best)
}
