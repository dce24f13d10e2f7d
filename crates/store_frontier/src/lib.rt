//! Two passes of a store call: which arrivals are on the frontier, and who can still end well.
#![tactic(auto)]

ghost use Rattle.std.specs.Prelude.{◌≡◌, true, cond, ◌+◌, ◌≤◌, ◌<◌, max, length, get_or, set, drop};
ghost use Rattle.timetable.specs.Words.{station_count, stop_at, walks_to, is_timetable};
ghost use Rattle.timetable.specs.Walks.{FromStation};
ghost use Rattle.connections.specs.Rides.{may_board};
ghost use Rattle.store_stops.specs.Stopwise.{station, arrive, stay, nowhere, Arrival};
ghost use Rattle.store_stops.specs.OpenWays.{Open, ByWalk, WalkTo};
ghost use Rattle.store_stops.specs.Prospects.{Allows, Bounded};
ghost use Rattle.store_stops.specs.Settled.{Timely};
ghost use Rattle.store_departures.specs.Order.{order as departures, catch_by};
ghost use Rattle.store_departures.specs.Held.{Departures};
ghost use Rattle.store_departures.specs.Rising.{minute_at, InTime};
ghost use Rattle.store_frontier.specs.Arrivals.{Tells, Arrivals, Held, Run};
ghost use Rattle.store_frontier.specs.Front.{Least, MinuteEnd, mark_of, Marked, LeftOut, Fronted};
ghost use Rattle.store_frontier.specs.Allowing.{top_of, AllowsAhead, ClosedAt, Closed};
ghost use Rattle.store_frontier.specs.Bounding.{caught_bound, Bounding};
ghost use Rattle.store_frontier.specs.Passed.{Limits, Passed, LeaveBound};
ghost use Rattle.store_frontier.specs.Routes.{Routes};

use results::Points;
use store_catches::NOWHERE;
use store_points::UNREACHED;
use timetable::Stop;

// ---- which arrivals are on the frontier

// The minute of the arrival at place r.
fn minute_at(words: &[u16], arrivals: &[u16], r: usize) -> u32
    requires { (16384 ≤ length words.now)
        × (station_count words.now ≤ 64)
        × (r < length arrivals.now)
        × (get_or arrivals.now r 0 < 2048) }
    ensures { result ≡ arrive words.now (get_or arrivals.now r 0) }
{
    let j = words::word(arrivals, r) as usize;
    timetable::stop_at(words, j).arrive
}

// Where the arrivals end that are of the same minute as the one at place p, among those up to place end.
fn minute_end(words: &[u16], arrivals: &[u16], p: usize, end: usize) -> usize
    requires { (16384 ≤ length words.now)
        × (station_count words.now ≤ 64)
        × Run words.now arrivals.now p end
        × (p < end) }
    ensures { MinuteEnd words.now arrivals.now p end result }
{
    let minute = minute_at(words, arrivals, p);
    for q in p + 1..end {
        if minute_at(words, arrivals, q) != minute {
            return q;
        }
    }
    end
}

// The least of top and the points of the arrivals at places p up to q.
fn least(arrivals: &[u16], p: usize, q: usize, v: &[u32], top: Points) -> Points
    requires { Held arrivals.now p q × (length v.now ≡ 2048) }
    ensures { Least arrivals.now v.now top.0 p q result.0 }
{
    let mut low = top;
    for r in p..q {
        let j = words::word(arrivals, r) as usize;
        low = query_minutes::lesser(low, query_minutes::points_at(v, j));
    }
    low
}

// What is allowed at an arrival: before is the least that was paid on arrivals of earlier minutes, low the least with
// those of its own.
fn mark(before: Points, low: Points, u: Points) -> Points
    ensures { result.0 ≡ mark_of before.0 low.0 u.0 }
{
    if query_minutes::at_least(u, before) {
        return Points(0);
    }
    if !query_minutes::same(u, low) {
        return Points(0);
    }
    query_minutes::sum(u, Points(1))
}

// Marks the arrivals at places p up to q.
fn mark_all(arrivals: &[u16], p: usize, q: usize, before: Points, low: Points, v: &mut [u32])
    requires { Held arrivals.now p q × (length v.old ≡ 2048) }
    ensures marked { Marked arrivals.now before.0 low.0 p q v.old v.new }
    ensures v_len_unchanged { length v.new ≡ length v.old }
{
    for r in p..q {
        let j = words::word(arrivals, r) as usize;
        let u = query_minutes::points_at(v, j);
        query_minutes::set_points(v, j, mark(before, low, u));
    }
}

// Leaves the arrival at place p out of the frontier if low or more was paid on it. Returns whether it did.
fn leave_out(arrivals: &[u16], p: usize, low: Points, v: &mut [u32]) -> bool
    requires { (p < length arrivals.now) × (get_or arrivals.now p 0 < length v.old) }
    ensures left_out { LeftOut arrivals.now low.0 p v.old result v.new }
    ensures v_len_unchanged { length v.new ≡ length v.old }
{
    let j = words::word(arrivals, p) as usize;
    if query_minutes::at_least(query_minutes::points_at(v, j), low) {
        query_minutes::set_points(v, j, Points(0));
        return true;
    }
    false
}

// The arrivals of one station, at places begin up to end, where less than top is to have been paid.
fn allow_station(
    words: &[u16],
    arrivals: &[u16],
    begin: usize,
    end: usize,
    top: Points,
    v: &mut [u32],
)
    requires { (16384 ≤ length words.now)
        × (station_count words.now ≤ 64)
        × Run words.now arrivals.now begin end
        × (length v.old ≡ 2048) }
    ensures fronted { Fronted words.now arrivals.now begin end top.0 v.old end
        v.new }
    ensures v_len_unchanged { length v.new ≡ length v.old }
{
    let mut low = top;
    let mut p = begin;
    // Stays: p goes on by a minute's arrivals at once, which no range counts.
    while p < end {
        // Most are not reached or have paid no less than someone earlier: whoever else arrives in their minute, they
        // are not on the frontier.
        if leave_out(arrivals, p, low, v) {
            p += 1;
            continue;
        }
        let q = minute_end(words, arrivals, p, end);
        let before = low;
        low = least(arrivals, p, q, v, before);
        mark_all(arrivals, p, q, before, low, v);
        p = q;
    }
}

// Less than this is to have been paid at station c.
fn top_of(c: usize, source: usize) -> Points
    ensures { result.0 ≡ top_of c source }
{
    if c == source {
        return Points(0);
    }
    UNREACHED
}

// The arrivals of station c.
fn allow_part(
    words: &[u16],
    arrivals: &[u16],
    first: &[u32],
    c: usize,
    source: usize,
    v: &mut [u32],
)
    requires { (16384 ≤ length words.now)
        × Timely words.now
        × Arrivals words.now arrivals.now first.now
        × (1 ≤ c)
        × (c ≤ station_count words.now)
        × (station_count words.now ≤ 64)
        × (length v.old ≡ 2048) }
    ensures fronted { Fronted words.now arrivals.now (get_or first.now c 0)
        (get_or first.now (c + 1) 0) (top_of c source) v.old
        (get_or first.now (c + 1) 0) v.new }
    ensures v_len_unchanged { length v.new ≡ length v.old }
{
    let begin = store_departures::index_at(first, c);
    let end = store_departures::index_at(first, c + 1);
    allow_station(words, arrivals, begin, end, top_of(c, source), v);
}

// Where a stop is closed to alighting, no one is taken to arrive.
fn close_stop(words: &[u16], j: usize, v: &mut [u32])
    requires { (16384 ≤ length words.now)
        × (station_count words.now ≤ 64)
        × (j < 2048)
        × (length v.old ≡ 2048) }
    ensures closed_at { ClosedAt words.now j v.old v.new }
    ensures v_len_unchanged { length v.new ≡ length v.old }
{
    if store_departures::may_alight(timetable::stop_at(words, j)) {
        return;
    }
    query_minutes::set_points(v, j, UNREACHED);
}

// Closes all such stops.
fn close_stops(words: &[u16], v: &mut [u32])
    requires { (16384 ≤ length words.now) × (is_timetable words.now ≡ true) × (length v.old ≡ 2048) }
    ensures closed { Closed words.now v.old v.new }
    ensures v_len_unchanged { length v.new ≡ length v.old }
{
    let stops = words::word(words, 2) as usize;
    for j in 0..stops {
        close_stop(words, j, v);
    }
}

// The word of first that tells, by 0, that riders may alight at all stops.
pub const SOME_CLOSED: usize = 66;

// Closes them; where riders may alight at all stops, none is looked at.
fn close(words: &[u16], first: &[u32], v: &mut [u32])
    requires { (16384 ≤ length words.now)
        × (is_timetable words.now ≡ true)
        × (length first.now ≡ 67)
        × Tells words.now (get_or first.now 66 0)
        × (length v.old ≡ 2048) }
    ensures closed { Closed words.now v.old v.new }
    ensures v_len_unchanged { length v.new ≡ length v.old }
{
    if store_departures::index_at(first, SOME_CLOSED) == 0 {
        return;
    }
    close_stops(words, v);
}

// The arrivals of all stations.
fn allow_all(words: &[u16], arrivals: &[u16], first: &[u32], source: usize, v: &mut [u32])
    requires { (16384 ≤ length words.now)
        × (is_timetable words.now ≡ true)
        × Timely words.now
        × Arrivals words.now arrivals.now first.now
        × (length v.old ≡ 2048) }
    ensures allows_ahead { AllowsAhead words.now source v.old v.new }
    ensures v_len { length v.new ≡ 2048 }
{
    let stations = words::word(words, 0) as usize;
    for c in 1..stations + 1 {
        allow_part(words, arrivals, first, c, source, v);
    }
}

// From the least penalties on arrival to what is allowed there: at an arrival on the frontier of its station as much as
// that least penalty, one being added so that 0 allows nothing, and 0 elsewhere, at the source and where no one may
// alight.
pub fn allow(words: &[u16], arrivals: &[u16], first: &[u32], source: usize, v: &mut [u32])
    requires { (16384 ≤ length words.now)
        × (is_timetable words.now ≡ true)
        × Timely words.now
        × Arrivals words.now arrivals.now first.now
        × (length v.old ≡ 2048) }
    ensures allows { Allows words.now source v.old v.new }
    ensures v_len { length v.new ≡ 2048 }
{
    close(words, first, v);
    allow_all(words, arrivals, first, source, v);
}

// 0 only if riders may alight at all stops; it is 1 where a stop is closed to that.
pub fn some_closed(words: &[u16]) -> u32
    requires { (16384 ≤ length words.now) × (is_timetable words.now ≡ true) }
    ensures { Tells words.now result }
{
    let stops = words::word(words, 2) as usize;
    for j in 0..stops {
        if !store_departures::may_alight(timetable::stop_at(words, j)) {
            return 1;
        }
    }
    0
}

// ---- who can still end well

// One who changes for so many points to departure f ends well if they have paid less than this.
fn caught_bound(q: &[u32], f: usize, cost: Points) -> Points
    requires { (f < nowhere) → f < length q.now }
    ensures { result.0 ≡ caught_bound q.now f cost.0 }
{
    // Stays: what is caught is kept in lent words of 16 bits, which have no room for an Option beside the number.
    if f < NOWHERE as usize {
        return query_minutes::left_of(query_minutes::points_at(q, f), cost);
    }
    Points(0)
}

// One who arrives at stop j ends well after a change by walk k if they have paid less than this.
fn walk_bound(words: &[u16], chain: &[u16], first: &[u32], q: &[u32], k: usize, j: usize) -> Points
    requires { (16384 ≤ length words.now)
        × (is_timetable words.now ≡ true)
        × Departures words.now chain.now first.now
        × (length q.now ≡ 2048)
        × Arrival words.now j
        × FromStation words.now (station words.now j) k }
    ensures { Bounding words.now q.now j (ByWalk words.now k) result.0 }
{
    let f = store_catches::caught_on_foot(words, chain, first, k, j);
    caught_bound(q, f, store_points::of_walk(timetable::walk_at(words, k)))
}

// The same by any walk from station c.
fn walks_bound(words: &[u16], chain: &[u16], first: &[u32], q: &[u32], c: usize, j: usize) -> Points
    requires { (16384 ≤ length words.now)
        × (is_timetable words.now ≡ true)
        × Departures words.now chain.now first.now
        × (length q.now ≡ 2048)
        × (1 ≤ c)
        × (c ≤ station_count words.now)
        × Arrival words.now j
        × (station words.now j ≡ c) }
    ensures { Bounding words.now q.now j
        (WalkTo words.now c (walks_to words.now c)) result.0 }
{
    let begin = timetable::walks_to(words, c - 1);
    let end = timetable::walks_to(words, c);
    let mut high = Points(0);
    for k in begin..end {
        high = query_minutes::larger(high, walk_bound(words, chain, first, q, k, j));
    }
    high
}

// The same by any way of changing that is open there.
fn onto_bound(
    words: &[u16],
    chain: &[u16],
    first: &[u32],
    catch: &[u16],
    q: &[u32],
    j: usize,
) -> Points
    requires { (16384 ≤ length words.now)
        × (is_timetable words.now ≡ true)
        × Departures words.now chain.now first.now
        × (j < 2048)
        × Arrival words.now j
        × (1 ≤ station words.now j)
        × (station words.now j ≤ station_count words.now)
        × (length catch.now ≡ 2048)
        × (get_or catch.now j 0 ≡ catch_by words.now (stay words.now (station words.now j)) j)
        × (length q.now ≡ 2048) }
    ensures { Bounding words.now q.now j (Open words.now j) result.0 }
{
    let c = timetable::stop_at(words, j).station as usize;
    let f = words::word(catch, j) as usize;
    let here = caught_bound(q, f, store_departures::change_points(first, c));
    if store_departures::has_walks(first) {
        return query_minutes::larger(here, walks_bound(words, chain, first, q, c, j));
    }
    here
}

// One who leaves stop i, which is s, ends well if they have paid less than this.
fn leave_bound(
    words: &[u16],
    chain: &[u16],
    first: &[u32],
    catch: &[u16],
    e: &[u32],
    q: &[u32],
    leaving: &[u32],
    i: usize,
    s: Stop,
) -> Points
    requires { (16384 ≤ length words.now)
        × (is_timetable words.now ≡ true)
        × Departures words.now chain.now first.now
        × (i + 1 < 2048)
        × Arrival words.now (i + 1)
        × (1 ≤ station words.now (i + 1))
        × (station words.now (i + 1) ≤ station_count words.now)
        × (length catch.now ≡ 2048)
        × (get_or catch.now (i + 1) 0
        ≡ catch_by words.now (stay words.now (station words.now (i + 1))) (i + 1))
        × (length e.now ≡ 2048)
        × (length q.now ≡ 2048)
        × (length leaving.now ≡ 2048)
        × (s ≡ stop_at words.now i) }
    ensures { LeaveBound words.now e.now q.now leaving.now i
        result.0 }
{
    let onto = onto_bound(words, chain, first, catch, q, i + 1);
    let here = query_minutes::larger(
        query_minutes::points_at(e, i + 1),
        query_minutes::points_at(leaving, i + 1),
    );
    query_minutes::left_of(query_minutes::larger(onto, here), store_points::of_ride(s))
}

// One who boards at a stop ends well if they have paid less than one who leaves it; no one boards where it is closed.
fn boarded_bound(s: Stop, bound: Points) -> Points
    ensures { result.0 ≡ cond (may_board s) bound.0 0 }
{
    if store_departures::may_board(s) {
        return bound;
    }
    Points(0)
}

// One who leaves stop i, which is s, ends well below the bound; one who changes to i, or to a later departure of its
// station, below the highest there, where some may board at i.
fn note(i: usize, s: Stop, bound: Points, q: &mut [u32], leaving: &mut [u32], high: &mut [u32])
    requires { (i < length q.old) × (i < length leaving.old) × (s.station < length high.old) }
    ensures { (leaving.new ≡ set leaving.old i bound.0)
        × (high.new
        ≡ set high.old s.station
        (max (get_or high.old s.station 0) (cond (may_board s) bound.0 0)))
        × (q.new
        ≡ set q.old i
        (max (get_or high.old s.station 0) (cond (may_board s) bound.0 0)))
        × (length q.new ≡ length q.old)
        × (length leaving.new ≡ length leaving.old)
        × (length high.new ≡ length high.old) }
{
    let c = s.station as usize;
    let highest = query_minutes::larger(query_minutes::points_at(high, c), boarded_bound(s, bound));
    query_minutes::set_points(leaving, i, bound);
    query_minutes::set_points(high, c, highest);
    query_minutes::set_points(q, i, highest);
}

// The departure at place p of the order, at minute d or later, those after it having been passed.
fn pass(
    words: &[u16],
    order: &[u16],
    n: usize,
    p: usize,
    chain: &[u16],
    first: &[u32],
    catch: &[u16],
    d: usize,
    e: &[u32],
    q: &mut [u32],
    leaving: &mut [u32],
    high: &mut [u32],
)
    requires { Routes words.now order.now n catch.now
        × Departures words.now chain.now first.now
        × (p < n)
        × (d ≤ minute_at words.now order.now p)
        × (length e.now ≡ 2048)
        × (length q.old ≡ 2048)
        × (length leaving.old ≡ 2048)
        × (length high.old ≡ 65)
        × Passed words.now e.now d (drop (p + 1) (departures words.now)) q.old leaving.old high.old }
    ensures passed { Passed words.now e.now d (drop p (departures words.now))
        q.new leaving.new high.new }
    ensures q_len { (length q.new ≡ 2048)
        × (length leaving.new ≡ 2048)
        × (length high.new ≡ 65) }
{
    let i = words::word(order, p) as usize;
    let stop = timetable::stop_at(words, i);
    let bound = leave_bound(words, chain, first, catch, e, q, leaving, i, stop);
    note(i, stop, bound, q, leaving, high);
}

// The departures from place begin of the order on, all of them at minute d or later, the last first.
fn pass_all(
    words: &[u16],
    order: &[u16],
    n: usize,
    begin: usize,
    chain: &[u16],
    first: &[u32],
    catch: &[u16],
    d: usize,
    e: &[u32],
    q: &mut [u32],
    leaving: &mut [u32],
    high: &mut [u32],
)
    requires { Routes words.now order.now n catch.now
        × Departures words.now chain.now first.now
        × (begin ≤ n)
        × InTime words.now order.now d begin n
        × (length e.now ≡ 2048)
        × (length q.old ≡ 2048)
        × (length leaving.old ≡ 2048)
        × (length high.old ≡ 65)
        × Passed words.now e.now d (drop n (departures words.now)) q.old leaving.old high.old }
    ensures passed { Passed words.now e.now d (drop begin (departures words.now))
        q.new leaving.new high.new }
    ensures q_len { (length q.new ≡ 2048)
        × (length leaving.new ≡ 2048)
        × (length high.new ≡ 65) }
{
    for p in (begin..n).rev() {
        pass(
            words, order, n, p, chain, first, catch, d, e, q, leaving, high,
        );
    }
}

// For each stop that is left from minute d on: one who leaves it ends well if they have paid less than its word of
// leaving, and one who arrives and changes to it, or to a later departure of its station, if less than its word of q.
pub fn prospects(
    words: &[u16],
    order: &[u16],
    n: usize,
    chain: &[u16],
    first: &[u32],
    catch: &[u16],
    d: usize,
    e: &[u32],
    q: &mut [u32],
    leaving: &mut [u32],
)
    requires { Routes words.now order.now n catch.now
        × Departures words.now chain.now first.now
        × (length e.now ≡ 2048)
        × (length q.old ≡ 2048)
        × (length leaving.old ≡ 2048) }
    ensures limits { Limits words.now e.now d leaving.new }
    ensures bounded { Bounded words.now e.now d (catch_by words.now) q.new }
    ensures q_len { (length q.new ≡ 2048) × (length leaving.new ≡ 2048) }
{
    // Below 0 no one has paid.
    query_minutes::set_all(leaving, Points(0));
    let mut high = [0u32; 65];
    // The departures before minute d stand in front, and are left out.
    let begin = store_departures::first_from(words, order, 0, n, d);
    pass_all(
        words, order, n, begin, chain, first, catch, d, e, q, leaving, &mut high,
    );
}
