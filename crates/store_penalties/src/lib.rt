//! The least penalties on arrival at each stop, for a start at one station from one minute on: one pass over the
//! departures in their order.
#![tactic(auto)]

ghost use Rattle.std.specs.Prelude.{◌≡◌, true, ◌+◌, ◌≤◌, ◌<◌, min, length, get_or, set, take};
ghost use Rattle.timetable.specs.Words.{station_count, stop_at, walks_to, is_timetable};
ghost use Rattle.timetable.specs.Walks.{FromStation};
ghost use Rattle.connections.specs.Rides.{may_board};
ghost use Rattle.store_stops.specs.Stopwise.{unreached, station, change_points, stay, Arrival};
ghost use Rattle.store_stops.specs.OpenWays.{Open, ByWalk, WalkTo};
ghost use Rattle.store_stops.specs.Settled.{Settled};
ghost use Rattle.store_departures.specs.Order.{catch_by};
ghost use Rattle.store_departures.specs.Held.{Departures};
ghost use Rattle.store_departures.specs.Rising.{minute_at, Early, InTime};
ghost use Rattle.store_penalties.specs.Offering.{Offering};
ghost use Rattle.store_penalties.specs.Swept.{Swept, Turned};
ghost use Rattle.store_penalties.specs.Sweeping.{Blank};
ghost use Rattle.store_penalties.specs.Riding.{Departing};
ghost use Rattle.store_points.specs.Lowered.{lowered};
ghost use Rattle.store_penalties.specs.Boarding.{boarding};
ghost use Rattle.store_penalties.specs.Arranged.{Arranged, departures};

use results::Points;
use store_points::{UNREACHED, UNREACHED_WORD};
use timetable::Stop;

// All words become unreached.
fn fill(a: &mut [u32])
    requires { 2048 ≤ length a.old }
    ensures blank { Blank 2048 a.new }
    ensures a_len_unchanged { length a.new ≡ length a.old }
{
    query_minutes::set_all(a, UNREACHED);
}

// The least that one has paid who leaves a stop at station c, which is open to boarding or is not.
fn boarding(opens: bool, source: usize, c: usize, stay: Points, change: Points) -> Points
    ensures { result.0 ≡ boarding opens source c stay.0 change.0 }
{
    if !opens {
        return stay;
    }
    if c == source {
        return Points(0);
    }
    query_minutes::lesser(stay, change)
}

// Who has caught departure i, at stop s, can board at its station from now on, where a stop is open to that. Returns
// the least that one has paid who leaves at i.
fn board(s: Stop, source: usize, i: usize, v: &[u32], q: &[u32], low: &mut [u32]) -> Points
    requires { (i < length v.now) × (i < length q.now) × (s.station < length low.old) }
    ensures low_after { low.new ≡ lowered s.station (get_or q.now i 0) low.old }
    ensures result_value { result.0
        ≡ boarding
        (may_board s)
        source
        s.station
        (get_or v.now i 0)
        (get_or low.new s.station 0) }
    ensures low_len_unchanged { length low.new ≡ length low.old }
{
    let c = s.station as usize;
    store_points::lower(low, c, query_minutes::points_at(q, i));
    boarding(
        store_departures::may_board(s),
        source,
        c,
        query_minutes::points_at(v, i),
        query_minutes::points_at(low, c),
    )
}

// ---- changes of one who arrives at stop j, having paid u

// By walk k, to the departure that it catches.
fn walk(words: &[u16], chain: &[u16], first: &[u32], k: usize, j: usize, u: Points, q: &mut [u32])
    requires { (16384 ≤ length words.now)
        × (is_timetable words.now ≡ true)
        × Departures words.now chain.now first.now
        × Arrival words.now j
        × FromStation words.now (station words.now j) k
        × (u.0 ≤ unreached) }
    ensures offering { Offering
        words.now
        j
        u.0
        (ByWalk words.now k)
        q.old
        q.new }
    ensures q_len_unchanged { length q.new ≡ length q.old }
{
    let walk = timetable::walk_at(words, k);
    let f = store_catches::caught_on_foot(words, chain, first, k, j);
    store_points::lower(q, f, query_minutes::sum(u, store_points::of_walk(walk)));
}

// By each walk from station c.
fn walk_all(
    words: &[u16],
    chain: &[u16],
    first: &[u32],
    c: usize,
    j: usize,
    u: Points,
    q: &mut [u32],
)
    requires { (16384 ≤ length words.now)
        × (is_timetable words.now ≡ true)
        × Departures words.now chain.now first.now
        × (1 ≤ c)
        × (c ≤ station_count words.now)
        × Arrival words.now j
        × (station words.now j ≡ c)
        × (u.0 ≤ unreached) }
    ensures offering { Offering
        words.now
        j
        u.0
        (WalkTo words.now c (walks_to words.now c))
        q.old
        q.new }
    ensures q_len_unchanged { length q.new ≡ length q.old }
{
    let end = timetable::walks_to(words, c);
    for k in timetable::walks_to(words, c - 1)..end {
        walk(words, chain, first, k, j, u, q);
    }
}

// At station c itself, to the departure that is caught there, and by each walk from there.
fn change(
    words: &[u16],
    chain: &[u16],
    first: &[u32],
    catches: &[u16],
    c: usize,
    j: usize,
    u: Points,
    q: &mut [u32],
)
    requires { (16384 ≤ length words.now)
        × (is_timetable words.now ≡ true)
        × Departures words.now chain.now first.now
        × (1 ≤ c)
        × (c ≤ station_count words.now)
        × (j < 2048)
        × Arrival words.now j
        × (station words.now j ≡ c)
        × (change_points words.now c ≤ 1000)
        × (u.0 ≤ unreached)
        × (2048 ≤ length catches.now)
        × (get_or catches.now j 0 ≡ catch_by words.now (stay words.now c) j) }
    ensures offering { Offering
        words.now
        j
        u.0
        (Open words.now j)
        q.old
        q.new }
    ensures q_len_unchanged { length q.new ≡ length q.old }
{
    let f = words::word(catches, j) as usize;
    store_points::lower(
        q,
        f,
        query_minutes::sum(u, store_departures::change_points(first, c)),
    );
    if store_departures::has_walks(first) {
        walk_all(words, chain, first, c, j, u, q);
    }
}

// Who arrives at stop j has paid p, and can change in all ways that are open there.
fn arrive(
    words: &[u16],
    chain: &[u16],
    first: &[u32],
    catches: &[u16],
    j: usize,
    p: Points,
    v: &mut [u32],
    q: &mut [u32],
)
    requires { (16384 ≤ length words.now)
        × (is_timetable words.now ≡ true)
        × Departures words.now chain.now first.now
        × (j < 2048)
        × Arrival words.now j
        × (1 ≤ station words.now j)
        × (station words.now j ≤ station_count words.now)
        × (change_points words.now (station words.now j) ≤ 1000)
        × (2048 ≤ length catches.now)
        × (2048 ≤ length v.old)
        × (get_or catches.now j 0 ≡ catch_by words.now (stay words.now (station words.now j)) j) }
    ensures v_after { v.new ≡ set v.old j (min unreached p.0) }
    ensures offering { Offering
        words.now
        j
        (min unreached p.0)
        (Open words.now j)
        q.old
        q.new }
    ensures v_len_unchanged { (length v.new ≡ length v.old)
        × (length q.new ≡ length q.old) }
{
    let u = query_minutes::lesser(UNREACHED, p);
    query_minutes::set_points(v, j, u);
    let c = timetable::stop_at(words, j).station as usize;
    change(words, chain, first, catches, c, j, u, q);
}

// The ride that begins at stop i, which is s.
fn ride(
    words: &[u16],
    chain: &[u16],
    first: &[u32],
    catches: &[u16],
    source: usize,
    i: usize,
    s: Stop,
    v: &mut [u32],
    q: &mut [u32],
    low: &mut [u32],
)
    requires { (16384 ≤ length words.now)
        × Departures words.now chain.now first.now
        × (2048 ≤ length catches.now)
        × (2048 ≤ length v.old)
        × (2048 ≤ length q.old)
        × (length low.old ≡ 65)
        × (s ≡ stop_at words.now i)
        × Departing words.now catches.now i v.old q.old }
    ensures turned { Turned
        words.now
        source
        s.depart
        i
        v.old
        q.old
        low.old
        v.new
        q.new
        low.new }
    ensures v_len_unchanged { (length v.new ≡ length v.old)
        × (length q.new ≡ length q.old)
        × (length low.new ≡ length low.old) }
{
    let b = board(s, source, i, v, q, low);
    if query_minutes::at_least(b, UNREACHED) {
        return;
    }
    arrive(
        words,
        chain,
        first,
        catches,
        i + 1,
        store_points::after_ride(b, s),
        v,
        q,
    );
}

// The departure at place x of the order, at minute d or later.
fn turn(
    words: &[u16],
    order: &[u16],
    chain: &[u16],
    first: &[u32],
    catches: &[u16],
    source: usize,
    d: usize,
    x: usize,
    v: &mut [u32],
    q: &mut [u32],
    low: &mut [u32],
)
    requires in_bounds { (16384 ≤ length words.now) × (2048 ≤ length catches.now) }
    requires in_bounds_2 { (2048 ≤ length v.old) × (2048 ≤ length q.old) × (length low.old ≡ 65) }
    requires x_in_bounds { (x < length (departures words.now)) × Arranged words.now order.now catches.now }
    requires departures { Departures words.now chain.now first.now }
    requires d_bound { d ≤ minute_at words.now order.now x }
    requires swept { Swept words.now source d (take x (departures words.now)) v.old q.old low.old }
    ensures swept_2 { Swept
        words.now
        source
        d
        (take (x + 1) (departures words.now))
        v.new
        q.new
        low.new }
    ensures v_len_unchanged { (length v.new ≡ length v.old)
        × (length q.new ≡ length q.old)
        × (length low.new ≡ length low.old) }
{
    let i = words::word(order, x) as usize;
    let s = timetable::stop_at(words, i);
    ride(words, chain, first, catches, source, i, s, v, q, low);
}

// The departures from place begin of the order on, all of them at minute d or later. v, q and low are blank.
fn sweep(
    words: &[u16],
    order: &[u16],
    n: usize,
    begin: usize,
    chain: &[u16],
    first: &[u32],
    catches: &[u16],
    source: usize,
    d: usize,
    v: &mut [u32],
    q: &mut [u32],
    low: &mut [u32],
)
    requires in_bounds { (16384 ≤ length words.now) × (2048 ≤ length catches.now) }
    requires in_bounds_2 { (2048 ≤ length v.old) × (2048 ≤ length q.old) × (length low.old ≡ 65) }
    requires n_value { (n ≡ length (departures words.now)) × Arranged words.now order.now catches.now }
    requires departures { Departures words.now chain.now first.now }
    requires begin_le_n { (begin ≤ n)
        × Early words.now order.now d 0 begin
        × InTime words.now order.now d begin n }
    requires blank { Blank 2048 v.old × Blank 2048 q.old × Blank 65 low.old }
    ensures settled { Settled words.now source d v.new }
    ensures v_len_unchanged { (length v.new ≡ length v.old)
        × (length q.new ≡ length q.old)
        × (length low.new ≡ length low.old) }
{
    for x in begin..n {
        turn(words, order, chain, first, catches, source, d, x, v, q, low);
    }
}

// v gets the least penalties on arrival, for a start at the source from minute d on; q is working space. The first n
// words of the order are the departures, which stand in the chain by station, each station's from where first says;
// catches has for each arrival the first departure that a change at the station itself reaches.
pub fn least_penalties(
    words: &[u16],
    order: &[u16],
    n: usize,
    chain: &[u16],
    first: &[u32],
    catches: &[u16],
    source: usize,
    d: usize,
    v: &mut [u32],
    q: &mut [u32],
)
    requires in_bounds { (16384 ≤ length words.now) × (2048 ≤ length catches.now) }
    requires in_bounds_2 { (2048 ≤ length v.old) × (2048 ≤ length q.old) }
    requires n_value { (n ≡ length (departures words.now)) × Arranged words.now order.now catches.now }
    requires departures { Departures words.now chain.now first.now }
    ensures settled { Settled words.now source d v.new }
    ensures v_len_unchanged { (length v.new ≡ length v.old)
        × (length q.new ≡ length q.old) }
{
    fill(v);
    fill(q);
    let mut low = [UNREACHED_WORD; 65];
    // Before minute d there is no one: those departures stand in front, and are left out.
    let begin = store_departures::first_from(words, order, 0, n, d);
    sweep(
        words, order, n, begin, chain, first, catches, source, d, v, q, &mut low,
    );
}
