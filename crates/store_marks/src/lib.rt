//! The labels of a node, for one minute: for each departure of the station that the node boards at the least that
//! riders along the node's changes have paid who can board there. And the node's marks: the stations where such riders
//! end well, and the changes after which they can still end well.
#![tactic(auto)]

ghost use Rattle.std.specs.Prelude.{◌≡◌, true, [], ◌-◌, ◌≤◌, ◌<◌, ltb, length, get_or};
ghost use Rattle.std.proofs.Math.Seq.{slice};
ghost use Rattle.timetable.specs.Words.{station_count, walk_at, stop_at, is_timetable};
ghost use Rattle.timetable.specs.Walks.{FromStation};
ghost use Rattle.connections.specs.Connections.{on_foot};
ghost use Rattle.store_stops.specs.Stopwise.{station, stay, unreached, Goes, Arrival};
ghost use Rattle.store_stops.specs.Paid.{Labelled};
ghost use Rattle.store_slots.specs.Slots.{here_slot, walk_slot, walks_from};
ghost use Rattle.store_departures.specs.Order.{waiting, catch_by};
ghost use Rattle.store_departures.specs.Held.{Priced, Departures};
ghost use Rattle.store_marks.specs.Arrays.{fill, fall, raised};
ghost use Rattle.store_marks.specs.Riding.{
  comes_back,
  label_at,
  onward_points,
  visit,
  visits,
  boarding,
  run,
  root_label,
  offer as offerOf,
  rides,
  rides_by,
  staying,
  stays,
  foots,
  raise_try,
  raise_all,
  change_try,
  walk_tries,
  flag_arc,
  flag_kids,
};
ghost use Rattle.store_marks.specs.Held.{Changes, Inside, Way};
ghost use Rattle.store_marks.specs.Ways.{RidesBetween};
ghost use Rattle.store_marks.specs.Stepping.{pair, Leads, Onward, Keeps, Steps, Stepped};
ghost use Rattle.store_marks.specs.Marking.{ArcsMarked, KidsMarked};

use results::Points;
use store_points::UNREACHED;
use timetable::{Stop, Walk};

// More than any ride from a stop to the next costs.
const NO_MORE: Points = Points(101);

// ---- the labels of the root

// The label of stop g, at the source.
fn root_label(words: &[u16], g: usize, d: usize) -> Points
    requires { (16384 ≤ length words.now) × (is_timetable words.now ≡ true) × (g < 2048) }
    ensures { result.0 ≡ root_label words.now d g }
{
    if (timetable::stop_at(words, g).depart as usize) < d {
        return UNREACHED;
    }
    Points(0)
}

// The labels of the source, where riders start from minute d on; those of other stations stay.
pub fn label_root(
    words: &[u16],
    chain: &[u16],
    first: &[u32],
    source: usize,
    d: usize,
    x: &mut [u32],
)
    requires in_bounds { (16384 ≤ length words.now) × (is_timetable words.now ≡ true) }
    requires departures { Departures words.now chain.now first.now }
    requires source_bound { (source ≤ station_count words.now) × (length x.old ≡ 2048) }
    ensures labelled { Labelled words.now source d [] source x.new }
    ensures keeps { Keeps words.now source x.old x.new }
    ensures x_len { length x.new ≡ 2048 }
{
    let begin = store_departures::index_at(first, source);
    let end = store_departures::index_at(first, source + 1);
    for k in begin..end {
        let g = words::word(chain, k) as usize;
        query_minutes::set_points(x, g, root_label(words, g, d));
    }
}

// ---- the labels of a kid

// No departure at places begin up to end is reached.
fn clear(chain: &[u16], begin: usize, end: usize, x: &mut [u32])
    requires { (begin ≤ end) × (end ≤ length chain.now) × Inside chain.now begin end x.old }
    ensures x_after { x.new ≡ fill (λ g. unreached) (slice begin end chain.now) x.old }
    ensures x_len_unchanged { length x.new ≡ length x.old }
{
    for k in begin..end {
        let g = words::word(chain, k) as usize;
        query_minutes::set_points(x, g, UNREACHED);
    }
}

// The change at station y itself.
fn own_way(words: &[u16], y: usize) -> Walk
    requires in_bounds { (16384 ≤ length words.now) × (is_timetable words.now ≡ true) }
    requires le_y { (1 ≤ y) × (y ≤ station_count words.now) }
    ensures { result ≡ staying words.now y }
{
    let s = timetable::stay_at(words, y);
    Walk {
        from: y as u32,
        to: y as u32,
        minutes: s.minutes,
        points: s.points,
    }
}

// The departure that a way of changing reaches after the arrival at stop j; for a change at the station itself it
// stands in catch.
fn caught_at(
    words: &[u16],
    chain: &[u16],
    first: &[u32],
    catch: &[u16],
    own: bool,
    way: Walk,
    j: usize,
) -> usize
    requires in_bounds { (16384 ≤ length words.now) × (is_timetable words.now ≡ true) }
    requires departures { Departures words.now chain.now first.now × Changes words.now catch.now }
    requires way { Way words.now own way × Arrival words.now j × (station words.now j ≡ way.from) }
    ensures { result ≡ catch_by words.now (on_foot way) j }
{
    if own {
        return words::word(catch, j) as usize;
    }
    store_catches::seek_by_walk(words, chain, first, way, j) as usize
}

// One who arrives at stop j, at station b, having paid y, can change there, if that is where the way begins.
fn offer(
    words: &[u16],
    chain: &[u16],
    first: &[u32],
    catch: &[u16],
    own: bool,
    way: Walk,
    b: usize,
    j: usize,
    y: Points,
    x: &mut [u32],
)
    requires in_bounds { (16384 ≤ length words.now) × (is_timetable words.now ≡ true) }
    requires departures { Departures words.now chain.now first.now × Changes words.now catch.now }
    requires way { Way words.now own way × Arrival words.now j × (b ≡ station words.now j) }
    requires y_bound { y.0 < 4000000 }
    ensures x_after { x.new ≡ offerOf words.now (on_foot way) (visit j y.0) x.old }
    ensures x_len_unchanged { length x.new ≡ length x.old }
{
    if b == way.from as usize {
        let g = caught_at(words, chain, first, catch, own, way, j);
        store_points::lower(x, g, query_minutes::sum(y, store_points::of_walk(way)));
    }
}

// Whether the trip comes back at a stop to station c, where one can board again.
fn comes_back(s: Stop, c: usize) -> bool
    ensures { result ≡ comes_back s c }
{
    if s.station as usize == c {
        return store_departures::may_board(s);
    }
    false
}

// The points of the ride onward from a stop, for one who boarded at station c; NO_MORE where the trip ends or comes
// back to c.
fn onward(s: Stop, c: usize) -> Points
    ensures { result.0 ≡ onward_points s c }
{
    if s.depart == 0 {
        return NO_MORE;
    }
    if comes_back(s, c) {
        return NO_MORE;
    }
    store_points::of_ride(s)
}

// One who boarded at station c arrives at stop j, having paid y, and can change so. Returns the points of the ride
// onward.
fn ride_turn(
    words: &[u16],
    chain: &[u16],
    first: &[u32],
    catch: &[u16],
    own: bool,
    way: Walk,
    c: usize,
    j: usize,
    y: Points,
    x: &mut [u32],
) -> Points
    requires in_bounds { (16384 ≤ length words.now) × (is_timetable words.now ≡ true) }
    requires departures { Departures words.now chain.now first.now × Changes words.now catch.now }
    requires way { Way words.now own way × Arrival words.now j × (y.0 < 4000000) }
    requires x_len { length x.old ≡ 2048 }
    ensures x_after { x.new ≡ offerOf words.now (on_foot way) (visit j y.0) x.old }
    ensures result_value { result.0 ≡ onward_points (stop_at words.now j) c }
    ensures x_len_2 { length x.new ≡ 2048 }
{
    let s = timetable::stop_at(words, j);
    offer(
        words,
        chain,
        first,
        catch,
        own,
        way,
        s.station as usize,
        j,
        y,
        x,
    );
    onward(s, c)
}

// One who boards at stop i, at station c, having paid so much, rides on until the trip ends or comes back to c, and can
// change so on the way.
fn ride_on(
    words: &[u16],
    chain: &[u16],
    first: &[u32],
    catch: &[u16],
    own: bool,
    way: Walk,
    c: usize,
    i: usize,
    paid: Points,
    x: &mut [u32],
)
    requires in_bounds { (16384 ≤ length words.now) × (is_timetable words.now ≡ true) }
    requires departures { Departures words.now chain.now first.now × Changes words.now catch.now }
    requires way { Way words.now own way × Goes words.now i × (i < 2048) × (paid.0 < unreached) }
    requires x_len { length x.old ≡ 2048 }
    ensures x_after { x.new
        ≡ run (offerOf words.now (on_foot way))
        (visits words.now c (2048 - i) i paid.0) x.old }
    ensures x_len_2 { length x.new ≡ 2048 }
{
    let mut y = paid;
    let mut ride = store_points::of_ride(timetable::stop_at(words, i));
    let mut j = i;
    // Stays: the marks and stations of the trip's stops tell where the ride ends, which no range knows before.
    loop {
        y = query_minutes::sum(y, ride);
        j += 1;
        ride = ride_turn(words, chain, first, catch, own, way, c, j, y, x);
        if query_minutes::same(ride, NO_MORE) {
            return;
        }
    }
}

// What one has paid who boards at stop i, with labels x; no one boards where it is closed. Most stops are not reached,
// and of these nothing is read.
fn label_at(words: &[u16], x: &[u32], i: usize) -> Points
    requires in_bounds { (16384 ≤ length words.now) × (is_timetable words.now ≡ true) }
    requires i_bound { (i < 2048) × (length x.now ≡ 2048) }
    ensures { result.0 ≡ label_at words.now x.now i }
{
    let label = query_minutes::points_at(x, i);
    if query_minutes::at_least(label, UNREACHED) {
        return UNREACHED;
    }
    if store_departures::may_board(timetable::stop_at(words, i)) {
        return label;
    }
    UNREACHED
}

// Who can board at stop i, at station c, rides on and can change so.
fn ride_to(
    words: &[u16],
    chain: &[u16],
    first: &[u32],
    catch: &[u16],
    own: bool,
    way: Walk,
    c: usize,
    i: usize,
    x: &mut [u32],
)
    requires in_bounds { (16384 ≤ length words.now) × (is_timetable words.now ≡ true) }
    requires departures { Departures words.now chain.now first.now × Changes words.now catch.now }
    requires way { Way words.now own way × Goes words.now i × (i < 2048) }
    requires x_len { length x.old ≡ 2048 }
    ensures x_after { x.new
        ≡ run (offerOf words.now (on_foot way))
        (boarding words.now c x.old i) x.old }
    ensures x_len_2 { length x.new ≡ 2048 }
{
    let paid = label_at(words, x, i);
    if query_minutes::at_least(paid, UNREACHED) {
        return;
    }
    ride_on(words, chain, first, catch, own, way, c, i, paid, x);
}

// All who board at station c.
fn ride_all(
    words: &[u16],
    chain: &[u16],
    first: &[u32],
    catch: &[u16],
    own: bool,
    way: Walk,
    c: usize,
    x: &mut [u32],
)
    requires in_bounds { (16384 ≤ length words.now) × (is_timetable words.now ≡ true) }
    requires departures { Departures words.now chain.now first.now × Changes words.now catch.now }
    requires way { Way words.now own way × (c ≤ station_count words.now) }
    requires x_len { length x.old ≡ 2048 }
    ensures x_after { x.new
        ≡ rides words.now c (on_foot way) (waiting words.now c) x.old }
    ensures x_len_2 { length x.new ≡ 2048 }
{
    let begin = store_departures::index_at(first, c);
    let end = store_departures::index_at(first, c + 1);
    for k in begin..end {
        let i = words::word(chain, k) as usize;
        ride_to(words, chain, first, catch, own, way, c, i, x);
    }
}

// All who board at station c and change at station y itself, if one boards there again.
fn ride_own(
    words: &[u16],
    chain: &[u16],
    first: &[u32],
    catch: &[u16],
    c: usize,
    y: usize,
    e: usize,
    x: &mut [u32],
)
    requires in_bounds { (16384 ≤ length words.now) × (is_timetable words.now ≡ true) }
    requires departures { Departures words.now chain.now first.now × Changes words.now catch.now }
    requires c_bound { (c ≤ station_count words.now) × (1 ≤ y) × (y ≤ station_count words.now) }
    requires x_len { length x.old ≡ 2048 }
    ensures x_after { x.new
        ≡ rides_by words.now c (stays words.now y e) x.old }
    ensures x_len_2 { length x.new ≡ 2048 }
{
    if y == e {
        ride_all(words, chain, first, catch, true, own_way(words, y), c, x);
    }
}

// All who board at station c and change by walk k, if it is one of those from station y.
fn ride_walk(
    words: &[u16],
    chain: &[u16],
    first: &[u32],
    catch: &[u16],
    c: usize,
    y: usize,
    k: usize,
    x: &mut [u32],
)
    requires in_bounds { (16384 ≤ length words.now) × (is_timetable words.now ≡ true) }
    requires departures { Departures words.now chain.now first.now × Changes words.now catch.now }
    requires c_bound { (c ≤ station_count words.now) × (1 ≤ y) × (y ≤ station_count words.now) }
    requires x_len { length x.old ≡ 2048 }
    ensures x_after { x.new
        ≡ rides_by words.now c (foots words.now y k) x.old }
    ensures x_len_2 { length x.new ≡ 2048 }
{
    if k < timetable::walks_to(words, y) {
        ride_all(
            words,
            chain,
            first,
            catch,
            false,
            timetable::walk_at(words, k),
            c,
            x,
        );
    }
}

// All who board at station c and change from station y to station e, in every way.
fn ride_ways(
    words: &[u16],
    chain: &[u16],
    first: &[u32],
    catch: &[u16],
    c: usize,
    y: usize,
    e: usize,
    x: &mut [u32],
)
    requires in_bounds { (16384 ≤ length words.now) × (is_timetable words.now ≡ true) }
    requires departures { Departures words.now chain.now first.now × Changes words.now catch.now }
    requires c_bound { (c ≤ station_count words.now) × (1 ≤ y) × (y ≤ station_count words.now) }
    requires x_len { length x.old ≡ 2048 }
    ensures rides_between { RidesBetween words.now c y e x.old x.new }
    ensures x_len_2 { length x.new ≡ 2048 }
{
    let k = timetable::walk_to(words, y, e);
    ride_own(words, chain, first, catch, c, y, e, x);
    ride_walk(words, chain, first, catch, c, y, k, x);
}

// Who can board at one of the places begin up to end can board at those after it.
fn settle(chain: &[u16], begin: usize, end: usize, x: &mut [u32])
    requires { (begin ≤ end) × (end ≤ length chain.now) × Inside chain.now begin end x.old }
    ensures x_after { x.new ≡ fall unreached (slice begin end chain.now) x.old }
    ensures x_len_unchanged { length x.new ≡ length x.old }
{
    let mut low = UNREACHED;
    for k in begin..end {
        let g = words::word(chain, k) as usize;
        low = query_minutes::lesser(low, query_minutes::points_at(x, g));
        query_minutes::set_points(x, g, low);
    }
}

// From the labels at station c to those at station e, behind one change more, from station y to e; those of other
// stations stay.
fn step_between(
    words: &[u16],
    chain: &[u16],
    first: &[u32],
    catch: &[u16],
    c: usize,
    y: usize,
    e: usize,
    x: &mut [u32],
)
    requires leads { Leads words.now c y e × (length x.old ≡ 2048) }
    requires in_bounds { (16384 ≤ length words.now) × (is_timetable words.now ≡ true) }
    requires departures { Departures words.now chain.now first.now × Changes words.now catch.now }
    requires c_bound { c ≤ station_count words.now }
    ensures steps { Steps words.now c (pair y e) x.old x.new }
    ensures x_len { length x.new ≡ 2048 }
{
    let begin = store_departures::index_at(first, e);
    let end = store_departures::index_at(first, e + 1);
    clear(chain, begin, end, x);
    ride_ways(words, chain, first, catch, c, y, e, x);
    settle(chain, begin, end, x);
}

// From the labels at station c to those behind one change more, that of the slot; those of other stations than the one
// where one boards then stay. Returns that station.
pub fn label_step(
    words: &[u16],
    chain: &[u16],
    first: &[u32],
    catch: &[u16],
    c: usize,
    slot: usize,
    x: &mut [u32],
) -> usize
    requires in_bounds { (16384 ≤ length words.now) × (is_timetable words.now ≡ true) }
    requires departures { Departures words.now chain.now first.now × Changes words.now catch.now }
    requires c_bound { (c ≤ station_count words.now) × Onward words.now c slot }
    requires x_len { length x.old ≡ 2048 }
    ensures stepped { Stepped words.now c slot result x.old x.new }
    ensures upper_bound { (result ≤ station_count words.now) × (length x.new ≡ 2048) }
{
    let t = store_slots::transfer_at(words, slot);
    let e = t.boarded as usize;
    step_between(words, chain, first, catch, c, t.alighted as usize, e, x);
    e
}

// ---- the marks of a node

// Raises the flag at place k if less than the bound was paid.
fn raise(flags: &mut [u8], k: usize, paid: Points, bound: Points)
    requires { k < length flags.old }
    ensures flags_after { flags.new ≡ raised (ltb paid.0 bound.0) k flags.old }
    ensures flags_len_unchanged { length flags.new ≡ length flags.old }
{
    if query_minutes::less(paid, bound) {
        flags[k] = 1;
    }
}

// The points at place f, or 0 past the end.
fn peek(q: &[u32], f: usize) -> Points
    ensures { result.0 ≡ get_or q.now f 0 }
{
    if f < q.len() {
        return query_minutes::points_at(q, f);
    }
    Points(0)
}

// One who arrives at stop j, at station b, having paid y, changes at the station itself.
fn mark_own(
    words: &[u16],
    first: &[u32],
    catch: &[u16],
    q: &[u32],
    b: usize,
    j: usize,
    y: Points,
    kids: &mut [u8],
)
    requires words_value { (is_timetable words.now ≡ true)
        × (length first.now ≡ 132)
        × Priced words.now first.now
        × Changes words.now catch.now
        × Arrival words.now j
        × (b ≡ station words.now j) }
    requires y_bound { (y.0 < 4000000) × (length kids.old ≡ 320) }
    ensures kids_after { kids.new
        ≡ raise_try (change_try words.now q.now (visit j y.0)
        (stay words.now (station words.now j)) (here_slot (station words.now j)))
        kids.old }
    ensures kids_len_unchanged { length kids.new ≡ length kids.old }
{
    let paid = query_minutes::sum(y, store_departures::change_points(first, b));
    raise(kids, b - 1, paid, peek(q, words::word(catch, j) as usize));
}

// One who arrives at stop j, having paid y, changes by walk k.
fn mark_walk(
    words: &[u16],
    chain: &[u16],
    first: &[u32],
    q: &[u32],
    k: usize,
    j: usize,
    y: Points,
    kids: &mut [u8],
)
    requires in_bounds { (16384 ≤ length words.now) × (is_timetable words.now ≡ true) }
    requires departures { Departures words.now chain.now first.now × Arrival words.now j }
    requires from_station { FromStation words.now (station words.now j) k × (y.0 < 4000000) × (length kids.old ≡ 320) }
    ensures kids_after { kids.new
        ≡ raise_try (change_try words.now q.now (visit j y.0)
        (on_foot (walk_at words.now k)) (walk_slot words.now k)) kids.old }
    ensures kids_len_unchanged { length kids.new ≡ length kids.old }
{
    let walk = timetable::walk_at(words, k);
    let g = store_catches::caught_on_foot(words, chain, first, k, j);
    let paid = query_minutes::sum(y, store_points::of_walk(walk));
    raise(kids, store_slots::walk_slot(words, k), paid, peek(q, g));
}

// And by each walk from station b.
fn mark_walks(
    words: &[u16],
    chain: &[u16],
    first: &[u32],
    q: &[u32],
    b: usize,
    j: usize,
    y: Points,
    kids: &mut [u8],
)
    requires in_bounds { (16384 ≤ length words.now) × (is_timetable words.now ≡ true) }
    requires departures { Departures words.now chain.now first.now × Arrival words.now j }
    requires b_value { (b ≡ station words.now j) × (y.0 < 4000000) × (length kids.old ≡ 320) }
    ensures kids_after { kids.new
        ≡ raise_all (walk_tries words.now q.now (visit j y.0)
        (walks_from words.now b)) kids.old }
    ensures kids_len { length kids.new ≡ 320 }
{
    let begin = timetable::walks_to(words, b - 1);
    let end = timetable::walks_to(words, b);
    for k in begin..end {
        mark_walk(words, chain, first, q, k, j, y, kids);
    }
}

// One who arrives at stop j, at station b, having paid y, changes in every way. Where there are no walks at all, none
// is looked for.
fn mark_changes(
    words: &[u16],
    chain: &[u16],
    first: &[u32],
    catch: &[u16],
    q: &[u32],
    b: usize,
    j: usize,
    y: Points,
    kids: &mut [u8],
)
    requires in_bounds { (16384 ≤ length words.now) × (is_timetable words.now ≡ true) }
    requires departures { Departures words.now chain.now first.now × Changes words.now catch.now }
    requires arrival { Arrival words.now j × (b ≡ station words.now j) }
    requires y_bound { (y.0 < 4000000) × (length kids.old ≡ 320) }
    ensures kids_after { kids.new
        ≡ flag_kids words.now q.now (visit j y.0) kids.old }
    ensures kids_len { length kids.new ≡ 320 }
{
    mark_own(words, first, catch, q, b, j, y, kids);
    if store_departures::has_walks(first) {
        mark_walks(words, chain, first, q, b, j, y, kids);
    }
}

// One who arrives at stop j, at station b, having paid y, stays there.
fn mark_end(words: &[u16], allowed: &[u32], b: usize, j: usize, y: Points, arcs: &mut [u8])
    requires words_value { (is_timetable words.now ≡ true) × Arrival words.now j × (b ≡ station words.now j) }
    requires allowed_len { (length allowed.now ≡ 2048) × (length arcs.old ≡ 64) }
    ensures arcs_after { arcs.new
        ≡ flag_arc words.now allowed.now (visit j y.0) arcs.old }
    ensures arcs_len { length arcs.new ≡ 64 }
{
    raise(arcs, b - 1, y, query_minutes::points_at(allowed, j));
}

// The arrival at stop j, at station b, of one who has paid y.
fn mark_arrival(
    words: &[u16],
    chain: &[u16],
    first: &[u32],
    catch: &[u16],
    allowed: &[u32],
    q: &[u32],
    b: usize,
    j: usize,
    y: Points,
    arcs: &mut [u8],
    kids: &mut [u8],
)
    requires in_bounds { (16384 ≤ length words.now) × (is_timetable words.now ≡ true) }
    requires departures { Departures words.now chain.now first.now × Changes words.now catch.now }
    requires allowed_len { length allowed.now ≡ 2048 }
    requires arrival { Arrival words.now j × (b ≡ station words.now j) × (y.0 < 4000000) }
    requires arcs_len { (length arcs.old ≡ 64) × (length kids.old ≡ 320) }
    ensures arcs_after { arcs.new
        ≡ flag_arc words.now allowed.now (visit j y.0) arcs.old }
    ensures kids_after { kids.new
        ≡ flag_kids words.now q.now (visit j y.0) kids.old }
    ensures arcs_len_2 { (length arcs.new ≡ 64) × (length kids.new ≡ 320) }
{
    mark_end(words, allowed, b, j, y, arcs);
    mark_changes(words, chain, first, catch, q, b, j, y, kids);
}

// One who boarded at station c arrives at stop j, having paid y. Returns the points of the ride onward.
fn mark_turn(
    words: &[u16],
    chain: &[u16],
    first: &[u32],
    catch: &[u16],
    allowed: &[u32],
    q: &[u32],
    c: usize,
    j: usize,
    y: Points,
    arcs: &mut [u8],
    kids: &mut [u8],
) -> Points
    requires in_bounds { (16384 ≤ length words.now) × (is_timetable words.now ≡ true) }
    requires departures { Departures words.now chain.now first.now × Changes words.now catch.now }
    requires allowed_len { length allowed.now ≡ 2048 }
    requires arrival { Arrival words.now j × (y.0 < 4000000) }
    requires arcs_len { (length arcs.old ≡ 64) × (length kids.old ≡ 320) }
    ensures arcs_after { arcs.new
        ≡ flag_arc words.now allowed.now (visit j y.0) arcs.old }
    ensures kids_after { kids.new
        ≡ flag_kids words.now q.now (visit j y.0) kids.old }
    ensures result_value { result.0 ≡ onward_points (stop_at words.now j) c }
    ensures arcs_len_2 { (length arcs.new ≡ 64) × (length kids.new ≡ 320) }
{
    let s = timetable::stop_at(words, j);
    mark_arrival(
        words,
        chain,
        first,
        catch,
        allowed,
        q,
        s.station as usize,
        j,
        y,
        arcs,
        kids,
    );
    onward(s, c)
}

// One who boards at stop i, at station c, having paid so much, rides on until the trip ends or comes back to c.
fn mark_on(
    words: &[u16],
    chain: &[u16],
    first: &[u32],
    catch: &[u16],
    allowed: &[u32],
    q: &[u32],
    c: usize,
    i: usize,
    paid: Points,
    arcs: &mut [u8],
    kids: &mut [u8],
)
    requires in_bounds { (16384 ≤ length words.now) × (is_timetable words.now ≡ true) }
    requires departures { Departures words.now chain.now first.now × Changes words.now catch.now }
    requires allowed_len { length allowed.now ≡ 2048 }
    requires goes { Goes words.now i × (i < 2048) × (paid.0 < unreached) }
    requires arcs_len { (length arcs.old ≡ 64) × (length kids.old ≡ 320) }
    ensures arcs_after { arcs.new
        ≡ run (flag_arc words.now allowed.now)
        (visits words.now c (2048 - i) i paid.0) arcs.old }
    ensures kids_after { kids.new
        ≡ run (flag_kids words.now q.now)
        (visits words.now c (2048 - i) i paid.0) kids.old }
    ensures arcs_len_2 { (length arcs.new ≡ 64) × (length kids.new ≡ 320) }
{
    let mut y = paid;
    let mut ride = store_points::of_ride(timetable::stop_at(words, i));
    let mut j = i;
    // Stays: the marks and stations of the trip's stops tell where the ride ends, which no range knows before.
    loop {
        y = query_minutes::sum(y, ride);
        j += 1;
        ride = mark_turn(words, chain, first, catch, allowed, q, c, j, y, arcs, kids);
        if query_minutes::same(ride, NO_MORE) {
            return;
        }
    }
}

// Who can board at stop i, at station c, with labels x, rides on.
fn mark_ride(
    words: &[u16],
    chain: &[u16],
    first: &[u32],
    catch: &[u16],
    allowed: &[u32],
    q: &[u32],
    x: &[u32],
    c: usize,
    i: usize,
    arcs: &mut [u8],
    kids: &mut [u8],
)
    requires in_bounds { (16384 ≤ length words.now) × (is_timetable words.now ≡ true) }
    requires departures { Departures words.now chain.now first.now × Changes words.now catch.now }
    requires allowed_len { length allowed.now ≡ 2048 }
    requires goes { Goes words.now i × (i < 2048) × (length x.now ≡ 2048) }
    requires arcs_len { (length arcs.old ≡ 64) × (length kids.old ≡ 320) }
    ensures arcs_after { arcs.new
        ≡ run (flag_arc words.now allowed.now)
        (boarding words.now c x.now i) arcs.old }
    ensures kids_after { kids.new
        ≡ run (flag_kids words.now q.now)
        (boarding words.now c x.now i) kids.old }
    ensures arcs_len_2 { (length arcs.new ≡ 64) × (length kids.new ≡ 320) }
{
    let paid = label_at(words, x, i);
    if query_minutes::at_least(paid, UNREACHED) {
        return;
    }
    mark_on(
        words, chain, first, catch, allowed, q, c, i, paid, arcs, kids,
    );
}

// Raises in arcs the flag of each station where a rider who boards at station c, with labels x, ends well, and in kids
// that of each change after which such a rider can still end well, by its slot.
pub fn mark(
    words: &[u16],
    chain: &[u16],
    first: &[u32],
    catch: &[u16],
    allowed: &[u32],
    q: &[u32],
    x: &[u32],
    c: usize,
    arcs: &mut [u8],
    kids: &mut [u8],
)
    requires in_bounds { (16384 ≤ length words.now) × (is_timetable words.now ≡ true) }
    requires departures { Departures words.now chain.now first.now × Changes words.now catch.now }
    requires allowed_len { (length allowed.now ≡ 2048) × (length q.now ≡ 2048) × (length x.now ≡ 2048) }
    requires c_bound { (c ≤ station_count words.now) × (length arcs.old ≡ 64) × (length kids.old ≡ 320) }
    ensures arcs_marked { ArcsMarked words.now c x.now allowed.now
        arcs.old arcs.new }
    ensures kids_marked { KidsMarked words.now c x.now allowed.now
        q.now kids.old kids.new }
    ensures arcs_len { (length arcs.new ≡ 64) × (length kids.new ≡ 320) }
{
    let begin = store_departures::index_at(first, c);
    let end = store_departures::index_at(first, c + 1);
    for k in begin..end {
        let i = words::word(chain, k) as usize;
        mark_ride(words, chain, first, catch, allowed, q, x, c, i, arcs, kids);
    }
}
