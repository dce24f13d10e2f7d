//! What is left to pay after each ride along a path, from the target back: after the last ride nothing, and then a step
//! from each ride to the one before it.
//!
//! There is a word for each minute of the two days, but only the minutes from the query's to the row's can matter, and
//! only their words are stored: all others say throughout that nothing is left.
#![tactic(auto)]

ghost use Rattle.std.specs.Prelude.{◌≡◌, true, ◌+◌, ◌-◌, ◌*◌, ◌≤◌, ◌<◌, length, get_or};
ghost use Rattle.timetable.specs.Words.{station_count, is_timetable};
ghost use Rattle.query_places.specs.Candidates.{near_read};
ghost use Rattle.query_minutes.specs.Minutes.{no_points, note_all, blank, lowered};
ghost use Rattle.query_rests.specs.Given.{Given};
ghost use Rattle.query_rests.specs.Settling.{settled_from};
ghost use Rattle.query_rests.specs.Spans.{Spans, Stored, Arrived};
ghost use Rattle.query_rests.specs.Stepping.{catches, rides_to, caught_way};
ghost use Rattle.query_rests.specs.Turns.{caught_by, gather_back, step_back};

use query_minutes::NO_POINTS;
use query_rides::{Ride, Way};
use results::{Cost, Points};

// Stores the same points for the minutes from `from` to before `to`.
fn fill(z: &mut [u32], from: usize, to: usize, points: Points)
    requires { (from ≤ to) × (to ≤ length z.old) }
    ensures stored { Stored (λ _. points.0) from to z.old z.new }
    ensures z_len_unchanged { length z.new ≡ length z.old }
{
    query_minutes::set_all(&mut z[from..to], points);
}

// What is left for one who arrives at minute m; no minute past the end is in time.
pub fn rest_at(z: &[u32], m: usize) -> Points
    ensures { result.0 ≡ get_or z.now m no_points }
{
    if m < z.len() {
        return query_minutes::points_at(z, m);
    }
    Points(NO_POINTS)
}

// Notes the sum of three numbers of points for minute m, if that is less than what stands there. The sum may be more
// than a word holds; NO_POINTS is noted for it then, as nothing that stands there is more.
fn note_sum(z: &mut [u32], m: usize, price: Points, points: Points, left: Points)
    ensures z_after { z.new ≡ lowered z.old m (price.0 + points.0 + left.0) }
    ensures z_len_unchanged { length z.new ≡ length z.old }
{
    let ridden = query_minutes::sum_held(price, points);
    let all = query_minutes::sum_held(ridden, left);
    query_minutes::note(z, m, all);
}

// Notes one ride for the latest minute in which one can arrive before it and change: what the change and the ride cost,
// and what is left after it.
fn catch_ride(z: &mut [u32], old: &[u32], ride: Ride, change: Cost)
    ensures z_after { z.new
        ≡ caught_by change.minutes.0 change.points.0 old.now z.old ride }
    ensures z_len_unchanged { length z.new ≡ length z.old }
{
    let left = rest_at(old, ride.arrive);
    let wait = change.minutes;
    let price = change.points;
    let points = ride.points;
    if query_minutes::less(left, Points(NO_POINTS)) {
        if query_minutes::has_before(ride.depart, wait) {
            let m = query_minutes::minute_before(ride.depart, wait);
            note_sum(z, m, price, points, left);
        }
    }
}

// Notes the rides from one station to the nearest place of the next that leave at the minute or later: who rides on to
// a later place of it arrives later and pays no less.
fn gather(
    lines: &[u16],
    from: usize,
    to: usize,
    minute: usize,
    change: Cost,
    old: &[u32],
    z: &mut [u32],
)
    ensures z_after { z.new
        ≡ note_all z.old
        (catches change.minutes.0 change.points.0 old.now
        (near_read lines.now from minute to)) }
    ensures z_len_unchanged { length z.new ≡ length z.old }
{
    let mut next = query_rides::begin(lines, from, to, minute);
    while let Some(c) = next {
        let ride = query_rides::tell(lines, c);
        catch_ride(z, old, ride, change);
        next = query_rides::next_nearest(lines, minute, c);
    }
}

// Who arrives earlier can wait: each minute takes the least of its own and all later ones.
fn settle(z: &mut [u32], minute: usize, v: usize)
    requires { (minute ≤ v) × (v ≤ 2879) × Spans minute v z.old }
    ensures z_after { (z.new ≡ settled_from no_points minute z.old)
        × Spans minute v z.new }
    ensures z_len_unchanged { length z.new ≡ length z.old }
{
    let mut low = Points(NO_POINTS);
    for m in (minute..v + 1).rev() {
        low = query_minutes::lesser(query_minutes::points_at(z, m), low);
        query_minutes::set_points(z, m, low);
    }
}

// Station i that a path names.
pub fn station(path: &[u16], i: usize) -> usize
    requires { i < length path.now }
    ensures { (result ≡ get_or path.now i 0) × (result < 65536) }
{
    words::word(path, i) as usize
}

// Copies what is left, to go on from it.
fn keep(old: &mut [u32], z: &[u32], minute: usize, v: usize)
    requires { (minute ≤ v) × (v ≤ 2879) × Spans minute v old.old × Spans minute v z.now }
    ensures after { old.new ≡ z.now }
    ensures len_unchanged { length old.new ≡ length old.old }
{
    old[minute..v + 1].copy_from_slice(&z[minute..v + 1]);
}

// Nothing is noted yet.
fn clear(z: &mut [u32], minute: usize, v: usize)
    requires { (minute ≤ v) × (v ≤ 2879) × Spans minute v z.old }
    ensures z_after { z.new ≡ blank }
    ensures z_len_unchanged { length z.new ≡ length z.old }
{
    fill(z, minute, v + 1, Points(NO_POINTS));
}

// Notes those rides, if there is a way of changing before them, for one who arrives at the minute or later: a ride that
// leaves before he can have changed is of no use.
fn gather_way(
    lines: &[u16],
    from: usize,
    to: usize,
    minute: usize,
    way: Way,
    old: &[u32],
    z: &mut [u32],
)
    requires { minute ≤ 2879 }
    ensures z_after { z.new
        ≡ note_all z.old
        (caught_way minute way old.now (rides_to lines.now from to)) }
    ensures z_len_unchanged { length z.new ≡ length z.old }
{
    if !way.found {
        return;
    }
    let here = way.here;
    let change = way.change;
    let cost = query_rides::cost_of(here, change);
    let wait = cost.minutes;
    let earliest = query_minutes::minute_after(minute, wait);
    gather(lines, from, to, earliest, cost, old, z);
}

// Notes all rides to the station where ride j of a path ends, by the way of changing from the station where the ride
// before it ends.
fn gather_back(
    words: &[u16],
    lines: &[u16],
    minute: usize,
    path: &[u16],
    j: usize,
    old: &[u32],
    z: &mut [u32],
)
    requires { (16384 ≤ length words.now)
        × (is_timetable words.now ≡ true)
        × (minute ≤ 2879)
        × (1 ≤ j)
        × (j < 64)
        × (2 * j < length path.now)
        × (1 ≤ get_or path.now (2 * j - 2) 0)
        × (get_or path.now (2 * j - 2) 0 ≤ station_count words.now) }
    ensures z_after { z.new
        ≡ gather_back words.now lines.now minute path.now j old.now
        z.old }
    ensures z_len_unchanged { length z.new ≡ length z.old }
{
    let alighted = station(path, 2 * j - 2);
    let from = station(path, 2 * j - 1);
    let to = station(path, 2 * j);
    let way = query_rides::way_between(words, alighted, from);
    gather_way(lines, from, to, minute, way, old, z);
}

// From what is left after ride j along a path to what is left after the one before it.
pub fn step(
    words: &[u16],
    lines: &[u16],
    minute: usize,
    path: &[u16],
    j: usize,
    v: usize,
    z: &mut [u32],
    old: &mut [u32],
)
    requires { Given words.now lines.now path.now (j + 1) v
        × (1 ≤ j)
        × (minute ≤ v)
        × Spans minute v z.old
        × Spans minute v old.old }
    ensures z_after { (z.new
        ≡ step_back words.now lines.now minute path.now j z.old)
        × Spans minute v z.new
        × Spans minute v old.new }
    ensures z_len_unchanged { (length z.new ≡ length z.old)
        × (length old.new ≡ length old.old) }
{
    keep(old, z, minute, v);
    clear(z, minute, v);
    gather_back(words, lines, minute, path, j, old, z);
    settle(z, minute, v);
}

// After the last ride nothing is left to pay, by minute v.
pub fn fill_last(z: &mut [u32], minute: usize, v: usize)
    requires { (minute ≤ v) × (v ≤ 2879) × Spans minute v z.old }
    ensures arrived { Arrived minute v z.new }
    ensures z_len_unchanged { length z.new ≡ length z.old }
{
    fill(z, minute, v + 1, Points(0));
}
