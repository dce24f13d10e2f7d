// The ride to take next along a path: of those to which one can change, and after which all that is left can be paid,
// the one that comes first. It is written.
ghost use Rattle.std.specs.Prelude.{◌≡◌, [], ◌∷◌, cond, ◌+◌, ◌*◌, ◌≤◌, ◌<◌, length};
ghost use Rattle.words.specs.Put.{put};
ghost use Rattle.lines_lookup.specs.Calls.{Within};
ghost use Rattle.query_places.specs.Candidates.{near_read};
ghost use Rattle.query_places.specs.Places.{reach_at};
ghost use Rattle.query_places.specs.Turns.{trips_from};
ghost use Rattle.query_rides.specs.Ways.{cost_of};
ghost use Rattle.query_shown.specs.Prices.{step_price, front_price};
ghost use Rattle.query_rests.specs.Given.{Given};
ghost use Rattle.query_rests.specs.Rests.{RestsAt};
ghost use Rattle.query_shown.specs.Heads.{lateness, head_of};
ghost use Rattle.query_shown.specs.OnTheWay.{boarded_at, Standing, Moved, Rode};
ghost use Rattle.query_rests.specs.Turns.{tells_of};
ghost use Rattle.query_shown.specs.Turns.{numbers_before, comes_before, tried, tried_onto, tried_all, call_rides};
ghost use Rattle.query_shown.specs.Turns.{Sized};

use crate::{At, Next, Step};
use lines_lookup::Boarding;
use query_layers::Sought;
use query_minutes::NO_POINTS;
use query_places::Place;
use query_rides::{Ride, Way};
use results::{Cost, Minutes, Points};

// The last minute in which a trip may arrive.
const LAST_MINUTE: usize = 2879;

// The trip of no ride: every trip has a lower number.
// Stays: every ride comes before one of this number, so that each is compared alike; an Option would need a case more.
const NO_TRIP: usize = 65536;

// By how much a ride leaves before the last minute, where that counts.
fn lateness(first: bool, depart: usize) -> Minutes
    ensures { result.0 ≡ lateness first depart }
{
    if first {
        return query_minutes::minutes_between(depart, LAST_MINUTE);
    }
    Minutes(0)
}

// Whether the numbers of ride g come before those of ride f.
fn numbers_before(g: Ride, f: Ride) -> bool
    ensures { result ≡ numbers_before g f }
{
    if g.trip < f.trip {
        return true;
    }
    if f.trip < g.trip {
        return false;
    }
    if g.board < f.board {
        return true;
    }
    if f.board < g.board {
        return false;
    }
    g.alight < f.alight
}

// Whether ride g comes before ride f.
fn goes_before(first: bool, g: Ride, f: Ride) -> bool
    ensures { result ≡ comes_before first g f }
{
    let a = lateness(first, g.depart);
    let b = lateness(first, f.depart);
    if query_minutes::shorter(a, b) {
        return true;
    }
    if query_minutes::shorter(b, a) {
        return false;
    }
    numbers_before(g, f)
}

// What the change of a step costs for one who arrived at a minute, where one at the station itself takes and costs so
// much; NO_POINTS if it is not in time.
fn price_of(here: Cost, arrive: usize, step: Step) -> Points
    requires { arrive ≤ 65536 }
    ensures { result.0 ≡ step_price (cost_of here step.change) arrive step.ride.depart }
{
    let change = step.change;
    let cost = query_rides::cost_of(here, change);
    let wait = cost.minutes;
    if step.ride.depart < query_minutes::minute_after(arrive, wait) {
        return Points(NO_POINTS);
    }
    cost.points
}

// What one pays in front of a ride: NO_POINTS if one cannot change to it. No change stands in front of the first.
fn front_price(first: bool, way: Way, arrive: usize, ride: Ride) -> Points
    requires { arrive ≤ 65536 }
    ensures { result.0 ≡ front_price first way arrive ride.depart }
{
    if first {
        return Points(0);
    }
    if !way.found {
        return Points(NO_POINTS);
    }
    let here = way.here;
    let change = way.change;
    let step = Step { change, ride };
    price_of(here, arrive, step)
}

// One ride more: taken if something is left after it that can be paid, and it comes before the best so far.
fn try_ride(first: bool, z: &[u32], left: Points, best: Ride, ride: Ride) -> Ride
    requires { Sized best × Sized ride }
    ensures { (result ≡ tried first z.now left.0 best ride) × Sized result }
{
    let rest = query_rests::rest_at(z, ride.arrive);
    if !query_minutes::less(rest, Points(NO_POINTS)) {
        return best;
    }
    let points = ride.points;
    if query_minutes::less(left, points) {
        return best;
    }
    if query_minutes::less(query_minutes::left_of(left, points), rest) {
        return best;
    }
    if goes_before(first, ride, best) {
        return ride;
    }
    best
}

// The same where one pays a price in front of the ride.
fn try_onto(first: bool, z: &[u32], left: Points, price: Points, best: Ride, ride: Ride) -> Ride
    requires { Sized best × Sized ride }
    ensures { (result ≡ tried_onto first z.now left.0 price.0 best ride) × Sized result }
{
    if !query_minutes::less(price, Points(NO_POINTS)) {
        return best;
    }
    if query_minutes::less(left, price) {
        return best;
    }
    let over = query_minutes::left_of(left, price);
    try_ride(first, z, over, best, ride)
}

// The choice once the rides to a place are tried too, on the trips of the line that is boarded from one on.
fn choose_trips(
    lines: &[u16],
    g: Boarding,
    to: Place,
    start: usize,
    at: At,
    first: bool,
    way: Way,
    z: &[u32],
    old: Ride,
) -> Ride
    requires { Within lines.now g
        × (to.place < 65536)
        × (start ≤ g.line.trips)
        × (at.arrive ≤ 65536)
        × Sized old }
    ensures { (result
        ≡ tried_all first (front_price first way at.arrive) z.now at.left.0 old
        (trips_from lines.now g.line g.call.place start (reach_at to)))
        × Sized result }
{
    let left = at.left;
    let mut best = old;
    for j in start..g.line.trips {
        let ride = query_rides::ride_at(lines, g, to, j);
        let price = front_price(first, way, at.arrive, ride);
        best = try_onto(first, z, left, price, best, ride);
    }
    best
}

// The choice once the rides from one call are tried too. Of the rides from one stop of a trip the one to the nearest
// place comes first, arrives first and costs no more: the others are not looked at.
fn choose_call(
    lines: &[u16],
    g: Boarding,
    at: At,
    first: bool,
    way: Way,
    z: &[u32],
    best: Ride,
) -> Ride
    requires { Within lines.now g × (at.arrive ≤ 65536) × Sized best }
    ensures { (result
        ≡ tried_all first (front_price first way at.arrive) z.now at.left.0 best
        (call_rides lines.now g at.arrive))
        × Sized result }
{
    let Some(to) = query_places::seek_place(lines, g) else {
        return best;
    };
    // Who has too little left for the rides to that place takes none of them, whatever the trip.
    let left = at.left;
    let points = to.points;
    if query_minutes::less(left, points) {
        return best;
    }
    let start = lines_lookup::first_trip(lines, g.line, g.call.place, at.arrive);
    choose_trips(lines, g, to, start, at, first, way, z, best)
}

// The ride to take from one station to the next, from where one is; z holds what is left after it.
fn choose(lines: &[u16], from: usize, to: usize, at: At, first: bool, way: Way, z: &[u32]) -> Ride
    requires { at.arrive ≤ 65536 }
    ensures { (result
        ≡ tells_of
        (head_of first (front_price first way at.arrive) z.now at.left.0
        (near_read lines.now from at.arrive to)))
        × Sized result }
{
    let mut best = Ride {
        trip: NO_TRIP,
        board: 0,
        alight: 0,
        depart: 0,
        arrive: 0,
        points: Points(0),
    };
    let mut rest = lines_lookup::list_of(lines, to);
    let list = lines_lookup::list_of(lines, from);
    let end = list.end;
    let mut k = list.from;
    // Stays: a call takes two words, and an odd word at the end is none, which a range with a step would read.
    while k + 1 < end {
        let g = lines_lookup::boarding_at(lines, k, rest);
        rest = g.rest;
        best = choose_call(lines, g, at, first, way, z, best);
        k += 2;
    }
    best
}

// The station at which ride i along a path is boarded.
fn boarded(path: &[u16], i: usize, first: bool, alighted: usize) -> usize
    requires { (i < 64) × (cond first 0 1 ≤ i) × (2 * i < length path.now) }
    ensures { result ≡ boarded_at path.now first i alighted }
{
    if first {
        return alighted;
    }
    query_rests::station(path, 2 * i - 1)
}

// Writes the numbers of ride i.
fn put_ride(rides: &mut [u32], i: usize, ride: Ride)
    requires { (i < 64) × (3 * i + 3 ≤ length rides.old) × Sized ride }
    ensures rides_after { rides.new
        ≡ put (3 * i) (ride.trip ∷ ride.board ∷ ride.alight ∷ []) rides.old }
    ensures rides_len_unchanged { length rides.new ≡ length rides.old }
{
    let at = 3 * i;
    words::copy(
        rides,
        at,
        &[ride.trip as u32, ride.board as u32, ride.alight as u32],
    );
}

// Writes ride i, for which and for the change in front of it one pays.
fn move_on(path: &[u16], i: usize, left: Points, price: Points, ride: Ride, rides: &mut [u32]) -> At
    requires { (2 * i < length path.now) × (i < 64) × (3 * i + 3 ≤ length rides.old) × Sized ride }
    ensures moved { Moved path.now i left.0 price.0 ride rides.old
        rides.new result }
    ensures rides_len_unchanged { length rides.new ≡ length rides.old }
{
    put_ride(rides, i, ride);
    let alighted = query_rests::station(path, 2 * i);
    let points = ride.points;
    let rest = query_minutes::left_of(query_minutes::left_of(left, price), points);
    At {
        alighted,
        arrive: ride.arrive,
        left: rest,
    }
}

// Takes ride i along the path, if there is one to take; z holds what is left after it.
pub fn ride_on(
    words: &[u16],
    lines: &[u16],
    sought: Sought,
    path: &[u16],
    i: usize,
    r: usize,
    at: At,
    first: bool,
    rides: &mut [u32],
    z: &[u32],
) -> Next
    requires { Given words.now lines.now path.now r sought.arrive
        × (i < r)
        × Standing words.now sought.minute first i at
        × (length rides.old ≡ 192)
        × RestsAt words.now path.now r sought.arrive sought.minute i z.now }
    ensures rode { Rode words.now path.now r sought.arrive first i at rides.old
        rides.new result }
    ensures rides_len_unchanged { length rides.new ≡ length rides.old }
{
    let from = boarded(path, i, first, at.alighted);
    let to = query_rests::station(path, 2 * i);
    let way = query_rides::way_between(words, at.alighted, from);
    let ride = choose(lines, from, to, at, first, way, z);
    if ride.trip == NO_TRIP {
        return Next {
            found: false,
            depart: 0,
            at,
        };
    }
    let left = at.left;
    let price = front_price(first, way, at.arrive, ride);
    let next = move_on(path, i, left, price, ride, rides);
    Next {
        found: true,
        depart: ride.depart,
        at: next,
    }
}
