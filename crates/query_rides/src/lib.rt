//! The rides from one station to another that leave at a minute or later, one after the other, from line tables, each
//! to the nearest place; and the way of changing between two rides, with what it takes and costs.
#![tactic(auto)]

ghost use Rattle.std.specs.Prelude.{◌≡◌, true, ◌∷◌, ◌-◌, ◌≤◌, ◌<◌, length, Some, IfSome};
ghost use Rattle.timetable.specs.Words.{station_count, station_at, is_timetable};
ghost use Rattle.lines_lookup.specs.Calls.{Inside, Within};
ghost use Rattle.query_places.specs.Candidates.{ride_on, near_read};
ghost use Rattle.query_places.specs.Places.{reach_at};
ghost use Rattle.query_rides.specs.Riding.{Good, Bounded, Tells, near_left, ride_of, near_from};
ghost use Rattle.query_rides.specs.Ways.{cost_of, way_between};

use lines_lookup::{Boarding, Piece};
use query_places::Place;
use results::{Cost, Minutes, Points};
use timetable::Walk;

// A ride, by the numbers by which it is shown, its minutes and its penalty.
#[derive(Clone, Copy)]
pub struct Ride {
    pub trip: usize,
    pub board: usize,
    pub alight: usize,
    pub depart: usize,
    pub arrive: usize,
    pub points: Points,
}

// Where one stands in the rides: the calls that are left to board at; the call boarded at, with those that were left to
// alight at; the place alighted at, and the trip.
#[derive(Clone, Copy)]
pub struct Cursor {
    pub calls: Piece,
    pub boarding: Boarding,
    pub to: Place,
    pub j: usize,
}

// The first ride from some calls to some others, if there is one. Few calls lead to the station sought, so a trip is
// looked for only where there is a place to alight at.
fn seek_call(v: &[u16], minute: usize, calls: Piece, others: Piece) -> Option<Cursor>
    requires { Inside v.now calls × Inside v.now others }
    ensures { (near_left v.now minute result ≡ near_from v.now minute calls others)
        × IfSome result (Good v.now) }
{
    let end = calls.end;
    let mut k = calls.from;
    let mut rest = others;
    // Stays: a call takes two words, and an odd word at the end is none, which a range with a step would read.
    while k + 1 < end {
        let g = lines_lookup::boarding_at(v, k, rest);
        rest = g.rest;
        k += 2;
        let Some(to) = query_places::seek_place(v, g) else {
            continue;
        };
        let first = lines_lookup::first_trip(v, g.line, g.call.place, minute);
        if first < g.line.trips {
            return Some(Cursor {
                calls: Piece { from: k, end },
                boarding: g,
                to,
                j: first,
            });
        }
    }
    None
}

// The first ride from one station to another, if there is one.
pub fn begin(v: &[u16], from: usize, to: usize, minute: usize) -> Option<Cursor>
    ensures { (near_left v.now minute result ≡ near_read v.now from minute to)
        × IfSome result (Good v.now) }
{
    seek_call(
        v,
        minute,
        lines_lookup::list_of(v, from),
        lines_lookup::list_of(v, to),
    )
}

// The ride after the one at which c stands, where only the nearest place is ridden to: on the next trip of the line;
// else from the next call.
pub fn next_nearest(v: &[u16], minute: usize, c: Cursor) -> Option<Cursor>
    requires { Good v.now c }
    ensures { (near_left v.now minute (Some c)
        ≡ ride_of v.now c ∷ near_left v.now minute result)
        × IfSome result (Good v.now) }
{
    let g = c.boarding;
    if g.line.trips <= c.j + 1 {
        return seek_call(v, minute, c.calls, g.rest);
    }
    Some(Cursor { j: c.j + 1, ..c })
}

// The ride on the trip at place j of the line that is boarded, to a place further on.
pub fn ride_at(v: &[u16], g: Boarding, to: Place, j: usize) -> Ride
    requires { Within v.now g × (to.place < 65536) × (j < 65536) }
    ensures { Tells result (ride_on v.now g.line g.call.place j (reach_at to)) }
{
    let l = g.line;
    let x = g.call.place;
    let p = to.place;
    let points = to.points;
    let trip = lines_lookup::number_at(v, l, j);
    let depart = lines_lookup::depart_at(v, l, x, j);
    let arrive = lines_lookup::arrive_at(v, l, p, j);
    Ride {
        trip,
        board: x + 1,
        alight: p + 1,
        depart,
        arrive,
        points,
    }
}

// The ride at which c stands.
pub fn tell(v: &[u16], c: Cursor) -> Ride
    requires { Bounded v.now c }
    ensures { Tells result (ride_of v.now c) }
{
    ride_at(v, c.boarding, c.to, c.j)
}

// A way of changing: at the station itself, or by a walk.
// Stays: a change at the station itself is a way of its own, and `Here` names it, which `None` would not.
#[derive(Clone, Copy)]
pub enum Change {
    Here,
    Walk(Walk),
}

// The way of changing from one station to another, if there is one: what a change at the station itself takes and costs
// by the S line, and the change.
#[derive(Clone, Copy)]
pub struct Way {
    pub found: bool,
    pub here: Cost,
    pub change: Change,
}

// What a change takes and costs, where one at the station itself takes and costs so much.
pub fn cost_of(here: Cost, change: Change) -> Cost
    ensures { result ≡ cost_of here change }
{
    match change {
        Change::Here => here,
        Change::Walk(walk) => Cost {
            minutes: Minutes(walk.minutes),
            points: Points(walk.points),
        },
    }
}

// What a change at a station itself takes and costs by its S line, whether that applies or not.
fn change_at(words: &[u16], station: usize) -> Cost
    requires { (16384 ≤ length words.now) × (1 ≤ station) × (station ≤ 64) }
    ensures { (result.minutes.0 ≡ (station_at words.now (station - 1)).minutes)
        × (result.points.0 ≡ (station_at words.now (station - 1)).points) }
{
    let change = timetable::station_at(words, station - 1);
    Cost {
        minutes: Minutes(change.minutes),
        points: Points(change.points),
    }
}

// The way of changing from one station to another: the walk, if there is one, and else the change at the station
// itself, if the two are the same. A walk from a station to itself goes first.
pub fn way_between(words: &[u16], from: usize, to: usize) -> Way
    requires { (16384 ≤ length words.now)
        × (is_timetable words.now ≡ true)
        × (1 ≤ from)
        × (from ≤ station_count words.now) }
    ensures { result ≡ way_between words.now from to }
{
    let here = change_at(words, from);
    let k = timetable::walk_to(words, from, to);
    if timetable::walks_to(words, from) <= k {
        return Way {
            found: from == to,
            here,
            change: Change::Here,
        };
    }
    let walk = timetable::walk_at(words, k);
    Way {
        found: true,
        here,
        change: Change::Walk(walk),
    }
}
