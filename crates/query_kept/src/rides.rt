// The rides that are shown: for each arrival minute the one that goes before all others of the least penalty.
ghost use Rattle.std.specs.Prelude.{◌≡◌, ◌*◌, ◌≤◌, ◌<◌, length};
ghost use Rattle.words.specs.Put.{put};
ghost use Rattle.lists.specs.Lists.{concat_map};
ghost use Rattle.lines_lookup.specs.Calls.{Within};
ghost use Rattle.query_places.specs.Candidates.{ride_on, reach_by, nearest, near_read};
ghost use Rattle.query_kept.specs.Choosing.{goes_before};
ghost use Rattle.query_kept.specs.Keeping.{kept_at, ride_words, Unkept, kept_with, kept_on, keep_all, Keeps};
ghost use Rattle.query_places.specs.Turns.{trips_from};

use lines_lookup::{Boarding, Line};
use query_minutes::MINUTES;
use results::Points;

// The trip of no ride: every trip has a lower number.
// Stays: what is kept for a minute stands in four words of the working space that C lends, which hold no Option.
const NO_TRIP: u32 = 65536;

// The words of a ride that is kept for a minute, and of those of all minutes.
const RIDE_WORDS: usize = 4;

pub const KEPT_WORDS: usize = RIDE_WORDS * MINUTES;

// A ride that may be shown.
#[derive(Clone, Copy)]
pub struct Found {
    pub depart: u32,
    pub trip: u32,
    pub board: u32,
    pub alight: u32,
}

// Whether g goes before f, both of one cost: it departs later, or its numbers come first.
fn goes_before(g: Found, f: Found) -> bool
    ensures { result ≡ goes_before g f }
{
    if f.depart < g.depart {
        return true;
    }
    if g.depart < f.depart {
        return false;
    }
    if g.trip < f.trip {
        return true;
    }
    if f.trip < g.trip {
        return false;
    }
    if g.board < f.board {
        return true;
    }
    if f.board < g.board {
        return false;
    }
    g.alight < f.alight
}

// Puts a ride down as the one that is kept for a minute.
fn put_ride(kept: &mut [u32], minute: usize, ride: Found)
    requires { (minute < 2880) × (length kept.old ≡ 11520) }
    ensures kept_after { kept.new ≡ put (4 * minute) (ride_words ride) kept.old }
    ensures kept_len_unchanged { length kept.new ≡ length kept.old }
{
    let at = RIDE_WORDS * minute;
    words::copy(kept, at, &[ride.depart, ride.trip, ride.board, ride.alight]);
}

// The ride that is kept for a minute.
pub fn kept_at(kept: &[u32], minute: usize) -> Found
    requires { (minute < 2880) × (length kept.now ≡ 11520) }
    ensures { result ≡ kept_at kept.now minute }
{
    let at = RIDE_WORDS * minute;
    Found {
        depart: kept[at],
        trip: kept[at + 1],
        board: kept[at + 2],
        alight: kept[at + 3],
    }
}

// Before the rides are gone through none is kept for any minute.
fn fill_none(kept: &mut [u32])
    requires { length kept.old ≡ 11520 }
    ensures unkept { Unkept kept.new 2880 }
    ensures kept_len_unchanged { length kept.new ≡ length kept.old }
{
    for a in 0..MINUTES {
        put_ride(
            kept,
            a,
            Found {
                depart: 0,
                trip: NO_TRIP,
                board: 0,
                alight: 0,
            },
        );
    }
}

// Keeps a ride that arrives at a minute, if it goes before the one that is kept for that minute.
fn keep(kept: &mut [u32], minute: usize, ride: Found)
    requires { (minute < 2880) × (length kept.old ≡ 11520) }
    ensures kept_after { kept.new ≡ kept_with kept.old minute ride }
    ensures kept_len_unchanged { length kept.new ≡ length kept.old }
{
    if goes_before(ride, kept_at(kept, minute)) {
        put_ride(kept, minute, ride);
    }
}

// Keeps the ride on the trip at place j of a line from place x to place p, if its penalty is the least of the minute in
// which it arrives.
fn keep_trip(
    v: &[u16],
    l: Line,
    x: usize,
    p: usize,
    j: usize,
    points: Points,
    best: &[u32],
    kept: &mut [u32],
)
    requires { (l.at < 65536)
        × (l.positions < 65536)
        × (l.trips < 65536)
        × (x < 65536)
        × (p < 65536)
        × (j < 65536)
        × (length best.now ≡ 2880)
        × (length kept.old ≡ 11520) }
    ensures kept_after { kept.new
        ≡ kept_on best.now kept.old
        (ride_on v.now l x j (record { place = p; points = points.0 })) }
    ensures kept_len_unchanged { length kept.new ≡ length kept.old }
{
    let minute = lines_lookup::arrive_at(v, l, p, j);
    if MINUTES <= minute {
        return;
    }
    if query_minutes::same(points, query_minutes::points_at(best, minute)) {
        let depart = lines_lookup::depart_at(v, l, x, j) as u32;
        let trip = lines_lookup::number_at(v, l, j) as u32;
        let ride = Found {
            depart,
            trip,
            board: (x + 1) as u32,
            alight: (p + 1) as u32,
        };
        keep(kept, minute, ride);
    }
}

// Keeps the rides from place x to place p of a line, on its trips from place first on; points is their penalty.
fn keep_trips(
    v: &[u16],
    l: Line,
    x: usize,
    p: usize,
    first: usize,
    points: Points,
    best: &[u32],
    kept: &mut [u32],
)
    requires { (l.at < 65536)
        × (l.positions < 65536)
        × (l.trips < 65536)
        × (x < 65536)
        × (p < 65536)
        × (first ≤ l.trips)
        × (length best.now ≡ 2880)
        × (length kept.old ≡ 11520) }
    ensures kept_after { kept.new
        ≡ keep_all best.now kept.old
        (trips_from v.now l x first (record { place = p; points = points.0 })) }
    ensures kept_len_unchanged { length kept.new ≡ length kept.old }
{
    for j in first..l.trips {
        keep_trip(v, l, x, p, j, points, best, kept);
    }
}

// Keeps the rides from the call that is boarded at to the nearest place of its line to which one may ride, on the
// line's trips from place first on. Those to later places arrive later and cost no less: no row shows them.
fn keep_nearest(v: &[u16], g: Boarding, first: usize, best: &[u32], kept: &mut [u32])
    requires { Within v.now g
        × (first ≤ g.line.trips)
        × (length best.now ≡ 2880)
        × (length kept.old ≡ 11520) }
    ensures kept_after { kept.new
        ≡ keep_all best.now kept.old
        (concat_map (trips_from v.now g.line g.call.place first)
        (nearest (reach_by v.now g))) }
    ensures kept_len_unchanged { length kept.new ≡ length kept.old }
{
    if let Some(to) = query_places::seek_place(v, g) {
        keep_trips(
            v,
            g.line,
            g.call.place,
            to.place,
            first,
            to.points,
            best,
            kept,
        );
    }
}

// Goes once through the rides from the calls of one station to the nearest of another that leave at the minute or
// later, and keeps them.
fn keep_all(v: &[u16], from: usize, to: usize, minute: usize, best: &[u32], kept: &mut [u32])
    requires { (length best.now ≡ 2880) × (length kept.old ≡ 11520) }
    ensures kept_after { kept.new
        ≡ keep_all best.now kept.old (near_read v.now from minute to) }
    ensures kept_len_unchanged { length kept.new ≡ length kept.old }
{
    let mut rest = lines_lookup::list_of(v, to);
    let list = lines_lookup::list_of(v, from);
    let end = list.end;
    let mut k = list.from;
    // Stays: a call takes two words, and an odd word at the end is none, which a range with a step would read.
    while k + 1 < end {
        let g = lines_lookup::boarding_at(v, k, rest);
        rest = g.rest;
        let first = lines_lookup::first_trip(v, g.line, g.call.place, minute);
        keep_nearest(v, g, first, best, kept);
        k += 2;
    }
}

// Finds the rides that are shown, for each minute of arrival the one that goes before all others of its least penalty.
pub fn find_rides(v: &[u16], from: usize, to: usize, minute: usize, best: &[u32], kept: &mut [u32])
    requires { (length best.now ≡ 2880) × (length kept.old ≡ 11520) }
    ensures keeps { Keeps best.now kept.new (near_read v.now from minute to) }
    ensures kept_len_unchanged { length kept.new ≡ length kept.old }
{
    fill_none(kept);
    keep_all(v, from, to, minute, best, kept);
}
