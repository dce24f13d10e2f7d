//! Places to ride to: from where a line is boarded, the nearest of its places at the other station at which one may
//! alight.
#![tactic(auto)]

ghost use Rattle.std.specs.Prelude.{◌≡◌, ◌<◌, IfSome};
ghost use Rattle.lines_lookup.specs.Lookup.{points_between};
ghost use Rattle.lines_lookup.specs.Calls.{Within};
ghost use Rattle.query_places.specs.Candidates.{opens, nearest, reach_by};
ghost use Rattle.query_places.specs.Places.{found_at};

use lines_lookup::Boarding;
use results::Points;

// A place to alight at and the penalty of the ride to it.
#[derive(Clone, Copy)]
pub struct Place {
    pub place: usize,
    pub points: Points,
}

// The penalty of the ride to place y of the line that is boarded: the difference of two totals.
fn ride_points(v: &[u16], g: Boarding, y: usize) -> Points
    requires { Within v.now g × (y < 65536) }
    ensures { result.0 ≡ points_between v.now g.line g.call.place y }
{
    let here = g.total;
    let there = lines_lookup::total_at(v, g.line, y);
    query_minutes::left_of(there, here)
}

// Whether one may ride from where the line is boarded to its place y: both are open.
fn may_ride(v: &[u16], g: Boarding, y: usize) -> bool
    requires { Within v.now g × (y < 65536) }
    ensures { result ≡ opens v.now g.line g.call.place y }
{
    if lines_lookup::may_board(v, g.line, g.call.place) {
        return lines_lookup::may_alight(v, g.line, y);
    }
    false
}

// The nearest place of the line that is boarded to which one may ride, if there is one.
pub fn seek_place(v: &[u16], g: Boarding) -> Option<Place>
    requires { Within v.now g }
    ensures { (nearest (reach_by v.now g) ≡ found_at result) × IfSome result (λ s. s.place < 65536) }
{
    let end = g.rest.end;
    let mut k = g.rest.from;
    // Stays: a call takes two words, and an odd word at the end is none, which a range with a step would read.
    while k + 1 < end {
        let d = lines_lookup::call_at(v, k);
        if d.line != g.call.line {
            return None;
        }
        if may_ride(v, g, d.place) {
            return Some(Place {
                place: d.place,
                points: ride_points(v, g, d.place),
            });
        }
        k += 2;
    }
    None
}
