//! The penalty points that the store call reads from a timetable: those of a ride and of a walk; and the points of a
//! stop that is not reached. To read points from arrays, compare, add up and write them is for `query_minutes`.
#![tactic(auto)]

ghost use Rattle.std.specs.Prelude.{◌≡◌, ◌+◌, ◌<◌, ◌^◌, length};
ghost use Rattle.store_points.specs.Lowered.{lowered};

use results::Points;
use timetable::{Stop, Walk};

// More than anyone on the way has paid: at most 1,100 points a minute, and the last minute is 2,879.
pub const UNREACHED: Points = Points(UNREACHED_WORD);

// The word of a stop that no one on the way has reached.
// Stays: arrays that are lent hold it as a word, and `unreached` of store_stops/specs/Stopwise.antt says its number.
pub const UNREACHED_WORD: u32 = 2879 * 1100 + 1;

// Lowers the points at place k to p, if they are more. Past the end there are none.
pub fn lower(a: &mut [u32], k: usize, p: Points)
    ensures a_after { a.new ≡ lowered k p.0 a.old }
    ensures a_len_unchanged { length a.new ≡ length a.old }
{
    query_minutes::note(a, k, p);
}

// The points of the ride from a stop to the next.
pub fn of_ride(stop: Stop) -> Points
    ensures { result.0 ≡ stop.points }
{
    Points(stop.points)
}

// What one has paid who had paid so much and rides on from a stop to the next.
pub fn after_ride(paid: Points, stop: Stop) -> Points
    requires { paid.0 + stop.points < 2 ^ 32 }
    ensures { result.0 ≡ paid.0 + stop.points }
{
    query_minutes::sum(paid, of_ride(stop))
}

// What a change on foot costs.
pub fn of_walk(walk: Walk) -> Points
    ensures { result.0 ≡ walk.points }
{
    Points(walk.points)
}
