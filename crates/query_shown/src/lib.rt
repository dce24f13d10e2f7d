//! The connection of one stored pattern that is shown for a row: ride by ride the first that can be taken, where what
//! is left after it can be paid.
#![tactic(auto)]

mod rides;

ghost use Rattle.std.specs.Prelude.{◌≡◌, ◌≤◌, length};
ghost use Rattle.timetable.specs.Words.{station_count};
ghost use Rattle.query_rests.specs.Given.{Given};
ghost use Rattle.query_shown.specs.Showing.{FoundAt};
ghost use Rattle.query_rests.specs.Spans.{Spans};

use query_layers::{Kept, Sought};
use query_minutes::{MINUTES, NO_POINTS};
use query_rides::{Change, Ride};
use results::Points;

// A step of a connection after its first ride: how one changes to a ride, and the ride.
#[derive(Clone, Copy)]
pub struct Step {
    pub change: Change,
    pub ride: Ride,
}

// Where one is on the way: the station alighted at, the minute of the arrival, and the points left to pay. Before the
// first ride it is the source and the query's minute.
#[derive(Clone, Copy)]
pub struct At {
    pub alighted: usize,
    pub arrive: usize,
    pub left: Points,
}

// Whether a ride was taken, when it departs, and where one is after it.
// Stays: only the first ride of a path can be missing, and each later one would be asked for what is always there.
#[derive(Clone, Copy)]
pub struct Next {
    pub found: bool,
    pub depart: usize,
    pub at: At,
}

// Whether there is a connection, and when it departs.
#[derive(Clone, Copy)]
pub struct First {
    pub found: bool,
    pub depart: usize,
}

// The connection along a path of r rides that is shown for a row, where what is sought arrives no earlier than at the
// minute of the query. Its rides are written.
fn first_in_time(
    words: &[u16],
    lines: &[u16],
    sought: Sought,
    path: &[u16],
    r: usize,
    rides: &mut [u32],
    work: &mut [u32],
    z: &mut [u32],
    old: &mut [u32],
) -> First
    requires { Given words.now lines.now path.now r sought.arrive
        × (1 ≤ r)
        × (1 ≤ sought.source)
        × (sought.source ≤ station_count words.now)
        × (length rides.old ≡ 192)
        × (2880 ≤ length work.old)
        × (sought.minute ≤ sought.arrive)
        × Spans sought.minute sought.arrive z.old
        × Spans sought.minute sought.arrive old.old }
    ensures found_at { FoundAt words.now path.now r sought.arrive sought.source
        sought.minute sought.points.0 result rides.new }
    ensures rides_len_unchanged { (length rides.new ≡ length rides.old)
        × (length work.new ≡ length work.old) }
{
    let left = sought.points;
    let start = At {
        alighted: sought.source,
        arrive: sought.minute,
        left,
    };
    let none = Kept { low: 0, high: 0 };
    let mut kept = query_layers::rest(words, lines, sought, path, 0, r, none, work, z, old);
    let head = rides::ride_on(words, lines, sought, path, 0, r, start, true, rides, z);
    if !head.found {
        return First {
            found: false,
            depart: 0,
        };
    }
    let depart = head.depart;
    let mut at = head.at;
    for i in 1..r {
        kept = query_layers::rest(words, lines, sought, path, i, r, kept, work, z, old);
        let next = rides::ride_on(words, lines, sought, path, i, r, at, false, rides, z);
        at = next.at;
    }
    First {
        found: true,
        depart,
    }
}

// The same for any arrival that is sought: there is none before the minute of the query.
pub fn first_of_pattern(
    words: &[u16],
    lines: &[u16],
    sought: Sought,
    path: &[u16],
    r: usize,
    rides: &mut [u32],
    work: &mut [u32],
) -> First
    requires { Given words.now lines.now path.now r sought.arrive
        × (1 ≤ r)
        × (1 ≤ sought.source)
        × (sought.source ≤ station_count words.now)
        × (length rides.old ≡ 192)
        × (2880 ≤ length work.old) }
    ensures found_at { FoundAt words.now path.now r sought.arrive sought.source
        sought.minute sought.points.0 result rides.new }
    ensures rides_len_unchanged { (length rides.new ≡ length rides.old)
        × (length work.new ≡ length work.old) }
{
    if sought.arrive < sought.minute {
        return First {
            found: false,
            depart: 0,
        };
    }
    let mut z = [NO_POINTS; MINUTES];
    let mut old = [NO_POINTS; MINUTES];
    first_in_time(words, lines, sought, path, r, rides, work, &mut z, &mut old)
}
