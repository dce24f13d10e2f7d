//! A trip by its words: where its stops stand, when it departs, and whether it can run behind another on one line.
//! Trips are at places from 0.
#![tactic(auto)]

ghost use Rattle.std.specs.Prelude.{◌≡◌, true, ◌+◌, ◌≤◌, ◌<◌, length};
ghost use Rattle.timetable.specs.Words.{station_count, trip_count, start_at, trip_at, is_timetable};
ghost use Rattle.lines.specs.Lines.{stop_behind, behind, first_departure};

use timetable::Stop;

// Where a trip's stops stand among all stops: from first up to end.
#[derive(Clone, Copy)]
pub struct Stops {
    pub first: usize,
    pub end: usize,
}

// The stops of trip z.
pub fn stops_of(words: &[u16], z: usize) -> Stops
    requires { (16384 ≤ length words.now) × (is_timetable words.now ≡ true) × (z < trip_count words.now) }
    ensures first_value { (result.first ≡ start_at words.now z) × (result.end ≡ start_at words.now (z + 1)) }
    ensures first_lt_end { (result.first < result.end) × (result.end ≤ 2048) × (station_count words.now ≤ 64) }
{
    Stops {
        first: timetable::start_at(words, z),
        end: timetable::start_at(words, z + 1),
    }
}

// The first departure of trip z.
pub fn departure(words: &[u16], z: usize) -> u32
    requires { (16384 ≤ length words.now) × (is_timetable words.now ≡ true) × (z < trip_count words.now) }
    ensures { result ≡ first_departure (trip_at words.now z) }
{
    let stops = stops_of(words, z);
    let first = timetable::stop_at(words, stops.first);
    first.depart
}

// Stop back has the station, ride penalty and mark of stop front and is nowhere earlier.
fn stop_joins(front: Stop, back: Stop) -> bool
    ensures { result ≡ stop_behind front back }
{
    if front.station != back.station {
        return false;
    }
    if front.points != back.points {
        return false;
    }
    if front.mark != back.mark {
        return false;
    }
    if back.arrive < front.arrive {
        return false;
    }
    front.depart <= back.depart
}

// Trip b can run after trip a on one line.
pub fn joins(words: &[u16], a: usize, b: usize) -> bool
    requires in_bounds { (16384 ≤ length words.now) × (is_timetable words.now ≡ true) }
    requires a_bound { (a < trip_count words.now) × (b < trip_count words.now) }
    ensures { result ≡ behind (trip_at words.now a) (trip_at words.now b) }
{
    let front = stops_of(words, a);
    let back = stops_of(words, b);
    let count = front.end - front.first;
    if back.end - back.first != count {
        return false;
    }
    for k in 0..count {
        if !stop_joins(
            timetable::stop_at(words, front.first + k),
            timetable::stop_at(words, back.first + k),
        ) {
            return false;
        }
    }
    true
}
