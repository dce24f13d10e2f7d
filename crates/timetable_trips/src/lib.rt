//! The trips of question 9: do they stand one after the other in the words, and is each of them valid?
#![tactic(auto)]

ghost use Rattle.std.specs.Prelude.{◌≡◌, ◌+◌, ◌≤◌, ◌<◌, length};
ghost use Rattle.timetable.specs.Timetable.{listed, leaves, ends, follows, runs, valid_trip};
ghost use Rattle.timetable.specs.Words.{station_count, stop_count, stop_at, start_at};
ghost use Rattle.timetable.specs.Check.{stops_at, trips_test};
ghost use Rattle.timetable_trips.specs.Steps.{begins, passes};

use timetable::Stop;

const LAST_MINUTE: u32 = timetable::LAST_MINUTE;

const RIDE_PENALTY_MOST: u32 = 100;

const MARK_MOST: u32 = 2;

// The stop's station is one of n.
fn is_listed(n: u32, s: Stop) -> bool
    ensures { result ≡ listed n s }
{
    if s.station < 1 {
        return false;
    }
    s.station <= n
}

fn stop_leaves(s: Stop) -> bool
    ensures { result ≡ leaves s }
{
    if LAST_MINUTE < s.depart {
        return false;
    }
    if RIDE_PENALTY_MOST < s.points {
        return false;
    }
    s.mark <= MARK_MOST
}

fn stop_ends(s: Stop) -> bool
    ensures { result ≡ ends s }
{
    if s.depart != 0 {
        return false;
    }
    if s.points != 0 {
        return false;
    }
    s.mark <= MARK_MOST
}

// Stop s can come after stop b.
fn stop_follows(n: u32, b: Stop, s: Stop) -> bool
    ensures { result ≡ follows n b s }
{
    if !is_listed(n, s) {
        return false;
    }
    if s.station == b.station {
        return false;
    }
    if s.arrive <= b.depart {
        return false;
    }
    s.arrive <= LAST_MINUTE
}

// A trip's first stop: listed, with no arrival, and left again.
fn stop_begins(n: u32, s: Stop) -> bool
    ensures { result ≡ begins n s }
{
    if !is_listed(n, s) {
        return false;
    }
    if s.arrive != 0 {
        return false;
    }
    stop_leaves(s)
}

// Stop s, after stop b, where the trip goes on.
fn stop_passes(n: u32, b: Stop, s: Stop) -> bool
    ensures { result ≡ passes n b s }
{
    if !stop_follows(n, b, s) {
        return false;
    }
    if s.depart < s.arrive {
        return false;
    }
    stop_leaves(s)
}

// The stops after the first of a trip, which stands at place first, to the trip's end.
fn trip_runs(words: &[u16], n: u32, first: usize, end: usize) -> bool
    requires { (16384 ≤ length words.now) × (station_count words.now ≤ 64) × (first < end) × (end ≤ 2048) }
    ensures { result ≡ runs n (stop_at words.now first) (stops_at words.now (first + 1) end) }
{
    let mut before = timetable::stop_at(words, first);
    for i in first + 1..end {
        let s = timetable::stop_at(words, i);
        if i + 1 == end {
            if stop_follows(n, before, s) {
                return stop_ends(s);
            }
            return false;
        }
        if !stop_passes(n, before, s) {
            return false;
        }
        before = s;
    }
    false
}

// The trip of the stops from place first up to place end.
fn trip_is_valid(words: &[u16], n: u32, first: usize, end: usize) -> bool
    requires { (16384 ≤ length words.now) × (station_count words.now ≤ 64) × (end ≤ 2048) }
    ensures { result ≡ valid_trip n (stops_at words.now first end) }
{
    if end <= first {
        return false;
    }
    if !stop_begins(n, timetable::stop_at(words, first)) {
        return false;
    }
    trip_runs(words, n, first, end)
}

// The trips stand one after the other, from stop 0 to the last of all stops, and each is valid.
pub fn trips_are_valid(words: &[u16], n: u32, trips: usize, stops: usize) -> bool
    requires { (16384 ≤ length words.now)
        × (station_count words.now ≤ 64)
        × (stop_count words.now ≤ 2048)
        × (trips ≤ 256)
        × (stops ≤ 2048)
        × (start_at words.now 0 ≡ 0) }
    ensures { result ≡ trips_test words.now n stops 0 0 trips }
{
    let mut first = 0;
    for k in 0..trips {
        let end = timetable::start_at(words, k + 1);
        if end < first {
            return false;
        }
        if stops < end {
            return false;
        }
        if !trip_is_valid(words, n, first, end) {
            return false;
        }
        first = end;
    }
    first == stops
}
