//! The abstract timetable, the words that hold it, and how these are read.
#![tactic(auto)]

ghost use Rattle.std.specs.Prelude.{◌≡◌, ◌+◌, ◌*◌, ◌≤◌, ◌<◌, true, cond, leb, length};
ghost use Rattle.timetable.specs.Words.{
  count_to,
  walks_in,
  station_count,
  trip_count,
  stop_count,
  station_at,
  stop_in,
  stop_at,
  start_at,
  number_at,
  foot_place,
  walks_to,
  walk_at,
  is_timetable,
};
ghost use Rattle.timetable.specs.WalkTo.{walk_to, stay_at};

// The words that every lent timetable slice has at least.
pub const WORDS_LEAST: usize = 16384;

pub const STATIONS_MOST: u32 = 64;

pub const TRIPS_MOST: u32 = 256;

pub const STOPS_MOST: u32 = 2048;

pub const WALKS_MOST: u32 = 256;

// The words of all stations and stops, at the limits, the places where trips begin, their numbers, and the words of all
// walks.
pub const BODY_WORDS: usize = 2 * STATIONS_MOST as usize + 5 * STOPS_MOST as usize;

pub const STARTS_WORDS: usize = TRIPS_MOST as usize + 1;

pub const NUMBERS_WORDS: usize = TRIPS_MOST as usize;

pub const WALKING_WORDS: usize = 4 * WALKS_MOST as usize;

// The greatest number of a trip.
pub const NUMBER_MOST: u32 = 9999;

pub const LAST_MINUTE: u32 = 2879;

// A station: what a change there takes and costs.
#[derive(Clone, Copy)]
pub struct Station {
    pub minutes: u32,
    pub points: u32,
}

// A walk from one station to another, or along one: what a change on foot takes and costs.
#[derive(Clone, Copy)]
pub struct Walk {
    pub from: u32,
    pub to: u32,
    pub minutes: u32,
    pub points: u32,
}

// A stop of a trip. A field that is empty in the text is 0: arrive at a trip's first stop, depart and points at its
// last. The points are those of the ride to the next stop. The mark says who may use the stop: 0 who boards and who
// alights, 1 who boards, 2 who alights.
// Stays: the mark is a word of lent memory, which may hold any number; `stop_in` of specs/Words.antt reads it as it is.
#[derive(Clone, Copy)]
pub struct Stop {
    pub station: u32,
    pub arrive: u32,
    pub depart: u32,
    pub points: u32,
    pub mark: u32,
}

// ---- the words of a timetable, of which the header's counts are within the limits

// Station i, counted from 0.
pub fn station_at(words: &[u16], i: usize) -> Station
    requires { (16384 ≤ length words.now) × (i < 64) }
    ensures { result ≡ station_at words.now i }
{
    let place = 3 + 2 * i;
    Station {
        minutes: words::word(words, place),
        points: words::word(words, place + 1),
    }
}

// The stop whose words begin at a place.
fn stop_in(words: &[u16], place: usize) -> Stop
    requires { place + 5 ≤ length words.now }
    ensures { result ≡ stop_in words.now place }
{
    Stop {
        station: words::word(words, place),
        arrive: words::word(words, place + 1),
        depart: words::word(words, place + 2),
        points: words::word(words, place + 3),
        mark: words::word(words, place + 4),
    }
}

// Stop i, counted from 0 over all trips.
pub fn stop_at(words: &[u16], i: usize) -> Stop
    requires { (16384 ≤ length words.now) × (station_count words.now ≤ 64) × (i < 2048) }
    ensures { result ≡ stop_at words.now i }
{
    let place = 3 + 2 * words::word(words, 0) as usize + 5 * i;
    stop_in(words, place)
}

// The place of the first stop of trip k, counted from 0, among all stops; of the trip past the last, their number.
pub fn start_at(words: &[u16], k: usize) -> usize
    requires { (16384 ≤ length words.now)
        × (station_count words.now ≤ 64)
        × (stop_count words.now ≤ 2048)
        × (k ≤ 256) }
    ensures { (result ≡ start_at words.now k) × (result < 65536) }
{
    let stops = 3 + 2 * words::word(words, 0) as usize;
    let place = stops + 5 * words::word(words, 2) as usize + k;
    words::word(words, place) as usize
}

// The number of trip k, counted from 0.
pub fn number_at(words: &[u16], k: usize) -> u32
    requires { (16384 ≤ length words.now)
        × (station_count words.now ≤ 64)
        × (trip_count words.now ≤ 256)
        × (stop_count words.now ≤ 2048)
        × (k ≤ 256) }
    ensures { (result ≡ number_at words.now k) × (result < 65536) }
{
    let stops = 3 + 2 * words::word(words, 0) as usize;
    let starts = stops + 5 * words::word(words, 2) as usize;
    let place = starts + (words::word(words, 1) as usize + 1) + k;
    words::word(words, place)
}

// Where what is said of walks begins.
fn foot_place(words: &[u16]) -> usize
    requires { (16384 ≤ length words.now)
        × (station_count words.now ≤ 64)
        × (trip_count words.now ≤ 256)
        × (stop_count words.now ≤ 2048) }
    ensures { (result ≡ foot_place words.now) × (result ≤ 10884) }
{
    let stops = 3 + 2 * words::word(words, 0) as usize;
    let starts = stops + 5 * words::word(words, 2) as usize;
    let trips = words::word(words, 1) as usize;
    starts + (trips + 1) + trips
}

// How many walks there are from stations up to y.
pub fn walks_to(words: &[u16], y: usize) -> usize
    requires { (16384 ≤ length words.now)
        × (station_count words.now ≤ 64)
        × (trip_count words.now ≤ 256)
        × (stop_count words.now ≤ 2048)
        × (y ≤ 64) }
    ensures { (result ≡ walks_to words.now y) × (result < 65536) }
{
    let place = foot_place(words) + y;
    words::word(words, place) as usize
}

// Where the words of the walks begin.
pub fn walks_place(words: &[u16]) -> usize
    requires { (16384 ≤ length words.now)
        × (station_count words.now ≤ 64)
        × (trip_count words.now ≤ 256)
        × (stop_count words.now ≤ 2048) }
    ensures { (result ≡ foot_place words.now + (station_count words.now + 1)) × (result ≤ 10949) }
{
    let feet = foot_place(words);
    feet + (words::word(words, 0) as usize + 1)
}

// Walk k, counted from 0.
pub fn walk_at(words: &[u16], k: usize) -> Walk
    requires { (16384 ≤ length words.now)
        × (station_count words.now ≤ 64)
        × (trip_count words.now ≤ 256)
        × (stop_count words.now ≤ 2048)
        × (k < 256) }
    ensures { result ≡ walk_at words.now k }
{
    let place = walks_place(words) + 4 * k;
    Walk {
        from: words::word(words, place),
        to: words::word(words, place + 1),
        minutes: words::word(words, place + 2),
        points: words::word(words, place + 3),
    }
}

// The place of the walk from station y to station x among all walks; the one past those from y if there is none.
// Stays: `walk_to` of specs/WalkTo.antt says the place past them.
pub fn walk_to(words: &[u16], y: usize, x: usize) -> usize
    requires { (16384 ≤ length words.now)
        × (is_timetable words.now ≡ true)
        × (1 ≤ y)
        × (y ≤ station_count words.now) }
    ensures { result ≡ walk_to words.now y x }
{
    let end = walks_to(words, y);
    for k in walks_to(words, y - 1)..end {
        if walk_at(words, k).to as usize == x {
            return k;
        }
    }
    end
}

// What a change at station c itself takes and costs: what its walk to itself says, if there is one.
pub fn stay_at(words: &[u16], c: usize) -> Station
    requires { (16384 ≤ length words.now)
        × (is_timetable words.now ≡ true)
        × (1 ≤ c)
        × (c ≤ station_count words.now) }
    ensures { result ≡ stay_at words.now c }
{
    let k = walk_to(words, c, c);
    if walks_to(words, c) <= k {
        return station_at(words, c - 1);
    }
    let walk = walk_at(words, k);
    Station {
        minutes: walk.minutes,
        points: walk.points,
    }
}

// 1 for a walk from a station up to y.
fn one_to(from: u32, y: u32) -> usize
    ensures { (result ≡ cond (leb from y) 1 0) × (result ≤ 1) }
{
    if from <= y {
        return 1;
    }
    0
}

// How many of so many walks, whose words begin at a place, are from stations up to y.
pub fn count_to(words: &[u16], place: usize, walks: usize, y: u32) -> usize
    requires { (place + 4 * walks ≤ length words.now) × (place ≤ 16384) × (walks ≤ 256) }
    ensures { (result ≡ count_to (walks_in words.now place walks) y) × (result ≤ 256) }
{
    let mut count = 0;
    for k in 0..walks {
        let from = words::word(words, place + 4 * k);
        count += one_to(from, y);
    }
    count
}
