//! The words of a timetable, written from its parts; and parts of them, copied to where a timetable is put together.
#![tactic(auto)]

ghost use Rattle.std.specs.Prelude.{◌≡◌, ◌+◌, ◌-◌, ◌*◌, ◌≤◌, ◌++◌, length, take};
ghost use Rattle.words.specs.Put.{put};
ghost use Rattle.timetable.specs.Words.{
  station_words,
  stop_words,
  walk_words,
  foot_words,
  walks_in,
  front,
  joined,
  station_count,
  trip_count,
  stop_count,
  walk_count,
};
ghost use Rattle.timetable.specs.Check.{stations_at, stops_at, numbers_at, walks_at};

// Copies the words of all stations to the beginning of body.
pub fn copy_stations(words: &[u16], body: &mut [u16])
    requires { (16384 ≤ length words.now) × (station_count words.now ≤ 64) × (length body.old ≡ 10368) }
    ensures body_after { body.new
        ≡ put 0 (station_words (stations_at words.now 0 (station_count words.now)))
        body.old }
    ensures body_len_unchanged { length body.new ≡ length body.old }
{
    let count = 2 * words::word(words, 0) as usize;
    words::copy(body, 0, &words[3..3 + count]);
}

// Copies the words of the stops from place first up to place end into body, from index at on.
pub fn copy_stops(words: &[u16], first: usize, end: usize, body: &mut [u16], at: usize)
    requires { (16384 ≤ length words.now)
        × (station_count words.now ≤ 64)
        × (first ≤ end)
        × (end ≤ 2048)
        × (length body.old ≡ 10368)
        × (at + 5 * (end - first) ≤ 10368) }
    ensures body_after { body.new
        ≡ put at (stop_words (stops_at words.now first end)) body.old }
    ensures body_len_unchanged { length body.new ≡ length body.old }
{
    let count = 5 * (end - first);
    let from = 3 + 2 * words::word(words, 0) as usize + 5 * first;
    words::copy(body, at, &words[from..from + count]);
}

// Copies the numbers of the trips from place first up to place end into numbers, from index at on.
pub fn copy_numbers(words: &[u16], first: usize, end: usize, numbers: &mut [u16], at: usize)
    requires { (16384 ≤ length words.now)
        × (station_count words.now ≤ 64)
        × (trip_count words.now ≤ 256)
        × (stop_count words.now ≤ 2048)
        × (first ≤ end)
        × (end ≤ 256)
        × (length numbers.old ≡ 256)
        × (at + (end - first) ≤ 256) }
    ensures numbers_after { numbers.new
        ≡ put at (numbers_at words.now first end) numbers.old }
    ensures numbers_len_unchanged { length numbers.new ≡ length numbers.old }
{
    let count = end - first;
    let stops = 3 + 2 * words::word(words, 0) as usize;
    let starts = stops + 5 * words::word(words, 2) as usize;
    let from = starts + (words::word(words, 1) as usize + 1) + first;
    words::copy(numbers, at, &words[from..from + count]);
}

// Copies the words of all walks to the beginning of walking. Returns their number.
pub fn copy_walks(words: &[u16], walking: &mut [u16]) -> usize
    requires { (16384 ≤ length words.now)
        × (station_count words.now ≤ 64)
        × (trip_count words.now ≤ 256)
        × (stop_count words.now ≤ 2048)
        × (walk_count words.now ≤ 256)
        × (length walking.old ≡ 1024) }
    ensures walking_after { walking.new
        ≡ put 0 (walk_words (walks_at words.now 0 (walk_count words.now))) walking.old }
    ensures value { result ≡ walk_count words.now }
    ensures walking_len_unchanged { length walking.new ≡ length walking.old }
{
    let walks = timetable::walks_to(words, words::word(words, 0) as usize);
    let from = timetable::walks_place(words);
    words::copy(walking, 0, &words[from..from + 4 * walks]);
    walks
}

// Writes the counts of walks by station, from index at on.
fn write_feet(timetable: &mut [u16], at: usize, stations: usize, walks: usize, walking: &[u16])
    requires { (stations ≤ 64)
        × (walks ≤ 256)
        × (at ≤ 10884)
        × (16384 ≤ length timetable.old)
        × (length walking.now ≡ 1024) }
    ensures timetable_after { timetable.new
        ≡ put at (foot_words stations (walks_in walking.now 0 walks)) timetable.old }
    ensures timetable_len_unchanged { length timetable.new ≡ length timetable.old }
{
    for y in 0..stations + 1 {
        timetable[at + y] = timetable::count_to(walking, 0, walks, y as u32) as u16;
    }
}

// Writes what is said of so many walks, from index at on: their counts by station, and their words, which walking
// begins with.
fn write_walks(timetable: &mut [u16], at: usize, stations: usize, walks: usize, walking: &[u16])
    requires { (stations ≤ 64)
        × (walks ≤ 256)
        × (at ≤ 10884)
        × (16384 ≤ length timetable.old)
        × (length walking.now ≡ 1024) }
    ensures timetable_after { timetable.new
        ≡ put at
        (foot_words stations (walks_in walking.now 0 walks) ++ take (4 * walks) walking.now)
        timetable.old }
    ensures timetable_len_unchanged { length timetable.new ≡ length timetable.old }
{
    write_feet(timetable, at, stations, walks, walking);
    words::copy(timetable, at + (stations + 1), &walking[..4 * walks]);
}

// Writes the three counts, the words of stations and stops, which body begins with, where the trips begin, and which
// numbers they have.
fn write_front(
    timetable: &mut [u16],
    stations: usize,
    trips: usize,
    stops: usize,
    body: &[u16],
    starts: &[u16],
    numbers: &[u16],
)
    requires { (stations ≤ 64)
        × (trips ≤ 256)
        × (stops ≤ 2048)
        × (16384 ≤ length timetable.old)
        × (length body.now ≡ 10368)
        × (length starts.now ≡ 257)
        × (length numbers.now ≡ 256) }
    ensures timetable_after { timetable.new
        ≡ put 0 (front stations trips stops body.now starts.now numbers.now)
        timetable.old }
    ensures timetable_len_unchanged { length timetable.new ≡ length timetable.old }
{
    let body_length = 2 * stations + 5 * stops;
    let starts_at = 3 + body_length;
    let starts_length = trips + 1;
    words::narrow(timetable, 0, &[stations as u32, trips as u32, stops as u32]);
    words::copy(timetable, 3, &body[..body_length]);
    words::copy(timetable, starts_at, &starts[..starts_length]);
    words::copy(timetable, starts_at + starts_length, &numbers[..trips]);
}

// Writes the words of a timetable of so many stations, trips, stops and walks: the words of its stations and stops,
// which body begins with, after the three counts; after them where its trips begin and which numbers they have; then
// the counts of its walks by station and the words of its walks, which walking begins with.
pub fn write_words(
    timetable: &mut [u16],
    stations: usize,
    trips: usize,
    stops: usize,
    walks: usize,
    body: &[u16],
    starts: &[u16],
    numbers: &[u16],
    walking: &[u16],
)
    requires { (stations ≤ 64)
        × (trips ≤ 256)
        × (stops ≤ 2048)
        × (walks ≤ 256)
        × (16384 ≤ length timetable.old)
        × (length body.now ≡ 10368)
        × (length starts.now ≡ 257)
        × (length numbers.now ≡ 256)
        × (length walking.now ≡ 1024) }
    ensures timetable_after { timetable.new
        ≡ put 0 (joined stations trips stops walks body.now starts.now numbers.now
        walking.now) timetable.old }
    ensures timetable_len_unchanged { length timetable.new ≡ length timetable.old }
{
    let feet_at = 3 + (2 * stations + 5 * stops) + (trips + 1) + trips;
    write_front(timetable, stations, trips, stops, body, starts, numbers);
    write_walks(timetable, feet_at, stations, walks, walking);
}
