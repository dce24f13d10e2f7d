//! The words of a timetable without one of its trips, or with one more. They are put together in local arrays: the
//! stations, then trips behind trips; and written over the old ones when all of them stand there.
#![tactic(auto)]

ghost use Rattle.std.specs.Prelude.{◌≡◌, true, ◌+◌, ◌-◌, ◌≤◌, ◌<◌, [], ◌∷◌, length};
ghost use Rattle.words.specs.Put.{put};
ghost use Rattle.timetable.specs.Words.{words, trip_count, stop_count, start_at, timetable_of, is_timetable};
ghost use Rattle.changes_places.specs.Runs.{ends_at};
ghost use Rattle.changes_words.specs.Appended.{left_out, put_in, Extends, Front, Middle, Filled, WrittenOver};
ghost use Rattle.changes_words.specs.Appended.{Fitting};

// How many trips and stops stand in the arrays in which a timetable is put together.
#[derive(Clone, Copy)]
pub struct Counts {
    pub trips: usize,
    pub stops: usize,
}

// Writes where the trips from one place up to another end, behind so many trips and stops.
fn shift_starts(words: &[u16], from: usize, to: usize, starts: &mut [u16], p: Counts)
    requires { (16384 ≤ length words.now)
        × (is_timetable words.now ≡ true)
        × (from ≤ to)
        × (to ≤ trip_count words.now)
        × (length starts.old ≡ 257)
        × (p.trips + (to - from) ≤ 256)
        × (p.stops + (start_at words.now to - start_at words.now from) ≤ 2048) }
    ensures starts_after { starts.new
        ≡ put (p.trips + 1) (ends_at words.now from to p.stops) starts.old }
    ensures starts_len_unchanged { length starts.new ≡ length starts.old }
{
    let first = timetable::start_at(words, from);
    for k in from..to {
        let end = timetable::start_at(words, k + 1);
        starts[p.trips + 1 + (k - from)] = (p.stops + (end - first)) as u16;
    }
}

// Appends the trips from one place up to another to those that stand in the arrays.
fn append(
    words: &[u16],
    from: usize,
    to: usize,
    body: &mut [u16],
    starts: &mut [u16],
    numbers: &mut [u16],
    p: Counts,
) -> Counts
    requires { (16384 ≤ length words.now)
        × (is_timetable words.now ≡ true)
        × (from ≤ to)
        × (to ≤ trip_count words.now)
        × (length body.old ≡ 10368)
        × (length starts.old ≡ 257)
        × (length numbers.old ≡ 256)
        × (p.trips + (to - from) ≤ 256)
        × (p.stops + (start_at words.now to - start_at words.now from) ≤ 2048) }
    ensures extends { Extends words.now from to p result body.old starts.old
        numbers.old body.new starts.new numbers.new }
    ensures body_len_unchanged { (length body.new ≡ length body.old)
        × (length starts.new ≡ length starts.old)
        × (length numbers.new ≡ length numbers.old)
        × (result.trips ≡ p.trips + (to - from))
        × (result.stops ≡ p.stops + (start_at words.now to - start_at words.now from)) }
{
    let first = timetable::start_at(words, from);
    let end = timetable::start_at(words, to);
    let at = 2 * words::word(words, 0) as usize + 5 * p.stops;
    timetable_writing::copy_stops(words, first, end, body, at);
    timetable_writing::copy_numbers(words, from, to, numbers, p.trips);
    shift_starts(words, from, to, starts, p);
    Counts {
        trips: p.trips + (to - from),
        stops: p.stops + (end - first),
    }
}

// The first trip begins with the first stop.
fn open_starts(starts: &mut [u16])
    requires { length starts.old ≡ 257 }
    ensures starts_after { starts.new ≡ put 0 (0 ∷ []) starts.old }
    ensures starts_len_unchanged { length starts.new ≡ length starts.old }
{
    starts[0] = 0;
}

// The stations, and the trips before this place.
fn fill_front(
    words: &[u16],
    place: usize,
    body: &mut [u16],
    starts: &mut [u16],
    numbers: &mut [u16],
) -> Counts
    requires { (16384 ≤ length words.now)
        × (is_timetable words.now ≡ true)
        × (place ≤ trip_count words.now)
        × (length body.old ≡ 10368)
        × (length starts.old ≡ 257)
        × (length numbers.old ≡ 256) }
    ensures front { Front words.now place result body.new starts.new numbers.new
        body.old starts.old numbers.old }
    ensures body_len_unchanged { (length body.new ≡ length body.old)
        × (length starts.new ≡ length starts.old)
        × (length numbers.new ≡ length numbers.old)
        × (result.trips ≡ place)
        × (result.stops ≡ start_at words.now place) }
{
    timetable_writing::copy_stations(words, body);
    open_starts(starts);
    let none = Counts { trips: 0, stops: 0 };
    append(words, 0, place, body, starts, numbers, none)
}

// Puts the timetable without the trip at this place together.
fn fill_without(
    words: &[u16],
    place: usize,
    body: &mut [u16],
    starts: &mut [u16],
    numbers: &mut [u16],
) -> Counts
    requires { (16384 ≤ length words.now)
        × (is_timetable words.now ≡ true)
        × (place < trip_count words.now)
        × (length body.old ≡ 10368)
        × (length starts.old ≡ 257)
        × (length numbers.old ≡ 256) }
    ensures filled { Filled (left_out (timetable_of words.now) place) result body.new starts.new
        numbers.new body.old starts.old numbers.old }
    ensures body_len_unchanged { (length body.new ≡ length body.old)
        × (length starts.new ≡ length starts.old)
        × (length numbers.new ≡ length numbers.old)
        × (result.trips ≤ 256)
        × (result.stops ≤ 2048) }
{
    let trips = words::word(words, 1) as usize;
    let before = fill_front(words, place, body, starts, numbers);
    append(words, place + 1, trips, body, starts, numbers, before)
}

// Writes the words of the timetable that the arrays hold over the old ones. Its stations and walks are the same.
fn write_over(timetable: &mut [u16], all: Counts, body: &[u16], starts: &[u16], numbers: &[u16])
    requires { (16384 ≤ length timetable.old)
        × (is_timetable timetable.old ≡ true)
        × (all.trips ≤ 256)
        × (all.stops ≤ 2048)
        × (length body.now ≡ 10368)
        × (length starts.now ≡ 257)
        × (length numbers.now ≡ 256) }
    ensures written_over { WrittenOver timetable.old all body.now starts.now
        numbers.now timetable.new }
    ensures timetable_len_unchanged { length timetable.new ≡ length timetable.old }
{
    let stations = words::word(timetable, 0) as usize;
    let mut walking = [0u16; timetable::WALKING_WORDS];
    let walks = timetable_writing::copy_walks(timetable, &mut walking);
    timetable_writing::write_words(
        timetable, stations, all.trips, all.stops, walks, body, starts, numbers, &walking,
    );
}

// Leaves out the trip at this place.
pub fn leave_out(timetable: &mut [u16], place: usize)
    requires { (16384 ≤ length timetable.old)
        × (is_timetable timetable.old ≡ true)
        × (place < trip_count timetable.old) }
    ensures timetable_after { timetable.new
        ≡ put 0 (words (left_out (timetable_of timetable.old) place)) timetable.old }
    ensures timetable_len_unchanged { length timetable.new ≡ length timetable.old }
{
    let mut body = [0u16; timetable::BODY_WORDS];
    let mut starts = [0u16; timetable::STARTS_WORDS];
    let mut numbers = [0u16; timetable::NUMBERS_WORDS];
    let all = fill_without(timetable, place, &mut body, &mut starts, &mut numbers);
    write_over(timetable, all, &body, &starts, &numbers);
}

// The stations, the trips before this place, and the trip of the other timetable.
fn fill_middle(
    words: &[u16],
    place: usize,
    extra: &[u16],
    body: &mut [u16],
    starts: &mut [u16],
    numbers: &mut [u16],
) -> Counts
    requires { (16384 ≤ length words.now)
        × (16384 ≤ length extra.now)
        × (is_timetable words.now ≡ true)
        × (place ≤ trip_count words.now)
        × Fitting words.now extra.now
        × (length body.old ≡ 10368)
        × (length starts.old ≡ 257)
        × (length numbers.old ≡ 256) }
    ensures middle { Middle words.now place extra.now result body.new starts.new
        numbers.new body.old starts.old numbers.old }
    ensures body_len_unchanged { (length body.new ≡ length body.old)
        × (length starts.new ≡ length starts.old)
        × (length numbers.new ≡ length numbers.old)
        × (result.trips ≡ place + 1)
        × (result.stops ≡ start_at words.now place + stop_count extra.now) }
{
    let before = fill_front(words, place, body, starts, numbers);
    append(extra, 0, 1, body, starts, numbers, before)
}

// Puts the timetable together that has the trip of the other at this place.
fn fill_with(
    words: &[u16],
    place: usize,
    extra: &[u16],
    body: &mut [u16],
    starts: &mut [u16],
    numbers: &mut [u16],
) -> Counts
    requires { (16384 ≤ length words.now)
        × (16384 ≤ length extra.now)
        × (is_timetable words.now ≡ true)
        × (place ≤ trip_count words.now)
        × Fitting words.now extra.now
        × (length body.old ≡ 10368)
        × (length starts.old ≡ 257)
        × (length numbers.old ≡ 256) }
    ensures filled { Filled (put_in (timetable_of words.now) place (timetable_of extra.now)) result
        body.new starts.new numbers.new body.old starts.old
        numbers.old }
    ensures body_len_unchanged { (length body.new ≡ length body.old)
        × (length starts.new ≡ length starts.old)
        × (length numbers.new ≡ length numbers.old)
        × (result.trips ≤ 256)
        × (result.stops ≤ 2048) }
{
    let trips = words::word(words, 1) as usize;
    let before = fill_middle(words, place, extra, body, starts, numbers);
    append(words, place, trips, body, starts, numbers, before)
}

// Puts the trip of the other timetable in at this place.
pub fn put_in(timetable: &mut [u16], place: usize, extra: &[u16])
    requires { (16384 ≤ length timetable.old)
        × (16384 ≤ length extra.now)
        × (is_timetable timetable.old ≡ true)
        × (place ≤ trip_count timetable.old)
        × Fitting timetable.old extra.now }
    ensures timetable_after { timetable.new
        ≡ put 0 (words (put_in (timetable_of timetable.old) place (timetable_of extra.now)))
        timetable.old }
    ensures timetable_len_unchanged { length timetable.new ≡ length timetable.old }
{
    let mut body = [0u16; timetable::BODY_WORDS];
    let mut starts = [0u16; timetable::STARTS_WORDS];
    let mut numbers = [0u16; timetable::NUMBERS_WORDS];
    let all = fill_with(
        timetable,
        place,
        extra,
        &mut body,
        &mut starts,
        &mut numbers,
    );
    write_over(timetable, all, &body, &starts, &numbers);
}
