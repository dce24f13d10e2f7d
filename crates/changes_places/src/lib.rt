//! Trips by their places: where a trip of some number stands among those of a timetable, and whether it runs.
#![tactic(auto)]

ghost use Rattle.std.specs.Prelude.{◌≡◌, true, ◌≤◌, length};
ghost use Rattle.timetable.specs.Changes.{runs_as, place_of};
ghost use Rattle.timetable.specs.Words.{trip_count, timetable_of, is_timetable};

// The place of a trip of this number: behind all trips of lower numbers.
pub fn place_of(words: &[u16], number: u32) -> usize
    requires { (16384 ≤ length words.now) × (is_timetable words.now ≡ true) }
    ensures { (result ≡ place_of number (timetable_of words.now).numbers)
        × (result ≤ trip_count words.now) }
{
    let trips = words::word(words, 1) as usize;
    for k in 0..trips {
        if number <= timetable::number_at(words, k) {
            return k;
        }
    }
    trips
}

// Whether the trip of this number runs: then it stands in its place.
pub fn is_running(words: &[u16], place: usize, number: u32) -> bool
    requires { (16384 ≤ length words.now)
        × (is_timetable words.now ≡ true)
        × (place ≡ place_of number (timetable_of words.now).numbers) }
    ensures { result ≡ runs_as number (timetable_of words.now).numbers }
{
    if words::word(words, 1) as usize <= place {
        return false;
    }
    timetable::number_at(words, place) == number
}
