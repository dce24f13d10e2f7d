//! An extra trip: its lines, read into the words of a timetable that has this trip alone.
#![tactic(auto)]

ghost use Rattle.std.specs.Prelude.{◌≡◌, true, false, ◌≤◌, ◌<◌, [], ◌∷◌, length};
ghost use Rattle.words.specs.Put.{put};
ghost use Rattle.timetable.specs.Changes.{runs_as};
ghost use Rattle.timetable.specs.Words.{timetable_of, is_timetable};
ghost use Rattle.reading.specs.Lines.{lines_seen};
ghost use Rattle.reading.specs.Reading.{read_extra};
ghost use Rattle.changes_extra.specs.Found.{found_seen};
ghost use Rattle.changes_extra.specs.Extra.{StopsRead, TripRead};

use reading::RefusedLine;
use reading_lines::{Progress, Rules};

// Reads the lines of an extra trip behind the stations of the timetable.
fn read_stops(
    words: &[u16],
    number: u32,
    text: &[u8],
    body: &mut [u16],
    starts: &mut [u16],
    walking: &mut [u16],
) -> Result<(Progress, u32), RefusedLine>
    requires { (16384 ≤ length words.now)
        × (is_timetable words.now ≡ true)
        × (runs_as number (timetable_of words.now).numbers ≡ false)
        × (length body.old ≡ 10368)
        × (length starts.old ≡ 257)
        × (length walking.old ≡ 1024) }
    ensures { StopsRead number (read_extra (timetable_of words.now) number text.now)
        (lines_seen result) body.new starts.new }
{
    let rules = Rules {
        extra: true,
        number,
        trips: words::word(words, 1) as usize,
        stops: words::word(words, 2) as usize,
    };
    timetable_writing::copy_stations(words, body);
    reading::read_lines(
        rules,
        words::word(words, 0) as usize,
        text,
        body,
        starts,
        walking,
    )
}

// The number of the one trip.
fn put_number(numbers: &mut [u16], number: u32)
    requires { (length numbers.old ≡ 256) × (number < 65536) }
    ensures numbers_after { numbers.new ≡ put 0 (number ∷ []) numbers.old }
    ensures numbers_len_unchanged { length numbers.new ≡ length numbers.old }
{
    numbers[0] = number as u16;
}

// Reads the lines of an extra trip into the words of a timetable that has the same stations and this trip alone, and no
// walks.
pub fn read_trip(
    words: &[u16],
    number: u32,
    text: &[u8],
    extra: &mut [u16],
) -> Result<(), RefusedLine>
    requires { (16384 ≤ length words.now)
        × (is_timetable words.now ≡ true)
        × (runs_as number (timetable_of words.now).numbers ≡ false)
        × (length extra.old ≡ 16384) }
    ensures trip_read { TripRead (read_extra (timetable_of words.now) number text.now)
        (found_seen result) extra.new extra.old }
    ensures extra_len_unchanged { length extra.new ≡ length extra.old }
{
    let mut body = [0u16; timetable::BODY_WORDS];
    let mut starts = [0u16; timetable::STARTS_WORDS];
    let mut numbers = [0u16; timetable::NUMBERS_WORDS];
    let mut walking = [0u16; timetable::WALKING_WORDS];
    let (p, _) = read_stops(words, number, text, &mut body, &mut starts, &mut walking)?;
    put_number(&mut numbers, number);
    timetable_writing::write_words(
        extra, p.stations, p.trips, p.stops, 0, &body, &starts, &numbers, &walking,
    );
    Ok(())
}
