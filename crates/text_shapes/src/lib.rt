//! The three shapes of a line of a timetable text.
#![tactic(auto)]

ghost use Rattle.std.specs.Prelude.{◌≡◌, min, length, take};
ghost use Rattle.words.specs.Put.{put};
ghost use Rattle.text_shapes.specs.Shape.{
  station_of,
  walk_of,
  stop_fits,
  stop_of,
  arrive_fits,
  depart_fits,
  filled,
  shape_of,
};
ghost use Rattle.text_shapes.specs.Values.{value_at, line_values};

const COMMA: u8 = text::COMMA;

const STATION: u8 = 83;

const STOP: u8 = 84;

const WALK: u8 = 87;

const EMPTY: u32 = text::EMPTY;

const NUMBER_MOST: u32 = text::NUMBER_MOST;

// The fields after the first of a station line, of a walk line and of a stop line.
const STATION_FIELDS: usize = 3;

const WALK_FIELDS: usize = 4;

const STOP_FIELDS: usize = 7;

// Which of the fields after the first of a stop line are times.
const ARRIVE: usize = 3;

const DEPART: usize = 4;

// One field more than the longest line has shows a line that is too long.
const FIELDS_MOST: usize = STOP_FIELDS + 1;

// A line `S,station,change minutes,change penalty`.
#[derive(Clone, Copy)]
pub struct StationLine {
    pub number: u32,
    pub minutes: u32,
    pub points: u32,
}

// A line `W,from,to,minutes,penalty`.
#[derive(Clone, Copy)]
pub struct WalkLine {
    pub from: u32,
    pub to: u32,
    pub minutes: u32,
    pub points: u32,
}

// A line `T,trip,stop,station,arrive,depart,ride penalty,mark`; an empty field is 0, and last says that depart is
// empty.
// Stays: `stop_of` of specs/Shape.antt says both, and the model of reading asks for `last`.
#[derive(Clone, Copy)]
pub struct StopLine {
    pub trip: u32,
    pub stop: u32,
    pub station: u32,
    pub arrive: u32,
    pub depart: u32,
    pub points: u32,
    pub mark: u32,
    pub last: bool,
}

#[derive(Clone, Copy)]
pub enum Line {
    Station(StationLine),
    Walk(WalkLine),
    Stop(StopLine),
    Shapeless,
}

// The value of field k after the first of a line of a kind: arrive and depart of a stop are times.
fn value_at(kind: u8, k: usize, field: &[u8]) -> u32
    ensures { result ≡ value_at kind k field.now }
{
    if kind != STOP {
        return text::field_value(field);
    }
    if k == ARRIVE {
        return text::time_value(field);
    }
    if k == DEPART {
        return text::time_value(field);
    }
    text::field_value(field)
}

// Writes the values of the first eight fields of s, by the kind of its line, and returns how many it wrote.
fn field_values(kind: u8, s: &[u8], values: &mut [u32]) -> usize
    requires { length values.old ≡ 8 }
    ensures { (result ≡ min 8 (length (line_values kind s.now)))
        × (values.new ≡ put 0 (take 8 (line_values kind s.now)) values.old) }
{
    let n = s.len();
    let mut from = 0;
    for k in 0..FIELDS_MOST {
        let end = text::piece_end(s, COMMA, from);
        values[k] = value_at(kind, k, &s[from..end]);
        if end == n {
            return k + 1;
        }
        from = end + 1;
    }
    FIELDS_MOST
}

// The station line of three values.
fn station_line(number: u32, minutes: u32, points: u32) -> Line
    ensures { result ≡ station_of number minutes points }
{
    if NUMBER_MOST < number {
        return Line::Shapeless;
    }
    if NUMBER_MOST < minutes {
        return Line::Shapeless;
    }
    if NUMBER_MOST < points {
        return Line::Shapeless;
    }
    Line::Station(StationLine {
        number,
        minutes,
        points,
    })
}

// The walk line of four values.
fn walk_line(from: u32, to: u32, minutes: u32, points: u32) -> Line
    ensures { result ≡ walk_of from to minutes points }
{
    if NUMBER_MOST < from {
        return Line::Shapeless;
    }
    if NUMBER_MOST < to {
        return Line::Shapeless;
    }
    if NUMBER_MOST < minutes {
        return Line::Shapeless;
    }
    if NUMBER_MOST < points {
        return Line::Shapeless;
    }
    Line::Walk(WalkLine {
        from,
        to,
        minutes,
        points,
    })
}

// Arrive is empty exactly at stop 1.
fn arrive_fits(stop: u32, arrive: u32) -> bool
    ensures { result ≡ arrive_fits stop arrive }
{
    if stop == 1 {
        return arrive == EMPTY;
    }
    arrive <= NUMBER_MOST
}

// Depart and ride penalty are empty together, and never at stop 1.
fn depart_fits(stop: u32, depart: u32, points: u32) -> bool
    ensures { result ≡ depart_fits stop depart points }
{
    if depart == EMPTY {
        if stop == 1 {
            return false;
        }
        return points == EMPTY;
    }
    if NUMBER_MOST < depart {
        return false;
    }
    points <= NUMBER_MOST
}

// A field's number, 0 where the field is empty.
fn fill(value: u32) -> u32
    ensures { result ≡ filled value }
{
    if value == EMPTY {
        return 0;
    }
    value
}

// The seven values are those of a stop line.
fn stop_fits(
    trip: u32,
    stop: u32,
    station: u32,
    arrive: u32,
    depart: u32,
    points: u32,
    mark: u32,
) -> bool
    ensures { result ≡ stop_fits trip stop station arrive depart points mark }
{
    if NUMBER_MOST < trip {
        return false;
    }
    if NUMBER_MOST < stop {
        return false;
    }
    if NUMBER_MOST < station {
        return false;
    }
    if !arrive_fits(stop, arrive) {
        return false;
    }
    if !depart_fits(stop, depart, points) {
        return false;
    }
    mark <= NUMBER_MOST
}

// The stop line of seven values.
fn stop_line(
    trip: u32,
    stop: u32,
    station: u32,
    arrive: u32,
    depart: u32,
    points: u32,
    mark: u32,
) -> Line
    ensures { result ≡ stop_of trip stop station arrive depart points mark }
{
    if !stop_fits(trip, stop, station, arrive, depart, points, mark) {
        return Line::Shapeless;
    }
    Line::Stop(StopLine {
        trip,
        stop,
        station,
        arrive: fill(arrive),
        depart: fill(depart),
        points: fill(points),
        mark,
        last: depart == EMPTY,
    })
}

// The shape of a line, without its line end.
pub fn shape(line: &[u8]) -> Line
    ensures { result ≡ shape_of line.now }
{
    let n = line.len();
    if n < 2 {
        return Line::Shapeless;
    }
    if line[1] != COMMA {
        return Line::Shapeless;
    }
    let kind = line[0];
    let mut values = [0u32; FIELDS_MOST];
    let count = field_values(kind, &line[2..n], &mut values);
    if kind == STATION {
        if count != STATION_FIELDS {
            return Line::Shapeless;
        }
        return station_line(values[0], values[1], values[2]);
    }
    if kind == WALK {
        if count != WALK_FIELDS {
            return Line::Shapeless;
        }
        return walk_line(values[0], values[1], values[2], values[3]);
    }
    if kind == STOP {
        if count != STOP_FIELDS {
            return Line::Shapeless;
        }
        return stop_line(
            values[0], values[1], values[2], values[3], values[4], values[5], values[6],
        );
    }
    Line::Shapeless
}
