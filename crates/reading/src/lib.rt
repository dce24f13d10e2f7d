//! Reading a timetable text into the lent words of a timetable: questions 8 and 1 to 7; and reading the lines of an
//! extra trip, for which questions 2 to 7 are put to the lines after those that run already.
#![tactic(auto)]

ghost use Rattle.std.specs.Prelude.{◌≡◌, ◌+◌, ◌≤◌, ◌<◌, cond, length, set};
ghost use Rattle.text_shapes.specs.Shape.{shape_of};
ghost use Rattle.text_shapes.specs.declared.Line.TheVariants.{Station, Walk, Stop};
ghost use Rattle.lists.specs.Lists.{range};
ghost use Rattle.words.specs.Put.{put};
ghost use Rattle.timetable.specs.Words.{joined};
ghost use Rattle.reading_lines.specs.Progress.{Within, Running};
ghost use Rattle.reading.specs.Reply.{read_seen};
ghost use Rattle.reading.specs.Next.{next_seen};
ghost use Rattle.reading.specs.Lines.{lines_seen};
ghost use Rattle.reading.specs.Reading.{read_reply, values_of, read_values, read_words};
ghost use Rattle.reading.specs.Model.{
  read_after,
  advance,
  next_of,
  body_after,
  starts_after,
  walking_after,
  is_there,
  end_of,
  LinesRead,
};

use questions::Refusal;
use reading_lines::{Progress, Rules};
use text_shapes::{Line, StationLine, StopLine, WalkLine};

const LINE_END: u8 = 10;

const TEXT_MOST: usize = 65536;

const TRIPS_MOST: usize = timetable::TRIPS_MOST as usize;

// The question that has the first no, and the line that it was put to: 0 where it was put to none.
#[derive(Clone, Copy, PartialEq, Eq)]
pub struct RefusedLine {
    pub refusal: Refusal,
    pub line: u32,
}

impl From<Refusal> for RefusedLine {
    ghost from_gives = { λ refusal refused. refused ≡ record { refusal = refusal; line = 0 } };

    fn from(refusal: Refusal) -> RefusedLine {
        RefusedLine { refusal, line: 0 }
    }
}

// Puts the questions to a station line, and where all have a yes takes its words.
fn take_station(
    rules: Rules,
    p: Progress,
    l: StationLine,
    body: &mut [u16],
) -> Result<Progress, Refusal>
    requires { Within p × (length body.old ≡ 10368) }
    ensures { (next_seen result ≡ next_of rules p (Station l))
        × (body.new ≡ body_after rules p (Station l) body.old) }
{
    reading_lines::station_asked(rules, p, l)?;
    words::narrow(body, 2 * p.stations + 5 * p.stops, &[l.minutes, l.points]);
    Ok(Progress {
        stations: p.stations + 1,
        ..p
    })
}

// Puts the questions to a walk line, and where all have a yes takes its words.
fn take_walk(
    rules: Rules,
    p: Progress,
    l: WalkLine,
    walking: &mut [u16],
) -> Result<Progress, Refusal>
    requires { Within p × (length walking.old ≡ 1024) }
    ensures { (next_seen result ≡ next_of rules p (Walk l))
        × (walking.new ≡ walking_after rules p (Walk l) walking.old) }
{
    reading_lines::walk_asked(rules, p, l)?;
    let place = 4 * p.walks;
    words::narrow(walking, place, &[l.from, l.to, l.minutes, l.points]);
    Ok(Progress {
        walks: p.walks + 1,
        from: l.from,
        to: l.to,
        ..p
    })
}

// The progress after a stop line.
fn after_stop(p: Progress, l: StopLine) -> Progress
    requires { Within p }
    ensures { result ≡ advance p (Stop l) }
{
    if l.last {
        return Progress {
            trips: p.trips + 1,
            stops: p.stops + 1,
            begun: 0,
            station: 0,
            depart: 0,
            ..p
        };
    }
    Progress {
        stops: p.stops + 1,
        begun: p.begun + 1,
        station: l.station,
        depart: l.depart,
        ..p
    }
}

// A trip's last stop says where the next trip begins.
fn mark_start(p: Progress, last: bool, starts: &mut [u16])
    requires { (p.trips < 256) × (p.stops < 2048) × (length starts.old ≡ 257) }
    ensures { starts.new ≡ cond last (set starts.old (p.trips + 1) (p.stops + 1))
        starts.old }
{
    if last {
        let next = p.trips + 1;
        starts[next] = (p.stops + 1) as u16;
    }
}

// Puts the questions to a stop line, and where all have a yes takes its words.
fn take_stop(
    rules: Rules,
    p: Progress,
    l: StopLine,
    body: &mut [u16],
    starts: &mut [u16],
) -> Result<Progress, Refusal>
    requires { Within p × Running rules × (length body.old ≡ 10368) × (length starts.old ≡ 257) }
    ensures { (next_seen result ≡ next_of rules p (Stop l))
        × (body.new ≡ body_after rules p (Stop l) body.old)
        × (starts.new ≡ starts_after rules p (Stop l) starts.old) }
{
    reading_lines::stop_asked(rules, p, l)?;
    words::narrow(
        body,
        2 * p.stations + 5 * p.stops,
        &[l.station, l.arrive, l.depart, l.points, l.mark],
    );
    mark_start(p, l.last, starts);
    Ok(after_stop(p, l))
}

// Takes a line, without its line end: the progress after it, or the first no.
fn take_line(
    rules: Rules,
    p: Progress,
    line: &[u8],
    body: &mut [u16],
    starts: &mut [u16],
    walking: &mut [u16],
) -> Result<Progress, Refusal>
    requires { Within p
        × Running rules
        × (length body.old ≡ 10368)
        × (length starts.old ≡ 257)
        × (length walking.old ≡ 1024) }
    ensures { (next_seen result ≡ next_of rules p (shape_of line.now))
        × (body.new ≡ body_after rules p (shape_of line.now) body.old)
        × (starts.new ≡ starts_after rules p (shape_of line.now) starts.old)
        × (walking.new ≡ walking_after rules p (shape_of line.now) walking.old) }
{
    match text_shapes::shape(line) {
        Line::Station(l) => take_station(rules, p, l, body),
        Line::Walk(l) => take_walk(rules, p, l, walking),
        Line::Stop(l) => take_stop(rules, p, l, body, starts),
        Line::Shapeless => Err(Refusal::Shape),
    }
}

// What question 7 wants to be there: a station, or the extra trip.
fn is_there(rules: Rules, p: Progress) -> bool
    ensures { result ≡ is_there rules p }
{
    if rules.extra {
        return p.trips == 1;
    }
    1 <= p.stations
}

// Question 7, when all lines are read: line is their number plus one.
fn end_lines(rules: Rules, p: Progress, line: u32) -> Result<(Progress, u32), RefusedLine>
    requires { 1 ≤ line }
    ensures { lines_seen result ≡ end_of rules p line }
{
    let refused = RefusedLine {
        refusal: Refusal::End,
        line,
    };
    if !is_there(rules, p) {
        return Err(refused);
    }
    if p.begun != 0 {
        return Err(refused);
    }
    Ok((p, line - 1))
}

// Reads all lines, into the words of stations and stops, the places where trips begin and the words of walks. So many
// stations stand in the words already.
pub fn read_lines(
    rules: Rules,
    stations: usize,
    text: &[u8],
    body: &mut [u16],
    starts: &mut [u16],
    walking: &mut [u16],
) -> Result<(Progress, u32), RefusedLine>
    requires { Running rules
        × (stations ≤ 64)
        × (length body.old ≡ 10368)
        × (length starts.old ≡ 257)
        × (length walking.old ≡ 1024) }
    ensures { LinesRead rules (read_after rules body.old stations text.now)
        (lines_seen result) body.new starts.new walking.new body.old starts.old
        walking.old }
{
    starts[0] = 0;
    let n = text.len();
    let mut p = Progress {
        stations,
        walks: 0,
        from: 0,
        to: 0,
        trips: 0,
        stops: 0,
        begun: 0,
        station: 0,
        depart: 0,
    };
    let mut line = 1;
    let mut from = 0;
    // Stays: from goes on to behind the line's end, which no range counts.
    loop {
        let end = text::piece_end(text, LINE_END, from);
        if end == n {
            if from == n {
                return end_lines(rules, p, line);
            }
            return Err(RefusedLine {
                refusal: Refusal::Shape,
                line,
            });
        }
        match take_line(rules, p, &text[from..end], body, starts, walking) {
            Ok(q) => {
                p = q;
            }
            Err(refusal) => {
                return Err(RefusedLine { refusal, line });
            }
        }
        line += 1;
        from = end + 1;
    }
}

// Writes the numbers 1, 2, 3..: the trips of a text have no others.
fn count_trips(numbers: &mut [u16])
    requires { length numbers.old ≡ 256 }
    ensures { numbers.new ≡ range 1 256 }
{
    for k in 0..TRIPS_MOST {
        numbers[k] = (k + 1) as u16;
    }
}

// Writes the timetable that the lines of a text say, whose trips have the numbers 1, 2, 3.. .
fn write_timetable(
    timetable: &mut [u16],
    p: Progress,
    body: &[u16],
    starts: &[u16],
    walking: &[u16],
)
    requires { (p.stations ≤ 64)
        × (p.trips ≤ 256)
        × (p.stops ≤ 2048)
        × (p.walks ≤ 256)
        × (16384 ≤ length timetable.old)
        × (length body.now ≡ 10368)
        × (length starts.now ≡ 257)
        × (length walking.now ≡ 1024) }
    ensures timetable_after { timetable.new
        ≡ put 0 (joined p.stations p.trips p.stops p.walks body.now starts.now
        (range 1 256) walking.now) timetable.old }
    ensures timetable_len_unchanged { length timetable.new ≡ length timetable.old }
{
    let mut numbers = [0u16; timetable::NUMBERS_WORDS];
    count_trips(&mut numbers);
    timetable_writing::write_words(
        timetable, p.stations, p.trips, p.stops, p.walks, body, starts, &numbers, walking,
    );
}

// Reads a text into the lent words of a timetable. Returns the number of lines.
pub fn read(text: &[u8], timetable: &mut [u16]) -> Result<u32, RefusedLine>
    ensures reply { read_seen result ≡ read_reply text.now (length timetable.old) }
    ensures values { values_of (read_seen result) ≡ read_values text.now (length timetable.old) }
    ensures words { timetable.new ≡ read_words text.now timetable.old }
{
    if timetable.len() < timetable::WORDS_LEAST {
        return Err(RefusedLine {
            refusal: Refusal::Space,
            line: 0,
        });
    }
    if TEXT_MOST < text.len() {
        return Err(RefusedLine {
            refusal: Refusal::TextTooLong,
            line: 0,
        });
    }
    let mut body = [0u16; timetable::BODY_WORDS];
    let mut starts = [0u16; timetable::STARTS_WORDS];
    let mut walking = [0u16; timetable::WALKING_WORDS];
    let rules = Rules {
        extra: false,
        number: 0,
        trips: 0,
        stops: 0,
    };
    let (p, lines) = read_lines(rules, 0, text, &mut body, &mut starts, &mut walking)?;
    write_timetable(timetable, p, &body, &starts, &walking);
    Ok(lines)
}
