//! Which number a line has, after the lines before it: questions 3 to 6 to a line of a shape, in a text or among the
//! lines of an extra trip.
#![tactic(auto)]

ghost use Rattle.std.specs.Prelude.{◌≡◌, cond};
ghost use Rattle.questions.specs.Refused.{number_seen};
ghost use Rattle.text_shapes.specs.declared.Line.TheVariants.{Station, Walk, Stop};
ghost use Rattle.reading_lines.specs.Draft.{walk_in_range, stop_in_range, extra_station, extra_walk, extra_in_range};
ghost use Rattle.reading_lines.specs.Progress.{
  Within,
  Running,
  station_number_at,
  rises_at,
  walk_fits_at,
  walk_number_at,
  stop_number_at,
  stop_fits_at,
  place_of_extra,
  room_for_extra,
  extra_stop_at,
  line_number_at,
};

use questions::Refusal;
use text_shapes::{StationLine, StopLine, WalkLine};

const STATIONS_MOST: usize = timetable::STATIONS_MOST as usize;

const WALKS_MOST: usize = timetable::WALKS_MOST as usize;

const TRIPS_MOST: usize = timetable::TRIPS_MOST as usize;

const STOPS_MOST: usize = timetable::STOPS_MOST as usize;

// How far the lines of a text have come: stations, walks, and the stations of the walk before, where there is one;
// ended trips, stops in all, stops of the begun trip, and the station and departure of the stop before, where a trip
// has begun.
#[derive(Clone, Copy)]
pub struct Progress {
    pub stations: usize,
    pub walks: usize,
    pub from: u32,
    pub to: u32,
    pub trips: usize,
    pub stops: usize,
    pub begun: usize,
    pub station: u32,
    pub depart: u32,
}

// What lines are read: those of a text, or those of one extra trip, which has its number and comes to so many trips and
// stops that run.
#[derive(Clone, Copy)]
pub struct Rules {
    pub extra: bool,
    pub number: u32,
    pub trips: usize,
    pub stops: usize,
}

// Questions 3 to 5 to a station line.
fn station_number(p: Progress, l: StationLine) -> Result<(), Refusal>
    requires { Within p }
    ensures { number_seen result ≡ station_number_at p l }
{
    text::range_number(text::CHANGE_MINUTES, l.minutes)?;
    text::range_number(text::CHANGE_PENALTY, l.points)?;
    if p.walks != 0 {
        return Err(Refusal::Place);
    }
    if p.stops != 0 {
        return Err(Refusal::Place);
    }
    if l.number as usize != p.stations + 1 {
        return Err(Refusal::Place);
    }
    if STATIONS_MOST <= p.stations {
        return Err(Refusal::Count);
    }
    Ok(())
}

// Question 3 to a walk line.
fn walk_in_range(l: WalkLine) -> Result<(), Refusal>
    ensures { number_seen result ≡ cond (walk_in_range l) 0 3 }
{
    text::range_number(text::WALK_MINUTES, l.minutes)?;
    text::range_number(text::CHANGE_PENALTY, l.points)
}

// The walk comes after the one before: by from, then to.
fn walk_rises(p: Progress, l: WalkLine) -> bool
    ensures { result ≡ rises_at p l }
{
    if p.walks == 0 {
        return true;
    }
    if p.from < l.from {
        return true;
    }
    if p.from != l.from {
        return false;
    }
    p.to < l.to
}

// Question 6 to a walk line.
fn walk_fits(p: Progress, l: WalkLine) -> bool
    requires { Within p }
    ensures { result ≡ walk_fits_at p l }
{
    if l.from < 1 {
        return false;
    }
    if p.stations < l.from as usize {
        return false;
    }
    if l.to < 1 {
        return false;
    }
    l.to as usize <= p.stations
}

// Questions 3 to 6 to a walk line.
fn walk_number(p: Progress, l: WalkLine) -> Result<(), Refusal>
    requires { Within p }
    ensures { number_seen result ≡ walk_number_at p l }
{
    walk_in_range(l)?;
    if p.stops != 0 {
        return Err(Refusal::Place);
    }
    if !walk_rises(p, l) {
        return Err(Refusal::Place);
    }
    if WALKS_MOST <= p.walks {
        return Err(Refusal::Count);
    }
    if walk_fits(p, l) {
        return Ok(());
    }
    Err(Refusal::Fit)
}

// Question 3 to a stop line.
fn stop_in_range(l: StopLine) -> Result<(), Refusal>
    ensures { number_seen result ≡ cond (stop_in_range l) 0 3 }
{
    text::range_number(text::TIME, l.arrive)?;
    text::range_number(text::TIME, l.depart)?;
    text::range_number(text::RIDE_PENALTY, l.points)?;
    text::range_number(text::MARK, l.mark)
}

// Question 6 to a stop line.
fn stop_fits(p: Progress, l: StopLine) -> bool
    requires { Within p }
    ensures { result ≡ stop_fits_at p l }
{
    if l.station < 1 {
        return false;
    }
    if p.stations < l.station as usize {
        return false;
    }
    if p.begun == 0 {
        return true;
    }
    if l.station == p.station {
        return false;
    }
    if l.arrive <= p.depart {
        return false;
    }
    if l.last {
        return true;
    }
    l.arrive <= l.depart
}

// Questions 3 to 6 to a stop line.
fn stop_number(p: Progress, l: StopLine) -> Result<(), Refusal>
    requires { Within p }
    ensures { number_seen result ≡ stop_number_at p l }
{
    stop_in_range(l)?;
    if l.trip as usize != p.trips + 1 {
        return Err(Refusal::Place);
    }
    if l.stop as usize != p.begun + 1 {
        return Err(Refusal::Place);
    }
    if TRIPS_MOST <= p.trips {
        return Err(Refusal::Count);
    }
    if STOPS_MOST <= p.stops {
        return Err(Refusal::Count);
    }
    if stop_fits(p, l) {
        return Ok(());
    }
    Err(Refusal::Fit)
}

// Questions 3 and 4 to a station line of an extra trip: none is in place there.
fn extra_station(l: StationLine) -> Result<(), Refusal>
    ensures { number_seen result ≡ extra_station l }
{
    text::range_number(text::CHANGE_MINUTES, l.minutes)?;
    text::range_number(text::CHANGE_PENALTY, l.points)?;
    Err(Refusal::Place)
}

// Questions 3 and 4 to a walk line of an extra trip: none is in place there either.
fn extra_walk(l: WalkLine) -> Result<(), Refusal>
    ensures { number_seen result ≡ extra_walk l }
{
    walk_in_range(l)?;
    Err(Refusal::Place)
}

// Question 3 to a stop line of an extra trip.
fn extra_in_range(l: StopLine) -> Result<(), Refusal>
    ensures { number_seen result ≡ cond (extra_in_range l) 0 3 }
{
    if l.trip < 1 {
        return Err(Refusal::Range);
    }
    stop_in_range(l)
}

// Question 4 to a stop line of an extra trip.
fn extra_in_place(rules: Rules, p: Progress, l: StopLine) -> bool
    requires { Within p }
    ensures { result ≡ place_of_extra rules p l }
{
    if l.trip != rules.number {
        return false;
    }
    if p.trips != 0 {
        return false;
    }
    l.stop as usize == p.begun + 1
}

// Question 5 to a stop line of an extra trip: the trips and stops that run count.
fn extra_counted(rules: Rules, p: Progress) -> bool
    requires { Within p × Running rules }
    ensures { result ≡ room_for_extra rules p }
{
    if TRIPS_MOST <= rules.trips + p.trips {
        return false;
    }
    rules.stops + p.stops < STOPS_MOST
}

// Questions 3 to 6 to a stop line of an extra trip.
fn extra_stop(rules: Rules, p: Progress, l: StopLine) -> Result<(), Refusal>
    requires { Within p × Running rules }
    ensures { number_seen result ≡ extra_stop_at rules p l }
{
    extra_in_range(l)?;
    if !extra_in_place(rules, p, l) {
        return Err(Refusal::Place);
    }
    if !extra_counted(rules, p) {
        return Err(Refusal::Count);
    }
    if stop_fits(p, l) {
        return Ok(());
    }
    Err(Refusal::Fit)
}

// Questions 3 to 6 to a station line, in a text or of an extra trip.
pub fn station_asked(rules: Rules, p: Progress, l: StationLine) -> Result<(), Refusal>
    requires { Within p }
    ensures { number_seen result ≡ line_number_at rules p (Station l) }
{
    if rules.extra {
        return extra_station(l);
    }
    station_number(p, l)
}

// The same to a walk line.
pub fn walk_asked(rules: Rules, p: Progress, l: WalkLine) -> Result<(), Refusal>
    requires { Within p }
    ensures { number_seen result ≡ line_number_at rules p (Walk l) }
{
    if rules.extra {
        return extra_walk(l);
    }
    walk_number(p, l)
}

// The same to a stop line.
pub fn stop_asked(rules: Rules, p: Progress, l: StopLine) -> Result<(), Refusal>
    requires { Within p × Running rules }
    ensures { number_seen result ≡ line_number_at rules p (Stop l) }
{
    if rules.extra {
        return extra_stop(rules, p, l);
    }
    stop_number(p, l)
}
