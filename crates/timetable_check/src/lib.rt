//! Question 9, from its parts: can a text and changes after it lead to these words?
#![tactic(auto)]

ghost use Rattle.std.specs.Prelude.{◌≡◌, ◌+◌, ◌≤◌, ◌<◌, length};
ghost use Rattle.timetable.specs.Timetable.{valid_station, valid_stations, valid_walk, walk_before, valid_walks, climb};
ghost use Rattle.timetable.specs.Words.{station_count, trip_count, stop_count, is_timetable, timetable_number};
ghost use Rattle.timetable.specs.Check.{stations_at, numbers_at, walks_at, footed_from};
ghost use Rattle.questions.specs.Refused.{number_seen};
ghost use Rattle.timetable_check.specs.Standing.{walk_stands};

use questions::Refusal;
use timetable::{Station, Walk};

const NUMBER_MOST: u32 = timetable::NUMBER_MOST;

const CHANGE_MINUTES_MOST: u32 = 240;

const CHANGE_PENALTY_MOST: u32 = 1000;

const WALK_MINUTES_MOST: u32 = 60;

fn station_is_valid(s: Station) -> bool
    ensures { result ≡ valid_station s }
{
    if CHANGE_MINUTES_MOST < s.minutes {
        return false;
    }
    if s.points < 1 {
        return false;
    }
    s.points <= CHANGE_PENALTY_MOST
}

fn stations_are_valid(words: &[u16], n: usize) -> bool
    requires { (16384 ≤ length words.now) × (n ≤ 64) }
    ensures { result ≡ valid_stations (stations_at words.now 0 n) }
{
    for i in 0..n {
        if !station_is_valid(timetable::station_at(words, i)) {
            return false;
        }
    }
    true
}

// The walk's stations are listed, of n stations, and its minutes and penalty are in range.
fn walk_is_valid(n: u32, v: Walk) -> bool
    ensures { result ≡ valid_walk n v }
{
    if v.from < 1 {
        return false;
    }
    if n < v.from {
        return false;
    }
    if v.to < 1 {
        return false;
    }
    if n < v.to {
        return false;
    }
    if v.minutes < 1 {
        return false;
    }
    if WALK_MINUTES_MOST < v.minutes {
        return false;
    }
    if v.points < 1 {
        return false;
    }
    v.points <= CHANGE_PENALTY_MOST
}

// Walk v can come before walk u.
fn walk_is_before(v: Walk, u: Walk) -> bool
    ensures { result ≡ walk_before v u }
{
    if v.from < u.from {
        return true;
    }
    if v.from != u.from {
        return false;
    }
    v.to < u.to
}

// Walk k of so many is valid and comes before the next.
fn walk_stands(words: &[u16], n: u32, k: usize, walks: usize) -> bool
    requires { (16384 ≤ length words.now)
        × (station_count words.now ≤ 64)
        × (trip_count words.now ≤ 256)
        × (stop_count words.now ≤ 2048)
        × (k < walks)
        × (walks ≤ 256) }
    ensures { result ≡ walk_stands words.now n k walks }
{
    let v = timetable::walk_at(words, k);
    if !walk_is_valid(n, v) {
        return false;
    }
    if walks <= k + 1 {
        return true;
    }
    walk_is_before(v, timetable::walk_at(words, k + 1))
}

fn walks_are_valid(words: &[u16], n: u32, walks: usize) -> bool
    requires { (16384 ≤ length words.now)
        × (station_count words.now ≤ 64)
        × (trip_count words.now ≤ 256)
        × (stop_count words.now ≤ 2048)
        × (walks ≤ 256) }
    ensures { result ≡ valid_walks n (walks_at words.now 0 walks) }
{
    for k in 0..walks {
        if !walk_stands(words, n, k, walks) {
            return false;
        }
    }
    true
}

// The counts of walks by station are those of the walks.
fn walks_are_counted(words: &[u16], stations: usize, walks: usize) -> bool
    requires { (16384 ≤ length words.now)
        × (station_count words.now ≤ 64)
        × (trip_count words.now ≤ 256)
        × (stop_count words.now ≤ 2048)
        × (stations ≤ 64)
        × (walks ≤ 256) }
    ensures { result ≡ footed_from words.now (walks_at words.now 0 walks) 0 (stations + 1) }
{
    let place = timetable::walks_place(words);
    for y in 0..stations + 1 {
        if timetable::walks_to(words, y) != timetable::count_to(words, place, walks, y as u32) {
            return false;
        }
    }
    true
}

// The numbers of the trips rise, from 1 at least to the greatest at most.
fn numbers_climb(words: &[u16], trips: usize) -> bool
    requires { (16384 ≤ length words.now)
        × (station_count words.now ≤ 64)
        × (trip_count words.now ≤ 256)
        × (stop_count words.now ≤ 2048)
        × (trips ≤ 256) }
    ensures { result ≡ climb 0 (numbers_at words.now 0 trips) }
{
    let mut last = 0;
    for k in 0..trips {
        let number = timetable::number_at(words, k);
        if number <= last {
            return false;
        }
        if NUMBER_MOST < number {
            return false;
        }
        last = number;
    }
    true
}

// Question 9.
pub fn is_timetable(words: &[u16]) -> bool
    requires { 16384 ≤ length words.now }
    ensures { result ≡ is_timetable words.now }
{
    let stations = words::word(words, 0);
    if stations < 1 {
        return false;
    }
    if timetable::STATIONS_MOST < stations {
        return false;
    }
    let trips = words::word(words, 1);
    if timetable::TRIPS_MOST < trips {
        return false;
    }
    let stops = words::word(words, 2);
    if timetable::STOPS_MOST < stops {
        return false;
    }
    if timetable::start_at(words, 0) != 0 {
        return false;
    }
    if !numbers_climb(words, trips as usize) {
        return false;
    }
    if !stations_are_valid(words, stations as usize) {
        return false;
    }
    let walks = timetable::walks_to(words, stations as usize);
    if (timetable::WALKS_MOST as usize) < walks {
        return false;
    }
    if !walks_are_valid(words, stations, walks) {
        return false;
    }
    if !walks_are_counted(words, stations as usize, walks) {
        return false;
    }
    timetable_trips::trips_are_valid(words, stations, trips as usize, stops as usize)
}

// Questions 8 and 9 to lent timetable words.
pub fn timetable_number(words: &[u16]) -> Result<(), Refusal>
    ensures { number_seen result ≡ timetable_number words.now }
{
    if words.len() < timetable::WORDS_LEAST {
        return Err(Refusal::Space);
    }
    if is_timetable(words) {
        return Ok(());
    }
    Err(Refusal::NoTimetable)
}
