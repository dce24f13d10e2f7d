//! Line tables by their words: the lines, their courses, trips and times, and the lists of stations.
#![tactic(auto)]

ghost use Rattle.std.specs.Prelude.{◌≡◌, ◌-◌, ◌≤◌, ◌<◌, get_or};
ghost use Rattle.lines_lookup.specs.First.{first_trip};
ghost use Rattle.lines_lookup.specs.Calls.{call_at, calls_of, calls_in, Inside, later, after, BoardsAt, Within};
ghost use Rattle.lines_lookup.specs.Lookup.{
  line_at,
  number_at,
  word_at,
  station_at,
  mark_at,
  boards_at,
  alights_at,
  low_at,
  total_at,
  times_place,
  arrive_at,
  depart_at,
  calls_place,
};

use results::Points;

// The words of a position on a line, and the values that one word has.
const POSITION_WORDS: usize = lines_tables::POSITION_WORDS;

const WORD_VALUES: usize = lines_tables::WORD_VALUES as usize;

const MARK_UNIT: usize = lines_tables::MARK_UNIT as usize;

// The marks that close a stop to one of the two.
const BOARDING_ONLY: usize = 1;

const SETTING_DOWN_ONLY: usize = 2;

// A line: where its words begin, its positions and its trips.
// Stays: that each fits 16 bits is no part of the type, since line_at of specs/ makes lines of any numbers.
#[derive(Clone, Copy, Default)]
pub struct Line {
    pub at: usize,
    pub positions: usize,
    pub trips: usize,
}

// A piece of line tables: the words from one index up to before another.
#[derive(Clone, Copy)]
pub struct Piece {
    pub from: usize,
    pub end: usize,
}

// A call in the list of a station: the place of its line, and the place on it. Calls come in this order there.
#[derive(Clone, Copy, PartialEq, Eq, PartialOrd, Ord)]
pub struct Call {
    pub line: usize,
    pub place: usize,
}

// A call to board at, its line, the total there, and the calls that are left to alight at.
#[derive(Clone, Copy)]
pub struct Boarding {
    pub call: Call,
    pub line: Line,
    pub total: Points,
    pub rest: Piece,
}

// The word at index i, or 0 past the end.
pub fn peek(v: &[u16], i: usize) -> usize
    ensures { (result ≡ get_or v.now i 0) × (result < 65536) }
{
    if i < v.len() {
        return words::word(v, i) as usize;
    }
    0
}

// The line at place i.
pub fn line_at(v: &[u16], i: usize) -> Line
    requires { i < 65536 }
    ensures value { result ≡ line_at v.now i }
    ensures at_bound { (result.at < 65536) × (result.positions < 65536) × (result.trips < 65536) }
{
    let at = peek(v, 4 + i);
    let positions = peek(v, at);
    let trips = peek(v, at + 1);
    Line {
        at,
        positions,
        trips,
    }
}

// The number of the trip at place j of a line.
pub fn number_at(v: &[u16], l: Line, j: usize) -> usize
    requires { (l.at < 65536) × (j < 65536) }
    ensures { (result ≡ number_at v.now l j) × (result < 65536) }
{
    peek(v, l.at + 2 + j)
}

// The word of station and mark at place p of a line.
fn word_at(v: &[u16], l: Line, p: usize) -> usize
    requires { (l.at < 65536) × (l.trips < 65536) × (p < 65536) }
    ensures { (result ≡ word_at v.now l p) × (result < 65536) }
{
    peek(v, l.at + 2 + l.trips + POSITION_WORDS * p)
}

// The station at place p of a line.
pub fn station_at(v: &[u16], l: Line, p: usize) -> usize
    requires { (l.at < 65536) × (l.trips < 65536) × (p < 65536) }
    ensures { (result ≡ station_at v.now l p) × (result < 65536) }
{
    word_at(v, l, p) % MARK_UNIT
}

// The mark at place p of a line.
pub fn mark_at(v: &[u16], l: Line, p: usize) -> usize
    requires { (l.at < 65536) × (l.trips < 65536) × (p < 65536) }
    ensures { (result ≡ mark_at v.now l p) × (result < 65536) }
{
    word_at(v, l, p) / MARK_UNIT
}

// Whether riders may board at place p of a line.
pub fn may_board(v: &[u16], l: Line, p: usize) -> bool
    requires { (l.at < 65536) × (l.trips < 65536) × (p < 65536) }
    ensures { result ≡ boards_at v.now l p }
{
    mark_at(v, l, p) != SETTING_DOWN_ONLY
}

// Whether riders may alight at place p of a line.
pub fn may_alight(v: &[u16], l: Line, p: usize) -> bool
    requires { (l.at < 65536) × (l.trips < 65536) × (p < 65536) }
    ensures { result ≡ alights_at v.now l p }
{
    mark_at(v, l, p) != BOARDING_ONLY
}

// The low word of the total at place p of a line.
pub fn low_at(v: &[u16], l: Line, p: usize) -> usize
    requires { (l.at < 65536) × (l.trips < 65536) × (p < 65536) }
    ensures { (result ≡ low_at v.now l p) × (result < 65536) }
{
    peek(v, l.at + 2 + l.trips + POSITION_WORDS * p + 1)
}

// What the rides of a line cost from its first place up to place p: a low word and a high word.
pub fn total_at(v: &[u16], l: Line, p: usize) -> Points
    requires { (l.at < 65536) × (l.trips < 65536) × (p < 65536) }
    ensures { result.0 ≡ total_at v.now l p }
{
    let total = low_at(v, l, p)
        + WORD_VALUES * peek(v, l.at + 2 + l.trips + POSITION_WORDS * p + 2);
    Points(total as u32)
}

// The index where the arrivals at place p of a line begin.
fn times_place(l: Line, p: usize) -> usize
    requires { (l.at < 65536) × (l.positions < 65536) × (l.trips < 65536) × (p < 65536) }
    ensures { (result ≡ times_place l p) × (result < 9000000000) }
{
    l.at + 2 + l.trips + POSITION_WORDS * l.positions + 2 * (p * l.trips)
}

// When the trip at place j of a line arrives at place p.
pub fn arrive_at(v: &[u16], l: Line, p: usize, j: usize) -> usize
    requires { (l.at < 65536) × (l.positions < 65536) × (l.trips < 65536) × (p < 65536) × (j < 65536) }
    ensures { (result ≡ arrive_at v.now l p j) × (result < 65536) }
{
    peek(v, times_place(l, p) + j)
}

// When the trip at place j of a line departs from place p.
pub fn depart_at(v: &[u16], l: Line, p: usize, j: usize) -> usize
    requires { (l.at < 65536) × (l.positions < 65536) × (l.trips < 65536) × (p < 65536) × (j < 65536) }
    ensures { (result ≡ depart_at v.now l p j) × (result < 65536) }
{
    peek(v, times_place(l, p) + l.trips + j)
}

// Where the list of station s + 1 begins.
fn calls_place(v: &[u16], s: usize) -> usize
    requires { s < 65536 }
    ensures { (result ≡ calls_place v.now s) × (result < 65536) }
{
    peek(v, peek(v, 3) + s)
}

// The list of a station. A station that is not listed has none.
pub fn list_of(v: &[u16], station: usize) -> Piece
    ensures { (calls_in v.now result ≡ calls_of v.now station) × Inside v.now result }
{
    if station < 1 {
        return Piece { from: 0, end: 0 };
    }
    if peek(v, 0) < station {
        return Piece { from: 0, end: 0 };
    }
    let from = calls_place(v, station - 1);
    let end = calls_place(v, station).min(v.len());
    Piece { from, end }
}

// The call at index k. Its numbers count from 1, its places from 0; a word that is 0 where none should be counts as 1.
pub fn call_at(v: &[u16], k: usize) -> Call
    requires { k < 65536 }
    ensures { (result ≡ call_at v.now k) × (result.line < 65536) × (result.place < 65536) }
{
    Call {
        line: peek(v, k).saturating_sub(1),
        place: peek(v, k + 1).saturating_sub(1),
    }
}

// Whether call d stands after call c: on a later line, or at a later place of the same.
fn is_later(c: Call, d: Call) -> bool
    ensures { result ≡ later c d }
{
    c < d
}

// What is left of a list of calls after call c.
fn calls_after(v: &[u16], c: Call, list: Piece) -> Piece
    requires { Inside v.now list }
    ensures { (calls_in v.now result ≡ after c (calls_in v.now list))
        × Inside v.now result }
{
    let end = list.end;
    let mut k = list.from;
    // Stays: a call is two words, and where the walk stops is the answer, which a range keeps in a second variable.
    while k + 1 < end {
        if is_later(c, call_at(v, k)) {
            break;
        }
        k += 2;
    }
    Piece { from: k, end }
}

// Who boards at the call at index k, where some calls are left to alight at: those after it are left then.
pub fn boarding_at(v: &[u16], k: usize, rest: Piece) -> Boarding
    requires { (k < 65536) × Inside v.now rest }
    ensures { BoardsAt v.now k rest result × Within v.now result }
{
    let call = call_at(v, k);
    let line = line_at(v, call.line);
    let total = total_at(v, line, call.place);
    let rest = calls_after(v, call, rest);
    Boarding {
        call,
        line,
        total,
        rest,
    }
}

// The first trip of a line that leaves place x at the minute or later; the number of its trips if none does.
pub fn first_trip(v: &[u16], l: Line, x: usize, minute: usize) -> usize
    requires { (l.at < 65536) × (l.positions < 65536) × (l.trips < 65536) × (x < 65536) }
    ensures { (result ≡ first_trip v.now l x minute) × (result ≤ l.trips) }
{
    for j in 0..l.trips {
        if minute <= depart_at(v, l, x, j) {
            return j;
        }
    }
    l.trips
}
