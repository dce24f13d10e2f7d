//! One least penalty for each minute of the two days: how a query keeps the costs that it has found so far.
//!
//! An array has one word for each minute, the least penalty of those who arrive then. Only this crate knows the words:
//! others read and write them as points, by `points_at`, `set_points` and `set_all`, so that minutes and points cannot
//! be mistaken for each other. A minute of the day is the index of a word, and no duration: `minutes_between` makes one
//! of two.
#![tactic(auto)]

ghost use Rattle.std.specs.Prelude.{◌≡◌, [], ◌∷◌, ◌+◌, ◌-◌, ◌^◌, ◌≤◌, ◌<◌, min, max, leb, ltb, eqb, length, get_or};
ghost use Rattle.std.specs.Prelude.{set, replicate};
ghost use Rattle.words.specs.Put.{put};
ghost use Rattle.query_minutes.specs.Minutes.{no_points, lowered, leads};
ghost use Rattle.query_minutes.specs.Ending.{Floor, LeadsEnd};

use results::{Cost, Minutes, Points};

// The minutes of the two days: 0 to 2,879.
pub const MINUTES: usize = 2880;

// The word of a minute in which no one arrives; every connection has less points.
// Stays: the arrays that callers lend hold it as a word, and specs/Minutes.antt (`no_points`, `blank`) says its number.
pub const NO_POINTS: u32 = u32::MAX;

// Whether a is below b.
// Stays: laws speak of numbers, and this clause and the next four say of them, once for all who compare, what the
// derived comparisons say of points.
pub fn less(a: Points, b: Points) -> bool
    ensures { result ≡ ltb a.0 b.0 }
{
    a < b
}

// Whether a is b or more.
pub fn at_least(a: Points, b: Points) -> bool
    ensures { result ≡ leb b.0 a.0 }
{
    b <= a
}

// Whether the two are the same.
pub fn same(a: Points, b: Points) -> bool
    ensures { result ≡ eqb a.0 b.0 }
{
    a == b
}

// The lesser of two.
pub fn lesser(a: Points, b: Points) -> Points
    ensures { result.0 ≡ min a.0 b.0 }
{
    a.min(b)
}

// The larger of two.
pub fn larger(a: Points, b: Points) -> Points
    ensures { result.0 ≡ max a.0 b.0 }
{
    a.max(b)
}

// The sum of two that fits.
pub fn sum(a: Points, b: Points) -> Points
    requires { a.0 + b.0 < 2 ^ 32 }
    ensures { result.0 ≡ a.0 + b.0 }
{
    Points(a.0 + b.0)
}

// The sum of two, as far as a word holds it: NO_POINTS if it is more.
pub fn sum_held(a: Points, b: Points) -> Points
    ensures { result.0 ≡ min (a.0 + b.0) no_points }
{
    Points(a.0.saturating_add(b.0))
}

// What is left of a once b is paid; none if b is more.
pub fn left_of(a: Points, b: Points) -> Points
    ensures { result.0 ≡ a.0 - b.0 }
{
    Points(a.0.saturating_sub(b.0))
}

// The minutes from one minute of the day to a later one; none if it is not later.
pub fn minutes_between(minute: usize, arrive: usize) -> Minutes
    requires { arrive < 2880 }
    ensures { result.0 ≡ arrive - minute }
{
    Minutes(arrive.saturating_sub(minute) as u32)
}

// Whether a is shorter than b.
pub fn shorter(a: Minutes, b: Minutes) -> bool
    ensures { result ≡ ltb a.0 b.0 }
{
    a < b
}

// The minute of the day so many minutes after another.
pub fn minute_after(minute: usize, wait: Minutes) -> usize
    requires { minute ≤ 65536 }
    ensures { result ≡ minute + wait.0 }
{
    minute + wait.0 as usize
}

// Whether a minute of the day has so many minutes before it.
pub fn has_before(minute: usize, wait: Minutes) -> bool
    ensures { result ≡ leb wait.0 minute }
{
    wait.0 as usize <= minute
}

// The minute of the day so many minutes before another.
pub fn minute_before(minute: usize, wait: Minutes) -> usize
    requires { wait.0 ≤ minute }
    ensures { result ≡ minute - wait.0 }
{
    minute - wait.0 as usize
}

// The points that stand for a minute.
pub fn points_at(best: &[u32], minute: usize) -> Points
    requires { minute < length best.now }
    ensures { result.0 ≡ get_or best.now minute 0 }
{
    Points(best[minute])
}

// Puts points down for a minute.
pub fn set_points(best: &mut [u32], minute: usize, points: Points)
    requires { minute < length best.old }
    ensures best_after { best.new ≡ set best.old minute points.0 }
    ensures best_len_unchanged { length best.new ≡ length best.old }
{
    best[minute] = points.0;
}

// Puts the same points down in every word.
pub fn set_all(best: &mut [u32], points: Points)
    ensures best_after { best.new ≡ replicate (length best.old) points.0 }
    ensures best_len_unchanged { length best.new ≡ length best.old }
{
    best.fill(points.0);
}

// Notes that one can arrive at a minute for some points. A minute past the end is not noted.
pub fn note(best: &mut [u32], arrive: usize, points: Points)
    ensures best_after { best.new ≡ lowered best.old arrive points.0 }
    ensures best_len_unchanged { length best.new ≡ length best.old }
{
    if arrive < best.len() {
        let least = lesser(points_at(best, arrive), points);
        set_points(best, arrive, least);
    }
}

// Writes the cost with which a row of an answer begins.
pub fn write_cost(answer: &mut [u32], at: usize, cost: Cost)
    requires { at + 2 ≤ length answer.old }
    ensures answer_after { answer.new ≡ put at (cost.minutes.0 ∷ cost.points.0 ∷ []) answer.old }
    ensures answer_len_unchanged { length answer.new ≡ length answer.old }
{
    words::copy(answer, at, &[cost.minutes.0, cost.points.0]);
}

// The least penalty of all minutes.
fn least_of(best: &[u32]) -> Points
    requires { length best.now ≡ 2880 }
    ensures { Floor result.0 2880 best.now }
{
    let mut low = Points(NO_POINTS);
    for m in 0..MINUTES {
        low = lesser(low, points_at(best, m));
    }
    low
}

// Where the rows of an answer are: how many minutes have a penalty below those of all earlier minutes, and the minute
// after the last of them.
#[derive(Clone, Copy)]
pub struct Rows {
    pub count: usize,
    pub end: usize,
}

// The rows of the penalties. Most arrive within some hours of the first, so that few minutes of the two days are looked
// at: none after the first that has the least penalty of all.
pub fn find_rows(best: &[u32]) -> Rows
    requires { length best.now ≡ 2880 }
    ensures { (result.count ≡ length (leads no_points 0 best.now))
        × (result.count ≤ 2880)
        × LeadsEnd best.now result.end }
{
    let low = least_of(best);
    let mut count = 0;
    let mut least = Points(NO_POINTS);
    for m in 0..MINUTES {
        let points = points_at(best, m);
        if !less(points, least) {
            continue;
        }
        least = points;
        count += 1;
        if at_least(low, points) {
            return Rows { count, end: m + 1 };
        }
    }
    Rows {
        count,
        end: MINUTES,
    }
}
