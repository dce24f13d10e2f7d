// The rows of the answer, each written from a cost and the ride that is kept for it.
ghost use Rattle.std.specs.Prelude.{◌≡◌, [], ◌∷◌, ◌+◌, ◌*◌, ◌≤◌, ◌<◌, length};
ghost use Rattle.words.specs.Put.{put};
ghost use Rattle.lists.specs.Lists.{concat_map};
ghost use Rattle.query_minutes.specs.Minutes.{no_points, leads};
ghost use Rattle.query_kept.specs.Keeping.{rows_kept, lead_words};

use crate::rides;
use crate::rides::Found;
use query_minutes::{MINUTES, NO_POINTS};
use results::{Cost, Points};

// The words of a row of the answer.
pub const ROW_WORDS: usize = 6;

// The row of a cost and the ride that is shown for it, from index at on.
fn write_row(answer: &mut [u32], at: usize, cost: Cost, ride: Found)
    requires { at + 6 ≤ length answer.old }
    ensures answer_after { answer.new
        ≡ put at
        (cost.minutes.0 ∷ cost.points.0 ∷ 1 ∷ ride.trip ∷ ride.board ∷ ride.alight ∷ [])
        answer.old }
    ensures answer_len_unchanged { length answer.new ≡ length answer.old }
{
    query_minutes::write_cost(answer, at, cost);
    words::copy(answer, at + 2, &[1, ride.trip, ride.board, ride.alight]);
}

// The row of who arrives at a minute for some points, if these are below the least of all earlier minutes. Returns the
// index after what it wrote.
fn write_lead(
    kept: &[u32],
    minute: usize,
    arrive: usize,
    points: Points,
    least: Points,
    answer: &mut [u32],
    at: usize,
) -> usize
    requires { (length kept.now ≡ 11520)
        × (arrive < 2880)
        × (at + length (lead_words minute kept.now (record { minutes = arrive; points = points.0 }) least.0)
        ≤ length answer.old) }
    ensures answer_after { answer.new
        ≡ put at
        (lead_words minute kept.now (record { minutes = arrive; points = points.0 }) least.0)
        answer.old }
    ensures answer_len_unchanged { length answer.new ≡ length answer.old }
    ensures value { result
        ≡ at
        + length
        (lead_words minute kept.now (record { minutes = arrive; points = points.0 }) least.0) }
{
    if query_minutes::less(points, least) {
        let cost = Cost {
            minutes: query_minutes::minutes_between(minute, arrive),
            points,
        };
        write_row(answer, at, cost, rides::kept_at(kept, arrive));
        return at + ROW_WORDS;
    }
    at
}

// All rows of the answer, in rising duration: one for each arrival minute whose penalty is below those of all earlier
// minutes.
pub fn write_rows(best: &[u32], kept: &[u32], minute: usize, answer: &mut [u32])
    requires { (length best.now ≡ 2880)
        × (length kept.now ≡ 11520)
        × (6 * length (leads no_points 0 best.now) ≤ length answer.old) }
    ensures answer_after { answer.new
        ≡ put 0
        (concat_map (λ r. r) (rows_kept minute kept.now (leads no_points 0 best.now)))
        answer.old }
    ensures answer_len_unchanged { length answer.new ≡ length answer.old }
{
    let mut here = 0;
    let mut least = Points(NO_POINTS);
    for arrive in 0..MINUTES {
        let points = query_minutes::points_at(best, arrive);
        here = write_lead(kept, minute, arrive, points, least, answer, here);
        least = query_minutes::lesser(least, points);
    }
}
