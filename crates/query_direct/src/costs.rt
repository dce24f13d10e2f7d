// The costs of a query: the least penalty for each arrival minute, noted from the first trips of the lines.
ghost use Rattle.std.specs.Prelude.{◌≡◌, map, ◌≤◌, ◌<◌, length};
ghost use Rattle.lines_lookup.specs.Calls.{Within};
ghost use Rattle.query_minutes.specs.Minutes.{note_all, blank};
ghost use Rattle.query_places.specs.Candidates.{ride_on, reach_by, nearest, first_read};
ghost use Rattle.query_direct.specs.Shown.{best_of, leads_of};

use lines_lookup::Boarding;

// Notes the ride on the trip at place j of the line that is boarded, to the nearest place to which one may ride. Who
// rides on to a later one arrives later, and pays no less.
fn note_nearest(v: &[u16], g: Boarding, j: usize, best: &mut [u32])
    requires { Within v.now g × (j < 65536) }
    ensures best_after { best.new
        ≡ note_all best.old
        (map (ride_on v.now g.line g.call.place j) (nearest (reach_by v.now g))) }
    ensures best_len_unchanged { length best.new ≡ length best.old }
{
    if let Some(to) = query_places::seek_place(v, g) {
        query_minutes::note(
            best,
            lines_lookup::arrive_at(v, g.line, to.place, j),
            to.points,
        );
    }
}

// Notes, at each call of station from, the ride to station to on the first trip that leaves at the minute or later. A
// line of which no trip leaves then is passed over. Both lists rise: what stands before a call of from need not be
// looked at again.
fn note_first(v: &[u16], from: usize, to: usize, minute: usize, best: &mut [u32])
    ensures best_after { best.new ≡ note_all best.old (first_read v.now from minute to) }
    ensures best_len_unchanged { length best.new ≡ length best.old }
{
    let mut rest = lines_lookup::list_of(v, to);
    let list = lines_lookup::list_of(v, from);
    let end = list.end;
    let mut k = list.from;
    // Stays: document 01 asks here for "a loop over the line's trips that yields the trip's index by break", under an
    // outer label.
    'calls: while k + 1 < end {
        let g = lines_lookup::boarding_at(v, k, rest);
        rest = g.rest;
        k += 2;
        let mut j = 0;
        let first = loop {
            if g.line.trips <= j {
                continue 'calls;
            }
            if minute <= lines_lookup::depart_at(v, g.line, g.call.place, j) {
                break j;
            }
            j += 1;
        };
        note_nearest(v, g, first, best);
    }
}

// Notes what the first rides cost, for each minute of arrival. Returns how many rows there will be.
pub fn find_costs(v: &[u16], from: usize, to: usize, minute: usize, best: &mut [u32]) -> usize
    requires { (best.old ≡ blank) × (length best.old ≡ 2880) }
    ensures { (best.new ≡ best_of v.now from to minute)
        × (result ≡ length (leads_of v.now from to minute))
        × (result ≤ 2880)
        × (length best.new ≡ 2880) }
{
    note_first(v, from, to, minute, best);
    query_minutes::find_rows(best).count
}
