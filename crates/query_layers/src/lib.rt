//! What is left to pay after the rides of a path, kept in working space for as many rides as there is room for: it is
//! found from the target back once for all of them, and not again for each ride that is taken.
#![tactic(auto)]

ghost use Rattle.std.specs.Prelude.{◌≡◌, ◌+◌, ◌-◌, ◌*◌, ◌≤◌, ◌<◌, length, get_or};
ghost use Rattle.query_minutes.specs.Minutes.{no_points};
ghost use Rattle.query_rests.specs.Given.{Given};
ghost use Rattle.query_rests.specs.Rests.{RestsAt};
ghost use Rattle.query_rests.specs.Spans.{Spans, Stored};
ghost use Rattle.query_layers.specs.Layers.{width_of, place_of, KeptRide, Layers, Keeps};

use results::Points;

// What is sought along a path: a connection from the source at the minute or later, there by the minute of the arrival,
// for so many points at the most. Only the minutes from the one to the other can matter.
#[derive(Clone, Copy)]
pub struct Sought {
    pub source: usize,
    pub minute: usize,
    pub arrive: usize,
    pub points: Points,
}

// The rides of a path after which what is left is kept: from one to before another.
#[derive(Clone, Copy)]
pub struct Kept {
    pub low: usize,
    pub high: usize,
}

// Where what is left after ride i is kept, if the first is ride low: each has a word for each minute from the query's
// to the row's.
fn place(minute: usize, v: usize, low: usize, i: usize) -> usize
    requires { (minute ≤ v) × (v ≤ 2879) × (low ≤ i) × (i ≤ 64) }
    ensures { (result ≡ place_of minute v low i) × (result ≤ 184320) }
{
    (v + 1 - minute) * (i - low)
}

// How far the rides go, from ride low on, for which there is room in so many words, of a path of r rides.
fn reach(room: usize, minute: usize, v: usize, low: usize, r: usize) -> usize
    requires { (minute ≤ v) × (v ≤ 2879) × (low < r) × (r ≤ 64) × (2880 ≤ room) }
    ensures { (low < result) × (result ≤ r) × (place_of minute v low result ≤ room) }
{
    for high in low + 1..r {
        if room < place(minute, v, low, high + 1) {
            return high;
        }
    }
    r
}

// Keeps what is left from word `at` on.
fn keep(work: &mut [u32], at: usize, z: &[u32], minute: usize, v: usize)
    requires { (minute ≤ v)
        × (v ≤ 2879)
        × (at ≤ 184320)
        × (at + width_of minute v ≤ length work.old)
        × (length z.now ≡ 2880) }
    ensures stored { Stored (λ i. get_or z.now (i - at + minute) no_points) at (at + width_of minute v)
        work.old work.new }
    ensures work_len_unchanged { length work.new ≡ length work.old }
{
    let end = at + (v + 1 - minute);
    work[at..end].copy_from_slice(&z[minute..v + 1]);
}

// What is left, as it is kept from word `at` on.
fn look_up(work: &[u32], at: usize, z: &mut [u32], minute: usize, v: usize)
    requires { (minute ≤ v)
        × (v ≤ 2879)
        × (at ≤ 184320)
        × (at + width_of minute v ≤ length work.now)
        × (length z.old ≡ 2880) }
    ensures stored { Stored (λ m. get_or work.now (at + (m - minute)) no_points) minute (v + 1)
        z.old z.new }
    ensures z_len_unchanged { length z.new ≡ length z.old }
{
    let end = at + (v + 1 - minute);
    z[minute..v + 1].copy_from_slice(&work[at..end]);
}

// Keeps what is left after ride j, if that is one of the rides to keep it for.
fn keep_ride(work: &mut [u32], kept: Kept, j: usize, z: &[u32], minute: usize, v: usize)
    requires { (minute ≤ v)
        × (v ≤ 2879)
        × (kept.low ≤ j)
        × (kept.high ≤ 64)
        × (place_of minute v kept.low kept.high ≤ length work.old)
        × (length z.now ≡ 2880) }
    ensures kept_ride { KeptRide minute v kept.low kept.high j z.now work.old
        work.new }
    ensures work_len_unchanged { length work.new ≡ length work.old }
{
    if kept.high <= j {
        return;
    }
    keep(work, place(minute, v, kept.low, j), z, minute, v);
}

// Finds what is left after each ride of a path of r rides, from the last back to ride low, and keeps it. What is left
// after ride low stands in z then.
fn keep_rests(
    words: &[u16],
    lines: &[u16],
    sought: Sought,
    path: &[u16],
    kept: Kept,
    r: usize,
    work: &mut [u32],
    z: &mut [u32],
    old: &mut [u32],
)
    requires { Given words.now lines.now path.now r sought.arrive
        × (sought.minute ≤ sought.arrive)
        × (kept.low < kept.high)
        × (kept.high ≤ r)
        × (place_of sought.minute sought.arrive kept.low kept.high ≤ length work.old)
        × Spans sought.minute sought.arrive z.old
        × Spans sought.minute sought.arrive old.old }
    ensures layers { Layers words.now path.now r sought.arrive sought.minute
        kept.low kept.low kept.high
        work.new
        × RestsAt words.now path.now r sought.arrive sought.minute kept.low
        z.new
        × Spans sought.minute sought.arrive z.new
        × Spans sought.minute sought.arrive old.new }
    ensures work_len_unchanged { length work.new ≡ length work.old }
{
    query_rests::fill_last(z, sought.minute, sought.arrive);
    for j in (kept.low + 1..r).rev() {
        keep_ride(work, kept, j, z, sought.minute, sought.arrive);
        query_rests::step(words, lines, sought.minute, path, j, sought.arrive, z, old);
    }
    keep_ride(work, kept, kept.low, z, sought.minute, sought.arrive);
}

// What is left after ride i along a path of r rides, counted from 0, for one who is to arrive in time:
// as it is kept, or else it is found and kept, with that of the rides after it. Returns the rides that it is kept for.
pub fn rest(
    words: &[u16],
    lines: &[u16],
    sought: Sought,
    path: &[u16],
    i: usize,
    r: usize,
    kept: Kept,
    work: &mut [u32],
    z: &mut [u32],
    old: &mut [u32],
) -> Kept
    requires { Given words.now lines.now path.now r sought.arrive
        × (i < r)
        × (sought.minute ≤ sought.arrive)
        × (2880 ≤ length work.old)
        × Keeps words.now path.now r sought.arrive sought.minute i kept work.old
        × Spans sought.minute sought.arrive z.old
        × Spans sought.minute sought.arrive old.old }
    ensures rests_at { RestsAt words.now path.now r sought.arrive sought.minute i
        z.new
        × Keeps words.now path.now r sought.arrive sought.minute (i + 1) result
        work.new
        × Spans sought.minute sought.arrive z.new
        × Spans sought.minute sought.arrive old.new }
    ensures work_len_unchanged { length work.new ≡ length work.old }
{
    if i < kept.high {
        let at = place(sought.minute, sought.arrive, kept.low, i);
        look_up(work, at, z, sought.minute, sought.arrive);
        return kept;
    }
    if r <= i + 1 {
        // After the last ride nothing is left, and no ride after it asks for what is kept.
        query_rests::fill_last(z, sought.minute, sought.arrive);
        return kept;
    }
    let high = reach(work.len(), sought.minute, sought.arrive, i, r);
    let next = Kept { low: i, high };
    keep_rests(words, lines, sought, path, next, r, work, z, old);
    next
}
