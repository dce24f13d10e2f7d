//! A place for each pair of stations that a change can name: the station alighted at and the one boarded at.
#![tactic(auto)]

ghost use Rattle.std.specs.Prelude.{◌≡◌, true, ◌+◌, ◌≤◌, ◌<◌, length, take};
ghost use Rattle.words.specs.Put.{put};
ghost use Rattle.timetable.specs.Words.{station_count, walk_count, is_timetable};
ghost use Rattle.store_slots.specs.Slots.{walk_slot, transfer_at, slots_from, slots};
ghost use Rattle.store_slots.specs.Listing.{beyond, walk_listed, side_slots};

// The slots of changes at stations come first, then those of walks.
const STATIONS_MOST: usize = timetable::STATIONS_MOST as usize;

// What a pattern names of a change.
#[derive(Clone, Copy)]
pub struct Transfer {
    pub alighted: u32,
    pub boarded: u32,
}

// The stations that a slot stands for.
pub fn transfer_at(words: &[u16], slot: usize) -> Transfer
    requires { (16384 ≤ length words.now) × (is_timetable words.now ≡ true) × (slot < 320) }
    ensures { (result.alighted ≡ (transfer_at words.now slot).alighted)
        × (result.boarded ≡ (transfer_at words.now slot).boarded) }
{
    if slot < STATIONS_MOST {
        let station = slot as u32 + 1;
        return Transfer {
            alighted: station,
            boarded: station,
        };
    }
    let walk = timetable::walk_at(words, slot - STATIONS_MOST);
    Transfer {
        alighted: walk.from,
        boarded: walk.to,
    }
}

// The slot of walk k.
pub fn walk_slot(words: &[u16], k: usize) -> usize
    requires { (16384 ≤ length words.now)
        × (is_timetable words.now ≡ true)
        × (k < walk_count words.now) }
    ensures { (result ≡ walk_slot words.now k) × (result < 320) }
{
    let walk = timetable::walk_at(words, k);
    if walk.from == walk.to {
        return walk.from as usize - 1;
    }
    STATIONS_MOST + k
}

// Whether a station is above station y, or below it.
fn is_beyond(above: bool, y: u32, to: u32) -> bool
    ensures { result ≡ beyond above y to }
{
    if above {
        return y < to;
    }
    to < y
}

// Lists the slot of walk k at index at, if it leads beyond station y. Returns the index after it.
fn list_walk(words: &[u16], above: bool, y: u32, k: usize, list: &mut [u16], at: usize) -> usize
    requires { (16384 ≤ length words.now)
        × (is_timetable words.now ≡ true)
        × (k < 256)
        × (at + length (walk_listed words.now above y k) ≤ length list.old) }
    ensures list_after { list.new ≡ put at (walk_listed words.now above y k) list.old }
    ensures list_len_unchanged { length list.new ≡ length list.old }
    ensures value { result ≡ at + length (walk_listed words.now above y k) }
{
    if is_beyond(above, y, timetable::walk_at(words, k).to) {
        list[at] = (STATIONS_MOST + k) as u16;
        return at + 1;
    }
    at
}

// Lists the slots of the walks from first to before end that lead beyond station y. Returns the index after them.
fn list_walks(
    words: &[u16],
    above: bool,
    y: u32,
    first: usize,
    end: usize,
    list: &mut [u16],
    at: usize,
) -> usize
    requires { (16384 ≤ length words.now)
        × (is_timetable words.now ≡ true)
        × (end ≤ 256)
        × (at + length (side_slots words.now above y first end) ≤ length list.old) }
    ensures list_after { list.new
        ≡ put at (side_slots words.now above y first end) list.old }
    ensures list_len_unchanged { length list.new ≡ length list.old }
    ensures value { result ≡ at + length (side_slots words.now above y first end) }
{
    let mut here = at;
    for k in first..end {
        here = list_walk(words, above, y, k, list, here);
    }
    here
}

// Lists the slots of the pairs that begin with station y: those that lead below it, its own, and those that lead above
// it. Returns the index after them.
fn list_from(words: &[u16], y: usize, list: &mut [u16], at: usize) -> usize
    requires { (16384 ≤ length words.now)
        × (is_timetable words.now ≡ true)
        × (1 ≤ y)
        × (y ≤ 64)
        × (y ≤ station_count words.now)
        × (length list.old ≡ 320)
        × (at + length (slots_from words.now y) ≤ length list.old) }
    ensures list_after { list.new ≡ put at (slots_from words.now y) list.old }
    ensures list_len_unchanged { length list.new ≡ length list.old }
    ensures value { result ≡ at + length (slots_from words.now y) }
{
    let first = timetable::walks_to(words, y - 1);
    let end = timetable::walks_to(words, y);
    let here = list_walks(words, false, y as u32, first, end, list, at);
    list[here] = (y - 1) as u16;
    list_walks(words, true, y as u32, first, end, list, here + 1)
}

// Lists all slots, in the order of the pairs that they stand for. Returns how many there are.
pub fn list_slots(words: &[u16], list: &mut [u16]) -> usize
    requires { (16384 ≤ length words.now)
        × (is_timetable words.now ≡ true)
        × (length list.old ≡ 320) }
    ensures list_after { take result list.new ≡ slots words.now }
    ensures value { (result ≡ length (slots words.now)) × (result ≤ 320) }
    ensures list_len_unchanged { length list.new ≡ length list.old }
{
    let stations = words::word(words, 0) as usize;
    let mut here = 0;
    for y in 1..stations + 1 {
        here = list_from(words, y, list, here);
    }
    here
}
