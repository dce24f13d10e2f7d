//! What an arrival catches: the first departure that a change at the station itself reaches, or a walk from there. It
//! is looked for once and kept, since each pass of the store call asks for it at every arrival. Nothing but time hangs
//! on how much is kept.
#![tactic(auto)]

ghost use Rattle.std.specs.Prelude.{◌≡◌, true, ◌+◌, ◌≤◌, ◌<◌, length};
ghost use Rattle.std.proofs.Math.Seq.{slice};
ghost use Rattle.timetable.specs.Timetable.{last_minute};
ghost use Rattle.timetable.specs.Words.{station_count, walk_count, walk_at, is_timetable};
ghost use Rattle.timetable.specs.Walks.{FromStation};
ghost use Rattle.connections.specs.Connections.{on_foot};
ghost use Rattle.store_stops.specs.Stopwise.{station, arrive, Arrival};
ghost use Rattle.store_stops.specs.Settled.{Timely};
ghost use Rattle.store_departures.specs.Order.{catch_by, catch as caught};
ghost use Rattle.store_departures.specs.Held.{Standing, Front, KeptAll, Departures};
ghost use Rattle.store_departures.specs.Rising.{Rising};
ghost use Rattle.store_departures.specs.Catches.{first_ready, soonest, Caught};
ghost use Rattle.store_catches.specs.Keeping.{KeptWalks, Keeping};

use results::Minutes;
use timetable::Walk;

// No stop: a word of 16 bits of what is caught, which has no room for an Option beside it.
pub const NOWHERE: u16 = 65535;

// ---- the search for what is caught

// Of the stops in the chain from index `from` up to index end, the first that is left at the minute or later; nowhere
// if there is none.
fn first_ready(words: &[u16], chain: &[u16], from: usize, end: usize, minute: usize) -> u16
    requires { (16384 ≤ length words.now)
        × (station_count words.now ≤ 64)
        × (from ≤ end)
        × (end ≤ length chain.now)
        × Rising words.now chain.now from end }
    ensures { (result ≡ first_ready words.now minute (slice from end chain.now))
        × (result < 65536) }
{
    let place = store_departures::first_from(words, chain, from, end, minute);
    if end <= place {
        return NOWHERE;
    }
    chain[place]
}

// The first departure of a station at the minute or later; nowhere if there is none.
fn soonest_at(words: &[u16], chain: &[u16], first: &[u32], here: usize, minute: usize) -> u16
    requires { (16384 ≤ length words.now)
        × (is_timetable words.now ≡ true)
        × Standing words.now chain.now first.now
        × (here ≤ 64) }
    ensures { (result ≡ soonest words.now here minute) × (result < 65536) }
{
    let from = store_departures::index_at(first, here);
    let end = store_departures::index_at(first, here + 1);
    first_ready(words, chain, from, end, minute)
}

// The first departure that a change at the station itself reaches after the arrival at stop j; nowhere where one may
// not alight.
fn catch_at(words: &[u16], chain: &[u16], first: &[u32], j: usize) -> u16
    requires { (16384 ≤ length words.now)
        × (is_timetable words.now ≡ true)
        × Standing words.now chain.now first.now
        × (j < 2048)
        × (1 ≤ station words.now j)
        × (station words.now j ≤ station_count words.now)
        × (arrive words.now j ≤ last_minute) }
    ensures { (result ≡ caught words.now j) × (result < 65536) }
{
    let stop = timetable::stop_at(words, j);
    if store_departures::may_alight(stop) {
        let here = stop.station as usize;
        let change = timetable::stay_at(words, here);
        let ready = query_minutes::minute_after(stop.arrive as usize, Minutes(change.minutes));
        return soonest_at(words, chain, first, here, ready);
    }
    NOWHERE
}

// The first departure that a walk reaches after the arrival at stop j; nowhere where one may not alight.
pub fn seek_by_walk(words: &[u16], chain: &[u16], first: &[u32], walk: Walk, j: usize) -> u16
    requires { (16384 ≤ length words.now)
        × (is_timetable words.now ≡ true)
        × Standing words.now chain.now first.now
        × (j < 2048)
        × (arrive words.now j ≤ last_minute)
        × (walk.to ≤ 64) }
    ensures { (result ≡ catch_by words.now (on_foot walk) j) × (result < 65536) }
{
    let stop = timetable::stop_at(words, j);
    if store_departures::may_alight(stop) {
        let ready = query_minutes::minute_after(stop.arrive as usize, Minutes(walk.minutes));
        return soonest_at(words, chain, first, walk.to as usize, ready);
    }
    NOWHERE
}

// The first departure that walk k reaches after the arrival at stop j; nowhere where one may not alight.
fn seek_on_foot(words: &[u16], chain: &[u16], first: &[u32], k: usize, j: usize) -> u16
    requires { (16384 ≤ length words.now)
        × (is_timetable words.now ≡ true)
        × Standing words.now chain.now first.now
        × Arrival words.now j
        × (k < walk_count words.now) }
    ensures { (result ≡ catch_by words.now (on_foot (walk_at words.now k)) j)
        × (result < 65536) }
{
    seek_by_walk(words, chain, first, timetable::walk_at(words, k), j)
}

// ---- what is kept

// For each arrival, at its stop, the first departure that a change at the station itself reaches; nowhere if there is
// none. At other stops the words may be any.
pub fn find_catches(words: &[u16], chain: &[u16], first: &[u32], catches: &mut [u16])
    requires { (16384 ≤ length words.now)
        × (is_timetable words.now ≡ true)
        × Timely words.now
        × Standing words.now chain.now first.now
        × (length catches.old ≡ 2048) }
    ensures caught { Caught words.now catches.new }
    ensures catches_len { length catches.new ≡ 2048 }
{
    let n = store_departures::index_at(first, store_departures::STATION_KEYS);
    for k in 0..n {
        let j = words::word(chain, k) as usize + 1;
        catches[j] = catch_at(words, chain, first, j);
    }
}

// Behind the chain each stop has a word: where what is caught on foot after the arrival there stands, less the place of
// the walk; 0 if it is not kept. Behind these words stand the departures caught.
const KEPT: usize = store_departures::STOPS_MOST;

const KEPT_FIRST: usize = 2 * KEPT;

// Writes what each of the walks from place begin up to end reaches after the arrival at stop j, base words behind the
// place of the walk.
fn keep_walks(
    words: &[u16],
    chain: &mut [u16],
    first: &[u32],
    j: usize,
    base: usize,
    begin: usize,
    end: usize,
)
    requires { (16384 ≤ length words.now)
        × (is_timetable words.now ≡ true)
        × Standing words.now chain.old first.now
        × Arrival words.now j
        × (begin ≤ end)
        × (end ≤ walk_count words.now)
        × (4096 ≤ base + begin)
        × (base + end ≤ 20480) }
    ensures kept_walks { KeptWalks words.now j base begin end chain.new }
    ensures front { Front (base + begin) chain.old chain.new }
    ensures chain_len { length chain.new ≡ 20480 }
{
    for k in begin..end {
        chain[base + k] = seek_on_foot(words, chain, first, k, j);
    }
}

// Keeps what is caught on foot after the arrival at stop j, from place at on, if there is room for it; a 0 at the word
// of the stop tells that there is not. Returns the place behind it.
fn keep_arrival(words: &[u16], chain: &mut [u16], first: &[u32], j: usize, at: usize) -> usize
    requires { (16384 ≤ length words.now)
        × (is_timetable words.now ≡ true)
        × Standing words.now chain.old first.now
        × Arrival words.now j
        × (4096 ≤ at)
        × (at ≤ 20480) }
    ensures { Keeping words.now j at result chain.old chain.new }
{
    let c = timetable::stop_at(words, j).station as usize;
    let begin = timetable::walks_to(words, c - 1);
    let end = timetable::walks_to(words, c);
    if store_departures::CHAIN_WORDS < at + (end - begin) {
        chain[KEPT + j] = 0;
        return at;
    }
    let base = at - begin;
    chain[KEPT + j] = base as u16;
    keep_walks(words, chain, first, j, base, begin, end);
    base + end
}

// Keeps what is caught on foot after each arrival, as far as there is room for it: 16,384 words, of which a timetable
// with 64 walks from ordinary stations takes an eighth.
pub fn keep_catches(words: &[u16], chain: &mut [u16], first: &[u32])
    requires { (16384 ≤ length words.now)
        × (is_timetable words.now ≡ true)
        × Timely words.now
        × Standing words.now chain.old first.now }
    ensures standing { Standing words.now chain.new first.now }
    ensures kept_all { KeptAll words.now chain.new }
{
    let n = store_departures::index_at(first, store_departures::STATION_KEYS);
    let mut at = KEPT_FIRST;
    for k in 0..n {
        let j = words::word(chain, k) as usize + 1;
        at = keep_arrival(words, chain, first, j, at);
    }
}

// The first departure that walk k, from the station of stop j, reaches after the arrival there; nowhere where one may
// not alight. It is looked for where it is not kept.
pub fn caught_on_foot(words: &[u16], chain: &[u16], first: &[u32], k: usize, j: usize) -> usize
    requires { (16384 ≤ length words.now)
        × (is_timetable words.now ≡ true)
        × Departures words.now chain.now first.now
        × Arrival words.now j
        × FromStation words.now (station words.now j) k }
    ensures { result ≡ catch_by words.now (on_foot (walk_at words.now k)) j }
{
    let base = words::word(chain, KEPT + j) as usize;
    if base == 0 {
        return seek_on_foot(words, chain, first, k, j) as usize;
    }
    words::word(chain, base + k) as usize
}
