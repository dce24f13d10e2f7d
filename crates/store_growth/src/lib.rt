//! The tree of the sequences of one source: departures and arrivals are put in order, and the tree is grown from its
//! root.
#![tactic(auto)]

mod tree;

ghost use Rattle.std.specs.Prelude.{◌≡◌, true, ◌≤◌, length};
ghost use Rattle.timetable.specs.Words.{station_count, is_timetable};
ghost use Rattle.store_departures.specs.Held.{Standing, Departures};
ghost use Rattle.store_departures.specs.Catches.{Caught};
ghost use Rattle.store_minutes.specs.Prepared.{Ordered, PricedBehind};
ghost use Rattle.store_frontier.specs.Routes.{Routes};
ghost use Rattle.store_frontier.specs.Arrivals.{Arrivals};
ghost use Rattle.stores.specs.Stored.{sequences};
ghost use Rattle.store_growth.specs.Chunks.{Whole};

use store_departures::{BY_STATION, CHAIN_WORDS, STOPS_MOST};
use store_frontier::SOME_CLOSED;
use store_tree::Counts;

// There are at most so many slots.
const SLOTS: usize = 320;

// Stations count from 1, 64 at most, and the arrivals of each end where those of the next one begin; behind that stands
// whether a stop is closed to alighting.
const ARRIVAL_WORDS: usize = SOME_CLOSED + 1;

// Writes the departures by minute and by station. Returns how many departures there are.
fn list_departures(
    words: &[u16],
    work: &mut [u32],
    order: &mut [u16],
    chain: &mut [u16],
    first: &mut [u32],
) -> usize
    requires { (16384 ≤ length words.now)
        × (is_timetable words.now ≡ true)
        × (length work.old ≡ 16384)
        × (length order.old ≡ 2048)
        × (length chain.old ≡ 20480)
        × (length first.old ≡ 132) }
    ensures { Ordered words.now order.new result
        × Standing words.now chain.new first.new
        × (length first.new ≡ 132) }
{
    let n = store_departures::order_departures(words, work, order);
    store_departures::chain_departures(words, order, n, chain, first);
    n
}

// Writes what changes cost at each station, and how many walks there are.
fn list_prices(words: &[u16], first: &mut [u32])
    requires { (16384 ≤ length words.now) × (is_timetable words.now ≡ true) × (length first.old ≡ 132) }
    ensures { PricedBehind words.now first.old first.new }
{
    store_departures::price_changes(words, first);
    store_departures::count_walks(words, first);
}

// Writes what each arrival catches, at its station and on foot, and what changes cost.
fn list_catches(words: &[u16], chain: &mut [u16], first: &mut [u32], catch: &mut [u16])
    requires { (16384 ≤ length words.now)
        × (is_timetable words.now ≡ true)
        × Standing words.now chain.old first.old
        × (length first.old ≡ 132)
        × (length catch.old ≡ 2048) }
    ensures { Caught words.now catch.new
        × (length catch.new ≡ 2048)
        × Departures words.now chain.new first.new }
{
    store_catches::find_catches(words, chain, first, catch);
    store_catches::keep_catches(words, chain, first);
    list_prices(words, first);
}

// Writes the arrivals by station, where each station's begin, and behind these whether a stop is closed to alighting.
fn list_arrivals(words: &[u16], work: &mut [u32], arrivals: &mut [u16], begins: &mut [u32])
    requires { (16384 ≤ length words.now)
        × (is_timetable words.now ≡ true)
        × (length work.old ≡ 16384)
        × (length arrivals.old ≡ 2048)
        × (length begins.old ≡ 67) }
    ensures { Arrivals words.now arrivals.new begins.new }
{
    store_departures::chain_arrivals(words, work, arrivals, begins);
    begins[SOME_CLOSED] = store_frontier::some_closed(words);
}

// Plants and grows the tree, departures and arrivals having been listed. Returns the numbers of nodes and arcs, if they
// fit.
fn plant_tree(
    words: &[u16],
    order: &[u16],
    count: usize,
    chain: &[u16],
    first: &[u32],
    arrivals: &[u16],
    begins: &[u32],
    catch: &[u16],
    source: usize,
    work: &mut [u32],
    targets: &mut [u8],
) -> Counts
    requires { Routes words.now order.now count catch.now
        × Arrivals words.now arrivals.now begins.now
        × Departures words.now chain.now first.now
        × (1 ≤ source)
        × (source ≤ station_count words.now)
        × (source ≤ 64)
        × (length work.old ≡ 16384)
        × (length targets.old ≡ 16384) }
    ensures { Whole words.now (sequences words.now source) source work.new
        targets.new result }
{
    let mut slots = [0u16; SLOTS];
    let many = store_slots::list_slots(words, &mut slots);
    store_tree::plant_root(work, source as u32);
    tree::grow(
        words,
        order,
        count,
        chain,
        first,
        arrivals,
        begins,
        catch,
        &slots[0..many],
        source,
        work,
        targets,
    )
}

// Lists the arrivals and grows the tree, the departures having been listed. Returns the numbers of nodes and arcs, if
// they fit.
fn grow_tree(
    words: &[u16],
    order: &[u16],
    count: usize,
    chain: &[u16],
    first: &[u32],
    catch: &[u16],
    source: usize,
    work: &mut [u32],
    targets: &mut [u8],
) -> Counts
    requires { Routes words.now order.now count catch.now
        × Departures words.now chain.now first.now
        × (1 ≤ source)
        × (source ≤ station_count words.now)
        × (source ≤ 64)
        × (length work.old ≡ 16384)
        × (length targets.old ≡ 16384) }
    ensures { Whole words.now (sequences words.now source) source work.new
        targets.new result }
{
    let mut arrivals = [0u16; STOPS_MOST];
    let mut begins = [0u32; ARRIVAL_WORDS];
    list_arrivals(words, work, &mut arrivals, &mut begins);
    plant_tree(
        words, order, count, chain, first, &arrivals, &begins, catch, source, work, targets,
    )
}

// Makes the tree of the sequences of the source. Returns the numbers of nodes and arcs, if they fit.
pub fn make_tree(words: &[u16], source: usize, work: &mut [u32], targets: &mut [u8]) -> Counts
    requires { (16384 ≤ length words.now)
        × (is_timetable words.now ≡ true)
        × (1 ≤ source)
        × (source ≤ station_count words.now)
        × (source ≤ 64)
        × (length work.old ≡ 16384)
        × (length targets.old ≡ 16384) }
    ensures { Whole words.now (sequences words.now source) source work.new
        targets.new result }
{
    let mut order = [0u16; STOPS_MOST];
    let mut chain = [0u16; CHAIN_WORDS];
    let mut first = [0u32; BY_STATION];
    let mut catch = [0u16; STOPS_MOST];
    let count = list_departures(words, work, &mut order, &mut chain, &mut first);
    list_catches(words, &mut chain, &mut first, &mut catch);
    grow_tree(
        words, &order, count, &chain, &first, &catch, source, work, targets,
    )
}
