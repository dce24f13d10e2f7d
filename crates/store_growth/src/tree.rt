// The tree of the sequences, grown from its root: the nodes of a chunk are marked over all minutes, and then each takes
// the arcs and kids that its marks tell. The list is that of all slots.
ghost use Rattle.std.specs.Prelude.{◌≡◌, ◌+◌, ◌≤◌, ◌<◌, length};
ghost use Rattle.timetable.specs.Words.{station_count};
ghost use Rattle.store_departures.specs.Held.{Departures};
ghost use Rattle.store_frontier.specs.Routes.{Routes};
ghost use Rattle.store_frontier.specs.Arrivals.{Arrivals};
ghost use Rattle.store_minutes.specs.Looking.{LookedTo};
ghost use Rattle.store_growth.specs.Chunks.{SomeChunk, AllReached, Reached, Whole};
ghost use Rattle.store_tree.specs.Tree.{Grown};
ghost use Rattle.stores.specs.Stored.{sequences};
ghost use Rattle.store_slots.specs.Slots.{slots};

use store_departures::{MINUTES, STOPS_MOST};
use store_tree::Counts;

// The arcs and kids of so many nodes are found in one go.
const CHUNK: usize = 96;

// The flags of the arcs of a chunk, one for each station, and of its kids, one for each slot.
const ARC_FLAGS: usize = 6144;

const KID_FLAGS: usize = 30720;

// Takes the nodes from lo up to hi by their flags. Returns the numbers of nodes and arcs then, if they fit.
fn take_chunk(
    work: &mut [u32],
    targets: &mut [u8],
    lo: usize,
    hi: usize,
    nodes: usize,
    ends: usize,
    arcs: &[u8],
    kids: &[u8],
    list: &[u16],
) -> Counts
    requires { SomeChunk list.now work.old targets.old nodes ends lo hi arcs.now kids.now }
    ensures { AllReached list.now work.old targets.old nodes ends lo hi
        arcs.now kids.now work.new targets.new result }
{
    let mut n = nodes;
    let mut m = ends;
    for v in lo..hi {
        let o = 64 * (v - lo);
        let k = 320 * (v - lo);
        let taken = store_tree::take_node(
            work,
            targets,
            v,
            n,
            m,
            &arcs[o..o + 64],
            &kids[k..k + 320],
            list,
        );
        if !taken.fits {
            return taken;
        }
        n = taken.n;
        m = taken.m;
    }
    Counts { n, m, fits: true }
}

// Finds the arcs and kids of the nodes from lo up to hi, and takes these nodes. Returns the numbers of nodes and arcs
// then, if they fit.
fn grow_chunk(
    words: &[u16],
    order: &[u16],
    count: usize,
    chain: &[u16],
    first: &[u32],
    arrivals: &[u16],
    begins: &[u32],
    catch: &[u16],
    list: &[u16],
    source: usize,
    work: &mut [u32],
    targets: &mut [u8],
    reach: &mut [u16],
    lo: usize,
    hi: usize,
    nodes: usize,
    ends: usize,
) -> Counts
    requires { Routes words.now order.now count catch.now
        × Arrivals words.now arrivals.now begins.now
        × Departures words.now chain.now first.now
        × (1 ≤ source)
        × (source ≤ station_count words.now)
        × Grown words.now (sequences words.now source) source work.old targets.old nodes ends lo
        × (lo ≤ hi)
        × (hi ≤ nodes + 1)
        × (hi ≤ lo + 96)
        × (list.now ≡ slots words.now)
        × LookedTo words.now source lo reach.old
        × (length reach.old ≡ 2880) }
    ensures { Reached words.now (sequences words.now source) source work.new
        targets.new hi result
        × LookedTo words.now source hi reach.new
        × (length reach.new ≡ 2880) }
{
    let mut v = [0u32; STOPS_MOST];
    let mut q = [0u32; STOPS_MOST];
    let mut x = [0u32; STOPS_MOST];
    let mut arcs = [0u8; ARC_FLAGS];
    let mut kids = [0u8; KID_FLAGS];
    store_minutes::mark_chunk(
        words, order, count, chain, first, arrivals, begins, catch, work, lo, hi, source, reach,
        &mut v, &mut q, &mut x, &mut arcs, &mut kids,
    );
    take_chunk(work, targets, lo, hi, nodes, ends, &arcs, &kids, list)
}

// Where the chunk ends that begins with node lo, the last node being n.
fn chunk_end(lo: usize, n: usize) -> usize
    requires { (lo ≤ n) × (n ≤ 16383) }
    ensures { (lo < result) × (result ≤ n + 1) × (result ≤ lo + 96) }
{
    if lo + CHUNK < n + 1 {
        return lo + CHUNK;
    }
    n + 1
}

// Grows the tree from its root. Returns the numbers of nodes and arcs, if they fit.
pub fn grow(
    words: &[u16],
    order: &[u16],
    count: usize,
    chain: &[u16],
    first: &[u32],
    arrivals: &[u16],
    begins: &[u32],
    catch: &[u16],
    list: &[u16],
    source: usize,
    work: &mut [u32],
    targets: &mut [u8],
) -> Counts
    requires { Routes words.now order.now count catch.now
        × Arrivals words.now arrivals.now begins.now
        × Departures words.now chain.now first.now
        × (1 ≤ source)
        × (source ≤ station_count words.now)
        × Grown words.now (sequences words.now source) source work.old targets.old 0 0 0
        × (list.now ≡ slots words.now) }
    ensures { Whole words.now (sequences words.now source) source work.new
        targets.new result }
{
    // For each minute of the two days, up to which node some go on.
    let mut reach = [0u16; MINUTES];
    let mut n = 0;
    let mut m = 0;
    let mut lo = 0;
    // Stays: the nodes that the loop goes over are added by the loop itself, so that no range is known before it.
    while lo <= n {
        let hi = chunk_end(lo, n);
        let taken = grow_chunk(
            words, order, count, chain, first, arrivals, begins, catch, list, source, work,
            targets, &mut reach, lo, hi, n, m,
        );
        if !taken.fits {
            return taken;
        }
        n = taken.n;
        m = taken.m;
        lo = hi;
    }
    Counts { n, m, fits: true }
}
