//! The marks of the nodes of a chunk, over all minutes at which a ride departs at the source.
#![tactic(auto)]

ghost use Rattle.std.specs.Prelude.{◌≡◌, ◌+◌, ◌≤◌, ◌<◌, max, length, get_or, set};
ghost use Rattle.timetable.specs.Words.{station_count};
ghost use Rattle.store_departures.specs.Held.{Departures};
ghost use Rattle.store_frontier.specs.Routes.{Routes};
ghost use Rattle.store_frontier.specs.Arrivals.{Arrivals};
ghost use Rattle.store_nodes.specs.Standing.{StandingTo, Judged, ArcsAt, KidsAt};
ghost use Rattle.store_nodes.specs.Hand.{IdleFrom};
ghost use Rattle.store_nodes.specs.Chunk.{Down, Raised};
ghost use Rattle.store_minutes.specs.Allowed.{AllowedAt};
ghost use Rattle.store_minutes.specs.Seeking.{Sought, Chunked};
ghost use Rattle.store_minutes.specs.Looking.{LookedTo, Sounded, Parents, PassedOver};

// No departure is at this minute.
const NO_MINUTE: usize = 2880;

// Some nodes of the tree for a source: from lo up to hi, and a number that none of their parents is below.
#[derive(Clone, Copy)]
struct Chunk {
    source: usize,
    lo: usize,
    hi: usize,
    least: usize,
}

// What is allowed at minute d, in v. What q holds is of no further use.
fn allow_at(
    words: &[u16],
    order: &[u16],
    n: usize,
    chain: &[u16],
    first: &[u32],
    arrivals: &[u16],
    begins: &[u32],
    catch: &[u16],
    source: usize,
    d: usize,
    v: &mut [u32],
    q: &mut [u32],
)
    requires { Routes words.now order.now n catch.now
        × Arrivals words.now arrivals.now begins.now
        × Departures words.now chain.now first.now
        × (length v.old ≡ 2048)
        × (length q.old ≡ 2048) }
    ensures { AllowedAt words.now source d v.new
        × (length v.new ≡ 2048)
        × (length q.new ≡ 2048) }
{
    store_penalties::least_penalties(words, order, n, chain, first, catch, source, d, v, q);
    store_frontier::allow(words, arrivals, begins, source, v);
}

// What is allowed at minute d, in v, and who can still end well then, in q. What x holds is of no further use.
fn judge(
    words: &[u16],
    order: &[u16],
    n: usize,
    chain: &[u16],
    first: &[u32],
    arrivals: &[u16],
    begins: &[u32],
    catch: &[u16],
    source: usize,
    d: usize,
    v: &mut [u32],
    q: &mut [u32],
    x: &mut [u32],
)
    requires { Routes words.now order.now n catch.now
        × Arrivals words.now arrivals.now begins.now
        × Departures words.now chain.now first.now
        × (length v.old ≡ 2048)
        × (length q.old ≡ 2048)
        × (length x.old ≡ 2048) }
    ensures { Judged words.now source d v.new q.new
        × (length v.new ≡ 2048)
        × (length q.new ≡ 2048)
        × (length x.new ≡ 2048) }
{
    allow_at(
        words, order, n, chain, first, arrivals, begins, catch, source, d, v, q,
    );
    store_frontier::prospects(words, order, n, chain, first, catch, d, v, q, x);
}

// Raises the flags of the nodes of a chunk for minute d. Returns a number: behind those of these nodes that stand from
// there on nobody goes on then. What v, q and x hold is of no further use.
fn mark_minute(
    words: &[u16],
    order: &[u16],
    n: usize,
    chain: &[u16],
    first: &[u32],
    arrivals: &[u16],
    begins: &[u32],
    catch: &[u16],
    work: &[u32],
    chunk: Chunk,
    d: usize,
    v: &mut [u32],
    q: &mut [u32],
    x: &mut [u32],
    arcs: &mut [u8],
    kids: &mut [u8],
) -> u16
    requires { Routes words.now order.now n catch.now
        × Arrivals words.now arrivals.now begins.now
        × Departures words.now chain.now first.now
        × (chunk.source ≤ station_count words.now)
        × StandingTo words.now chunk.source work.now chunk.hi
        × (chunk.lo ≤ chunk.hi)
        × (chunk.hi ≤ chunk.lo + 96)
        × (length v.old ≡ 2048)
        × (length q.old ≡ 2048)
        × (length x.old ≡ 2048)
        × (length arcs.old ≡ 6144)
        × (length kids.old ≡ 30720) }
    ensures { Raised 64 (ArcsAt words.now chunk.source d) chunk.lo chunk.hi
        arcs.old arcs.new
        × Raised 320 (KidsAt words.now chunk.source d) chunk.lo chunk.hi
        kids.old kids.new
        × IdleFrom words.now chunk.source d chunk.lo chunk.hi result
        × (length v.new ≡ 2048)
        × (length q.new ≡ 2048)
        × (length x.new ≡ 2048)
        × (length arcs.new ≡ 6144)
        × (length kids.new ≡ 30720) }
{
    judge(
        words,
        order,
        n,
        chain,
        first,
        arrivals,
        begins,
        catch,
        chunk.source,
        d,
        v,
        q,
        x,
    );
    store_nodes::mark_nodes(
        words,
        chain,
        first,
        catch,
        work,
        chunk.lo,
        chunk.hi,
        chunk.source,
        d,
        v,
        q,
        x,
        arcs,
        kids,
    )
}

// Whether the nodes of a chunk can be passed over at minute d: nobody goes on behind one of their parents then. The
// root has no parent.
fn is_quiet(reach: &[u16], d: usize, chunk: Chunk) -> bool
    requires { (d < 2880) × (length reach.now ≡ 2880) }
    ensures { PassedOver reach.now d chunk.lo chunk.least result }
{
    if chunk.lo == 0 {
        return false;
    }
    words::word(reach, d) as usize <= chunk.least
}

// Notes up to which node some go on at minute d.
fn note_reach(reach: &mut [u16], d: usize, node: u16)
    requires { (d < 2880) × (length reach.old ≡ 2880) }
    ensures reach_after { reach.new ≡ set reach.old d (max (get_or reach.old d 0) node) }
    ensures reach_len_unchanged { length reach.new ≡ length reach.old }
{
    reach[d] = reach[d].max(node);
}

// Raises the flags for the departure at place p, unless it is at the minute of the last one, or no node of the chunk is
// on an optimal connection then. Returns its minute.
fn mark_departure(
    words: &[u16],
    order: &[u16],
    n: usize,
    chain: &[u16],
    first: &[u32],
    arrivals: &[u16],
    begins: &[u32],
    catch: &[u16],
    work: &[u32],
    chunk: Chunk,
    p: usize,
    last: usize,
    reach: &mut [u16],
    v: &mut [u32],
    q: &mut [u32],
    x: &mut [u32],
    arcs: &mut [u8],
    kids: &mut [u8],
) -> usize
    requires { Routes words.now order.now n catch.now
        × Arrivals words.now arrivals.now begins.now
        × Departures words.now chain.now first.now
        × (chunk.source ≤ station_count words.now)
        × StandingTo words.now chunk.source work.now chunk.hi
        × (chunk.lo ≤ chunk.hi)
        × (chunk.hi ≤ chunk.lo + 96)
        × Parents work.now chunk.lo chunk.hi chunk.least
        × (length reach.old ≡ 2880)
        × (length v.old ≡ 2048)
        × (length q.old ≡ 2048)
        × (length x.old ≡ 2048)
        × (length arcs.old ≡ 6144)
        × (length kids.old ≡ 30720)
        × (get_or first.now chunk.source 0 ≤ p)
        × (p < get_or first.now (chunk.source + 1) 0)
        × Sought words.now chunk.source chain.now (get_or first.now chunk.source 0) p last
        chunk.lo chunk.hi arcs.old kids.old
        × Sounded words.now chunk.source chain.now (get_or first.now chunk.source 0) p
        chunk.lo chunk.hi reach.old }
    ensures { Sought words.now chunk.source chain.now
        (get_or first.now chunk.source 0) (p + 1) result chunk.lo chunk.hi
        arcs.new kids.new
        × Sounded words.now chunk.source chain.now
        (get_or first.now chunk.source 0) (p + 1) chunk.lo chunk.hi reach.new
        × (length reach.new ≡ 2880)
        × (length v.new ≡ 2048)
        × (length q.new ≡ 2048)
        × (length x.new ≡ 2048)
        × (length arcs.new ≡ 6144)
        × (length kids.new ≡ 30720) }
{
    let d = store_departures::minute_at(words, chain, p);
    if d == last {
        return d;
    }
    if is_quiet(reach, d, chunk) {
        return d;
    }
    let node = mark_minute(
        words, order, n, chain, first, arrivals, begins, catch, work, chunk, d, v, q, x, arcs, kids,
    );
    note_reach(reach, d, node);
    d
}

// Raises the flags of the arcs and kids of the nodes of a chunk.
fn mark_departures(
    words: &[u16],
    order: &[u16],
    n: usize,
    chain: &[u16],
    first: &[u32],
    arrivals: &[u16],
    begins: &[u32],
    catch: &[u16],
    work: &[u32],
    chunk: Chunk,
    reach: &mut [u16],
    v: &mut [u32],
    q: &mut [u32],
    x: &mut [u32],
    arcs: &mut [u8],
    kids: &mut [u8],
)
    requires { Routes words.now order.now n catch.now
        × Arrivals words.now arrivals.now begins.now
        × Departures words.now chain.now first.now
        × (chunk.source ≤ station_count words.now)
        × StandingTo words.now chunk.source work.now chunk.hi
        × (chunk.lo ≤ chunk.hi)
        × (chunk.hi ≤ chunk.lo + 96)
        × Parents work.now chunk.lo chunk.hi chunk.least
        × (length reach.old ≡ 2880)
        × (length v.old ≡ 2048)
        × (length q.old ≡ 2048)
        × (length x.old ≡ 2048)
        × (length arcs.old ≡ 6144)
        × (length kids.old ≡ 30720)
        × Sought words.now chunk.source chain.now (get_or first.now chunk.source 0)
        (get_or first.now chunk.source 0) 2880 chunk.lo chunk.hi arcs.old kids.old
        × LookedTo words.now chunk.source chunk.lo reach.old }
    ensures { Chunked words.now chunk.source chunk.lo chunk.hi
        arcs.new kids.new
        × LookedTo words.now chunk.source chunk.hi reach.new
        × (length reach.new ≡ 2880)
        × (length v.new ≡ 2048)
        × (length q.new ≡ 2048)
        × (length x.new ≡ 2048)
        × (length arcs.new ≡ 6144)
        × (length kids.new ≡ 30720) }
{
    let begin = store_departures::index_at(first, chunk.source);
    let end = store_departures::index_at(first, chunk.source + 1);
    let mut last = NO_MINUTE;
    for p in begin..end {
        last = mark_departure(
            words, order, n, chain, first, arrivals, begins, catch, work, chunk, p, last, reach, v,
            q, x, arcs, kids,
        );
    }
}

// A number that no parent of the nodes from lo up to hi is below.
fn least_parent(work: &[u32], lo: usize, hi: usize) -> usize
    requires { (lo ≤ hi) × (hi ≤ length work.now) }
    ensures { Parents work.now lo hi result }
{
    let mut least = hi;
    for v in lo..hi {
        least = least.min(store_tree::node_parent(work[v]) as usize);
    }
    least
}

// Raises the flags of the arcs and kids of the nodes from lo up to hi, none being up before. For each minute reach has
// a number: behind those of the nodes before lo that stand from there on nobody goes on at that minute, and afterwards
// the same of those before hi.
pub fn mark_chunk(
    words: &[u16],
    order: &[u16],
    n: usize,
    chain: &[u16],
    first: &[u32],
    arrivals: &[u16],
    begins: &[u32],
    catch: &[u16],
    work: &[u32],
    lo: usize,
    hi: usize,
    source: usize,
    reach: &mut [u16],
    v: &mut [u32],
    q: &mut [u32],
    x: &mut [u32],
    arcs: &mut [u8],
    kids: &mut [u8],
)
    requires { Routes words.now order.now n catch.now
        × Arrivals words.now arrivals.now begins.now
        × Departures words.now chain.now first.now
        × (source ≤ station_count words.now)
        × StandingTo words.now source work.now hi
        × (lo ≤ hi)
        × (hi ≤ lo + 96)
        × LookedTo words.now source lo reach.old
        × (length reach.old ≡ 2880)
        × (length v.old ≡ 2048)
        × (length q.old ≡ 2048)
        × (length x.old ≡ 2048)
        × (length arcs.old ≡ 6144)
        × (length kids.old ≡ 30720)
        × Down arcs.old
        × Down kids.old }
    ensures { Chunked words.now source lo hi arcs.new kids.new
        × LookedTo words.now source hi reach.new
        × (length reach.new ≡ 2880)
        × (length v.new ≡ 2048)
        × (length q.new ≡ 2048)
        × (length x.new ≡ 2048)
        × (length arcs.new ≡ 6144)
        × (length kids.new ≡ 30720) }
{
    let chunk = Chunk {
        source,
        lo,
        hi,
        least: least_parent(work, lo, hi),
    };
    mark_departures(
        words, order, n, chain, first, arrivals, begins, catch, work, chunk, reach, v, q, x, arcs,
        kids,
    );
}
