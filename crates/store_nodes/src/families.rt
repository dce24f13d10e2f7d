// The marks of all nodes of a chunk, for one minute: siblings are marked together, from the labels of their parent.
ghost use Rattle.std.specs.Prelude.{◌≡◌, true, false, ◌+◌, ◌≤◌, ◌<◌, length, get_or};
ghost use Rattle.timetable.specs.Words.{station_count, is_timetable};
ghost use Rattle.store_departures.specs.Held.{Departures};
ghost use Rattle.store_marks.specs.Held.{Changes};
ghost use Rattle.store_marks.specs.Stepping.{Onward};
ghost use Rattle.store_marks.specs.Marking.{ArcsMarked, KidsMarked};
ghost use Rattle.store_nodes.specs.Standing.{Standing, StandingTo, Judged, ArcsAt, KidsAt};
ghost use Rattle.store_nodes.specs.Chunk.{Down, Raised, RaisedOn};
ghost use Rattle.store_nodes.specs.Joining.{Joined, NoneUp, joined_flag};
ghost use Rattle.store_nodes.specs.Hand.{AtHand, IdleOn, IdleFrom, top};
ghost use Rattle.store_nodes.specs.Hope.{Stationed, Family, MarkedKid, Told, Stays, Siblings, ToldOn, StaysOn};
ghost use Rattle.store_nodes.specs.Hope.{Sure, Unmarked};
ghost use Rattle.store_tree.specs.Tree.{slot_in, parent_in};

use crate::nodes;
use crate::nodes::{ARC_FLAGS, HAND_WORDS, KID_FLAGS};

// From this node on nodes are late: where there are as many, some go on behind most of them, and to find out whether
// they do costs more than it gains.
const LATE: usize = 1024;

// Whether a node is below hi and a kid of the parent.
fn is_kid(work: &[u32], parent: usize, node: usize, hi: usize) -> bool
    requires { hi ≤ length work.now }
    ensures { Sure work.now parent hi node result }
{
    if hi <= node {
        return false;
    }
    nodes::parent_of(work, node) == parent
}

// Finds the labels of a node that has kids, and raises in hope the flag of each change with which it goes on at minute
// d. Returns the station where it boards.
fn look_ahead(
    words: &[u16],
    chain: &[u16],
    first: &[u32],
    catch: &[u16],
    work: &[u32],
    parent: usize,
    source: usize,
    d: usize,
    allowed: &[u32],
    q: &[u32],
    x: &mut [u32],
    hand: &mut [u16],
    hope: &mut [u8],
) -> usize
    requires { (16384 ≤ length words.now)
        × (is_timetable words.now ≡ true)
        × Departures words.now chain.now first.now
        × Changes words.now catch.now
        × (source ≤ station_count words.now)
        × Standing words.now source work.now parent
        × AtHand words.now source d hand.old x.old
        × (length x.old ≡ 2048)
        × (length hand.old ≡ 66)
        × Judged words.now source d allowed.now q.now
        × (length allowed.now ≡ 2048)
        × (length q.now ≡ 2048)
        × Down hope.old
        × (length hope.old ≡ 320) }
    ensures { Family words.now source d work.now parent result x.new
        hope.new allowed.now q.now
        × Stationed words.now source parent result
        × AtHand words.now source d hand.new x.new
        × (top hand.old ≤ top hand.new)
        × (result ≤ station_count words.now)
        × (length x.new ≡ 2048)
        × (length hand.new ≡ 66)
        × (length hope.new ≡ 320) }
{
    // The node was taken before its kids, so nobody reads its arcs again.
    let mut spare = [0u8; ARC_FLAGS];
    nodes::mark_node(
        words, chain, first, catch, work, parent, source, d, allowed, q, x, hand, &mut spare, hope,
    )
}

// A flag with a fresh one.
fn join(flag: u8, fresh: u8) -> u8
    ensures { result ≡ joined_flag flag fresh }
{
    if fresh == 1 {
        return 1;
    }
    flag
}

// Raises the flags that are up among the fresh ones. Returns whether there is one.
fn raise_fresh(flags: &mut [u8], fresh: &[u8]) -> bool
    requires { (length flags.old ≡ 320) × (length fresh.now ≡ 320) }
    ensures { Joined 320 flags.old fresh.now flags.new
        × (result ≡ false → NoneUp 320 fresh.now)
        × (length flags.new ≡ 320) }
{
    let mut seen = 0;
    for k in 0..KID_FLAGS {
        flags[k] = join(flags[k], fresh[k]);
        seen = join(seen, fresh[k]);
    }
    seen == 1
}

// Raises the flags of a node that boards at station c, with labels x. Returns whether some go on behind it at this
// minute, which the flags of its kids do not tell: they are those of all minutes so far.
fn mark_labelled(
    words: &[u16],
    chain: &[u16],
    first: &[u32],
    catch: &[u16],
    allowed: &[u32],
    q: &[u32],
    x: &[u32],
    c: usize,
    arcs: &mut [u8],
    kids: &mut [u8],
) -> bool
    requires in_bounds { (16384 ≤ length words.now) × (is_timetable words.now ≡ true) }
    requires departures { Departures words.now chain.now first.now × Changes words.now catch.now }
    requires allowed_len { (length allowed.now ≡ 2048) × (length q.now ≡ 2048) × (length x.now ≡ 2048) }
    requires c_bound { (c ≤ station_count words.now) × (length arcs.old ≡ 64) × (length kids.old ≡ 320) }
    ensures { ArcsMarked words.now c x.now allowed.now
        arcs.old arcs.new
        × KidsMarked words.now c x.now allowed.now q.now
        kids.old kids.new
        × (result ≡ false → Unmarked words.now c x.now allowed.now q.now)
        × (length arcs.new ≡ 64)
        × (length kids.new ≡ 320) }
{
    let mut fresh = [0u8; KID_FLAGS];
    store_marks::mark(
        words, chain, first, catch, allowed, q, x, c, arcs, &mut fresh,
    );
    raise_fresh(kids, &fresh)
}

// From the labels of its parent, at station c, finds those of a node, and raises its flags. If some go on behind it,
// that is noted; of a late node it is noted in any case.
fn mark_kid(
    words: &[u16],
    chain: &[u16],
    first: &[u32],
    catch: &[u16],
    work: &[u32],
    node: usize,
    c: usize,
    allowed: &[u32],
    q: &[u32],
    x: &mut [u32],
    hand: &mut [u16],
    arcs: &mut [u8],
    kids: &mut [u8],
)
    requires { (16384 ≤ length words.now)
        × (is_timetable words.now ≡ true)
        × Departures words.now chain.now first.now
        × Changes words.now catch.now
        × (c ≤ station_count words.now)
        × (node < length work.now)
        × (node < 16384)
        × Onward words.now c (slot_in (get_or work.now node 0))
        × (length x.old ≡ 2048)
        × (length hand.old ≡ 66)
        × (length allowed.now ≡ 2048)
        × (length q.now ≡ 2048)
        × (length arcs.old ≡ 64)
        × (length kids.old ≡ 320) }
    ensures { MarkedKid words.now c (slot_in (get_or work.now node 0)) node
        x.old x.new hand.old hand.new allowed.now
        q.now arcs.old arcs.new kids.old kids.new
        × (length x.new ≡ 2048)
        × (length hand.new ≡ 66)
        × (length arcs.new ≡ 64)
        × (length kids.new ≡ 320) }
{
    let e = nodes::label_kid(words, chain, first, catch, work, node, c, x, hand);
    if LATE <= node {
        store_marks::mark(words, chain, first, catch, allowed, q, x, e, arcs, kids);
        nodes::note_on(hand, node);
        return;
    }
    if !mark_labelled(words, chain, first, catch, allowed, q, x, e, arcs, kids) {
        return;
    }
    nodes::note_on(hand, node);
}

// Raises the flags of a node, which stand among those of the nodes from lo on. Its parent's labels at station c are in
// x and stay there, and hope has the flags of the changes with which the parent goes on: a node with which it does not
// go on is on no optimal connection at this minute, so it needs no labels and gets no flags.
fn mark_hoped(
    words: &[u16],
    chain: &[u16],
    first: &[u32],
    catch: &[u16],
    work: &[u32],
    lo: usize,
    node: usize,
    c: usize,
    hope: &[u8],
    allowed: &[u32],
    q: &[u32],
    x: &mut [u32],
    hand: &mut [u16],
    arcs: &mut [u8],
    kids: &mut [u8],
)
    requires { (16384 ≤ length words.now)
        × (is_timetable words.now ≡ true)
        × Departures words.now chain.now first.now
        × Changes words.now catch.now
        × (c ≤ station_count words.now)
        × (node < length work.now)
        × (node < 16384)
        × Onward words.now c (slot_in (get_or work.now node 0))
        × (slot_in (get_or work.now node 0) < 320)
        × (length hope.now ≡ 320)
        × (length x.old ≡ 2048)
        × (length hand.old ≡ 66)
        × (length allowed.now ≡ 2048)
        × (length q.now ≡ 2048)
        × (length arcs.old ≡ 6144)
        × (length kids.old ≡ 30720)
        × (lo ≤ node)
        × (node < lo + 96) }
    ensures { Told 64 (ArcsAt words.now) words.now lo node c
        (slot_in (get_or work.now node 0)) x.old
        hope.now allowed.now q.now arcs.old arcs.new
        × Told 320 (KidsAt words.now) words.now lo node c
        (slot_in (get_or work.now node 0)) x.old
        hope.now allowed.now q.now kids.old kids.new
        × Stays words.now c (slot_in (get_or work.now node 0)) node hope.now
        allowed.now q.now x.old x.new hand.old hand.new
        × (length x.new ≡ 2048)
        × (length hand.new ≡ 66)
        × (length arcs.new ≡ 6144)
        × (length kids.new ≡ 30720) }
{
    if hope[nodes::slot_of(work, node)] != 1 {
        return;
    }
    let o = ARC_FLAGS * (node - lo);
    let p = KID_FLAGS * (node - lo);
    mark_kid(
        words,
        chain,
        first,
        catch,
        work,
        node,
        c,
        allowed,
        q,
        x,
        hand,
        &mut arcs[o..o + ARC_FLAGS],
        &mut kids[p..p + KID_FLAGS],
    );
}

// Raises the flags of a node that is a kid of the parent, from the parent's labels. Returns whether the next node is
// below hi and a kid of it as well.
fn mark_sibling(
    words: &[u16],
    chain: &[u16],
    first: &[u32],
    catch: &[u16],
    work: &[u32],
    parent: usize,
    lo: usize,
    node: usize,
    hi: usize,
    c: usize,
    hope: &[u8],
    allowed: &[u32],
    q: &[u32],
    x: &mut [u32],
    hand: &mut [u16],
    arcs: &mut [u8],
    kids: &mut [u8],
) -> bool
    requires { (16384 ≤ length words.now)
        × (is_timetable words.now ≡ true)
        × Departures words.now chain.now first.now
        × Changes words.now catch.now
        × (c ≤ station_count words.now)
        × Siblings words.now c work.now parent hi
        × (parent ≡ parent_in (get_or work.now node 0))
        × (length hope.now ≡ 320)
        × (length x.old ≡ 2048)
        × (length hand.old ≡ 66)
        × (length allowed.now ≡ 2048)
        × (length q.now ≡ 2048)
        × (length arcs.old ≡ 6144)
        × (length kids.old ≡ 30720)
        × (1 ≤ node)
        × (lo ≤ node)
        × (node < hi)
        × (hi ≤ lo + 96) }
    ensures { ToldOn 64 (ArcsAt words.now) words.now work.now parent lo node
        (node + 1) c x.old hope.now allowed.now q.now
        arcs.old arcs.new
        × ToldOn 320 (KidsAt words.now) words.now work.now parent lo node
        (node + 1) c x.old hope.now allowed.now q.now
        kids.old kids.new
        × StaysOn words.now work.now parent c node (node + 1) hope.now
        allowed.now q.now x.old x.new hand.old hand.new
        × Sure work.now parent hi (node + 1) result
        × (length x.new ≡ 2048)
        × (length hand.new ≡ 66)
        × (length arcs.new ≡ 6144)
        × (length kids.new ≡ 30720) }
{
    mark_hoped(
        words, chain, first, catch, work, lo, node, c, hope, allowed, q, x, hand, arcs, kids,
    );
    is_kid(work, parent, node + 1, hi)
}

// Raises the flags of the kids of the parent that stand after each other from node on, below hi. Returns the node
// after them.
fn mark_kids(
    words: &[u16],
    chain: &[u16],
    first: &[u32],
    catch: &[u16],
    work: &[u32],
    parent: usize,
    lo: usize,
    node: usize,
    hi: usize,
    c: usize,
    hope: &[u8],
    allowed: &[u32],
    q: &[u32],
    x: &mut [u32],
    hand: &mut [u16],
    arcs: &mut [u8],
    kids: &mut [u8],
) -> usize
    requires { (16384 ≤ length words.now)
        × (is_timetable words.now ≡ true)
        × Departures words.now chain.now first.now
        × Changes words.now catch.now
        × (c ≤ station_count words.now)
        × Siblings words.now c work.now parent hi
        × (parent ≡ parent_in (get_or work.now node 0))
        × (length hope.now ≡ 320)
        × (length x.old ≡ 2048)
        × (length hand.old ≡ 66)
        × (length allowed.now ≡ 2048)
        × (length q.now ≡ 2048)
        × (length arcs.old ≡ 6144)
        × (length kids.old ≡ 30720)
        × (1 ≤ node)
        × (lo ≤ node)
        × (node < hi)
        × (hi ≤ lo + 96) }
    ensures { ToldOn 64 (ArcsAt words.now) words.now work.now parent lo node result c
        x.old hope.now allowed.now q.now
        arcs.old arcs.new
        × ToldOn 320 (KidsAt words.now) words.now work.now parent lo node result c
        x.old hope.now allowed.now q.now
        kids.old kids.new
        × StaysOn words.now work.now parent c node result hope.now
        allowed.now q.now x.old x.new hand.old hand.new
        × (node < result)
        × (result ≤ hi)
        × (length x.new ≡ 2048)
        × (length hand.new ≡ 66)
        × (length arcs.new ≡ 6144)
        × (length kids.new ≡ 30720) }
{
    let mut v = node;
    // Stays: the next node tells whether it is a sibling, below hi at the latest; after a range a second way out would
    // stand that is never taken.
    loop {
        let more = mark_sibling(
            words, chain, first, catch, work, parent, lo, v, hi, c, hope, allowed, q, x, hand,
            arcs, kids,
        );
        v += 1;
        if !more {
            return v;
        }
    }
}

// Raises the flags of a node and of its siblings after it, below hi: siblings are neighbours, and the labels of all of
// them are one change after those of their parent. Returns the node after them. What x holds is of no further use.
fn mark_siblings(
    words: &[u16],
    chain: &[u16],
    first: &[u32],
    catch: &[u16],
    work: &[u32],
    lo: usize,
    node: usize,
    hi: usize,
    source: usize,
    d: usize,
    allowed: &[u32],
    q: &[u32],
    x: &mut [u32],
    hand: &mut [u16],
    arcs: &mut [u8],
    kids: &mut [u8],
) -> usize
    requires { (16384 ≤ length words.now)
        × (is_timetable words.now ≡ true)
        × Departures words.now chain.now first.now
        × Changes words.now catch.now
        × (source ≤ station_count words.now)
        × StandingTo words.now source work.now hi
        × AtHand words.now source d hand.old x.old
        × (length x.old ≡ 2048)
        × (length hand.old ≡ 66)
        × Judged words.now source d allowed.now q.now
        × (length allowed.now ≡ 2048)
        × (length q.now ≡ 2048)
        × (length arcs.old ≡ 6144)
        × (length kids.old ≡ 30720)
        × (1 ≤ node)
        × (lo ≤ node)
        × (node < hi)
        × (hi ≤ lo + 96) }
    ensures { RaisedOn 64 (ArcsAt words.now source d) lo node result arcs.old arcs.new
        × RaisedOn 320 (KidsAt words.now source d) lo node result kids.old kids.new
        × AtHand words.now source d hand.new x.new
        × IdleOn words.now source d node result hand.old hand.new
        × (node < result)
        × (result ≤ hi)
        × (length x.new ≡ 2048)
        × (length hand.new ≡ 66)
        × (length arcs.new ≡ 6144)
        × (length kids.new ≡ 30720) }
{
    let parent = nodes::parent_of(work, node);
    let mut hope = [0u8; KID_FLAGS];
    let c = look_ahead(
        words, chain, first, catch, work, parent, source, d, allowed, q, x, hand, &mut hope,
    );
    mark_kids(
        words, chain, first, catch, work, parent, lo, node, hi, c, &hope, allowed, q, x, hand,
        arcs, kids,
    )
}

// Raises the flags of a node and of its siblings after it, below hi, where the node can be the root, which has neither
// parent nor siblings. Returns the node after them.
fn mark_family(
    words: &[u16],
    chain: &[u16],
    first: &[u32],
    catch: &[u16],
    work: &[u32],
    lo: usize,
    node: usize,
    hi: usize,
    source: usize,
    d: usize,
    allowed: &[u32],
    q: &[u32],
    x: &mut [u32],
    hand: &mut [u16],
    arcs: &mut [u8],
    kids: &mut [u8],
) -> usize
    requires { (16384 ≤ length words.now)
        × (is_timetable words.now ≡ true)
        × Departures words.now chain.now first.now
        × Changes words.now catch.now
        × (source ≤ station_count words.now)
        × StandingTo words.now source work.now hi
        × AtHand words.now source d hand.old x.old
        × (length x.old ≡ 2048)
        × (length hand.old ≡ 66)
        × Judged words.now source d allowed.now q.now
        × (length allowed.now ≡ 2048)
        × (length q.now ≡ 2048)
        × (length arcs.old ≡ 6144)
        × (length kids.old ≡ 30720)
        × (lo ≤ node)
        × (node < hi)
        × (hi ≤ lo + 96) }
    ensures { RaisedOn 64 (ArcsAt words.now source d) lo node result arcs.old arcs.new
        × RaisedOn 320 (KidsAt words.now source d) lo node result kids.old kids.new
        × AtHand words.now source d hand.new x.new
        × IdleOn words.now source d node result hand.old hand.new
        × (node < result)
        × (result ≤ hi)
        × (length x.new ≡ 2048)
        × (length hand.new ≡ 66)
        × (length arcs.new ≡ 6144)
        × (length kids.new ≡ 30720) }
{
    if node == 0 {
        nodes::mark_at(
            words, chain, first, catch, work, lo, node, source, d, allowed, q, x, hand, arcs, kids,
        );
        nodes::note_on(hand, node);
        return node + 1;
    }
    mark_siblings(
        words, chain, first, catch, work, lo, node, hi, source, d, allowed, q, x, hand, arcs, kids,
    )
}

// Raises the flags of all nodes from lo up to hi. Returns a number: behind those of these nodes that stand from there
// on nobody goes on at minute d. What x holds is of no further use.
pub fn mark_nodes(
    words: &[u16],
    chain: &[u16],
    first: &[u32],
    catch: &[u16],
    work: &[u32],
    lo: usize,
    hi: usize,
    source: usize,
    d: usize,
    allowed: &[u32],
    q: &[u32],
    x: &mut [u32],
    arcs: &mut [u8],
    kids: &mut [u8],
) -> u16
    requires { (16384 ≤ length words.now)
        × (is_timetable words.now ≡ true)
        × Departures words.now chain.now first.now
        × Changes words.now catch.now
        × (source ≤ station_count words.now)
        × StandingTo words.now source work.now hi
        × (length x.old ≡ 2048)
        × Judged words.now source d allowed.now q.now
        × (length allowed.now ≡ 2048)
        × (length q.now ≡ 2048)
        × (length arcs.old ≡ 6144)
        × (length kids.old ≡ 30720)
        × (lo ≤ hi)
        × (hi ≤ lo + 96) }
    ensures { Raised 64 (ArcsAt words.now source d) lo hi arcs.old arcs.new
        × Raised 320 (KidsAt words.now source d) lo hi kids.old kids.new
        × IdleFrom words.now source d lo hi result
        × (length x.new ≡ 2048)
        × (length arcs.new ≡ 6144)
        × (length kids.new ≡ 30720) }
{
    let mut hand = [0u16; HAND_WORDS];
    let mut node = lo;
    // Stays: node goes on by a family at once, which no range counts.
    while node < hi {
        node = mark_family(
            words, chain, first, catch, work, lo, node, hi, source, d, allowed, q, x, &mut hand,
            arcs, kids,
        );
    }
    nodes::last_noted(&hand)
}
