// The marks of one node of the tree, for one minute: the labels of those who board after its changes, and the flags of
// its arcs and kids. The labels of a node stand at the departures of one station, so that those of several nodes are at
// hand at once: for each station it is noted, one more than its number, which node's they are.
ghost use Rattle.std.specs.Prelude.{◌≡◌, true, ◌+◌, ◌≤◌, ◌<◌, eqb, length, get_or};
ghost use Rattle.timetable.specs.Words.{station_count, is_timetable};
ghost use Rattle.store_slots.specs.Slots.{transfer_at};
ghost use Rattle.store_departures.specs.Held.{Departures};
ghost use Rattle.store_marks.specs.Held.{Changes};
ghost use Rattle.store_marks.specs.Stepping.{Onward};
ghost use Rattle.store_marks.specs.Marking.{Marked};
ghost use Rattle.store_tree.specs.Tree.{slot_in, parent_in};
ghost use Rattle.store_nodes.specs.Standing.{Standing, NodeLabels, Judged, ArcsAt, KidsAt};
ghost use Rattle.store_nodes.specs.Hand.{AtHand, LabelledKid, Noted, NotedOn, top};
ghost use Rattle.store_nodes.specs.Chunk.{MarkedAt};

// Each node has a flag for each station that there can be, and one for each slot.
pub const ARC_FLAGS: usize = 64;

pub const KID_FLAGS: usize = 320;

// For each station, from 0 on, which node's labels stand there, and behind these places the last node behind which some
// go on.
const LAST: usize = 65;

pub const HAND_WORDS: usize = LAST + 1;

// The number of a node's parent.
pub fn parent_of(work: &[u32], node: usize) -> usize
    requires { node < length work.now }
    ensures { result ≡ parent_in (get_or work.now node 0) }
{
    store_tree::node_parent(work[node]) as usize
}

// The slot of a node's change.
pub fn slot_of(work: &[u32], node: usize) -> usize
    requires { node < length work.now }
    ensures { result ≡ slot_in (get_or work.now node 0) }
{
    store_tree::node_slot(work[node]) as usize
}

// The station where one boards after the changes of a node.
fn boards_at(words: &[u16], work: &[u32], node: usize) -> usize
    requires { (16384 ≤ length words.now)
        × (is_timetable words.now ≡ true)
        × (node < length work.now)
        × (slot_in (get_or work.now node 0) < 320) }
    ensures { result ≡ (transfer_at words.now (slot_in (get_or work.now node 0))).boarded }
{
    store_slots::transfer_at(words, slot_of(work, node)).boarded as usize
}

// Whether the labels at station c are those of the node.
fn is_at_hand(hand: &[u16], c: usize, node: usize) -> bool
    requires { (c < 65) × (node < 16384) × (length hand.now ≡ 66) }
    ensures { result ≡ eqb (get_or hand.now c 0) (node + 1) }
{
    words::word(hand, c) as usize == node + 1
}

// Notes that the labels at station c are those of the node.
fn note(hand: &mut [u16], c: usize, node: usize)
    requires { (c < 65) × (node < 16384) × (length hand.old ≡ 66) }
    ensures noted { Noted c node hand.old hand.new }
    ensures hand_len_unchanged { length hand.new ≡ length hand.old }
{
    hand[c] = (node + 1) as u16;
}

// Notes that some go on behind the node.
pub fn note_on(hand: &mut [u16], node: usize)
    requires { (node < 16384) × (length hand.old ≡ 66) }
    ensures noted_on { NotedOn node hand.old hand.new }
    ensures hand_len_unchanged { length hand.new ≡ length hand.old }
{
    hand[LAST] = hand[LAST].max((node + 1) as u16);
}

// One more than the last node behind which some go on.
pub fn last_noted(hand: &[u16]) -> u16
    requires { length hand.now ≡ 66 }
    ensures { result ≡ top hand.now }
{
    hand[LAST]
}

// Finds the labels of the root, for those who start at minute d or later. Returns the source, where they board.
fn label_start(
    words: &[u16],
    chain: &[u16],
    first: &[u32],
    source: usize,
    d: usize,
    x: &mut [u32],
    hand: &mut [u16],
) -> usize
    requires { (16384 ≤ length words.now)
        × (is_timetable words.now ≡ true)
        × Departures words.now chain.now first.now
        × (source ≤ station_count words.now)
        × AtHand words.now source d hand.old x.old
        × (length x.old ≡ 2048)
        × (length hand.old ≡ 66) }
    ensures { NodeLabels words.now source d 0 result x.new
        × AtHand words.now source d hand.new x.new
        × (top hand.old ≤ top hand.new)
        × (result ≤ station_count words.now)
        × (length x.new ≡ 2048)
        × (length hand.new ≡ 66) }
{
    store_marks::label_root(words, chain, first, source, d, x);
    note(hand, source, 0);
    source
}

// Finds the labels of a node from those of its parent, at station c. Returns the station where it boards.
pub fn label_kid(
    words: &[u16],
    chain: &[u16],
    first: &[u32],
    catch: &[u16],
    work: &[u32],
    node: usize,
    c: usize,
    x: &mut [u32],
    hand: &mut [u16],
) -> usize
    requires { (16384 ≤ length words.now)
        × (is_timetable words.now ≡ true)
        × Departures words.now chain.now first.now
        × Changes words.now catch.now
        × (c ≤ station_count words.now)
        × (node < length work.now)
        × (node < 16384)
        × Onward words.now c (slot_in (get_or work.now node 0))
        × (length x.old ≡ 2048)
        × (length hand.old ≡ 66) }
    ensures { LabelledKid words.now c (slot_in (get_or work.now node 0)) node result
        x.old x.new hand.old hand.new
        × (result ≤ station_count words.now)
        × (length x.new ≡ 2048)
        × (length hand.new ≡ 66) }
{
    let e = store_marks::label_step(words, chain, first, catch, c, slot_of(work, node), x);
    note(hand, e, node);
    e
}

// Finds the least penalties of those who board after the changes of the node, having started at minute d or later: they
// are at hand, or one change after those of the parent. Returns the station where they board.
fn label_node(
    words: &[u16],
    chain: &[u16],
    first: &[u32],
    catch: &[u16],
    work: &[u32],
    node: usize,
    source: usize,
    d: usize,
    x: &mut [u32],
    hand: &mut [u16],
) -> usize
    requires { (16384 ≤ length words.now)
        × (is_timetable words.now ≡ true)
        × Departures words.now chain.now first.now
        × Changes words.now catch.now
        × (source ≤ station_count words.now)
        × Standing words.now source work.now node
        × AtHand words.now source d hand.old x.old
        × (length x.old ≡ 2048)
        × (length hand.old ≡ 66) }
    ensures { NodeLabels words.now source d node result x.new
        × AtHand words.now source d hand.new x.new
        × (top hand.old ≤ top hand.new)
        × (result ≤ station_count words.now)
        × (length x.new ≡ 2048)
        × (length hand.new ≡ 66) }
{
    let c = boards_at(words, work, node);
    if is_at_hand(hand, c, node) {
        return c;
    }
    if node == 0 {
        return label_start(words, chain, first, source, d, x, hand);
    }
    let p = parent_of(work, node);
    let b = label_node(words, chain, first, catch, work, p, source, d, x, hand);
    label_kid(words, chain, first, catch, work, node, b, x, hand)
}

// Raises in arcs the flag of each station to which an optimal connection at minute d has the sequence of the node, and
// in kids that of each change with which one goes on. Returns the station where the node boards; x has its labels
// there.
pub fn mark_node(
    words: &[u16],
    chain: &[u16],
    first: &[u32],
    catch: &[u16],
    work: &[u32],
    node: usize,
    source: usize,
    d: usize,
    allowed: &[u32],
    q: &[u32],
    x: &mut [u32],
    hand: &mut [u16],
    arcs: &mut [u8],
    kids: &mut [u8],
) -> usize
    requires { (16384 ≤ length words.now)
        × (is_timetable words.now ≡ true)
        × Departures words.now chain.now first.now
        × Changes words.now catch.now
        × (source ≤ station_count words.now)
        × Standing words.now source work.now node
        × AtHand words.now source d hand.old x.old
        × (length x.old ≡ 2048)
        × (length hand.old ≡ 66)
        × Judged words.now source d allowed.now q.now
        × (length allowed.now ≡ 2048)
        × (length q.now ≡ 2048)
        × (length arcs.old ≡ 64)
        × (length kids.old ≡ 320) }
    ensures { Marked 64 (ArcsAt words.now source d node) arcs.old arcs.new
        × Marked 320 (KidsAt words.now source d node) kids.old kids.new
        × (length x.new ≡ 2048)
        × (length arcs.new ≡ 64)
        × (length kids.new ≡ 320)
        × NodeLabels words.now source d node result x.new
        × AtHand words.now source d hand.new x.new
        × (top hand.old ≤ top hand.new)
        × (length hand.new ≡ 66)
        × (result ≤ station_count words.now) }
{
    let c = label_node(words, chain, first, catch, work, node, source, d, x, hand);
    store_marks::mark(words, chain, first, catch, allowed, q, x, c, arcs, kids);
    c
}

// Raises the flags of a node at minute d, where they stand among those of the nodes from lo on.
pub fn mark_at(
    words: &[u16],
    chain: &[u16],
    first: &[u32],
    catch: &[u16],
    work: &[u32],
    lo: usize,
    node: usize,
    source: usize,
    d: usize,
    allowed: &[u32],
    q: &[u32],
    x: &mut [u32],
    hand: &mut [u16],
    arcs: &mut [u8],
    kids: &mut [u8],
)
    requires { (16384 ≤ length words.now)
        × (is_timetable words.now ≡ true)
        × Departures words.now chain.now first.now
        × Changes words.now catch.now
        × (source ≤ station_count words.now)
        × Standing words.now source work.now node
        × AtHand words.now source d hand.old x.old
        × (length x.old ≡ 2048)
        × (length hand.old ≡ 66)
        × Judged words.now source d allowed.now q.now
        × (length allowed.now ≡ 2048)
        × (length q.now ≡ 2048)
        × (length arcs.old ≡ 6144)
        × (length kids.old ≡ 30720)
        × (lo ≤ node)
        × (node < lo + 96) }
    ensures { MarkedAt 64 (ArcsAt words.now source d node) lo node
        arcs.old arcs.new
        × MarkedAt 320 (KidsAt words.now source d node) lo node kids.old kids.new
        × AtHand words.now source d hand.new x.new
        × (top hand.old ≤ top hand.new)
        × (length x.new ≡ 2048)
        × (length hand.new ≡ 66)
        × (length arcs.new ≡ 6144)
        × (length kids.new ≡ 30720) }
{
    let o = ARC_FLAGS * (node - lo);
    let p = KID_FLAGS * (node - lo);
    mark_node(
        words,
        chain,
        first,
        catch,
        work,
        node,
        source,
        d,
        allowed,
        q,
        x,
        hand,
        &mut arcs[o..o + ARC_FLAGS],
        &mut kids[p..p + KID_FLAGS],
    );
}
