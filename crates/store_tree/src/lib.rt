//! A pattern store in the making: its nodes are numbered breadth first, their arcs counted and listed, and then
//! written.
#![tactic(auto)]

ghost use Rattle.std.specs.Prelude.{◌≡◌, true, List, ℕ, suc, ◌+◌, ◌*◌, ◌≤◌, ◌<◌, length, get_or};
ghost use Rattle.words.specs.Put.{put};
ghost use Rattle.lists.specs.Lists.{◌∈◌};
ghost use Rattle.timetable.specs.Words.{station_count, is_timetable};
ghost use Rattle.stores.specs.Words.{encode};
ghost use Rattle.store_slots.specs.Slots.{slots};
ghost use Rattle.store_tree.specs.Tree.{Made, Grown, node_word, slot_in, parent_in, arcs_in};
ghost use Rattle.store_tree.specs.Marks.{marked, marks, slot_marks, kid_words};
ghost use Rattle.store_tree.specs.Laid.{arc_words, hits_to, node_hits, total, hits_of, entries_to};
ghost use Rattle.store_tree.specs.Taking.{Next, Takes, Taken, Whole};

use stores::ENTRIES_MOST;

// The word of a node that has not been taken: the slot of its change and its parent's number.
fn node_word(slot: u32, parent: u32) -> u32
    requires { (slot < 512) × (parent < 16384) }
    ensures { result ≡ node_word slot parent 0 }
{
    slot + 512 * parent
}

pub fn node_slot(x: u32) -> u32
    ensures { (result ≡ slot_in x) × (result < 512) }
{
    x % 512
}

pub fn node_parent(x: u32) -> u32
    ensures { (result ≡ parent_in x) × (result < 16384) }
{
    x / 512 % 16384
}

fn node_arcs(x: u32) -> u32
    ensures { (result ≡ arcs_in x) × (result < 512) }
{
    x / 8388608
}

// The tree begins with its root, the slot of which is that of a change at the source; no node has been taken.
pub fn plant_root(work: &mut [u32], source: u32)
    requires { (length work.old ≡ 16384) × (1 ≤ source) }
    ensures { (words : List ℕ) (ps : List (List ℕ)) (targets : List ℕ)
        → is_timetable words ≡ true
        → source ≤ station_count words
        → length targets ≡ 16384
        → Grown words ps source work.new targets 0 0 0 }
{
    work[0] = source - 1;
}

// How many nodes and arcs there are once a node was taken, if they fit a store.
#[derive(Clone, Copy)]
pub struct Counts {
    pub n: usize,
    pub m: usize,
    pub fits: bool,
}

// One more, if the flag is 1.
fn counted(count: usize, flag: u8) -> usize
    requires { count < 320 }
    ensures { (result ≡ count + length (marked flag 0)) × (result ≤ count + 1) }
{
    if flag == 1 {
        return count + 1;
    }
    count
}

// How many stations the flags mark.
fn mark_count(flags: &[u8]) -> usize
    requires { length flags.now ≡ 64 }
    ensures { (result ≡ length (marks flags.now)) × (result ≤ 64) }
{
    let mut count = 0;
    for flag in flags {
        count = counted(count, *flag);
    }
    count
}

// How many of the slots that are listed the flags mark.
fn slot_count(flags: &[u8], list: &[u16]) -> usize
    requires { (length flags.now ≡ 320)
        × ((j : ℕ) → j < length list.now → get_or list.now j 0 < 320)
        × (length list.now ≤ 320) }
    ensures { (result ≡ length (slot_marks flags.now list.now)) × (result ≤ 320) }
{
    let mut count = 0;
    for slot in list {
        count = counted(count, flags[*slot as usize]);
    }
    count
}

// Lists target b at index m, if its flag is 1. Returns the index after it.
fn put_target(targets: &mut [u8], m: usize, flag: u8, b: u8) -> usize
    requires { m + length (marked flag b) ≤ length targets.old }
    ensures targets_after { targets.new ≡ put m (marked flag b) targets.old }
    ensures targets_len_unchanged { length targets.new ≡ length targets.old }
    ensures value { result ≡ m + length (marked flag b) }
{
    if flag == 1 {
        targets[m] = b;
        return m + 1;
    }
    m
}

// Lists the targets that are marked, from index m on.
fn put_targets(targets: &mut [u8], m: usize, arcs: &[u8])
    requires { (length arcs.now ≡ 64) × (m + length (marks arcs.now) ≤ length targets.old) }
    ensures targets_after { targets.new ≡ put m (marks arcs.now) targets.old }
    ensures targets_len_unchanged { length targets.new ≡ length targets.old }
{
    let mut here = m;
    for (j, flag) in arcs.iter().enumerate() {
        here = put_target(targets, here, *flag, (j + 1) as u8);
    }
}

// The word of the kid of v that ends with the change of a slot, at index n, if its flag is 1. Returns the index after
// it.
fn put_kid(work: &mut [u32], n: usize, flag: u8, slot: u32, v: u32) -> usize
    requires { (slot < 320) × (v < 16384) × (n + length (marked flag slot) ≤ length work.old) }
    ensures work_after { work.new ≡ put n (kid_words v (marked flag slot)) work.old }
    ensures work_len_unchanged { length work.new ≡ length work.old }
    ensures value { result ≡ n + length (marked flag slot) }
{
    if flag == 1 {
        work[n] = node_word(slot, v);
        return n + 1;
    }
    n
}

// The words of the kids of v the slots of which are marked, in the order of the list, from index n on.
fn put_kids(work: &mut [u32], n: usize, v: u32, kids: &[u8], list: &[u16])
    requires { (length kids.now ≡ 320)
        × ((j : ℕ) → j < length list.now → get_or list.now j 0 < 320)
        × (v < 16384)
        × (n + length (slot_marks kids.now list.now) ≤ length work.old) }
    ensures work_after { work.new
        ≡ put n (kid_words v (slot_marks kids.now list.now)) work.old }
    ensures work_len_unchanged { length work.new ≡ length work.old }
{
    let mut here = n;
    for slot in list {
        here = put_kid(work, here, kids[*slot as usize], *slot as u32, v);
    }
}

// Takes node v: its kids get the next words, the targets of its arcs are listed, and its own word counts them. The list
// is that of all slots. Where they do not fit, no store of these sequences does.
pub fn take_node(
    work: &mut [u32],
    targets: &mut [u8],
    v: usize,
    n: usize,
    m: usize,
    arcs: &[u8],
    kids: &[u8],
    list: &[u16],
) -> Counts
    requires { Takes list.now work.old targets.old n m v arcs.now kids.now }
    ensures { (words : List ℕ) (ps : List (List ℕ)) (source : ℕ)
        → list.now ≡ slots words
        → Next words ps source work.old targets.old n m v arcs.now
        kids.now
        → Taken words ps source work.new targets.new v result }
{
    let ends = mark_count(arcs);
    let young = slot_count(kids, list);
    if ENTRIES_MOST < n + young {
        return Counts { n, m, fits: false };
    }
    if ENTRIES_MOST < m + ends {
        return Counts { n, m, fits: false };
    }
    put_kids(work, n + 1, v as u32, kids, list);
    put_targets(targets, m, arcs);
    work[v] = work[v] + 8388608 * (ends as u32);
    Counts {
        n: n + young,
        m: m + ends,
        fits: true,
    }
}

// The stations alighted and boarded at and the parent of each node from 1 to n.
fn write_nodes(words: &[u16], work: &[u32], n: usize, store: &mut [u16])
    requires { (16384 ≤ length words.now)
        × (is_timetable words.now ≡ true)
        × ((v : ℕ) → v ≤ n → slot_in (get_or work.now v 0) ∈ slots words.now)
        × (n < length work.now)
        × (n ≤ 16383)
        × (2 + 3 * n ≤ length store.old) }
    ensures store_after { store.new
        ≡ put 2 (entries_to words.now work.now 1 (suc n)) store.old }
    ensures store_len_unchanged { length store.new ≡ length store.old }
{
    for v in 1..n + 1 {
        let x = work[v];
        let change = store_slots::transfer_at(words, node_slot(x) as usize);
        words::narrow(
            store,
            3 * v - 1,
            &[change.alighted, change.boarded, node_parent(x)],
        );
    }
}

// An arc of node v, if its target is b. Returns the index after it.
fn write_arc(store: &mut [u16], at: usize, target: u8, b: u32, v: u32) -> usize
    requires { (b < 65536) × (v < 65536) × (at + length (arc_words target b v) ≤ length store.old) }
    ensures store_after { store.new ≡ put at (arc_words target b v) store.old }
    ensures store_len_unchanged { length store.new ≡ length store.old }
    ensures value { result ≡ at + length (arc_words target b v) }
{
    if target as u32 == b {
        words::narrow(store, at, &[b, v]);
        return at + 2;
    }
    at
}

// The arcs of node v to b, among the targets from index first to end. Returns the index after them.
fn write_hits(
    targets: &[u8],
    first: usize,
    end: usize,
    b: u32,
    v: u32,
    store: &mut [u16],
    at: usize,
) -> usize
    requires { (b < 65536)
        × (v < 65536)
        × (end ≤ length targets.now)
        × (at + length (hits_to targets.now b v first end) ≤ length store.old) }
    ensures store_after { store.new
        ≡ put at (hits_to targets.now b v first end) store.old }
    ensures store_len_unchanged { length store.new ≡ length store.old }
    ensures value { result ≡ at + length (hits_to targets.now b v first end) }
{
    let mut here = at;
    for i in first..end {
        here = write_arc(store, here, targets[i], b, v);
    }
    here
}

// The arcs of all nodes to b. Returns the index after them.
fn write_arcs_to(
    work: &[u32],
    targets: &[u8],
    n: usize,
    b: u32,
    store: &mut [u16],
    at: usize,
) -> usize
    requires { (b < 65536)
        × (n < length work.now)
        × (n ≤ 16383)
        × (length targets.now ≡ 16384)
        × (total work.now 0 (suc n) ≤ 16384)
        × (at + length (node_hits work.now targets.now b 0 0 (suc n)) ≤ length store.old) }
    ensures store_after { store.new
        ≡ put at (node_hits work.now targets.now b 0 0 (suc n)) store.old }
    ensures store_len_unchanged { length store.new ≡ length store.old }
    ensures value { result ≡ at + length (node_hits work.now targets.now b 0 0 (suc n)) }
{
    let mut here = at;
    let mut i = 0;
    for v in 0..n + 1 {
        let end = i + node_arcs(work[v]) as usize;
        here = write_hits(targets, i, end, b, v as u32, store, here);
        i = end;
    }
    here
}

// The arcs to the stations, one station after the other.
fn write_arcs(work: &[u32], targets: &[u8], n: usize, stations: usize, store: &mut [u16], at: usize)
    requires { (stations ≤ 64)
        × (n < length work.now)
        × (n ≤ 16383)
        × (length targets.now ≡ 16384)
        × (total work.now 0 (suc n) ≤ 16384)
        × (at + length (hits_of work.now targets.now n 1 (suc stations)) ≤ length store.old) }
    ensures store_after { store.new
        ≡ put at (hits_of work.now targets.now n 1 (suc stations)) store.old }
    ensures store_len_unchanged { length store.new ≡ length store.old }
{
    let mut here = at;
    for b in 1..stations + 1 {
        here = write_arcs_to(work, targets, n, b as u32, store, here);
    }
}

// Writes the store of a tree all nodes of which have been taken: n and m, the nodes, and the arcs, which rise by target
// and then predecessor.
pub fn write_store(
    words: &[u16],
    work: &[u32],
    targets: &[u8],
    n: usize,
    m: usize,
    store: &mut [u16],
)
    requires { (16384 ≤ length words.now)
        × Whole words.now work.now targets.now n m
        × (2 + 3 * n + 2 * m ≤ length store.old) }
    ensures by_index { (ps : List (List ℕ)) (source : ℕ)
        → Made words.now ps
        → Grown words.now ps source work.now targets.now n m (suc n)
        → store.new ≡ put 0 (encode ps) store.old }
    ensures store_len_unchanged { length store.new ≡ length store.old }
{
    let stations = words::word(words, 0) as usize;
    words::narrow(store, 0, &[n as u32, m as u32]);
    write_nodes(words, work, n, store);
    write_arcs(work, targets, n, stations, store, 2 + 3 * n);
}
