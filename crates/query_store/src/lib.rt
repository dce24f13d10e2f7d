//! Question 13: is a store well made? And the sequences of a well-made store, by number.
#![tactic(auto)]

ghost use Rattle.std.specs.Prelude.{◌≡◌, true, false, ◌+◌, ◌*◌, ◌≤◌, ◌<◌, length, take};
ghost use Rattle.stores.specs.Words.{is_station, well_made};
ghost use Rattle.query_store.specs.Entries.{
  node_count,
  arc_count,
  node_alighted,
  node_boarded,
  node_parent,
  arc_target,
  arc_before,
};
ghost use Rattle.query_store.specs.Paths.{node_path, arc_path};
ghost use Rattle.query_store.specs.Repeats.{Repeats, Idle};
ghost use Rattle.query_store.specs.Depths.{Depths};
ghost use Rattle.query_store.specs.Tests.{present_test, nodes_test, arc_test, rises_test, arcs_test};
ghost use Rattle.query_store.specs.Made.{Made};

use stores::ENTRIES_MOST;

// A pattern has at most 64 rides, and so these changes.
const CHANGES_MOST: u32 = 63;

// ---- nodes and arcs, where their words are there

// The number of nodes.
fn node_count(store: &[u16]) -> usize
    requires { 2 ≤ length store.now }
    ensures { (result ≡ node_count store.now) × (result < 65536) }
{
    words::word(store, 0) as usize
}

// The number of arcs.
pub fn arc_count(store: &[u16]) -> usize
    requires { 2 ≤ length store.now }
    ensures { (result ≡ arc_count store.now) × (result < 65536) }
{
    words::word(store, 1) as usize
}

// The station alighted at of node v, counted from 1.
fn node_alighted(store: &[u16], v: usize) -> usize
    requires { (1 ≤ v) × (3 * v + 1 < length store.now) }
    ensures { (result ≡ node_alighted store.now v) × (result < 65536) }
{
    words::word(store, 3 * v - 1) as usize
}

// The station boarded at of node v.
fn node_boarded(store: &[u16], v: usize) -> usize
    requires { 3 * v + 1 < length store.now }
    ensures { (result ≡ node_boarded store.now v) × (result < 65536) }
{
    words::word(store, 3 * v) as usize
}

// The parent of node v: a node, or 0 for the root.
fn node_parent(store: &[u16], v: usize) -> usize
    requires { 3 * v + 1 < length store.now }
    ensures { (result ≡ node_parent store.now v) × (result < 65536) }
{
    words::word(store, 3 * v + 1) as usize
}

// The target of arc k, counted from 0.
fn arc_target(store: &[u16], k: usize) -> usize
    requires { (2 + 3 * node_count store.now + 2 * arc_count store.now ≤ length store.now)
        × (k < arc_count store.now) }
    ensures { (result ≡ arc_target store.now k) × (result < 65536) }
{
    words::word(store, 2 + 3 * node_count(store) + 2 * k) as usize
}

// The predecessor of arc k: a node, or 0 for the root.
fn arc_before(store: &[u16], k: usize) -> usize
    requires { (2 + 3 * node_count store.now + 2 * arc_count store.now ≤ length store.now)
        × (k < arc_count store.now) }
    ensures { (result ≡ arc_before store.now k) × (result < 65536) }
{
    words::word(store, 2 + 3 * node_count(store) + 2 * k + 1) as usize
}

// ---- question 13

// Whether the station is one of so many.
fn is_listed(stations: usize, station: usize) -> bool
    ensures { result ≡ is_station stations station }
{
    if station < 1 {
        return false;
    }
    station <= stations
}

// Whether all words that the counts promise are there, and the counts within their limits.
fn is_present(store: &[u16]) -> bool
    ensures { result ≡ present_test store.now }
{
    if store.len() < 2 {
        return false;
    }
    let nodes = node_count(store);
    let arcs = arc_count(store);
    if store.len() < 2 + 3 * nodes + 2 * arcs {
        return false;
    }
    if ENTRIES_MOST < nodes {
        return false;
    }
    arcs <= ENTRIES_MOST
}

// Whether the nodes are well made. If so, word v of working space is the number of changes of node v.
fn nodes_made(store: &[u16], stations: usize, work: &mut [u32]) -> bool
    requires { (2 + 3 * node_count store.now ≤ length store.now)
        × (node_count store.now ≤ 16383)
        × (16384 ≤ length work.old) }
    ensures value { result ≡ nodes_test stations store.now 0 }
    ensures depths { result ≡ true → Depths store.now work.new (node_count store.now) }
{
    let nodes = node_count(store);
    work[0] = 0;
    for v in 0..nodes {
        let node = v + 1;
        if !is_listed(stations, node_alighted(store, node)) {
            return false;
        }
        if !is_listed(stations, node_boarded(store, node)) {
            return false;
        }
        let parent = node_parent(store, node);
        if v < parent {
            return false;
        }
        work[node] = work[parent] + 1;
    }
    true
}

// Whether arc k is well made, and its pattern is not too long.
fn arc_made(store: &[u16], stations: usize, work: &[u32], k: usize) -> bool
    requires { (2 + 3 * node_count store.now + 2 * arc_count store.now ≤ length store.now)
        × (node_count store.now ≤ 16383)
        × (16384 ≤ length work.now)
        × Depths store.now work.now (node_count store.now)
        × (k < arc_count store.now) }
    ensures { result ≡ arc_test stations store.now k }
{
    if !is_listed(stations, arc_target(store, k)) {
        return false;
    }
    let before = arc_before(store, k);
    if node_count(store) < before {
        return false;
    }
    work[before] <= CHANGES_MOST
}

// Whether arc k is the last, or comes before the next: by target, then predecessor.
fn arc_rises(store: &[u16], k: usize) -> bool
    requires { (2 + 3 * node_count store.now + 2 * arc_count store.now ≤ length store.now)
        × (k < arc_count store.now) }
    ensures { result ≡ rises_test store.now k }
{
    let next = k + 1;
    if arc_count(store) <= next {
        return true;
    }
    let target = arc_target(store, k);
    let later = arc_target(store, next);
    if target < later {
        return true;
    }
    if later < target {
        return false;
    }
    arc_before(store, k) < arc_before(store, next)
}

// Whether the arcs are well made and rise, and no pattern is too long.
fn arcs_made(store: &[u16], stations: usize, work: &[u32]) -> bool
    requires { (2 + 3 * node_count store.now + 2 * arc_count store.now ≤ length store.now)
        × (node_count store.now ≤ 16383)
        × (16384 ≤ length work.now)
        × Depths store.now work.now (node_count store.now) }
    ensures { result ≡ arcs_test stations store.now 0 }
{
    let arcs = arc_count(store);
    for k in 0..arcs {
        if !arc_made(store, stations, work, k) {
            return false;
        }
        if !arc_rises(store, k) {
            return false;
        }
    }
    true
}

// Question 13, for so many stations. Working space may hold any words afterwards.
pub fn is_well_made(store: &[u16], stations: usize, work: &mut [u32]) -> bool
    requires { 16384 ≤ length work.old }
    ensures { result ≡ well_made stations store.now }
{
    if !is_present(store) {
        return false;
    }
    if !nodes_made(store, stations, work) {
        return false;
    }
    arcs_made(store, stations, work)
}

// ---- the sequences of a well-made store

// Writes the stations of a node, for each change where one alights and where one boards, from the root's child to its
// own, and returns how many; none for 0, the root.
fn read_pattern(store: &[u16], node: usize, path: &mut [u16]) -> usize
    requires made { Made store.now }
    requires node_bound { (node ≤ node_count store.now) × (length (node_path store.now node) ≤ length path.old) }
    ensures path_after { take result path.new ≡ node_path store.now node }
    ensures value { result ≡ length (node_path store.now node) }
    ensures path_len_unchanged { length path.new ≡ length path.old }
{
    if node == 0 {
        return 0;
    }
    let depth = read_pattern(store, node_parent(store, node), path);
    path[depth] = node_alighted(store, node) as u16;
    path[depth + 1] = node_boarded(store, node) as u16;
    depth + 2
}

// Writes the stations of the pattern of arc k, without the source, and returns how many.
pub fn arc_pattern(store: &[u16], k: usize, path: &mut [u16]) -> usize
    requires made { Made store.now }
    requires k_bound { (k < arc_count store.now) × (128 ≤ length path.old) }
    ensures path_after { take result path.new ≡ arc_path store.now k }
    ensures value { (result ≡ length (arc_path store.now k)) × (1 ≤ result) × (result ≤ 127) }
    ensures path_len_unchanged { length path.new ≡ length path.old }
{
    let depth = read_pattern(store, arc_before(store, k), path);
    path[depth] = arc_target(store, k) as u16;
    depth + 1
}

// Whether two nodes have the same stations, from the root to their own. Where nodes were doubled, their parents are
// soon the same.
fn same_stations(store: &[u16], first: usize, second: usize) -> bool
    requires { Made store.now × (first ≤ node_count store.now) × (second ≤ node_count store.now) }
    ensures { result ≡ true → node_path store.now first ≡ node_path store.now second }
{
    let mut u = first;
    let mut v = second;
    // Stays: both nodes go up to their parents, by links that no range counts.
    while u != v {
        if u == 0 {
            return false;
        }
        if v == 0 {
            return false;
        }
        if node_alighted(store, u) != node_alighted(store, v) {
            return false;
        }
        if node_boarded(store, u) != node_boarded(store, v) {
            return false;
        }
        u = node_parent(store, u);
        v = node_parent(store, v);
    }
    true
}

// Whether arc k reads the sequence of the arc before it.
fn repeats(store: &[u16], k: usize) -> bool
    requires { Made store.now × (k < arc_count store.now) }
    ensures { result ≡ true → Repeats store.now k }
{
    if k == 0 {
        return false;
    }
    if arc_target(store, k - 1) != arc_target(store, k) {
        return false;
    }
    same_stations(store, arc_before(store, k), arc_before(store, k - 1))
}

// Whether arc k counts for a target: it leads there, and does not read the sequence of the arc before it once more.
pub fn counts(store: &[u16], k: usize, target: usize) -> bool
    requires { Made store.now × (k < arc_count store.now) }
    ensures { (result ≡ true → arc_target store.now k ≡ target)
        × (result ≡ false → Idle store.now target k) }
{
    if arc_target(store, k) != target {
        return false;
    }
    !repeats(store, k)
}
