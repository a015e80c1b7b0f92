// The nodes in lent words, shared through hash places: a place holds 0 where it is free, or a node's id + 1.
ghost use Rattle.std.specs.Prelude.{◌≡◌, ◌+◌, ◌*◌, ◌/◌, ◌<◌, ◌≤◌, min, length};
ghost use Rattle.ir.specs.Words.{node_at};
ghost use Rattle.node_table.specs.Words.{words_of, put};
ghost use Rattle.node_table.specs.Hashing.{mixed, hash_of, start_of};
ghost use Rattle.node_table.specs.Table.{table, next as next_of, stops as stops_of, find as find_of, push as push_of};
ghost use Rattle.node_table.specs.Puts.{Pushes};

use ir::program::MOST;

// A node's words.
#[derive(Clone, Copy, PartialEq, Eq)]
pub struct Node {
    pub tag: u32,
    pub x: u32,
    pub y: u32,
    pub dim: u32,
}

// One word into the hash: every step wraps at 32 bits.
#[tactic(auto, unfolding(crate::specs::Hashing::mixed))]
fn mix(h: u32, v: u32) -> u32
    ensures { result ≡ mixed h v }
{
    let m = h.wrapping_add(v).wrapping_mul(2654435761);
    m.wrapping_add(m / 32768)
}

#[tactic(auto, unfolding(crate::specs::Hashing::hash_of))]
fn hash(w: Node) -> u32
    ensures { result ≡ hash_of (words_of w) }
{
    mix(mix(mix(w.dim, w.tag), w.x), w.y)
}

// The next place of a ring of k.
fn next(k: usize, at: usize) -> usize
    requires { at < k }
    ensures { result ≡ next_of k at }
{
    if at + 1 < k { at + 1 } else { 0 }
}

// Node i of the lent words.
fn load(nodes: &[u32], i: usize) -> Node
    requires { 4 * i + 4 ≤ length nodes.now }
    ensures { words_of result ≡ node_at nodes.now i }
{
    let o = 4 * i;
    Node {
        tag: nodes[o],
        x: nodes[o + 1],
        y: nodes[o + 2],
        dim: nodes[o + 3],
    }
}

// Whether a lookup of w stops at a place that holds v: it is free, or names an equal node. Of the lent words the first count nodes
// are there, and the others are room for more.
#[tactic(auto, unfolding(crate::specs::Table::stops, crate::specs::Words::same))]
fn stops(nodes: &[u32], count: usize, w: Node, v: usize) -> bool
    requires { 4 * count ≤ length nodes.now }
    ensures { result ≡ stops_of nodes.now count (words_of w) v }
{
    v == 0 || (v <= count && load(nodes, v - 1) == w)
}

// The place where the lookup of w comes out: an equal node's, the free one, or the number of places where it met
// neither. It looks at no place twice, whatever the words. A loop, for document 01 names this form.
fn find(nodes: &[u32], count: usize, places: &[u32], w: Node) -> usize
    requires { 4 * count ≤ length nodes.now }
    ensures { result ≡ find_of (start_of (length places.now) (words_of w)) (table nodes.now places.now count) (words_of w) }
{
    let k = places.len();
    if k == 0 {
        return k;
    }
    let mut at = hash(w) as usize % k;
    let mut left = k;
    loop {
        if left == 0 {
            break k;
        }
        if stops(nodes, count, w, places[at] as usize) {
            break at;
        }
        at = next(k, at);
        left -= 1;
    }
}

// Where a push put a node: the node's id, and how many nodes there are now.
#[derive(Clone, Copy)]
pub struct Placed {
    pub id: u32,
    pub count: usize,
}

// Writes node i.
fn store(nodes: &mut [u32], i: usize, w: Node)
    requires { 4 * i + 4 ≤ length nodes.old }
    ensures { nodes.new ≡ put nodes.old i (words_of w) }
{
    let o = 4 * i;
    nodes[o] = w.tag;
    nodes[o + 1] = w.x;
    nodes[o + 2] = w.y;
    nodes[o + 3] = w.dim;
}

// How many nodes fit.
pub fn room(nodes: usize, places: usize) -> usize
    ensures { result ≡ min (nodes / 4) (min places 536870911) }
{
    (nodes / 4).min(places.min(MOST))
}

// An equal node's id, or the node is appended; none where it is new and does not fit.
#[tactic(auto, unfolding(crate::specs::Table::push, crate::specs::Table::push_at))]
pub fn push(nodes: &mut [u32], count: usize, places: &mut [u32], w: Node) -> Option<Placed>
    requires { 4 * count ≤ length nodes.old }
    ensures { Pushes (push_of (start_of (length places.old) (words_of w)) (table nodes.old places.old count) (words_of w)) count result nodes.new places.new }
{
    let at = find(nodes, count, places, w);
    if places.len() <= at {
        return None;
    }
    let v = places[at];
    if v != 0 {
        return Some(Placed { id: v - 1, count });
    }
    if room(nodes.len(), places.len()) <= count {
        return None;
    }
    let id = count as u32;
    store(nodes, count, w);
    places[at] = id + 1;
    Some(Placed {
        id,
        count: count + 1,
    })
}
