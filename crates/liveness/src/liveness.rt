// Which nodes are read, by whom last, and which are roots. Dead readers count.
ghost use Rattle.std.specs.Prelude.{◌≡◌, ◌<◌, ◌≤◌, ◌*◌, length, set};
ghost use Rattle.liveness.specs.LiveLists.{SameMarks, OperandsBelow, NodesBelow, NodeMarked, Readers, RootsBelow, Rooted, Emits, emits_word, bit, LiveOk, Alive};

use ir::node::{OP_ADD, OP_NEG, OP_VAR};
use ir::program::ProgramRef;

// What the pass fills, a word a node: whether any node reads it, and at the end whether it is emitted; which node reads it
// last; whether it is a root.
#[derive(Drop)]
pub struct Marks<'a> {
    pub used: &'a mut [u32],
    pub last_use: &'a mut [u32],
    pub is_root: &'a mut [u32],
}

// The marks, to be read: which nodes are emitted, which reads each last, and which are roots.
#[derive(Clone, Copy)]
pub struct MarksRef<'a> {
    pub used: &'a [u32],
    pub last_use: &'a [u32],
    pub is_root: &'a [u32],
}

impl Marks<'_> {
    // Node i reads node j.
    fn note(&mut self, i: u32, j: usize)
        requires { (j < length self.old.used.now) × (j < length self.old.last_use.now) }
        ensures noted { (self.new.used.now ≡ set self.old.used.now j 1) × (self.new.last_use.now ≡ set self.old.last_use.now j i) × (self.new.is_root.now ≡ self.old.is_root.now) }
        ensures same_marks { SameMarks self.new self.old }
    {
        self.used[j] = 1;
        self.last_use[j] = i;
    }

    // Node i marks what it reads.
    fn mark_node(&mut self, i: u32, tag: u32, x: u32, y: u32)
        requires { OperandsBelow tag x y (length self.old.used.now) × (length self.old.last_use.now ≡ length self.old.used.now) }
        ensures marked { NodeMarked i tag x y self.old.used.now self.old.last_use.now self.new.used.now self.new.last_use.now × (self.new.is_root.now ≡ self.old.is_root.now) }
        ensures same_marks { SameMarks self.new self.old }
    {
        if tag < OP_ADD {
            return;
        }
        self.note(i, x as usize);
        if tag < OP_NEG {
            self.note(i, y as usize);
        }
    }

    // Every node marks what it reads, dead or not; the last reader stays. Lent words may be more than n nodes.
    fn mark_readers(&mut self, n: usize, nodes: &[u32])
        requires { NodesBelow nodes.now n × (n < 536870912) × Readers nodes.now 0 n self.old.used.now self.old.last_use.now }
        ensures readers { Readers nodes.now n n self.new.used.now self.new.last_use.now × (self.new.is_root.now ≡ self.old.is_root.now) }
        ensures same_marks { SameMarks self.new self.old }
    {
        for i in 0..n {
            let at = 4 * i;
            self.mark_node(i as u32, nodes[at], nodes[at + 1], nodes[at + 2]);
        }
    }

    // Roots are never given back. Lent roots may be more than count.
    fn mark_roots(&mut self, n: usize, count: usize, roots: &[u32])
        requires { RootsBelow roots.now count n × Rooted roots.now 0 n self.old.is_root.now }
        ensures rooted { Rooted roots.now count n self.new.is_root.now × (self.new.used.now ≡ self.old.used.now) × (self.new.last_use.now ≡ self.old.last_use.now) }
        ensures same_marks { SameMarks self.new self.old }
    {
        for &j in &roots[..count] {
            self.is_root[j as usize] = 1;
        }
    }

    // The words of use become words of emission; says how many nodes are emitted.
    fn mark_emitted(&mut self, nodes: &[u32]) -> usize
        requires { (4 * length self.old.used.now ≤ length nodes.now) × (length self.old.is_root.now ≡ length self.old.used.now) }
        ensures emitted { Emits (length self.old.used.now) nodes.now self.old.is_root.now self.old.used.now self.new.used.now result × (self.new.last_use.now ≡ self.old.last_use.now) × (self.new.is_root.now ≡ self.old.is_root.now) }
        ensures same_marks { SameMarks self.new self.old }
    {
        let mut count: usize = 0;
        for i in 0..self.used.len() {
            let emitted = emits(nodes[4 * i], self.used[i], self.is_root[i]);
            self.used[i] = u32::from(emitted);
            count += usize::from(emitted);
        }
        count
    }
}

// A used node is emitted unless it is a uniform leaf and no root.
fn emits(tag: u32, used: u32, root: u32) -> bool
    ensures { result ≡ emits_word tag used root }
{
    root != 0 || (used != 0 && (OP_ADD <= tag || tag == OP_VAR))
}

// The liveness pass over lists of 0: which nodes are emitted, who reads each last, which are roots. Says how many are
// emitted.
pub fn mark_live(p: &ProgramRef, marks: &mut Marks) -> usize
    requires { LiveOk p.now.counts p.now.nodes.now p.now.roots.now marks.old.used.now marks.old.last_use.now marks.old.is_root.now }
    ensures alive { Alive p.now.counts p.now.nodes.now p.now.roots.now marks.new.used.now marks.new.last_use.now marks.new.is_root.now result }
    ensures same_marks { SameMarks marks.new marks.old }
{
    let c = p.counts;
    marks.mark_readers(c.nodes, p.nodes);
    marks.mark_roots(c.nodes, c.roots, p.roots);
    marks.mark_emitted(p.nodes)
}
