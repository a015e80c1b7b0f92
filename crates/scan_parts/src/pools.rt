// Slots of each class: taken, and given back after their last use.
ghost use Rattle.std.specs.Prelude.{◌≡◌, ◌+◌, ◌*◌, get_or, set};
ghost use Rattle.scan_parts.specs.Pools.{SameScan, TakeOk, Takes, PushOk, GiveOk, Gives};

use liveness::liveness::MarksRef;

// The scan so far: each node's slot plus one, 0 for none; the free slots of base and of extension in turn, and of each of the
// two how many are free, and how many there are; the words of the nodes written, and how many nodes that is.
#[derive(Drop)]
pub struct Scan<'a> {
    pub slot_of: &'a mut [u32],
    pub free: &'a mut [u32],
    pub tops: [usize; 2],
    pub nexts: [u32; 2],
    pub out: &'a mut [u32],
    pub count: usize,
}

// The last freed slot of the class, else a new number.
pub fn take(class: usize, free: &[u32], tops: &mut [usize; 2], nexts: &mut [u32; 2]) -> u32
    requires { TakeOk class free.now tops.old nexts.old }
    ensures { Takes class free.now tops.old nexts.old result tops.new nexts.new }
{
    let top = tops[class];
    if top == 0 {
        let slot = nexts[class];
        nexts[class] = slot + 1;
        return slot;
    }
    tops[class] = top - 1;
    free[2 * (top - 1) + class]
}

impl Scan<'_> {
    // Each node's slot plus one, to be read.
    pub fn slots(&self) -> &[u32]
        ensures { result.now ≡ self.now.slot_of.now }
    {
        &self.slot_of[..]
    }

    // The free slots, to be read.
    fn free_slots(&self) -> &[u32]
        ensures { result.now ≡ self.now.free.now }
    {
        &self.free[..]
    }

    // The same of the scan's own slots.
    pub fn take(&mut self, class: usize) -> u32
        requires { TakeOk class self.old.free.now self.old.tops self.old.nexts }
        ensures takes { Takes class self.old.free.now self.old.tops self.old.nexts result self.new.tops self.new.nexts }
        ensures lists_unchanged { (self.new.slot_of.now ≡ self.old.slot_of.now) × (self.new.free.now ≡ self.old.free.now) }
        ensures words_unchanged { (self.new.out.now ≡ self.old.out.now) × (self.new.count ≡ self.old.count) }
        ensures same_lists { SameScan self.new self.old }
    {
        let (mut tops, mut nexts) = (self.tops, self.nexts);
        let slot = take(class, self.free_slots(), &mut tops, &mut nexts);
        self.tops = tops;
        self.nexts = nexts;
        slot
    }

    // A slot of the class is free.
    fn push(&mut self, class: usize, slot: u32)
        requires { PushOk class self.old.free.now self.old.tops }
        ensures free_after { self.new.free.now ≡ set self.old.free.now (2 * get_or self.old.tops class 0 + class) slot }
        ensures tops_value { self.new.tops ≡ set self.old.tops class (get_or self.old.tops class 0 + 1) }
        ensures rest { (self.new.nexts ≡ self.old.nexts) × (self.new.slot_of.now ≡ self.old.slot_of.now) }
        ensures words_unchanged { (self.new.out.now ≡ self.old.out.now) × (self.new.count ≡ self.old.count) }
        ensures same_lists { SameScan self.new self.old }
    {
        let top = self.tops[class];
        self.free[2 * top + class] = slot;
        self.tops[class] = top + 1;
    }

    // At node i, operand j gives its slot back if it has one, is no root and is not read later. A node's dim, 0 or 1, is the
    // class of its slot.
    pub fn give_back(&mut self, i: u32, j: u32, nodes: &[u32], marks: &MarksRef)
        requires { GiveOk j nodes.now marks.now.last_use.now marks.now.is_root.now self.old.slot_of.now self.old.free.now self.old.tops self.old.nexts }
        ensures gives { Gives i j nodes.now marks.now.last_use.now marks.now.is_root.now self.old.slot_of.now self.old.free.now self.old.tops self.old.nexts self.new.slot_of.now self.new.free.now self.new.tops }
        ensures nexts_value { self.new.nexts ≡ self.old.nexts }
        ensures words_unchanged { (self.new.out.now ≡ self.old.out.now) × (self.new.count ≡ self.old.count) }
        ensures same_lists { SameScan self.new self.old }
    {
        let at = j as usize;
        let slot = self.slot_of[at];
        if slot != 0 && marks.is_root[at] == 0 && marks.last_use[at] == i {
            self.slot_of[at] = 0;
            self.push(nodes[4 * at + 3] as usize, slot - 1);
        }
    }
}
