ghost use Rattle.std.specs.Prelude.{◌≡◌, ℕ, ◌+◌, ◌<◌, ◌==◌, false, IsTrue, nat_lt, length, IfOk, IfSome, IfNone, if◌then◌else◌};
ghost use Rattle.std.specs.Int.{bit_at};
ghost use Rattle.class_heap.specs.Tree.{IsTree, IsMended, IsMendedBut, SameLeaves, IsLeastWith, word_of};

use blocks::Memory;
use std::alloc::{AllocError, Global};

/// The most levels below the root.
const MOST_LEVELS: u32 = 40;

/// For each number below a bound a set of labels below 64, with the least number that has a label found in
/// logarithmic time.
///
/// The sets are the leaves of a tree in one row, in which node `k` has the labels of its children `2k` and `2k + 1`.
#[derive(Drop)]
pub(crate) struct Directory {
    pub(crate) bound: usize,
    levels: u32,
    nodes: Vec<u64>,
    ghost sound: { IsTree bound levels nodes.items },
}

fn mend(nodes: &mut [u64], bound: usize, from: usize)
    requires long { length nodes.old ≡ bound + bound }
    requires inside { from < bound }
    requires broken { IsMendedBut bound nodes.old from }
    ensures mended { IsMended bound nodes.new }
    ensures leaves { SameLeaves bound nodes.old nodes.new }
{
    let mut node = from;
    'up: while node > 0 {
        let labels = nodes[node + node] | nodes[node + node + 1];
        if nodes[node] == labels {
            return;
        }
        nodes[node] = labels;
        node /= 2;
    }
}

impl Directory {
    ghost use Rattle.class_heap.specs.Directory.{labels_at};

    /// A directory of no number. It takes no memory.
    pub(crate) fn new(alloc: Global) -> Directory
        ensures { result.bound ≡ 0 }
    {
        Directory {
            bound: 0,
            levels: 0,
            nodes: Vec::new(alloc),
        }
    }

    /// A directory of twice as many numbers, and at least one. The further numbers have these labels.
    pub(crate) fn wider(&self, alloc: Global, labels: u64) -> Result<Directory, Memory>
        ensures bound { IfOk result (λ d. d.bound ≡ (if self.now.bound == 0 then 1 else self.now.bound + self.now.bound)) }
        ensures labels { IfOk result (λ d. (n : ℕ) → n < d.bound → labels_at d n ≡ (if nat_lt n self.now.bound then labels_at self.now n else labels)) }
    {
        if self.levels == MOST_LEVELS {
            return Err(AllocError);
        }
        let levels = if self.bound == 0 { 0 } else { self.levels + 1 };
        let bound = 1 << levels;
        let nodes = vec![in alloc; 0u64; bound + bound]?;
        let mut wider = Directory {
            bound,
            levels,
            nodes,
        };
        'copy: for number in 0..bound {
            wider.set(number, self.labels_or(number, labels));
        }
        Ok(wider)
    }

    /// The labels of a number; those given where the number isn't below the bound.
    fn labels_or(&self, number: usize, labels: u64) -> u64
        ensures { result ≡ (if nat_lt number self.now.bound then labels_at self.now number else labels) }
    {
        if number < self.bound {
            self.nodes[self.bound + number]
        } else {
            labels
        }
    }

    /// Whether a node has the label.
    fn has(&self, node: usize, label: u32) -> bool
        requires inside { node < self.now.bound + self.now.bound }
        requires label { label < 64 }
        ensures yes { IsTrue result → bit_at (word_of self.now.nodes.items node) label ≡ 1 }
        ensures no { result ≡ false → bit_at (word_of self.now.nodes.items node) label ≡ 0 }
    {
        self.nodes[node] >> label & 1 == 1
    }

    /// The least number with the label.
    pub(crate) fn first(&self, label: u32) -> Option<usize>
        requires { label < 64 }
        ensures least { IfSome result (IsLeastWith self.now.bound self.now.nodes.items label) }
        ensures none { IfNone result ((n : ℕ) → n < self.now.bound → bit_at (labels_at self.now n) label ≡ 0) }
    {
        if self.bound == 0 {
            return None;
        }
        if !self.has(1, label) {
            return None;
        }
        let mut node = 1;
        let mut level = self.levels;
        'down: while level > 0 {
            level -= 1;
            node += node;
            if !self.has(node, label) {
                node += 1;
            }
        }
        Some(node - self.bound)
    }

    /// Gives a number these labels.
    pub(crate) fn set(&mut self, number: usize, labels: u64)
        requires { number < self.old.bound }
        ensures bound { self.new.bound ≡ self.old.bound }
        ensures labels { (n : ℕ) → n < self.new.bound → labels_at self.new n ≡ (if n == number then labels else labels_at self.old n) }
    {
        self.nodes[self.bound + number] = labels;
        mend(&mut self.nodes, self.bound, (self.bound + number) / 2);
    }
}
