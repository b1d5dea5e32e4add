// The engine: decides by saturation what a pushdown system can do, with a set of bits for each node.
// Words are `u32`, and `as usize` makes a number of one: std has no `From<u32>` for `usize`.
#![tactic(auto)]

ghost use Rattle.std.specs.Prelude.{◌≡◌, ◌*◌, ◌/◌, ◌<◌, length, slice_index};
ghost use Rattle.saturation.specs.System.{proc, site_begin, site_end, Fine, Starts, Tells};
ghost use Rattle.saturation.specs.Node.{Is};
ghost use Rattle.saturation.specs.Engine.{Ready};

use engine::Engine;
use marks::Marks;
use std::ops::Range;

pub mod bits;
mod engine;
mod marks;
mod visits;

// A pushdown system on numbers. A node is the number of a place and a shared value: its rest by `shared`.
#[derive(Clone, Copy)]
pub struct System<'g, 's> {
    // Four words for each node: kind, first, second, and where its procedure begins. Not structs: the memory is lent as words.
    pub graph: &'g [u32],
    // The first node of each place that calls, those of one procedure's calls together.
    pub sites: &'s [u32],
    // How many shared values there are.
    pub shared: usize,
    // How many nodes there are, though `graph` tells it: contracts and laws name it, and a quarter of a length in its
    // place is no plainer.
    pub nodes: usize,
}

// What a node does: it flows to two nodes; it calls, at the callee's first node, and goes on behind, at the first
// node of a place; or it returns, to the call places from `begin` to `end` (a `Range` would not be `Copy`).
#[derive(Clone, Copy, PartialEq, Debug)]
pub enum Node {
    Flow { first: usize, second: usize },
    Call { callee: usize, next: usize },
    Return { begin: usize, end: usize },
}

// That the words are `Fine` is asked by the methods: a ghost field would ask it of whoever makes a system.
impl System<'_, '_> {
    // Node `n`.
    #[inline]
    #[tactic(auto, unfolding(crate::specs::System::kind, crate::specs::System::first, crate::specs::System::second))]
    pub fn node(&self, n: usize) -> Node
        requires fine { Fine self.now.graph.now self.now.shared self.now.nodes }
        requires within { n < self.now.nodes }
        ensures { Is self.now.graph.now n result }
    {
        let first = self.graph[4 * n + 1] as usize;
        let second = self.graph[4 * n + 2] as usize;
        match self.graph[4 * n] {
            0 => Node::Flow { first, second },
            1 => Node::Call {
                callee: first,
                next: second,
            },
            _ => Node::Return {
                begin: first,
                end: second,
            },
        }
    }

    // The first node of the procedure that node `n` stands in.
    #[inline]
    #[tactic(auto, unfolding(crate::specs::System::proc))]
    pub fn base(&self, n: usize) -> usize
        requires fine { Fine self.now.graph.now self.now.shared self.now.nodes }
        requires within { n < self.now.nodes }
        ensures { result ≡ proc self.now.graph.now n }
    {
        self.graph[4 * n + 3] as usize
    }

    // The nodes of the call place number `site`.
    #[inline]
    #[tactic(auto, unfolding(crate::specs::System::second, crate::specs::System::site_begin))]
    pub fn place(&self, site: usize) -> Range<usize>
        requires fine { Fine self.now.graph.now self.now.shared self.now.nodes }
        requires listed { site < length self.now.sites.now }
        requires within { site_begin self.now.sites.now site < self.now.nodes }
        ensures begin { result.start ≡ site_begin self.now.sites.now site }
        ensures end { result.end ≡ site_end self.now.graph.now self.now.sites.now site }
    {
        let begin = self.sites[site] as usize;
        begin..self.graph[4 * begin + 2] as usize
    }
}

// Fills `work` with what the system can do from its entry `root` on. What `work` and `marks` hold before does not matter.
pub fn saturate(system: System, work: &mut [u32], marks: &mut [u32], root: usize)
    requires ready { Ready system work.old marks.old }
    requires starts { Starts system.graph.now system.shared system.nodes root }
    ensures { Tells system.entry.graph.now system.entry.shared system.entry.nodes root work.new }
{
    work.fill(0);
    let mut marks = Marks::new(marks);
    let mut engine = Engine {
        system,
        sets: work,
        marks: &mut marks,
    };
    engine.insert(root, 0);
    engine.sweep(root);
}
