// Visits of nodes: one function for each kind of node, and one that tells them apart.
ghost use Rattle.std.specs.Prelude.{◌<◌, true};
ghost use Rattle.saturation.specs.Node.{Is};
ghost use Rattle.saturation.specs.Steps.{Still, CallersMarked, Returned, Visited, Resumed};

use crate::Node;
use crate::bits::add;
use crate::engine::Engine;
use std::ops::Range;

impl Engine<'_, '_, '_, '_, '_> {
    // Marks the calls that enter the procedure of the return `q` with `x`, those that have a bit set; they stand in
    // the call places `sites`.
    fn revisit_callers(&mut self, q: usize, sites: Range<usize>, x: usize)
        requires within { q < self.old.system.nodes }
        requires is { Is self.old.system.graph.now q (Node.Return sites.start sites.end) }
        requires value { x < self.old.system.shared }
        ensures still { Still self.old self.new }
        ensures marked { CallersMarked self.old self.new q x true }
    {
        let system = self.system;
        // No loop over `sites` itself: it goes by its iterator, whose index the invariant then lacks (tried).
        for site in sites.start..sites.end {
            self.revisit_place(system.place(site), x);
        }
    }

    // The procedure of the return `q`, entered with `x`, can return there: if that is new, its calls are marked.
    fn add_return(&mut self, q: usize, sites: Range<usize>, x: usize)
        requires within { q < self.old.system.nodes }
        requires is { Is self.old.system.graph.now q (Node.Return sites.start sites.end) }
        requires value { x < self.old.system.shared }
        ensures { Returned self.old self.new q x }
    {
        let system = self.system;
        let entry = system.base(q) + x;
        if add(self.sets, system.nodes + entry, q % system.shared) {
            self.revisit_callers(q, sites, x);
        }
    }

    // A visit of a node that flows: its bits go to both successors.
    fn visit_flow(&mut self, n: usize, first: usize, second: usize)
        requires within { n < self.old.system.nodes }
        requires is { Is self.old.system.graph.now n (Node.Flow first second) }
        ensures { Visited self.old self.new n }
    {
        self.propagate(n, first);
        self.propagate(n, second);
    }

    // What follows a call: for each value that the procedure called can return, the call's bits go on there.
    fn resume(&mut self, n: usize, callee: usize, next: usize)
        requires within { n < self.old.system.nodes }
        requires is { Is self.old.system.graph.now n (Node.Call callee next) }
        ensures { Resumed self.old self.new n }
    {
        let system = self.system;
        let entry = callee + n % system.shared;
        // No chain: a `filter` would hold the sets that the body writes.
        for y in 0..system.shared {
            if self.has(system.nodes + entry, y) {
                self.propagate(n, next + y);
            }
        }
    }

    // A visit of a call: if a bit of it is set, the procedure called is entered, and what it returns goes on.
    fn visit_call(&mut self, n: usize, callee: usize, next: usize)
        requires within { n < self.old.system.nodes }
        requires is { Is self.old.system.graph.now n (Node.Call callee next) }
        ensures { Visited self.old self.new n }
    {
        if self.is_empty(n) {
            return;
        }
        let x = n % self.system.shared;
        self.insert(callee + x, x);
        self.resume(n, callee, next);
    }

    // A visit of a return: each entry that can be inside there can return.
    fn visit_return(&mut self, n: usize, begin: usize, end: usize)
        requires within { n < self.old.system.nodes }
        requires is { Is self.old.system.graph.now n (Node.Return begin end) }
        ensures { Visited self.old self.new n }
    {
        // No chain: a `filter` would hold the sets that the body writes.
        for x in 0..self.system.shared {
            if self.has(n, x) {
                self.add_return(n, begin..end, x);
            }
        }
    }

    // A visit of node `n`: what follows from its bits is set, and where that is new, it is marked.
    pub(crate) fn visit(&mut self, n: usize)
        requires { n < self.old.system.nodes }
        ensures { Visited self.old self.new n }
    {
        let system = self.system;
        match system.node(n) {
            Node::Flow { first, second } => self.visit_flow(n, first, second),
            Node::Call { callee, next } => self.visit_call(n, callee, next),
            Node::Return { begin, end } => self.visit_return(n, begin, end),
        }
    }
}
