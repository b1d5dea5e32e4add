// The engine at work: a system, its sets and its marks, and the steps that put bits into a set and mark what is to be visited for them.
ghost use Rattle.std.specs.Prelude.{◌≡◌, ℕ, ◌*◌, ◌%◌, ◌<◌, ◌≤◌, true, false, length, slice_index};
ghost use Rattle.saturation.specs.Engine.{Able};

use crate::System;
use crate::bits::{add, has, is_empty, join};
use crate::marks::Marks;
use std::ops::Range;

// `sets` has a set of shared values for each node, and behind those one for each entry: with what it can return. Both
// are in one slice, since what `saturate` promises speaks of one table.
#[derive(Drop)]
pub(crate) struct Engine<'g, 's, 'w, 'n, 'm> {
    pub(crate) system: System<'g, 's>,
    pub(crate) sets: &'w mut [u32],
    // By reference: held by value, what the slices hold after the engine's end is lost to the caller (tried, at goal
    // `returns`: `work-1.given`).
    pub(crate) marks: &'n mut Marks<'m>,
    ghost ready: { Able system sets.now marks.now },
}

impl Engine<'_, '_, '_, '_, '_> {
    ghost use Rattle.saturation.specs.System.{Tells};
    ghost use Rattle.saturation.specs.Bits.{On};
    ghost use Rattle.saturation.specs.Marks.{Empty, Revisited, PlaceRevisited};
    ghost use Rattle.saturation.specs.Engine.{Begun};
    ghost use Rattle.saturation.specs.Steps.{Kept, Still, Propagated, Inserted, Drained};

    // The bits of node `from` go into node `to`, which is marked if one was new.
    pub(crate) fn propagate(&mut self, from: usize, to: usize)
        requires { (from < self.old.system.nodes) × (to < self.old.system.nodes) }
        ensures { Propagated self.old self.new from to }
    {
        if join(self.sets, from, to) {
            self.marks.mark(to);
        }
    }

    // Sets bit `x` of node `n`, which is marked if that was new.
    pub(crate) fn insert(&mut self, n: usize, x: usize)
        requires { (n < self.old.system.nodes) × (x < 64) }
        ensures { Inserted self.old self.new n x }
    {
        if add(self.sets, n, x) {
            self.marks.mark(n);
        }
    }

    // Whether bit `x` of node `n` is set.
    pub(crate) fn has(&self, n: usize, x: usize) -> bool
        requires { (n < 2 * self.now.system.nodes) × (x < 64) }
        ensures yes { result ≡ true → On self.now.sets.now n x }
        ensures no { result ≡ false → On self.now.sets.now n x → ⊥ }
    {
        has(self.sets, n, x)
    }

    // Whether no bit of node `n` is set.
    pub(crate) fn is_empty(&self, n: usize) -> bool
        requires { n < self.now.system.nodes }
        ensures yes { result ≡ true → Empty self.now.sets.now n }
        ensures no { result ≡ false → (x : ℕ) × (x < 64) × On self.now.sets.now n x }
    {
        is_empty(self.sets, n)
    }

    // Marks node `n`, if a bit of it is set.
    fn revisit(&mut self, n: usize)
        requires { n < self.old.system.nodes }
        ensures still { Still self.old self.new }
        ensures revisited { Revisited self.old.sets.now self.old.marks.now self.new.marks.now n }
    {
        if !self.is_empty(n) {
            self.marks.mark(n);
        }
    }

    // Marks the nodes of `place` with the shared value `x` that have a bit set.
    pub(crate) fn revisit_place(&mut self, place: Range<usize>, x: usize)
        requires value { x < self.old.system.shared }
        requires even { place.start % self.old.system.shared ≡ 0 }
        requires within { (place.start < self.old.system.nodes) × (place.end ≤ self.old.system.nodes) }
        ensures still { Still self.old self.new }
        ensures revisited { PlaceRevisited self.old.system.shared self.old.sets.now self.old.marks.now self.new.marks.now place.start place.end x }
    {
        for n in (place.start + x..place.end).step_by(self.system.shared) {
            self.revisit(n);
        }
    }

    // Visits the marked nodes of the word of marks at `word` until none is marked there.
    fn drain(&mut self, word: usize)
        requires { word < length self.old.marks.now.nodes }
        ensures drained { Drained self.old self.new word }
        ensures empty { slice_index self.new.marks.now.nodes word ≡ 0 }
    {
        while let Some(n) = self.marks.take_node(word) {
            if n < self.system.nodes {
                self.visit(n);
            }
        }
    }

    // Visits all marked nodes until none is marked: then the sets tell what the system can do from its entry `root` on.
    pub(crate) fn sweep(&mut self, root: usize)
        requires { Begun self.old.system root self.old.sets.now self.old.marks.now }
        ensures kept { Kept self.old self.new }
        ensures tells { Tells self.old.system.graph.now self.old.system.shared self.old.system.nodes root self.new.sets.now }
    {
        let mut at = 0;
        while let Some(word) = self.marks.take_word(at) {
            at = word / 32;
            self.drain(word);
        }
    }
}
