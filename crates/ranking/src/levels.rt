// Level by level: the calls of each entry of a level are removed, and an entry that has no call left then is of the
// next level. Loops go over numbers of values, procedures and call places, since sets and places are asked for by number.
ghost use Rattle.std.specs.Prelude.{◌≡◌, ℕ, ◌+◌, ◌*◌, ◌<◌, ◌≤◌, true, false, length, ◌≢◌, slice_index, slice_set, ◌-◌, ◌^◌};
ghost use Rattle.saturation.specs.Bits.{On};
ghost use Rattle.saturation.specs.Marks.{Removed};
ghost use Rattle.saturation.specs.System.{kind, first, Fine};
ghost use Rattle.ranking.specs.Calls.{callee, Done};
ghost use Rattle.ranking.specs.Counting.{Counted};
ghost use Rattle.ranking.specs.Levels.{Known, Taken, InPlace, OfLevel, ProcedureDone};

use crate::Procedures;
use crate::counts::count_calls;
use crate::first::{first_level, is_clear};
use saturation::bits::{add, has, is_empty, remove};
use saturation::{Node, System};
use std::mem::swap;

// An entry: a procedure that begins with a shared value.
#[derive(Clone, Copy)]
pub(crate) struct Entry {
    pub procedure: usize,
    pub value: usize,
}

// The entry that runs begin with.
const ROOT: Entry = Entry {
    procedure: 0,
    value: 0,
};

// What is known while entries are ranked: the calls that are left, and which entries are taken next.
#[derive(Drop)]
pub(crate) struct Ranker<'g, 's, 'b, 'c, 'w> {
    system: System<'g, 's>,
    procedures: Procedures<'b, 'c>,
    // The calls that are left: at each node, the entries that can be inside there.
    sets: &'w mut [u32],
    // How many of them each entry has, at its node's number.
    counts: &'w mut [u32],
    // The entries of this level, for each procedure a set of shared values.
    level: &'w mut [u32],
    // Those of the next level, as far as they are known.
    next: &'w mut [u32],
    ghost known: { ∥ Known system procedures sets.now counts.now next.now ∥₁ },
    ghost counted: { ∥ Counted system.graph.now system.shared system.nodes sets.now system.nodes counts.now ∥₁ },
    ghost levels: { length level.now ≡ length next.now },
}

// Whether node `n` calls the procedure that begins at node `base`.
fn calls(system: System, n: usize, base: usize) -> bool
    requires fine { Fine system.graph.now system.shared system.nodes }
    requires within { n < system.nodes }
    ensures yes { result ≡ true → (kind system.entry.graph.now n ≡ 1) × (first system.entry.graph.now n ≡ base) }
    ensures no { result ≡ false → kind system.entry.graph.now n ≡ 1 → first system.entry.graph.now n ≢ base }
{
    matches!(system.node(n), Node::Call { callee, .. } if callee == base)
}

// Removes the call at `n` from the entry with shared value `x`, whose count is at `entry`. Says how many calls it
// has left. Both slices are lent to one call, since the counts are wrong until it ends.
fn remove_call(sets: &mut [u32], counts: &mut [u32], n: usize, x: usize, entry: usize) -> u32
    requires within { (2 * n + 1 < length sets.old) × (x < 64) }
    requires has { On sets.old n x }
    requires counts { entry < length counts.old }
    requires some { 0 < slice_index counts.old entry }
    ensures removed { Removed sets.old sets.new n x }
    ensures left { result ≡ slice_index counts.old entry - 1 }
    ensures counted { counts.new ≡ slice_set counts.old entry result }
{
    remove(sets, n, x);
    let left = counts[entry] - 1;
    counts[entry] = left;
    left
}

impl<'g, 's, 'b, 'c, 'w> Ranker<'g, 's, 'b, 'c, 'w> {
    ghost use Rattle.ranking.specs.Levels.{Idle};

    // Counts the calls in `sets`, and begins with the first level.
    pub(crate) fn new(
        system: System<'g, 's>,
        procedures: Procedures<'b, 'c>,
        sets: &'w mut [u32],
        counts: &'w mut [u32],
        level: &'w mut [u32],
        next: &'w mut [u32],
    ) -> Self
        requires known { Known system procedures sets.old counts.old next.old }
        requires levels { length level.old ≡ length next.old }
        ensures system { result.system ≡ system.entry }
        ensures procedures { result.procedures ≡ procedures.entry }
        ensures sets { result.sets.now ≡ sets.old }
        ensures idle { Idle system.entry procedures.entry result.counts.now result.level.now }
    {
        count_calls(system, sets, counts);
        first_level(system, procedures, counts, level);
        Ranker {
            system,
            procedures,
            sets,
            counts,
            level,
            next,
        }
    }
}

impl Ranker<'_, '_, '_, '_, '_> {
    ghost use Rattle.saturation.specs.System.{Starts, TellsInside};
    ghost use Rattle.ranking.specs.Levels.{Idle};
    ghost use Rattle.ranking.specs.Steps.{IsEntry, number, Step};
    ghost use Rattle.ranking.specs.Ranks.{Ranked};

    // Whether the call at `n` is left to the entry with shared value `x`.
    fn is_left(&self, n: usize, x: usize) -> bool
        requires { (n < self.now.system.nodes) × (x < self.now.system.shared) }
        ensures yes { result ≡ true → On self.now.sets.now n x }
        ensures no { result ≡ false → On self.now.sets.now n x → ⊥ }
    {
        has(self.sets, n, x)
    }

    // Whether `entry` is of this level.
    fn is_reached(&self, entry: Entry) -> bool
        requires { IsEntry self.now.system self.now.procedures entry }
        ensures yes { result ≡ true → On self.now.level.now entry.procedure entry.value }
        ensures no { result ≡ false → On self.now.level.now entry.procedure entry.value → ⊥ }
    {
        has(self.level, entry.procedure, entry.value)
    }

    // Whether some entry of procedure `f` is of this level.
    fn has_reached(&self, f: usize) -> bool
        requires { f < length self.now.procedures.bases.now }
        ensures yes { result ≡ true → (x : ℕ) × (x < 64) × On self.now.level.now f x }
        ensures no { result ≡ false → (x : ℕ) → x < 64 → On self.now.level.now f x → ⊥ }
    {
        !is_empty(self.level, f)
    }

    // Whether no entry is of the next level.
    fn is_stuck(&self) -> bool
        ensures yes { result ≡ true → (i : ℕ) → i < length self.now.next.now → slice_index self.now.next.now i ≡ 0 }
        ensures no { result ≡ false → (i : ℕ) × (0 < slice_index self.now.next.now i) }
    {
        is_clear(self.next)
    }

    // Removes the call at `n` from the entry with shared value `x`, which has it. If that was the entry's last
    // call, it is of the next level.
    fn settle_entry(&mut self, n: usize, x: usize)
        requires within { (n < self.old.system.nodes) × (x < self.old.system.shared) }
        requires is { kind self.old.system.graph.now n ≡ 1 }
        requires has { On self.old.sets.now n x }
        ensures settles { let s = self.old.system in Step (λ d. d ≡ callee s.graph.now s.shared n) self.old self.new }
        ensures gone { On self.new.sets.now n x → ⊥ }
    {
        let system = self.system;
        let procedures = self.procedures;
        let base = system.base(n);
        let left = remove_call(self.sets, self.counts, n, x, base + x);
        if left == 0 {
            add(self.next, procedures.at(base), x);
        }
    }

    // Removes the call at `n` from all entries that have it.
    fn settle_call(&mut self, n: usize)
        requires within { n < self.old.system.nodes }
        requires is { kind self.old.system.graph.now n ≡ 1 }
        ensures settles { let s = self.old.system in Step (λ d. d ≡ callee s.graph.now s.shared n) self.old self.new }
        ensures gone { (x : ℕ) → x < self.old.system.shared → On self.new.sets.now n x → ⊥ }
    {
        // Over all values and no iterator of the node's bits, since these change meanwhile.
        for x in 0..self.system.shared {
            if self.is_left(n, x) {
                self.settle_entry(n, x);
            }
        }
    }

    // Removes the calls of `begun` at call place number `site`. The place may hold other nodes too.
    fn settle_place(&mut self, begun: Entry, site: usize)
        requires entry { IsEntry self.old.system self.old.procedures begun }
        requires listed { site < length self.old.system.sites.now }
        ensures settles { Step (λ d. d ≡ number self.old.procedures begun) self.old self.new }
        ensures gone { let s = self.old.system in
            Taken s.graph.now s.shared s.nodes self.new.sets.now (λ n. InPlace s.graph.now s.shared s.sites.now (number self.old.procedures begun) site n) }
    {
        let system = self.system;
        let base = self.procedures.bases[begun.procedure] as usize;
        let place = system.place(site);
        for n in (place.start + begun.value..place.end).step_by(system.shared) {
            if calls(system, n, base) {
                self.settle_call(n);
            }
        }
    }

    // Removes all calls of `begun`.
    fn settle_callers(&mut self, begun: Entry)
        requires { IsEntry self.old.system self.old.procedures begun }
        ensures settles { Step (λ d. d ≡ number self.old.procedures begun) self.old self.new }
        ensures gone { let s = self.old.system in Done s.graph.now s.shared s.nodes self.new.sets.now (number self.old.procedures begun) }
    {
        let starts = self.procedures.starts;
        let until = starts[begun.procedure + 1] as usize;
        for site in starts[begun.procedure] as usize..until {
            self.settle_place(begun, site);
        }
    }

    // Removes all calls of the entries of procedure `f` that are of this level.
    fn settle_procedure(&mut self, f: usize)
        requires { f < length self.old.procedures.bases.now }
        ensures settles { Step (OfLevel self.old.system self.old.procedures self.old.level.now) self.old self.new }
        ensures gone { ProcedureDone self.old.system self.old.procedures self.old.level.now self.new.sets.now f }
    {
        for value in 0..self.system.shared {
            let entry = Entry {
                procedure: f,
                value,
            };
            if self.is_reached(entry) {
                self.settle_callers(entry);
            }
        }
    }

    // Removes all calls of the entries of this level. `next` gets those that have no call left then.
    fn settle_level(&mut self)
        ensures settles { Step (OfLevel self.old.system self.old.procedures self.old.level.now) self.old self.new }
        ensures gone { (f : ℕ) → f < length self.old.procedures.bases.now → ProcedureDone self.old.system self.old.procedures self.old.level.now self.new.sets.now f }
    {
        for f in 0..self.procedures.bases.len() {
            if self.has_reached(f) {
                self.settle_procedure(f);
            }
        }
    }

    // Goes on to the next level. What `next` holds then does not matter.
    fn advance(&mut self)
        ensures same { (self.new.system ≡ self.old.system) × (self.new.procedures ≡ self.old.procedures) }
        ensures sets { self.new.sets.now ≡ self.old.sets.now }
        ensures level { self.new.level.now ≡ self.old.next.now }
    {
        swap(&mut self.level, &mut self.next);
    }

    // How many calls can stand one within another from the root on, where this is the first level; none if any
    // number can.
    pub(crate) fn height(&mut self) -> Option<u64>
        requires short { length self.old.sets.now ≤ 2 ^ 28 }
        requires idle { Idle self.old.system self.old.procedures self.old.counts.now self.old.level.now }
        requires starts { let s = self.old.system in Starts s.graph.now s.shared s.nodes (slice_index self.old.procedures.bases.now 0) }
        requires told { let s = self.old.system in
            TellsInside s.graph.now s.shared s.nodes (slice_index self.old.procedures.bases.now 0) self.old.sets.now }
        ensures { Ranked self.old.system.graph.now self.old.system.shared (slice_index self.old.procedures.bases.now 0) result }
    {
        // No `for height in 0..`: behind that range, which has no end, an `unreachable!` would stand.
        let mut height: u64 = 0;
        while !self.is_reached(ROOT) {
            self.next.fill(0);
            self.settle_level();
            if self.is_stuck() {
                return None;
            }
            self.advance();
            height += 1;
        }
        Some(height)
    }
}
