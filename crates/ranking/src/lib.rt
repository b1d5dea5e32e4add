// Ranks the entries of a solved pushdown system: how many calls can stand one within another. Relies on the sets
// that `saturation` fills; knows nothing of programs.
//
// Entries are taken level by level. Those that call nothing come first; an entry whose calls all lead to entries
// taken before is of the next level. A call is removed once the entry that it calls is taken, and a count of the
// calls left tells when an entry has none: so each call is looked at twice, however deep calls can be.
//
// Words are `u32`, and `as usize` makes a number of one: std has no `From<u32>` for `usize`.
#![tactic(auto)]

ghost use Rattle.std.specs.Prelude.{◌≡◌, ◌≢◌, ℕ, ◌+◌, ◌*◌, ◌^◌, ◌<◌, ◌≤◌, length, slice_index, take};
ghost use Rattle.saturation.specs.System.{Starts, TellsInside};
ghost use Rattle.ranking.specs.Levels.{Known};
ghost use Rattle.ranking.specs.Ranks.{Ranked};

use levels::Ranker;
use saturation::System;

mod counts;
mod first;
mod levels;

// The procedures of a system, by number: the node where each begins, and the call places of each, those from
// `starts[f]` to `starts[f + 1]`. Two slices and no slice of pairs: both are lent as words, and filled one after the other.
#[derive(Clone, Copy)]
pub struct Procedures<'b, 's> {
    pub bases: &'b [u32],
    pub starts: &'s [u32],
}

impl<'b, 's> Procedures<'b, 's> {
    // `count` procedures. What `bases` holds behind their words does not matter.
    pub fn new(bases: &'b [u32], starts: &'s [u32], count: usize) -> Self
        requires { count ≤ length bases.now }
        ensures bases { result.bases.now ≡ take count bases.now }
        ensures starts { result.starts.now ≡ starts.now }
    {
        Procedures {
            bases: &bases[..count],
            starts,
        }
    }
}

impl Procedures<'_, '_> {
    // The number of the procedure that begins at node `base`.
    fn at(&self, base: usize) -> usize
        requires { ((f : ℕ) → f < length self.now.bases.now → slice_index self.now.bases.now f ≢ base) → ⊥ }
        ensures within { result < length self.now.bases.now }
        ensures is { slice_index self.now.bases.now result ≡ base }
    {
        let Some(f) = self.bases.iter().position(|b| *b as usize == base) else {
            unreachable!()
        };
        f
    }
}

// The most calls that can stand one within another, where procedure 0 begins with shared value 0; none if any
// number can. `sets` tells what the system can do, and is used up. What the other words hold before does not
// matter: `counts` has a word for each node, `level` and `next` two for each procedure.
pub fn rank(
    system: System,
    procedures: Procedures,
    sets: &mut [u32],
    counts: &mut [u32],
    level: &mut [u32],
    next: &mut [u32],
) -> Option<u64>
    requires known { Known system procedures sets.old counts.old next.old }
    requires short { length sets.old ≤ 2 ^ 28 }
    requires levels { length level.old ≡ length next.old }
    requires starts { Starts system.graph.now system.shared system.nodes (slice_index procedures.bases.now 0) }
    requires told { TellsInside system.graph.now system.shared system.nodes (slice_index procedures.bases.now 0) sets.old }
    ensures { Ranked system.entry.graph.now system.entry.shared (slice_index procedures.entry.bases.now 0) result }
{
    let mut ranker = Ranker::new(system, procedures, sets, counts, level, next);
    ranker.height()
}
