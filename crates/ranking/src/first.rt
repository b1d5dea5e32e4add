// The entries that have no call: the first level.
ghost use Rattle.std.specs.Prelude.{◌≡◌, ℕ, ◌+◌, ◌*◌, ◌<◌, ◌≤◌, true, false, List, length, slice_index};
ghost use Rattle.ranking.specs.Levels.{Known, Idle, IdleAdded};

use crate::Procedures;
use saturation::System;
use saturation::bits::add;

// Adds the entries of procedure `f` that have no call; `counts` are theirs.
fn add_idle(counts: &[u32], level: &mut [u32], f: usize)
    requires values { length counts.now ≤ 64 }
    requires within { 2 * f + 1 < length level.old }
    ensures { IdleAdded (length counts.now) counts.now f level.old level.new }
{
    for (x, count) in counts.iter().enumerate() {
        if *count == 0 {
            add(level, f, x);
        }
    }
}

// The entries that have no call, for each procedure a set of shared values.
pub(crate) fn first_level(system: System, procedures: Procedures, counts: &[u32], level: &mut [u32])
    requires { (w : List ℕ) × Known system procedures w counts.now level.old }
    ensures { Idle system.entry procedures.entry counts.now level.new }
{
    level.fill(0);
    for (f, base) in procedures.bases.iter().enumerate() {
        let base = *base as usize;
        add_idle(&counts[base..base + system.shared], level, f);
    }
}

// Whether all words are 0.
pub(crate) fn is_clear(words: &[u32]) -> bool
    ensures yes { result ≡ true → (i : ℕ) → i < length words.now → slice_index words.now i ≡ 0 }
    ensures no { result ≡ false → (i : ℕ) × (0 < slice_index words.now i) }
{
    words.iter().all(|word| *word == 0)
}
