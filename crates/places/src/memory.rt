// The lent work words, cut into parts.
ghost use Rattle.std.specs.Prelude.{◌≡◌, ◌+◌, ◌*◌, ◌/◌, ◌^◌, ◌≤◌, length};
ghost use Rattle.places.specs.Memory.{Divided};

use program::programs::MOST_PROCEDURES;

// The parts: the words of the nodes' moves and the sets of entries and returns, which are tables with four words
// for each node; marks; two sets of entries, two words for each procedure; and behind them the call places.
#[derive(Drop)]
pub struct Memory<'w> {
    pub words: &'w mut [u32],
    pub sets: &'w mut [u32],
    pub marks: &'w mut [u32],
    pub level: &'w mut [u32],
    pub next: &'w mut [u32],
    pub sites: &'w mut [u32],
}

// Cuts the work words for a table of `nodes` bytes.
pub fn divide(work: &mut [u32], nodes: usize) -> Memory<'_>
    requires { 8 * nodes + 33 * (nodes / 1024 + 1) + 256 ≤ length work.old }
    ensures { Divided result nodes (length work.old) }
{
    let (words, rest) = work.split_at_mut(4 * nodes);
    let (sets, rest) = rest.split_at_mut(4 * nodes);
    let (marks, rest) = rest.split_at_mut(33 * (nodes / 1024 + 1));
    let (level, rest) = rest.split_at_mut(2 * MOST_PROCEDURES);
    let (next, sites) = rest.split_at_mut(2 * MOST_PROCEDURES);
    Memory {
        words,
        sets,
        marks,
        level,
        next,
        sites,
    }
}
