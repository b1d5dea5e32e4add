// How many calls each entry has: a word for each entry, at its node's number.
ghost use Rattle.std.specs.Prelude.{◌≡◌, ◌+◌, ◌<◌};
ghost use Rattle.saturation.specs.System.{kind};
ghost use Rattle.ranking.specs.Counting.{Counted, Countable};

use saturation::bits::has;
use saturation::{Node, System};

// Counts the call at `n`, for each entry that can be inside there.
fn count_call(system: System, sets: &[u32], counts: &mut [u32], n: usize)
    requires countable { Countable system sets.now counts.old }
    requires within { n < system.nodes }
    requires is { kind system.graph.now n ≡ 1 }
    requires counted { Counted system.graph.now system.shared system.nodes sets.now n counts.old }
    ensures { Counted system.entry.graph.now system.entry.shared system.entry.nodes sets.now (n + 1) counts.new }
{
    let base = system.base(n);
    let own = &mut counts[base..base + system.shared];
    for (x, count) in own.iter_mut().enumerate() {
        if has(sets, n, x) {
            *count += 1;
        }
    }
}

// Counts the calls of all entries. What `counts` holds before does not matter.
pub fn count_calls(system: System, sets: &[u32], counts: &mut [u32])
    requires { Countable system sets.now counts.old }
    ensures { Counted system.entry.graph.now system.entry.shared system.entry.nodes sets.now system.entry.nodes counts.new }
{
    counts.fill(0);
    // by number: a node is asked for by its number, and so is its set
    for n in 0..system.nodes {
        if let Node::Call { .. } = system.node(n) {
            count_call(system, sets, counts, n);
        }
    }
}
