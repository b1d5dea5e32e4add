// The words of all nodes of a program.
ghost use Rattle.std.specs.Prelude.{◌*◌, ◌<◌, ◌≤◌, length};
ghost use Rattle.program.specs.Program.{Prog};
ghost use Rattle.program.specs.Table.{total};
ghost use Rattle.expansion.specs.Programs.{Headed, Based, Known, Expanded};

use crate::nodes::{Body, Callers};
use crate::procedures::expand_procedure;
use crate::source::Source;
use program::programs::Header;
use program::walks::Procedures;

// Writes the node where each procedure begins into `bases`.
pub fn list_bases(bytes: &[u8], header: Header, bases: &mut [u32])
    requires { (g : Prog) × Headed bytes.now header g × (length g.procs ≤ length bases.old) }
    ensures { Based bytes.now header bases.new }
{
    let mut base: u32 = 0;
    // By index: behind a `zip` with `iter_mut` nothing is known of the words that were written (tried; `returns` stays
    // open).
    for (f, procedure) in Procedures::new(bytes, header).enumerate() {
        bases[f] = base;
        base += header.table_size(procedure) as u32;
    }
}

// Writes the words of all nodes: `starts` says which call places are whose. The words are lent, so a clause asks for
// their length.
pub fn expand(source: Source, starts: &[u32], words: &mut [u32])
    requires { (g : Prog) × Known source g × (length g.procs < length starts.now) × (4 * total g.shared g.procs ≤ length words.old) }
    ensures { Expanded source.entry.bytes.now source.entry.header starts.now words.new }
{
    // By index: two of the starts go with each procedure, and pairs of a `windows` would be indexed too.
    for (f, procedure) in Procedures::new(source.bytes, source.header).enumerate() {
        let place = source.first_place(f, procedure);
        let callers = Callers {
            from: starts[f],
            until: starts[f + 1],
        };
        expand_procedure(Body { source, callers }, procedure, place, words);
    }
}
