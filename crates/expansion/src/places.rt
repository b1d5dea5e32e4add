// The words of all nodes of a place.
ghost use Rattle.std.specs.Prelude.{ℕ, ◌+◌, ◌*◌, ◌≤◌, length};
ghost use Rattle.program.specs.Program.{Prog, Proc};
ghost use Rattle.program.specs.Table.{total};
ghost use Rattle.expansion.specs.Nodes.{PlaceIs, PlaceDone};

use crate::nodes::{Body, Place, node_words, write_node};
use program::steps::Step;

// Writes the nodes of `place`, in the order of their values. The words are lent, so a clause asks for their length.
pub fn expand_place(body: Body, step: Option<Step>, place: Place, words: &mut [u32])
    requires { (g : Prog) × (f : ℕ) × (p : Proc) × (a : ℕ) × PlaceIs body.source step place g f p a × (4 * total g.shared g.procs ≤ length words.old) }
    ensures { PlaceDone body.entry.source step place body.entry.callers words.old words.new place.width }
{
    // the values are what is counted: bit x of their number is variable x
    for values in 0..place.width {
        let node = node_words(body, step, place, values);
        write_node(words, (place.first + values) as usize, node);
    }
}
