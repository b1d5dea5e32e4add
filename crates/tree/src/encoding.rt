// A tree as the bytes of the program that it means. The limits that a tree keeps show that each number
// fits its byte, so these are written by `as u8`: a `try_from` would add a refusal that cannot come.
ghost use Rattle.tree.specs.Encoding.{Encoded};
ghost use Rattle.tree.specs.Meaning.{TruthTables};

use crate::faults::Fault;
use crate::limits::{check_most, check_tree};
use crate::programs::Tree;
use crate::sizes::tree_size;
use crate::writing::write_procedures;
use program::programs::MOST_BYTES;
use std::alloc::Global;

// The bytes of the program that `tree` means, or why no bytes are that program.
#[tactic(auto, using(crate::proofs::Truth::truth_tables))]
pub fn encode(heap: Global, tree: &Tree) -> Result<Vec<u8>, Fault>
    ensures encoded { Encoded tree.now result }
    ensures truth { TruthTables }
{
    check_tree(tree)?;
    let size = tree_size(tree);
    check_most(size, MOST_BYTES, Fault::TooLong(size))?;
    let mut bytes = Vec::with_capacity(heap, size)?;
    bytes.push(tree.shared as u8)?;
    write_procedures(&mut bytes, &tree.procedures)?;
    Ok(bytes)
}
