// How much memory deciding a program may take. Relies on `program` for what a program wants.
use program::programs::Header;

// The most bytes of memory that deciding a program may need.
pub const MOST_MEMORY: usize = 4194304;

// The bytes that deciding a program needs: its own, its table, and its work words.
pub fn needed(header: Header, bytes: usize) -> usize {
    header
        .work
        .saturating_mul(4)
        .saturating_add(header.table)
        .saturating_add(bytes)
}
