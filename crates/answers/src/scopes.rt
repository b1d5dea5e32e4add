// What a query may name of a program in readable form. Relies on `text` for the names that there are.
use crate::matches::bit_of;
use text::names::{Names, ProcedureNames};

// The names of a program, and those of one of its procedures.
#[derive(Clone, Copy)]
pub(crate) struct Scope<'n> {
    pub names: &'n Names,
    pub procedure: &'n ProcedureNames,
}

impl Scope<'_> {
    // The bits of all variables: the shared ones and the procedure's own.
    pub fn all(self) -> usize {
        let variables = self
            .names
            .shared
            .len()
            .saturating_add(self.procedure.own.len());
        bit_of(variables).wrapping_sub(1)
    }
}
