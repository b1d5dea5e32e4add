// Why bytes are no program.

// What is wrong.
#[derive(Clone, Copy, PartialEq, Eq, Debug)]
pub enum Reason {
    TooLong,
    EndsEarly,
    TooManyVariables,
    NoSuchVariable,
    UnknownStep,
    UnknownExpression,
    NoSuchPlace,
    NoSuchProcedure,
    TooManyProcedures,
    NoProcedure,
}

// Where no program can go on, and why.
#[derive(Clone, Copy, PartialEq, Eq, Debug)]
pub struct Refusal {
    pub at: usize,
    pub reason: Reason,
}
