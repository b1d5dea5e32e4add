// The syntax tree: expressions with all operators, statements, procedures, programs. One statement is
// one step. A tree may name what is not there and be of any size: encoding it tells. So its numbers are
// types of their own beside those of `program`, each of which is a byte that was read.

// A variable's number: the shared ones first, then the procedure's own.
#[derive(Clone, Copy, PartialEq, Eq, Debug)]
pub struct VarNo(pub usize);

// A place's number within its procedure: that of the statement that stands there.
#[derive(Clone, Copy, PartialEq, Eq, Debug)]
pub struct PlaceNo(pub usize);

// A procedure's number: procedure 0 begins.
#[derive(Clone, Copy, PartialEq, Eq, Debug)]
pub struct ProcNo(pub usize);

#[derive(Drop)]
pub enum Expr {
    Yes,
    No,
    Var(VarNo),
    Not(Box<Expr>),
    And(Box<Expr>, Box<Expr>),
    Or(Box<Expr>, Box<Expr>),
    Equal(Box<Expr>, Box<Expr>),
    Differ(Box<Expr>, Box<Expr>),
}

#[derive(Drop)]
pub enum Statement {
    Skip,
    Goto(PlaceNo),
    // Goes to the place if the condition holds, else on to the next.
    Branch { cond: Expr, place: PlaceNo },
    Assign { var: VarNo, value: Expr },
    // The variable becomes yes or no; either may be.
    Open(VarNo),
    Call(ProcNo),
    Return,
}

// A procedure: how many variables it has of its own, and its statements, at places from 0.
#[derive(Drop)]
pub struct Procedure {
    pub own: usize,
    pub body: Vec<Statement>,
}

// A program: how many variables all procedures share, and the procedures, of which 0 begins.
#[derive(Drop)]
pub struct Tree {
    pub shared: usize,
    pub procedures: Vec<Procedure>,
}
