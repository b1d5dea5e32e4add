// The bytes of each operator and each statement, worked out by hand, and each limit on both sides.
use crate::encoding::encode;
use crate::faults::{Fault, Position};
use crate::programs::{Expr, PlaceNo, ProcNo, Procedure, Statement, Tree, VarNo};
use std::alloc::{AllocError, Global};
use std::process::Abort;
use std::test::Fail;

fn var(heap: Global, number: usize) -> Result<Box<Expr>, AllocError> {
    Ok(Box::new(heap, Expr::Var(VarNo(number)))?)
}

// A program of one procedure, which does one thing.
fn single(
    heap: Global,
    shared: usize,
    own: usize,
    statement: Statement,
) -> Result<Tree, AllocError> {
    let body = vec![in heap; statement]?;
    let procedures = vec![in heap; Procedure { own, body }]?;
    Ok(Tree { shared, procedures })
}

// The bytes of an expression over variables 0 and 1: those behind a program's head and `x0 :=`.
fn check_expr(rt: &impl Abort, heap: Global, value: Expr, bytes: &[u8]) -> Result<(), Fail> {
    let var = VarNo(0);
    let tree = single(heap, 2, 0, Statement::Assign { var, value })?;
    let mut expected = [2, 0, 1, 0, 0].to_vec(heap)?;
    expected.extend_from_slice(bytes)?;
    let written = encode(heap, &tree)?;
    assert_eq!(rt; written.as_slice(), expected.as_slice());
    Ok(())
}

#[test]
fn operators(rt: HostRuntime) -> Result<(), Fail> {
    let heap = rt.alloc();
    check_expr(&rt, heap, Expr::Yes, &[0])?;
    check_expr(&rt, heap, Expr::No, &[2, 0])?;
    check_expr(&rt, heap, Expr::Var(VarNo(1)), &[1, 1])?;
    check_expr(&rt, heap, Expr::Not(var(heap, 1)?), &[2, 1, 1])?;
    let and = Expr::And(var(heap, 0)?, var(heap, 1)?);
    check_expr(&rt, heap, and, &[3, 1, 0, 1, 1])?;
    let or = Expr::Or(var(heap, 0)?, var(heap, 1)?);
    check_expr(&rt, heap, or, &[2, 3, 2, 1, 0, 2, 1, 1])?;
    let equal = Expr::Equal(var(heap, 0)?, var(heap, 1)?);
    check_expr(
        &rt,
        heap,
        equal,
        &[3, 2, 3, 1, 0, 2, 1, 1, 2, 3, 2, 1, 0, 1, 1],
    )?;
    let differ = Expr::Differ(var(heap, 0)?, var(heap, 1)?);
    check_expr(
        &rt,
        heap,
        differ,
        &[2, 3, 2, 3, 1, 0, 2, 1, 1, 2, 3, 2, 1, 0, 1, 1],
    )
}

// Each statement once, in procedure 1, which procedure 0 calls.
fn ring(heap: Global) -> Result<Tree, AllocError> {
    let main = vec![in heap; Statement::Call(ProcNo(1))]?;
    let body = vec![in heap;
        Statement::Open(VarNo(1)),
        Statement::Branch {
            cond: Expr::Var(VarNo(1)),
            place: PlaceNo(3),
        },
        Statement::Call(ProcNo(1)),
        Statement::Assign {
            var: VarNo(0),
            value: Expr::Not(var(heap, 0)?),
        },
        Statement::Skip,
        Statement::Goto(PlaceNo(7)),
        Statement::Return,
    ]?;
    let procedures = vec![in heap;
        Procedure { own: 0, body: main },
        Procedure { own: 1, body },
    ]?;
    Ok(Tree {
        shared: 1,
        procedures,
    })
}

#[test]
fn statements(rt: HostRuntime) -> Result<(), Fail> {
    let heap = rt.alloc();
    let tree = ring(heap)?;
    let expected = [
        1, 0, 1, 3, 1, 1, 7, 1, 1, 2, 3, 1, 1, 3, 1, 0, 0, 2, 1, 0, 2, 5, 0, 2, 7, 0, 4,
    ];
    let written = encode(heap, &tree)?;
    assert_eq!(rt; written.as_slice(), expected.as_slice());
    Ok(())
}

const HERE: Position = Position {
    procedure: ProcNo(0),
    place: PlaceNo(0),
};

#[test]
fn names(rt: HostRuntime) -> Result<(), Fail> {
    let heap = rt.alloc();
    let last = single(heap, 6, 6, Statement::Open(VarNo(11)))?;
    assert!(rt; encode(heap, &last).is_ok());
    let open = single(heap, 1, 1, Statement::Open(VarNo(2)))?;
    let no_variable = Fault::NoSuchVariable {
        at: HERE,
        var: VarNo(2),
    };
    assert_eq!(rt; encode(heap, &open).err(), Some(no_variable));
    let goto = single(heap, 0, 0, Statement::Goto(PlaceNo(2)))?;
    let no_place = Fault::NoSuchPlace {
        at: HERE,
        place: PlaceNo(2),
    };
    assert_eq!(rt; encode(heap, &goto).err(), Some(no_place));
    let call = single(heap, 0, 0, Statement::Call(ProcNo(1)))?;
    let no_procedure = Fault::NoSuchProcedure {
        at: HERE,
        callee: ProcNo(1),
    };
    assert_eq!(rt; encode(heap, &call).err(), Some(no_procedure));
    Ok(())
}

// Procedures of so many returns each.
fn returning(heap: Global, lengths: &[usize]) -> Result<Tree, AllocError> {
    let mut procedures = Vec::new(heap);
    for length in lengths {
        let body = (0..*length).map(|_| Statement::Return).collect(heap)?;
        procedures.push(Procedure { own: 0, body })?;
    }
    Ok(Tree {
        shared: 0,
        procedures,
    })
}

#[test]
fn numbers(rt: HostRuntime) -> Result<(), Fail> {
    let heap = rt.alloc();
    let shared = single(heap, 7, 0, Statement::Skip)?;
    assert_eq!(rt; encode(heap, &shared).err(), Some(Fault::TooManyShared(7)));
    let own = single(heap, 0, 7, Statement::Skip)?;
    let too_many_own = Fault::TooManyOwn {
        procedure: ProcNo(0),
        own: 7,
    };
    assert_eq!(rt; encode(heap, &own).err(), Some(too_many_own));
    let none = returning(heap, &[])?;
    assert_eq!(rt; encode(heap, &none).err(), Some(Fault::NoProcedure));
    let most = returning(heap, &[0; 64])?;
    assert!(rt; encode(heap, &most).is_ok());
    let more = returning(heap, &[0; 65])?;
    assert_eq!(rt;
        encode(heap, &more).err(),
        Some(Fault::TooManyProcedures(65))
    );
    let long = returning(heap, &[255, 256])?;
    let too_many_statements = Fault::TooManyStatements {
        procedure: ProcNo(1),
        statements: 256,
    };
    assert_eq!(rt; encode(heap, &long).err(), Some(too_many_statements));
    Ok(())
}

// `depth` times `= 1`.
fn doubled(heap: Global, depth: usize) -> Result<Expr, AllocError> {
    let mut expr = Expr::Yes;
    for _ in 0..depth {
        expr = Expr::Equal(Box::new(heap, expr)?, Box::new(heap, Expr::Yes)?);
    }
    Ok(expr)
}

#[test]
fn lengths(rt: HostRuntime) -> Result<(), Fail> {
    let heap = rt.alloc();
    let mut lengths = [255; 32];
    lengths[31] = 222;
    let full = returning(heap, &lengths)?;
    assert_eq!(rt; encode(heap, &full)?.len(), 8192);
    lengths[31] = 223;
    let long = returning(heap, &lengths)?;
    assert_eq!(rt; encode(heap, &long).err(), Some(Fault::TooLong(8193)));
    let cond = doubled(heap, 100)?;
    let place = PlaceNo(0);
    let endless = single(heap, 0, 0, Statement::Branch { cond, place })?;
    assert_eq!(rt;
        encode(heap, &endless).err(),
        Some(Fault::TooLong(1_000_000))
    );
    Ok(())
}
