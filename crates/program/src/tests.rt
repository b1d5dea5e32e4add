// What the reader says of good and bad bytes, at each limit on both sides, and what expressions are worth.
use crate::expressions::{evaluate, read_expression};
use crate::kinds::{ExpressionKind, StepKind};
use crate::programs::{Header, read};
use crate::refusals::{Reason, Refusal};
use crate::walks::{Procedures, Steps};
use std::alloc::{AllocError, Global};
use std::test::Fail;

#[test]
fn each_reason_of_refusal(rt: HostRuntime) {
    let cases: [(&[u8], usize, Reason); 18] = [
        (&[], 0, Reason::EndsEarly),
        (&[7, 0, 0], 0, Reason::TooManyVariables),
        (&[0], 1, Reason::NoProcedure),
        (&[0, 7, 0], 1, Reason::TooManyVariables),
        (&[0, 0], 2, Reason::EndsEarly),
        (&[0, 0, 1], 3, Reason::EndsEarly),
        (&[0, 0, 1, 5], 3, Reason::UnknownStep),
        (&[0, 0, 1, 255], 3, Reason::UnknownStep),
        (&[1, 0, 1, 1], 4, Reason::EndsEarly),
        (&[1, 0, 1, 1, 1], 4, Reason::NoSuchVariable),
        (&[1, 0, 1, 0, 1, 0], 4, Reason::NoSuchVariable),
        (&[1, 0, 1, 0, 0, 1, 1], 6, Reason::NoSuchVariable),
        (&[1, 0, 1, 0, 0, 4], 5, Reason::UnknownExpression),
        (&[1, 0, 1, 0, 0, 3, 0], 7, Reason::EndsEarly),
        (&[1, 0, 1, 2, 2, 0], 4, Reason::NoSuchPlace),
        (&[0, 0, 1, 3, 1], 4, Reason::NoSuchProcedure),
        (&[0, 0, 1, 3, 64], 4, Reason::NoSuchProcedure),
        // a call of procedure 5 can still come good where the bytes go wrong, so this is told first
        (&[0, 0, 2, 3, 5, 5], 5, Reason::UnknownStep),
    ];
    for (bytes, at, reason) in cases {
        assert_eq!(rt; read(bytes), Err(Refusal { at, reason }));
    }
}

#[test]
fn small_programs(rt: HostRuntime) {
    let ring = [1, 0, 1, 3, 1, 1, 4, 1, 1, 2, 3, 1, 1, 3, 1, 0, 0, 2, 1, 0];
    let cases: [(&[u8], Header); 4] = [
        (
            &[0, 0, 0],
            Header {
                shared: 0,
                procs: 1,
                table: 1,
                work: 4105,
            },
        ),
        // going to the place behind the last step
        (
            &[1, 0, 1, 2, 1, 0],
            Header {
                shared: 1,
                procs: 1,
                table: 4,
                work: 4136,
            },
        ),
        (
            &[6, 6, 0],
            Header {
                shared: 6,
                procs: 1,
                table: 4096,
                work: 299008,
            },
        ),
        (
            &ring,
            Header {
                shared: 1,
                procs: 2,
                table: 24,
                work: 4336,
            },
        ),
    ];
    for (bytes, header) in cases {
        assert_eq!(rt; read(bytes), Ok(header));
    }
}

// No shared variable; then `whole` procedures of 255 returns, and `small` ones of so many.
fn returning(heap: Global, whole: usize, small: &[u8]) -> Result<Vec<u8>, AllocError> {
    let mut bytes = vec![in heap; 0]?;
    for _ in 0..whole {
        bytes.extend_from_slice(&[0, 255])?;
        bytes.extend_from_slice(&[4; 255])?;
    }
    for steps in small {
        bytes.extend_from_slice(&[0, *steps])?;
        bytes.extend_from_slice(&[4; 255][..usize::from(*steps)])?;
    }
    Ok(bytes)
}

#[test]
fn limits_of_a_program(rt: HostRuntime) -> Result<(), Fail> {
    let heap = rt.alloc();
    let full = returning(heap, 31, &[222])?;
    assert_eq!(rt; full.len(), 8192);
    assert_eq!(rt;
        read(&full),
        Ok(Header {
            shared: 0,
            procs: 32,
            table: 8159,
            work: 77527,
        })
    );
    let long = returning(heap, 31, &[223])?;
    assert_eq!(rt;
        read(&long),
        Err(Refusal {
            at: 8192,
            reason: Reason::TooLong,
        })
    );
    let many = returning(heap, 0, &[0; 64])?;
    assert_eq!(rt;
        read(&many),
        Ok(Header {
            shared: 0,
            procs: 64,
            table: 64,
            work: 4672,
        })
    );
    let more = returning(heap, 0, &[0; 65])?;
    assert_eq!(rt;
        read(&more),
        Err(Refusal {
            at: 129,
            reason: Reason::TooManyProcedures,
        })
    );
    Ok(())
}

// `depth` times not, and then yes.
fn nested(heap: Global, depth: usize) -> Result<Vec<u8>, AllocError> {
    let mut bytes = vec![in heap; 1, 0, 1, 0, 0]?;
    let nots = vec![in heap; 2; depth]?;
    bytes.extend_from_slice(&nots)?;
    bytes.push(0)?;
    Ok(bytes)
}

#[test]
fn deeply_nested(rt: HostRuntime) -> Result<(), Fail> {
    let bytes = nested(rt.alloc(), 8000)?;
    assert_eq!(rt;
        read(&bytes),
        Ok(Header {
            shared: 1,
            procs: 1,
            table: 4,
            work: 4136,
        })
    );
    Ok(())
}

#[test]
fn values_of_expressions(rt: HostRuntime) -> Result<(), Fail> {
    let cases: [(&[u8], u32, bool); 10] = [
        (&[0], 0, true),
        (&[2, 0], 0, false),
        (&[1, 0], 1, true),
        (&[1, 0], 0b1110, false),
        (&[1, 11], 1 << 11, true),
        (&[3, 1, 0, 1, 1], 0b11, true),
        (&[3, 1, 0, 1, 1], 0b01, false),
        (&[3, 1, 0, 1, 1], 0b10, false),
        // not (not x0 and not x1): x0 or x1
        (&[2, 3, 2, 1, 0, 2, 1, 1], 0b10, true),
        (&[2, 3, 2, 1, 0, 2, 1, 1], 0b00, false),
    ];
    for (bytes, values, holds) in cases {
        let Ok(end) = read_expression(bytes, 0, 32) else {
            return Err(Fail::new("no expression"));
        };
        let valued = evaluate(bytes, 0, values);
        assert_eq!(rt; valued.holds, holds);
        assert_eq!(rt; valued.end, end);
    }
    Ok(())
}

// The walks through a program of two procedures, of which the second has four steps.
#[test]
fn walks_of_a_program(rt: HostRuntime) -> Result<(), Fail> {
    let ring = [1, 0, 1, 3, 1, 1, 4, 1, 1, 2, 3, 1, 1, 3, 1, 0, 0, 2, 1, 0];
    let Ok(header) = read(&ring) else {
        return Err(Fail::new("no program"));
    };
    assert_eq!(rt; Procedures::new(&ring, header).count(), 2);
    let mut ends = [0; 2];
    let mut steps = [0; 2];
    for (number, procedure) in Procedures::new(&ring, header).enumerate() {
        if number < 2 {
            ends[number] = procedure.end;
            steps[number] = Steps::new(&ring, procedure, header.scope(procedure)).count();
        }
    }
    assert_eq!(rt; ends, [5, 20]);
    assert_eq!(rt; steps, [1, 4]);
    Ok(())
}

#[test]
fn kinds_by_their_bytes(rt: HostRuntime) {
    assert_eq!(rt; ExpressionKind::try_from(3), Ok(ExpressionKind::And));
    assert_eq!(rt; ExpressionKind::try_from(4), Err(Reason::UnknownExpression));
    assert_eq!(rt; u8::from(ExpressionKind::Not), 2);
    assert_eq!(rt; StepKind::try_from(4), Ok(StepKind::Return));
    assert_eq!(rt; StepKind::try_from(5), Err(Reason::UnknownStep));
    assert_eq!(rt; u8::from(StepKind::Go), 2);
}
