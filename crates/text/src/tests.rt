// What texts are parsed to, what is said of those that are no program, and the text of a program's
// bytes, all worked out by hand.
use crate::parser::{Failure, Source, parse};
use crate::printer::print;
use crate::refusals::refused;
use std::alloc::{AllocError, Global};
use std::test::Fail;
use tree::encoding::encode;
use tree::faults::{Fault, Position};
use tree::programs::{PlaceNo, ProcNo, VarNo};

// The bytes of a program that was read, or why there are none.
fn encoded(heap: Global, source: &Source) -> Result<String, AllocError> {
    match encode(heap, &source.tree) {
        Ok(bytes) => format!(in heap; "{bytes:?}"),
        Err(fault) => {
            let refusal = refused(fault, &source.names);
            format!(in heap; "{refusal}")
        }
    }
}

// What comes of a text: the bytes of the program that it is, or what is wrong, a line each.
fn outcome(heap: Global, text: &str) -> Result<String, AllocError> {
    match parse(heap, text.as_bytes()) {
        Ok(source) => encoded(heap, &source),
        Err(Failure::Errors(errors)) => {
            let mut out = String::new(heap);
            for error in &errors {
                let line = format!(in heap; "{error}\n")?;
                out.push_str(line.as_str())?;
            }
            Ok(out)
        }
        Err(Failure::Memory) => Err(AllocError),
    }
}

const RING: &str = "decl lock, free; // what all share
void main() begin
  decl x;
top: x := *;
  if (x & !lock | free = 0) goto top;
  work();
end
void work() begin
  skip;
  return;
last: end
";

#[test]
fn programs(rt: HostRuntime) -> Result<(), Fail> {
    let cases = [
        (
            RING,
            "[2, 1, 3, 1, 2, 2, 0, 2, 3, 2, 3, 1, 2, 2, 1, 0, 2, 3, 2, 3, 1, 1, 2, 2, 0, 2, 3, 2, 1, 1, 2, 0, 3, 1, 0, 2, 2, 1, 0, 4]",
        ),
        (
            "decl a, b; void p() begin a := !(a | b) != a & b; end",
            "[2, 0, 1, 0, 0, 3, 2, 3, 2, 3, 2, 2, 3, 2, 1, 0, 2, 1, 1, 2, 1, 0, 2, 3, 2, 2, 2, 3, 2, 1, 0, 2, 1, 1, 1, 0, 1, 1]",
        ),
        (
            "decl a; decl b; void p() begin decl c, d; d := !!b; end",
            "[2, 2, 1, 0, 3, 2, 2, 1, 1]",
        ),
        (
            "void p() begin decl a; goto x; x: y: end",
            "[0, 1, 1, 2, 1, 0]",
        ),
        (
            "decl a; void p() begin a := 1 & 0 & a; end",
            "[1, 0, 1, 0, 0, 3, 3, 0, 2, 0, 1, 0]",
        ),
    ];
    for (text, bytes) in cases {
        assert_eq!(rt; outcome(rt.alloc(), text)?.as_str(), bytes);
    }
    Ok(())
}

#[test]
fn complaints(rt: HostRuntime) -> Result<(), Fail> {
    let cases = [
        ("", "line 1, column 1: there is no procedure\n"),
        (
            "p",
            "line 1, column 1: found \"p\", expected decl or void\n",
        ),
        (
            "decl a, b a;",
            "line 1, column 11: found \"a\", expected \",\" or \";\"\n",
        ),
        (
            "decl a, a;\nvoid p() begin end",
            "line 1, column 9: there is a variable \"a\" already\n",
        ),
        (
            "decl a,b,c,d,e,f,g,h; void p() begin h := i; end",
            "line 1, column 18: there may be at most 6 shared variables\nline 1, column 43: no variable \"i\" here\n",
        ),
        (
            "void p() begin decl a,b,c,d,e,f,g; end",
            "line 1, column 33: a procedure may have at most 6 variables of its own\n",
        ),
        (
            "decl a;\nvoid p() begin decl a; end",
            "line 2, column 21: there is a variable \"a\" already\n",
        ),
        (
            "decl a, ; b; void p() begin a := b; end",
            "line 1, column 9: found \";\", expected the name of a variable\nline 1, column 34: no variable \"b\" here\n",
        ),
        (
            "decl lock;\nvoid main() begin lokc := 1; goto tpo; end",
            "line 2, column 19: no variable \"lokc\" here; did you mean \"lock\"?\n",
        ),
        (
            "void p() begin top: goto tap; end",
            "line 1, column 26: no label \"tap\" here; did you mean \"top\"?\n",
        ),
        (
            "void main() begin q(); end",
            "line 1, column 19: no procedure \"q\" here\n",
        ),
        (
            "void main() begin mian(); end",
            "line 1, column 19: no procedure \"mian\" here; did you mean \"main\"?\n",
        ),
        (
            "void p() begin a: a: end",
            "line 1, column 19: there is a label \"a\" already\n",
        ),
        (
            "void p() begin end\nvoid p() begin end",
            "line 2, column 6: there is a procedure \"p\" already\n",
        ),
        (
            "decl a; void p() begin a := a = a = a; end",
            "line 1, column 35: \"=\" and \"!=\" do not chain: put one of them in parentheses\n",
        ),
        (
            "void p() begin skip",
            "line 1, column 20: found the end of the text, expected \";\"\n",
        ),
        (
            "void p() begin \x01 end",
            "line 1, column 16: the byte 1 is part of no program\n",
        ),
        (
            "void p() begin @ end\nvoid 2() begin end",
            "line 1, column 16: found \"@\", expected a statement or end\nline 2, column 6: found \"2\", expected the name of a procedure\n",
        ),
        (
            "void p() begin if (1 goto x; end",
            "line 1, column 22: found \"goto\", expected an operator or \")\"\n",
        ),
        (
            "void p() begin x; end",
            "line 1, column 17: found \";\", expected \":=\", \"(\" or \":\"\n",
        ),
        (
            "decl a; void p() begin a := ; end",
            "line 1, column 29: found \";\", expected a variable, 0, 1, \"!\" or \"(\"\n",
        ),
        (
            "decl a; void p() begin a := 1 1; end",
            "line 1, column 31: found \"1\", expected an operator or \";\"\n",
        ),
        (
            "void p() begin end end",
            "line 1, column 20: found \"end\", expected void or the end of the text\n",
        ),
    ];
    for (text, lines) in cases {
        assert_eq!(rt; outcome(rt.alloc(), text)?.as_str(), lines);
    }
    Ok(())
}

// `part` so many times, between `before` and `after`.
fn repeated(
    heap: Global,
    before: &str,
    part: &str,
    count: usize,
    after: &str,
) -> Result<String, AllocError> {
    let mut text = String::from_str(heap, before)?;
    for _ in 0..count {
        text.push_str(part)?;
    }
    text.push_str(after)?;
    Ok(text)
}

// So many procedures, each with a name of its own.
fn procedures(heap: Global, count: usize) -> Result<String, AllocError> {
    let mut text = String::new(heap);
    for number in 0..count {
        let line = format!(in heap; "void p{number}() begin end\n")?;
        text.push_str(line.as_str())?;
    }
    Ok(text)
}

#[test]
fn limits(rt: HostRuntime) -> Result<(), Fail> {
    let heap = rt.alloc();
    let set = "decl a; void p() begin a := ";
    let deep = repeated(heap, set, "(", 201, "1")?;
    assert_eq!(rt;
        outcome(heap, deep.as_str())?.as_str(),
        "line 1, column 229: parentheses may stand at most 200 deep\n"
    );
    let least = repeated(heap, set, "(", 200, "1")?;
    assert_eq!(rt;
        outcome(heap, least.as_str())?.as_str(),
        "line 1, column 230: found the end of the text, expected an operator or \")\"\n"
    );
    let long = repeated(heap, set, "!", 8193, "1")?;
    assert_eq!(rt;
        outcome(heap, long.as_str())?.as_str(),
        "line 1, column 8221: an expression may have at most 8192 operators\n"
    );
    let statements = repeated(heap, "void p() begin ", "skip; ", 256, "end")?;
    assert_eq!(rt;
        outcome(heap, statements.as_str())?.as_str(),
        "line 1, column 1546: a procedure may have at most 255 statements\n"
    );
    let many = procedures(heap, 65)?;
    assert_eq!(rt;
        outcome(heap, many.as_str())?.as_str(),
        "line 65, column 1: there may be at most 64 procedures\n"
    );
    let most = procedures(heap, 64)?;
    assert!(rt;
        outcome(heap, most.as_str())?
            .as_str()
            .starts_with("[0, 0, 0, 0,")
    );
    let broken = repeated(heap, "", "void 2\n", 12, "")?;
    assert_eq!(rt;
        outcome(heap, broken.as_str())?.as_str().lines().count(),
        10
    );
    Ok(())
}

#[test]
fn faults(rt: HostRuntime) -> Result<(), Fail> {
    let heap = rt.alloc();
    let Ok(source) = parse(heap, RING.as_bytes()) else {
        return Err(Fail::from(AllocError));
    };
    let at = |procedure: usize, place: usize| Position {
        procedure: ProcNo(procedure),
        place: PlaceNo(place),
    };
    let cases = [
        (
            Fault::TooManyShared(7),
            "there are 7 shared variables, and may be at most 6",
        ),
        (Fault::NoProcedure, "there is no procedure"),
        (
            Fault::TooManyProcedures(65),
            "there are 65 procedures, and may be at most 64",
        ),
        (
            Fault::TooManyOwn {
                procedure: ProcNo(1),
                own: 7,
            },
            "line 8: procedure \"work\" has 7 variables of its own, and may have at most 6",
        ),
        (
            Fault::TooManyStatements {
                procedure: ProcNo(4),
                statements: 256,
            },
            "procedure 4 has 256 statements, and may have at most 255",
        ),
        (
            Fault::NoSuchVariable {
                at: at(0, 1),
                var: VarNo(9),
            },
            "line 5, in procedure \"main\": there is no variable 9",
        ),
        (
            Fault::NoSuchPlace {
                at: at(0, 9),
                place: PlaceNo(3),
            },
            "procedure \"main\", place 9: there is no place 3",
        ),
        (
            Fault::NoSuchProcedure {
                at: at(5, 0),
                callee: ProcNo(7),
            },
            "procedure 5, place 0: there is no procedure 7",
        ),
        (
            Fault::TooLong(8193),
            "the program takes 8193 bytes, and may take at most 8192",
        ),
        (
            Fault::TooLong(1_000_000),
            "the program takes a million bytes or more, and may take at most 8192",
        ),
        (Fault::Memory, "there is not enough memory"),
    ];
    for (fault, sentence) in cases {
        let refusal = refused(fault, &source.names);
        assert_eq!(rt; format!(in heap; "{refusal}")?.as_str(), sentence);
    }
    Ok(())
}

// Whether a text is parsed and encoded to these bytes.
fn gives(heap: Global, text: &str, bytes: &[u8]) -> Result<bool, AllocError> {
    let wanted = format!(in heap; "{bytes:?}")?;
    Ok(outcome(heap, text)?.as_str() == wanted.as_str())
}

#[test]
fn printed(rt: HostRuntime) -> Result<(), Fail> {
    let heap = rt.alloc();
    assert!(rt; print(heap, &[7])?.is_none());
    let bytes = [0, 0, 0];
    let empty = print(heap, &bytes)?.ok_or("no program")?;
    assert_eq!(rt; empty.as_str(), "void p0() begin\nend\n");
    assert!(rt; gives(heap, empty.as_str(), &bytes)?);
    let bytes = [2, 0, 1, 0, 0, 3, 3, 1, 0, 1, 1, 3, 2, 3, 0, 1, 0, 2, 2, 0];
    let nested = print(heap, &bytes)?.ok_or("no program")?;
    assert_eq!(rt;
        nested.as_str(),
        "decl s0, s1;\n\nvoid p0() begin\n    s0 := s0 & s1 & (!(1 & s0) & !!1);\nend\n"
    );
    assert!(rt; gives(heap, nested.as_str(), &bytes)?);
    let bytes = [
        1, 0, 1, 3, 1, 1, 7, 1, 1, 2, 3, 1, 1, 3, 1, 0, 0, 2, 1, 0, 2, 5, 0, 2, 7, 0, 4,
    ];
    let ring = print(heap, &bytes)?.ok_or("no program")?;
    assert_eq!(rt;
        ring.as_str(),
        "decl s0;

void p0() begin
    p1();
end

void p1() begin
    decl v0;
    v0 := *;
    if (v0) goto L3;
    p1();
L3:
    s0 := !s0;
    skip;
    goto L7;
    return;
L7:
end
"
    );
    assert!(rt; gives(heap, ring.as_str(), &bytes)?);
    Ok(())
}

// How many bytes the text has of `s0 := e`, where `e` is `operator` so many times, then `1` so many.
fn printed_length(
    heap: Global,
    operator: u8,
    operators: usize,
    operands: usize,
) -> Result<usize, AllocError> {
    let mut bytes = [1, 0, 1, 0, 0].to_vec(heap)?;
    for _ in 0..operators {
        bytes.push(operator)?;
    }
    for _ in 0..operands {
        bytes.push(0)?;
    }
    Ok(print(heap, &bytes)?.map_or(0, |text| text.len()))
}

// As deep as the bytes of a program allow.
#[test]
fn deep(rt: HostRuntime) -> Result<(), Fail> {
    let around = "decl s0;\n\nvoid p0() begin\n    s0 := ;\nend\n".len();
    let nots = printed_length(rt.alloc(), 2, 8186, 1)?;
    assert_eq!(rt; nots, around + 8186 + 1);
    let ands = printed_length(rt.alloc(), 3, 4093, 4094)?;
    assert_eq!(rt; ands, around + 4093 * 3 + 4094);
    Ok(())
}
