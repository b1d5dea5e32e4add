// What is asked and answered of programs in readable form, worked out by hand.
use crate::questions::ask;
use crate::sources::{Written, load};
use report::complaints::Complaint;
use std::alloc::{AllocError, Global};
use std::test::Fail;

const RING: &str = "decl lock;
void main() begin
  work();
end
void work() begin
  decl held;
  held := *;
  if (held) goto last;
  work();
last: lock := !lock;
end
";

const IDLE: &str = "decl a;
void main() begin
  goto last;
  a := 1;
last: end
void idle() begin
end
";

// What is told, or said in its place.
fn shown(heap: Global, outcome: Result<String, Complaint>) -> Result<String, AllocError> {
    match outcome {
        Ok(told) => Ok(told),
        Err(complaint) => complaint.to_string(heap),
    }
}

// The answer to the question that these words ask.
fn answer(heap: Global, text: &str, place: &str, words: &str) -> Result<String, Complaint> {
    let mut values = Vec::new(heap);
    for word in words.split_whitespace() {
        values.push(String::from_str(heap, word)?)?;
    }
    let file = "f";
    let source = &load(heap, file, text.as_bytes())?;
    let written = Written { file, source };
    let question = ask(heap, &source.names, place, values.as_slice())?;
    written.answer(heap, question)
}

#[test]
fn answers(rt: HostRuntime) -> Result<(), Fail> {
    let cases = [
        (
            "work:last",
            "",
            "yes\nA run comes to place 3 of work (line 10):\nlock=0 held=0\nlock=1 held=0\nlock=0 held=1\n",
        ),
        (
            "work:last",
            "held=1 lock=1",
            "no\nNo run comes to place 3 of work (line 10) with lock=1 held=1, however deep its calls.\n",
        ),
        (
            "work:3",
            "lock=1 held=0",
            "yes\nA run comes to place 3 of work (line 10) with lock=1 held=0.\n",
        ),
        (
            "work",
            "",
            "\"work\" is no place; write PROCEDURE:LABEL or PROCEDURE:NUMBER.",
        ),
        (
            "idle:0",
            "",
            "There is no procedure \"idle\"; there are main, work.",
        ),
        (
            "work:9",
            "",
            "Procedure work has places 0 to 4, and no place 9.",
        ),
        (
            "work:tap",
            "",
            "Procedure work has no label \"tap\"; it has last.",
        ),
        (
            "main:tap",
            "",
            "Procedure main has no label \"tap\"; it has none, so name a place by its number.",
        ),
        (
            "work:3",
            "a=1",
            "Procedure work has no variable \"a\"; it has lock, held.",
        ),
        (
            "work:3",
            "held",
            "\"held\" gives no variable a value; write NAME=0 or NAME=1.",
        ),
        (
            "work:3",
            "held=1 held=0",
            "The variable held is given twice.",
        ),
        (
            "work:3",
            "held=2",
            "\"held=2\" gives held no value; write held=0 or held=1.",
        ),
    ];
    for (place, words, expected) in cases {
        let outcome = answer(rt.alloc(), RING, place, words);
        assert_eq!(rt; shown(rt.alloc(), outcome)?.as_str(), expected);
    }
    Ok(())
}

// The survey of a program and its unreached places, or what is wrong with it.
fn surveyed(heap: Global, text: &str) -> Result<String, Complaint> {
    let file = "f";
    let source = &load(heap, file, text.as_bytes())?;
    let written = Written { file, source };
    let mut told = written.summary(heap)?;
    told.push_str(written.unreached(heap, text.as_bytes())?.as_str())?;
    Ok(told)
}

#[test]
fn surveys(rt: HostRuntime) -> Result<(), Fail> {
    let cases = [
        (
            RING,
            "shared variables: 1\nprocedures: 2\n  main: own variables 0, places 2, never reached 0\n  work: own variables 1, places 5, never reached 0\nplaces: 7\nnever reached: 0\ncalls waiting: endless\nevery place is reached\n",
        ),
        (
            IDLE,
            "shared variables: 1\nprocedures: 2\n  main: own variables 0, places 3, never reached 1\n  idle: own variables 0, places 1, never reached 1\nplaces: 4\nnever reached: 2\ncalls waiting at most: 0\nmain:1 line 4: a := 1;\nidle line 6: nobody calls it\n",
        ),
        (
            "decl a; decl a;\nvoid p() begin zzzz := 1; end\n",
            "f: line 1, column 14: there is a variable \"a\" already\nf: line 2, column 16: no variable \"zzzz\" here",
        ),
    ];
    for (text, expected) in cases {
        let outcome = surveyed(rt.alloc(), text);
        assert_eq!(rt; shown(rt.alloc(), outcome)?.as_str(), expected);
    }
    Ok(())
}
