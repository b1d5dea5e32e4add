// The worked programs, and each refusal at its exact limit. Work memory is full of ones before each call,
// and three bytes behind the table must stay as they were.
use crate::{Deep, Known, depth, know};
use program::programs::read;
use std::alloc::{AllocError, Global};
use std::process::Abort;
use std::test::Fail;

const REST: u8 = 9;

// The answer, and the table's memory after it, of a call that lends so many bytes and words more or fewer
// than the program wants.
#[derive(Drop)]
struct Outcome {
    known: Known,
    table: Vec<u8>,
}

fn ask(heap: Global, program: &[u8], bytes: usize, words: usize) -> Result<Outcome, AllocError> {
    let mut table = vec![in heap; REST; bytes]?;
    let mut work = vec![in heap; 0xffff_ffffu32; words]?;
    let known = know(program, &mut table, &mut work);
    Ok(Outcome { known, table })
}

// Bytes below 16, a hexadecimal digit each.
fn digits(heap: Global, text: &str) -> Result<Vec<u8>, Fail> {
    let mut bytes = Vec::new(heap);
    for digit in text.chars() {
        let byte = digit.to_digit(16).ok_or("no digit")?;
        bytes.push(u8::try_from(byte)?)?;
    }
    Ok(bytes)
}

// The outcome for a program that is lent just as many words as it wants, and so many bytes more.
fn ask_with(heap: Global, text: &str, rest: usize) -> Result<Outcome, Fail> {
    let program = digits(heap, text)?;
    let header = read(&program)?;
    Ok(ask(
        heap,
        &program,
        header.table.saturating_add(rest),
        header.work,
    )?)
}

const RING: &'static str = "10131141123113100210";

// A counter of calls in four shared variables, and a note, which is a variable of the procedure's own.
const THIRTEEN: &'static str =
    "401312f03232313231231110232133123111002232312231110232123111001232311210232111000210040152815312f33313123211102140420032323132321232112102321332123211210022323122321121023212321121001232311221023211210002104";

#[test]
fn worked_programs(rt: HostRuntime) -> Result<(), Fail> {
    let heap = rt.alloc();
    // a program, its table, and three bytes as they were
    let cases = [
        // a procedure that calls itself or not, and turns the shared variable over on the way back: at place 3
        // with its own variable yes the shared one is always no
        (RING, "101110001010100011101101999"),
        // the same with the call taken out
        ("101311411231123000210", "100110001010100010100101999"),
        // a procedure that calls itself and nothing else: behind the call nothing is reached
        ("00130", "10999"),
        // two that call each other while the shared variable is no, and set it before
        ("101310323100003203231000031", "10011010010101000001999"),
        // a return at the first place, with none waiting
        ("0014", "10999"),
        // a procedure that nobody calls
        ("000014", "100999"),
    ];
    for (text, expected) in cases {
        let outcome = ask_with(heap, text, 3)?;
        assert_eq!(rt; outcome.known, Known::Told);
        assert_eq!(rt;
            outcome.table.as_slice(),
            digits(heap, expected)?.as_slice()
        );
    }
    Ok(())
}

// Behind the last step at count 13, whose bytes stand last, if the note is no longer what it was before the call:
// it comes back where it is the procedure's own, and not where it is shared.
#[test]
fn thirteen_deep(rt: HostRuntime) -> Result<(), Fail> {
    let cases = [
        (THIRTEEN, 992, 0),
        (
            "501311f03232313231231110232133123111002232312231110232123111001232311210232111000210040152815312f33313123211102140420032323132321232112102321332123211210022323122321121023212321121001232311221023211210002104",
            1024,
            1,
        ),
    ];
    for (text, from, expected) in cases {
        let outcome = ask_with(rt.alloc(), text, 0)?;
        assert_eq!(rt; outcome.known, Known::Told);
        let reached = outcome.table.iter().skip(from).fold(
            0,
            |sum: usize, byte| sum.saturating_add(usize::from(*byte)),
        );
        assert_eq!(rt; reached, expected);
    }
    Ok(())
}

// A call that refuses leaves the lent table as it was.
#[test]
fn refusals(rt: HostRuntime) -> Result<(), Fail> {
    let heap = rt.alloc();
    let cases = [
        // the ring wants 24 bytes and 4336 words
        (RING, 24, 4335, Known::Few),
        (RING, 23, 4335, Known::Few),
        (RING, 23, 4336, Known::OutFull),
        ("0015", 24, 4336, Known::NoProgram),
        ("0015", 0, 0, Known::NoProgram),
        ("", 5, 5, Known::NoProgram),
    ];
    for (text, bytes, words, expected) in cases {
        let outcome = ask(heap, &digits(heap, text)?, bytes, words)?;
        assert_eq!(rt; outcome.known, expected);
        assert!(rt; outcome.table.iter().all(|byte| *byte == REST));
    }
    assert_eq!(rt;
        ask(heap, &digits(heap, RING)?, 24, 4336)?.known,
        Known::Told
    );
    Ok(())
}

// What is told of the depth of a program that is lent just as many words as it wants, all of them ones.
fn deep(rt: &impl Abort, heap: Global, program: &[u8], expected: Deep) -> Result<(), Fail> {
    let header = read(program)?;
    let mut work = vec![in heap; 0xffff_ffffu32; header.work]?;
    assert_eq!(rt; depth(program, &mut work), expected);
    Ok(())
}

#[test]
fn depths(rt: HostRuntime) -> Result<(), Fail> {
    let heap = rt.alloc();
    let cases = [
        // the worked programs, in the order of `worked_programs`
        (RING, Deep::Endless),
        ("101311411231123000210", Deep::AtMost(1)),
        ("00130", Deep::Endless),
        ("101310323100003203231000031", Deep::AtMost(2)),
        ("0014", Deep::AtMost(0)),
        ("000014", Deep::AtMost(0)),
        // the counter goes round from 15 to 0, and place 7 calls whatever it says: any number can wait
        (THIRTEEN, Deep::Endless),
        // place 6 goes past the call at count 14: the first activation of procedure 1 has count 1, the one with
        // count 14 calls no more, and 13 of procedure 1 and procedure 0 wait for it
        (
            "401312f032323132312311102321331231110022323122311102321231110012323112102321110002100401528331312311210312f33313123211102140420032323132321232112102321332123211210022323122321121023212321121001232311221023211210002104",
            Deep::AtMost(14),
        ),
        // procedure 1 calls itself while the shared variable is no; before, it is opened, or set
        ("102103102221031", Deep::Endless),
        ("1020003102221031", Deep::AtMost(1)),
        // a call that no run comes to
        ("00222030", Deep::AtMost(0)),
        // two callees, of which one calls a third, in either order
        ("002313201330000", Deep::AtMost(2)),
        ("002323101330000", Deep::AtMost(2)),
    ];
    for (text, expected) in cases {
        deep(&rt, heap, &digits(heap, text)?, expected)?;
    }
    Ok(())
}

// 64 procedures that each call the next.
#[test]
fn chain(rt: HostRuntime) -> Result<(), Fail> {
    let mut bytes = vec![in rt.alloc(); 0]?;
    for callee in 1..64u8 {
        bytes.extend_from_slice(&[0, 1, 3, callee])?;
    }
    bytes.extend_from_slice(&[0, 0])?;
    deep(&rt, rt.alloc(), &bytes, Deep::AtMost(63))
}

#[test]
fn depth_refusals(rt: HostRuntime) -> Result<(), Fail> {
    let heap = rt.alloc();
    let mut work = vec![in heap; 0xffff_ffffu32; 4336]?;
    let ring = digits(heap, RING)?;
    assert_eq!(rt; depth(&ring, &mut work), Deep::Endless);
    assert_eq!(rt; depth(&digits(heap, "0015")?, &mut work), Deep::Unread);
    let mut short = vec![in heap; 0u32; 4335]?;
    assert_eq!(rt; depth(&ring, &mut short), Deep::Short);
    assert_eq!(rt; depth(&[], &mut short), Deep::Unread);
    Ok(())
}
