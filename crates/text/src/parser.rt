// A text as a syntax tree with its names, or what is wrong with it. Relies on `lexer`, `declarations`
// and `procedures`.
ghost use Rattle.std.specs.Prelude.{◌≡◌, ◌≤◌, IfOk, vec_len};
ghost use Rattle.text.specs.declared.parser.Failure.TheVariants.{Memory};

use crate::cursor::Cursor;
use crate::declarations::Declarations;
use crate::diagnostics::{Diagnostic, Expected, Level, Stop, Wrong};
use crate::lexer::lex;
use crate::names::{Heading, Names};
use crate::procedures::{Parsed, list_headings, read_procedure};
use crate::tokens::Kind;
use program::programs::MOST_PROCEDURES;
use std::alloc::{AllocError, AllocFailed, Global};
use tree::programs::Tree;

const MOST_ERRORS: usize = 10;

// A program that was read. The names stand beside the tree, since that is encoded without them.
#[derive(Drop)]
pub struct Source {
    pub tree: Tree,
    pub names: Names,
}

// Why there is none: what is wrong, in the order of the text, or that memory is short. One generic enum
// for this and `Stop` is no plainer: it would call the errors of a text and one of them alike.
#[derive(Drop)]
pub enum Failure {
    Errors(Vec<Diagnostic>),
    Memory,
}

// By hand: the derive of `thiserror` is no plainer, since it asks for a message of each case and for an
// error in `Memory`.
impl From<AllocError> for Failure {
    ghost from_gives = { λ _ r. r ≡ Memory };

    fn from(_error: AllocError) -> Failure {
        Failure::Memory
    }
}

impl<T: Drop> From<AllocFailed<T>> for Failure {
    ghost from_gives = { λ _ r. r ≡ Memory };

    fn from(_refused: AllocFailed<T>) -> Failure {
        Failure::Memory
    }
}

// Adds what is wrong to `errors`.
fn report(errors: &mut Vec<Diagnostic>, stop: Stop) -> Result<(), Failure> {
    match stop {
        Stop::Wrong(diagnostic) => Ok(errors.push(diagnostic)?),
        Stop::Memory => Err(Failure::Memory),
    }
}

// What stands before the first procedure.
fn read_head(declarations: &mut Declarations) -> Result<(), Stop> {
    declarations.read()?;
    let cursor = declarations.cursor;
    if !matches!(cursor.peek().kind, Kind::Void | Kind::Finish) {
        return cursor.unexpected(Expected::Head);
    }
    Ok(())
}

// The names of the shared variables.
fn read_shared(cursor: &mut Cursor, errors: &mut Vec<Diagnostic>) -> Result<Vec<String>, Failure> {
    let mut shared = Declarations::new(*cursor, &[], Level::Shared);
    if let Err(stop) = read_head(&mut shared) {
        report(errors, stop)?;
        shared.guess_rest()?;
    }
    *cursor = shared.cursor;
    Ok(shared.names)
}

// All procedures from here on that are in order.
fn read_procedures(
    cursor: &mut Cursor,
    shared: &[String],
    headings: &[Heading],
    errors: &mut Vec<Diagnostic>,
) -> Result<Vec<Parsed>, Failure> {
    let mut all = Vec::new(cursor.heap);
    for _ in 0..MOST_PROCEDURES {
        if errors.len() >= MOST_ERRORS || !cursor.accept(Kind::Void) {
            return Ok(all);
        }
        match read_procedure(cursor, shared, headings) {
            Ok(parsed) => all.push(parsed)?,
            Err(stop) => {
                report(errors, stop)?;
                cursor.skip_to_procedure();
            }
        }
    }
    let next = cursor.peek();
    if errors.len() < MOST_ERRORS && next.kind == Kind::Void {
        report(errors, Stop::new(next.spot, Wrong::TooManyProcedures))?;
    }
    Ok(all)
}

// The program that `text` is, or the first error of the part before the procedures and of each
// procedure, up to ten.
pub fn parse(heap: Global, text: &[u8]) -> Result<Source, Failure>
    ensures procedures { IfOk result (λ source. vec_len source.tree.procedures ≡ vec_len source.names.procedures) }
    ensures shared { IfOk result (λ source. source.tree.shared ≡ vec_len source.names.shared) }
{
    let tokens = lex(heap, text)?;
    let mut cursor = Cursor::new(heap, text, &tokens);
    let headings = list_headings(&cursor)?;
    let mut errors = Vec::new(heap);
    let shared = read_shared(&mut cursor, &mut errors)?;
    let all = read_procedures(&mut cursor, &shared, &headings, &mut errors)?;
    if errors.is_empty() && all.is_empty() {
        report(
            &mut errors,
            Stop::new(cursor.peek().spot, Wrong::NoProcedure),
        )?;
    }
    if !errors.is_empty() {
        return Err(Failure::Errors(errors));
    }
    let (trees, names) = all
        .into_iter()
        .map(|parsed| (parsed.procedure, parsed.names))
        .unzip(heap)?;
    let tree = Tree {
        shared: shared.len(),
        procedures: trees,
    };
    let names = Names {
        shared,
        procedures: names,
    };
    Ok(Source { tree, names })
}
