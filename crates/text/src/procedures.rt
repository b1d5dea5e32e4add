// Procedures of a text. Relies on `declarations`, `reader`, `statements` and `names`.
ghost use Rattle.std.specs.Prelude.{◌≡◌, ◌+◌, ◌≤◌, IfOk, vec_len};

use crate::cursor::Cursor;
use crate::declarations::Declarations;
use crate::diagnostics::{Expected, Level, Stop, Thing, Wrong};
use crate::names::{Heading, Label, ProcedureNames, Scope, find};
use crate::reader::Reader;
use crate::tokens::{Kind, Token};
use std::alloc::AllocError;
use tree::limits::MOST_STATEMENTS;
use tree::programs::{Procedure, Statement};

// The names behind each `void`, in order.
pub fn list_headings(cursor: &Cursor) -> Result<Vec<Heading>, AllocError> {
    let mut headings = Vec::new(cursor.heap);
    for (void, token) in cursor.rest.iter().zip(cursor.rest.iter().skip(1)) {
        if void.kind == Kind::Void && token.kind == Kind::Name {
            headings.push(Heading {
                name: cursor.name(*token)?,
                spot: token.spot,
            })?;
        }
    }
    Ok(headings)
}

// The labels up to the next `void`, where `cursor` stands behind the declarations of a procedure. The
// place is counted by hand: it is how many `;` came before, and not the number of a token.
fn list_labels(cursor: &Cursor) -> Result<Vec<Label>, AllocError> {
    let mut labels = Vec::new(cursor.heap);
    let mut place: usize = 0;
    for (token, next) in cursor.rest.iter().zip(cursor.rest.iter().skip(1)) {
        match (token.kind, next.kind) {
            (Kind::Void, _) => break,
            (Kind::Semicolon, _) => place = place.saturating_add(1),
            (Kind::Name, Kind::Colon) => labels.push(Label {
                name: cursor.name(*token)?,
                place,
                spot: token.spot,
            })?,
            _ => {}
        }
    }
    Ok(labels)
}

// The statements of a procedure, with the line of each and last that of `end`. A Vec of pairs is no
// plainer: the tree is encoded without lines, and there is a line more than statements.
#[derive(Drop)]
struct Body {
    statements: Vec<Statement>,
    lines: Vec<usize>,
}

impl Reader<'_, '_, '_> {
    // Goes past the labels here, none of which is that of another place before.
    fn skip_labels(&mut self) -> Result<(), Stop> {
        while self.cursor.peek_second().kind == Kind::Colon
            && let Some(token) = self.cursor.take(Kind::Name)
        {
            if let Some(first) = find(self.scope.labels, self.cursor.word(token))
                && self.scope.labels[first].spot != token.spot
            {
                return self.cursor.taken(Thing::Label, token);
            }
            self.cursor.advance();
        }
        Ok(())
    }

    // Up to the `end` of a procedure.
    fn read_body(&mut self) -> Result<Body, Stop>
        ensures { IfOk result (λ body. (vec_len body.lines ≡ vec_len body.statements + 1) × (vec_len body.statements ≤ 255)) }
    {
        let mut statements = Vec::new(self.cursor.heap);
        let mut lines = Vec::new(self.cursor.heap);
        loop {
            self.skip_labels()?;
            let first = self.cursor.peek();
            if self.cursor.accept(Kind::End) {
                lines.push(first.spot.line)?;
                return Ok(Body { statements, lines });
            }
            if statements.len() >= MOST_STATEMENTS {
                return Err(Stop::new(first.spot, Wrong::TooManyStatements));
            }
            statements.push(self.statement()?)?;
            lines.push(first.spot.line)?;
        }
    }
}

// The name of a procedure behind its `void`; goes on behind its `begin`.
fn read_heading(cursor: &mut Cursor, headings: &[Heading]) -> Result<Token, Stop> {
    let token = cursor.expect(Kind::Name, Expected::ProcedureName)?;
    if let Some(first) = find(headings, cursor.word(token))
        && headings[first].spot != token.spot
    {
        return cursor.taken(Thing::Procedure, token);
    }
    cursor.expect(Kind::Opening, Expected::Opening)?;
    cursor.expect(Kind::Closing, Expected::Closing)?;
    cursor.expect(Kind::Begin, Expected::Begin)?;
    Ok(token)
}

// A procedure that was read, and its names.
#[derive(Drop)]
pub struct Parsed {
    pub procedure: Procedure,
    pub names: ProcedureNames,
}

// The procedure whose `void` stands before. Another follows, or nothing.
pub fn read_procedure(
    cursor: &mut Cursor,
    shared: &[String],
    headings: &[Heading],
) -> Result<Parsed, Stop>
    ensures lines { IfOk result (λ parsed. vec_len parsed.names.lines ≡ vec_len parsed.procedure.body + 1) }
    ensures own { IfOk result (λ parsed. vec_len parsed.names.own ≡ parsed.procedure.own) }
{
    let token = read_heading(cursor, headings)?;
    let mut declarations = Declarations::new(*cursor, shared, Level::Own);
    declarations.read()?;
    *cursor = declarations.cursor;
    let own = declarations.names;
    let labels = list_labels(cursor)?;
    let scope = Scope {
        shared,
        own: &own,
        labels: &labels,
        procedures: headings,
    };
    let mut reader = Reader::new(*cursor, scope);
    let body = reader.read_body()?;
    *cursor = reader.cursor;
    if !matches!(cursor.peek().kind, Kind::Void | Kind::Finish) {
        return cursor.unexpected(Expected::ProcedureOrFinish);
    }
    let procedure = Procedure {
        own: own.len(),
        body: body.statements,
    };
    let names = ProcedureNames {
        name: cursor.name(token)?,
        line: token.spot.line,
        own,
        labels,
        lines: body.lines,
    };
    Ok(Parsed { procedure, names })
}
