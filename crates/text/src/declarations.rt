// Declarations of variables, the shared ones and those of a procedure. Relies on `cursor` and `names`.
ghost use Rattle.std.specs.Prelude.{◌≡◌};
ghost use Rattle.text.specs.Cursor.{GoesOn};

use crate::cursor::Cursor;
use crate::diagnostics::{Expected, Level, Stop, Thing, Wrong};
use crate::names::{find, find_variable};
use crate::tokens::{Kind, Token};
use program::procedures::MOST_VARIABLES;
use std::alloc::AllocError;

// Declarations that are being read: the names so far, and those outside, of which they may have none.
#[derive(Drop)]
pub struct Declarations<'t, 'k, 'o> {
    pub cursor: Cursor<'t, 'k>,
    pub names: Vec<String>,
    pub outer: &'o [String],
    pub level: Level,
}

impl<'t, 'k, 'o> Declarations<'t, 'k, 'o> {
    pub fn new(
        cursor: Cursor<'t, 'k>,
        outer: &'o [String],
        level: Level,
    ) -> Declarations<'t, 'k, 'o> {
        Declarations {
            cursor,
            names: Vec::new(cursor.heap),
            outer,
            level,
        }
    }

    // Adds the name `token`.
    fn declare(&mut self, token: Token) -> Result<(), Stop>
        ensures { self.new.cursor ≡ self.old.cursor }
    {
        let word = self.cursor.word(token);
        if find_variable(self.outer, &self.names, word).is_some() {
            return self.cursor.taken(Thing::Variable, token);
        }
        if self.names.len() >= MOST_VARIABLES {
            let wrong = Wrong::TooManyVariables(self.level);
            return Err(Stop::new(token.spot, wrong));
        }
        self.names.push(self.cursor.name(token)?)?;
        Ok(())
    }

    // Adds the names behind a `decl`, up to its `;`.
    fn read_list(&mut self) -> Result<(), Stop>
        ensures { GoesOn self.old.cursor self.new.cursor }
    {
        loop {
            let token = self.cursor.expect(Kind::Name, Expected::VariableName)?;
            self.declare(token)?;
            if self.cursor.accept(Kind::Semicolon) {
                return Ok(());
            }
            self.cursor.expect(Kind::Comma, Expected::CommaOrSemicolon)?;
        }
    }

    // Adds the names of all `decl`s that stand here.
    pub fn read(&mut self) -> Result<(), Stop> {
        while self.cursor.accept(Kind::Decl) {
            self.read_list()?;
        }
        Ok(())
    }

    // Adds what could be meant as names in a list, of which `tokens` are what is left.
    fn guess_list(&mut self, tokens: &[Token]) -> Result<(), AllocError> {
        for token in tokens {
            if matches!(token.kind, Kind::Semicolon | Kind::Opening) {
                break;
            }
            if token.kind == Kind::Name && find(&self.names, self.cursor.word(*token)).is_none() {
                self.names.push(self.cursor.name(*token)?)?;
            }
        }
        Ok(())
    }

    // Adds what could be meant as names behind an error, however many, so that their use is not
    // reported too. Goes to the first procedure.
    pub fn guess_rest(&mut self) -> Result<(), AllocError> {
        let head = self
            .cursor
            .rest
            .split(|token| matches!(token.kind, Kind::Void | Kind::Begin))
            .next()
            .unwrap_or(&[]);
        for list in head.split(|token| token.kind == Kind::Decl) {
            self.guess_list(list)?;
        }
        self.cursor.skip_to_procedure();
        Ok(())
    }
}
