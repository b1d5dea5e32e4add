// Statements of a text, one at a time, without the labels before them. Relies on `reader`
// and `expressions`.
use crate::diagnostics::{Expected, Stop};
use crate::reader::Reader;
use crate::tokens::Kind;
use tree::programs::{PlaceNo, Statement};

impl Reader<'_, '_, '_> {
    // The place of the label behind a `goto`.
    fn target(&mut self) -> Result<PlaceNo, Stop> {
        let token = self.cursor.expect(Kind::Name, Expected::LabelName)?;
        self.place(token)
    }

    // Behind `if`.
    fn branch(&mut self) -> Result<Statement, Stop> {
        self.cursor.expect(Kind::Opening, Expected::Opening)?;
        let cond = self.expression()?;
        self.cursor
            .expect(Kind::Closing, Expected::OperatorOrClosing)?;
        self.cursor.expect(Kind::Goto, Expected::Goto)?;
        let place = self.target()?;
        Ok(Statement::Branch { cond, place })
    }

    // `p()`, at `p`.
    fn call(&mut self) -> Result<Statement, Stop> {
        let number = self.procedure(self.cursor.peek())?;
        self.cursor.advance();
        self.cursor.expect(Kind::Opening, Expected::Opening)?;
        self.cursor.expect(Kind::Closing, Expected::Closing)?;
        Ok(Statement::Call(number))
    }

    // `x := e` or `x := *`, at `x`.
    fn assignment(&mut self) -> Result<Statement, Stop> {
        let var = self.variable(self.cursor.peek())?;
        self.cursor.advance();
        self.cursor.expect(Kind::Becomes, Expected::CallOrBecomes)?;
        if self.cursor.accept(Kind::Star) {
            return Ok(Statement::Open(var));
        }
        let value = self.expression()?;
        Ok(Statement::Assign { var, value })
    }

    // The statement that begins here, up to its `;`.
    pub fn statement(&mut self) -> Result<Statement, Stop> {
        let read = match (self.cursor.peek().kind, self.cursor.peek_second().kind) {
            (Kind::Skip, _) => {
                self.cursor.advance();
                Statement::Skip
            }
            (Kind::Return, _) => {
                self.cursor.advance();
                Statement::Return
            }
            (Kind::Goto, _) => {
                self.cursor.advance();
                Statement::Goto(self.target()?)
            }
            (Kind::If, _) => {
                self.cursor.advance();
                self.branch()?
            }
            (Kind::Name, Kind::Opening) => self.call()?,
            (Kind::Name, Kind::Becomes) => self.assignment()?,
            (Kind::Name, _) => {
                self.cursor.advance();
                return self.cursor.unexpected(Expected::CallOrBecomes);
            }
            _ => return self.cursor.unexpected(Expected::Statement),
        };
        let expected = match read {
            Statement::Assign { .. } => Expected::OperatorOrSemicolon,
            _ => Expected::Semicolon,
        };
        self.cursor.expect(Kind::Semicolon, expected)?;
        Ok(read)
    }
}
