// What reads the statements of a procedure: where it is, and the names that they may use. Relies on
// `cursor` and `names`.
use crate::cursor::Cursor;
use crate::diagnostics::{Stop, Thing};
use crate::names::{Scope, find, find_variable};
use crate::tokens::Token;
use tree::programs::{PlaceNo, ProcNo, VarNo};

#[derive(Clone, Copy)]
pub struct Reader<'t, 'k, 's> {
    pub cursor: Cursor<'t, 'k>,
    pub scope: Scope<'s, 's>,
    // How many operators the expression has so far that is being read.
    pub operators: usize,
}

impl<'t, 'k, 's> Reader<'t, 'k, 's> {
    pub fn new(cursor: Cursor<'t, 'k>, scope: Scope<'s, 's>) -> Reader<'t, 'k, 's> {
        Reader {
            cursor,
            scope,
            operators: 0,
        }
    }

    // The variable that `token` names: the shared ones come first.
    pub fn variable(&self, token: Token) -> Result<VarNo, Stop> {
        let shared = self.scope.shared;
        let own = self.scope.own;
        match find_variable(shared, own, self.cursor.word(token)) {
            Some(number) => Ok(VarNo(number)),
            None => self
                .cursor
                .unknown(Thing::Variable, token, shared.iter().chain(own.iter())),
        }
    }

    // The place of the label that `token` names.
    pub fn place(&self, token: Token) -> Result<PlaceNo, Stop> {
        let labels = self.scope.labels;
        match find(labels, self.cursor.word(token)) {
            Some(number) => Ok(PlaceNo(labels[number].place)),
            None => self.cursor.unknown(Thing::Label, token, labels.iter()),
        }
    }

    // The procedure that `token` names.
    pub fn procedure(&self, token: Token) -> Result<ProcNo, Stop> {
        let headings = self.scope.procedures;
        match find(headings, self.cursor.word(token)) {
            Some(number) => Ok(ProcNo(number)),
            None => self
                .cursor
                .unknown(Thing::Procedure, token, headings.iter()),
        }
    }
}
