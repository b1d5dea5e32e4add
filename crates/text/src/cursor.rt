// A place among the tokens of a text, from which they are taken one by one. Behind them stands that of
// the text's end, however far one goes. Relies on `tokens`, `names`, `nearest` and `diagnostics`.
ghost use Rattle.std.specs.Prelude.{◌<◌, length, IsErr, IsSome, IsTrue, OnOk};
ghost use Rattle.std.specs.Iterator.{IsFinite};
ghost use Rattle.text.specs.Cursor.{GoesOn, GoesPast};

use crate::diagnostics::{Expected, Stop, Thing, Wrong};
use crate::names::Named;
use crate::nearest::Nearest;
use crate::tokens::{Kind, Token};
use std::alloc::{AllocError, Global};

#[derive(Clone, Copy)]
pub struct Cursor<'t, 'k> {
    pub heap: Global,
    pub text: &'t [u8],
    // The tokens from here on, without the one of the text's end.
    pub rest: &'k [Token],
    pub finish: Token,
}

impl<'t, 'k> Cursor<'t, 'k> {
    // Before the first of `tokens`, of which the last is that of the text's end.
    pub fn new(heap: Global, text: &'t [u8], tokens: &'k [Token]) -> Cursor<'t, 'k>
        requires { 0 < length tokens.now }
    {
        let last = tokens.len() - 1;
        Cursor {
            heap,
            text,
            rest: &tokens[..last],
            finish: tokens[last],
        }
    }

    // The token that stands so many further on.
    fn ahead(&self, tokens: usize) -> Token {
        self.rest.get(tokens).copied().unwrap_or(self.finish)
    }

    pub fn peek(&self) -> Token {
        self.ahead(0)
    }

    pub fn peek_second(&self) -> Token {
        self.ahead(1)
    }

    pub fn word(&self, token: Token) -> &'t [u8] {
        token.word(self.text)
    }

    pub fn name(&self, token: Token) -> Result<String, AllocError> {
        String::from_utf8_lossy(self.heap, self.word(token))
    }

    pub fn advance(&mut self)
        ensures { GoesOn self.old self.new }
    {
        if let Some((_, rest)) = self.rest.split_first() {
            self.rest = rest;
        }
    }

    // Goes on behind the token here if it is of this kind.
    pub fn take(&mut self, kind: Kind) -> Option<Token>
        ensures on { GoesOn self.old self.new }
        ensures past { IsSome result → GoesPast self.old self.new }
    {
        let (first, rest) = self.rest.split_first()?;
        if first.kind != kind {
            return None;
        }
        self.rest = rest;
        Some(*first)
    }

    // Whether the token here is of this kind; goes on behind it if so.
    pub fn accept(&mut self, kind: Kind) -> bool
        ensures on { GoesOn self.old self.new }
        ensures past { IsTrue result → GoesPast self.old self.new }
    {
        self.take(kind).is_some()
    }

    // The token here, which is to be of this kind.
    pub fn expect(&mut self, kind: Kind, expected: Expected) -> Result<Token, Stop>
        ensures on { GoesOn self.old self.new }
        ensures past { OnOk result (GoesPast self.old self.new) }
    {
        match self.take(kind) {
            Some(token) => Ok(token),
            None => self.unexpected(expected),
        }
    }

    // Goes to the next `void`, or to the end.
    pub fn skip_to_procedure(&mut self) {
        match self.rest.iter().position(|token| token.kind == Kind::Void) {
            Some(others) => self.rest = &self.rest[others..],
            None => self.rest = &[],
        }
    }

    // That what stands here is not what is expected.
    pub fn unexpected<T>(&self, expected: Expected) -> Result<T, Stop>
        ensures { IsErr result }
    {
        let token = self.peek();
        let wrong = match (token.kind, self.word(token)) {
            (Kind::Finish, _) => Wrong::Ends(expected),
            (Kind::Stray, [byte, ..]) if !byte.is_ascii_graphic() => Wrong::Stray(*byte),
            _ => Wrong::Found {
                found: self.name(token)?,
                expected,
            },
        };
        Err(Stop::new(token.spot, wrong))
    }

    // That the name `token` was given before.
    pub fn taken<T>(&self, thing: Thing, token: Token) -> Result<T, Stop>
        ensures { IsErr result }
    {
        let name = self.name(token)?;
        Err(Stop::new(token.spot, Wrong::Taken { thing, name }))
    }

    // That none of `known` has the name `token`.
    pub fn unknown<'n, T, N: Named + 'n, I: Iterator<Item = &'n N> + Drop>(
        &self,
        thing: Thing,
        token: Token,
        known: I,
    ) -> Result<T, Stop>
        requires can { I.can_next known }
        requires ends { IsFinite (I.remaining known) }
        ensures { IsErr result }
    {
        let mut nearest = Nearest::new(self.heap, self.word(token));
        for named in known {
            nearest.offer(named.name())?;
        }
        let name = self.name(token)?;
        let nearest = nearest.name;
        Err(Stop::new(
            token.spot,
            Wrong::Unknown {
                thing,
                name,
                nearest,
            },
        ))
    }
}
