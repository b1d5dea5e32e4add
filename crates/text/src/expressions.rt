// Expressions of a text. From the tightest: `!`, then `=` and `!=`, which do not chain, then `&`, then
// `|`. The levels of `&` and `|` are read by one function, and each other by one of its own, which calls
// the next tighter one; parentheses nest at most MOST_DEPTH deep, which bounds the stack. Relies on
// `reader`.
ghost use Rattle.std.specs.Prelude.{IfOk, IsTrue};
ghost use Rattle.text.specs.Cursor.{GoesOn, GoesPast};

use crate::diagnostics::{Expected, Stop, Wrong};
use crate::reader::Reader;
use crate::tokens::Kind;
use program::programs::MOST_BYTES;
use std::alloc::{AllocError, Global};
use tree::programs::Expr;

pub const MOST_DEPTH: usize = 200;

// Each operator takes a byte at least, so that a program has no expression with more.
pub const MOST_OPERATORS: usize = MOST_BYTES;

// An operator that chains.
#[derive(Clone, Copy)]
enum Operator {
    And,
    Or,
}

impl Operator {
    fn kind(self) -> Kind {
        match self {
            Operator::And => Kind::And,
            Operator::Or => Kind::Or,
        }
    }

    fn join(self, left: Box<Expr>, right: Box<Expr>) -> Expr {
        match self {
            Operator::And => Expr::And(left, right),
            Operator::Or => Expr::Or(left, right),
        }
    }
}

// An operator that compares.
#[derive(Clone, Copy)]
enum Comparison {
    Equal,
    Differ,
}

impl Comparison {
    fn join(self, left: Box<Expr>, right: Box<Expr>) -> Expr {
        match self {
            Comparison::Equal => Expr::Equal(left, right),
            Comparison::Differ => Expr::Differ(left, right),
        }
    }
}

// `count` times not `expr`.
fn negated(heap: Global, count: usize, expr: Expr) -> Result<Expr, AllocError> {
    let mut whole = expr;
    for _ in 0..count {
        whole = Expr::Not(Box::new(heap, whole)?);
    }
    Ok(whole)
}

impl Reader<'_, '_, '_> {
    // Whether an operator of this kind stands here; goes on behind it if so.
    fn accept_operator(&mut self, kind: Kind) -> Result<bool, Stop>
        ensures on { GoesOn self.old.cursor self.new.cursor }
        ensures past { IfOk result (λ found. IsTrue found → GoesPast self.old.cursor self.new.cursor) }
    {
        let Some(token) = self.cursor.take(kind) else {
            return Ok(false);
        };
        if self.operators >= MOST_OPERATORS {
            return Err(Stop::new(token.spot, Wrong::TooLong));
        }
        self.operators += 1;
        Ok(true)
    }

    // The operator that compares here, if one does; goes on behind it.
    fn accept_comparison(&mut self) -> Result<Option<Comparison>, Stop>
        ensures { GoesOn self.old.cursor self.new.cursor }
    {
        if self.accept_operator(Kind::Equal)? {
            Ok(Some(Comparison::Equal))
        } else if self.accept_operator(Kind::Differ)? {
            Ok(Some(Comparison::Differ))
        } else {
            Ok(None)
        }
    }

    // Goes past `!`s, and counts them: each may be refused, which an iterator's `count` does not pass on.
    fn negations(&mut self) -> Result<usize, Stop>
        ensures { GoesOn self.old.cursor self.new.cursor }
    {
        let mut count: usize = 0;
        while self.accept_operator(Kind::Not)? {
            count = count.saturating_add(1);
        }
        Ok(count)
    }

    // A name, 0, 1, or an expression in parentheses, of which `depth` more may nest.
    #[cycle(expressions)]
    fn primary(&mut self, depth: usize) -> Result<Expr, Stop>
        ensures { GoesOn self.old.cursor self.new.cursor }
    {
        let token = self.cursor.peek();
        match token.kind {
            Kind::Zero => {
                self.cursor.advance();
                Ok(Expr::No)
            }
            Kind::One => {
                self.cursor.advance();
                Ok(Expr::Yes)
            }
            Kind::Name => {
                let var = self.variable(token)?;
                self.cursor.advance();
                Ok(Expr::Var(var))
            }
            Kind::Opening => {
                if depth == 0 {
                    return Err(Stop::new(token.spot, Wrong::TooDeep));
                }
                self.cursor.advance();
                let inner = self.chain(Operator::Or, depth - 1)?;
                self.cursor
                    .expect(Kind::Closing, Expected::OperatorOrClosing)?;
                Ok(inner)
            }
            _ => self.cursor.unexpected(Expected::Operand),
        }
    }

    #[cycle(expressions)]
    fn operand(&mut self, depth: usize) -> Result<Expr, Stop>
        ensures { GoesOn self.old.cursor self.new.cursor }
    {
        let count = self.negations()?;
        let expr = self.primary(depth)?;
        Ok(negated(self.cursor.heap, count, expr)?)
    }

    #[cycle(expressions)]
    fn comparison(&mut self, depth: usize) -> Result<Expr, Stop>
        ensures { GoesOn self.old.cursor self.new.cursor }
    {
        let heap = self.cursor.heap;
        let left = self.operand(depth)?;
        let Some(comparison) = self.accept_comparison()? else {
            return Ok(left);
        };
        let right = self.operand(depth)?;
        let next = self.cursor.peek();
        if matches!(next.kind, Kind::Equal | Kind::Differ) {
            return Err(Stop::new(next.spot, Wrong::Chained));
        }
        let left = Box::new(heap, left)?;
        Ok(comparison.join(left, Box::new(heap, right)?))
    }

    // What stands between two of these operators.
    #[cycle(expressions)]
    fn part(&mut self, operator: Operator, depth: usize) -> Result<Expr, Stop>
        ensures { GoesOn self.old.cursor self.new.cursor }
    {
        match operator {
            Operator::Or => self.chain(Operator::And, depth),
            Operator::And => self.comparison(depth),
        }
    }

    // Parts with these operators between, of which the left ones bind first.
    #[cycle(expressions)]
    fn chain(&mut self, operator: Operator, depth: usize) -> Result<Expr, Stop>
        ensures { GoesOn self.old.cursor self.new.cursor }
    {
        let heap = self.cursor.heap;
        let mut whole = self.part(operator, depth)?;
        while self.accept_operator(operator.kind())? {
            let right = self.part(operator, depth)?;
            whole = operator.join(Box::new(heap, whole)?, Box::new(heap, right)?);
        }
        Ok(whole)
    }

    // The expression that begins here.
    pub fn expression(&mut self) -> Result<Expr, Stop> {
        self.operators = 0;
        self.chain(Operator::Or, MOST_DEPTH)
    }
}
