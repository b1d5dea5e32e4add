// The kinds of expressions and of steps, by the byte that each begins with.
use crate::refusals::Reason;

// What an expression is.
#[derive(Clone, Copy, PartialEq, Eq, Debug)]
#[repr(u8)]
pub enum ExpressionKind {
    Yes = 0,
    Var = 1,
    Not = 2,
    And = 3,
}

impl From<ExpressionKind> for u8 {
    ghost use Rattle.std.specs.Prelude.{◌≡◌};
    ghost use Rattle.program.specs.Kinds.{byte_e};

    ghost from_gives = { λ kind byte. byte ≡ byte_e kind };

    #[inline]
    fn from(kind: ExpressionKind) -> u8 {
        kind as u8
    }
}

impl TryFrom<u8> for ExpressionKind {
    ghost use Rattle.program.specs.Kinds.{KindOfE};

    type Error = Reason;

    ghost try_from_gives = { KindOfE };

    #[inline]
    fn try_from(byte: u8) -> Result<ExpressionKind, Reason> {
        match byte {
            0 => Ok(ExpressionKind::Yes),
            1 => Ok(ExpressionKind::Var),
            2 => Ok(ExpressionKind::Not),
            3 => Ok(ExpressionKind::And),
            _ => Err(Reason::UnknownExpression),
        }
    }
}

// What a step does.
#[derive(Clone, Copy, PartialEq, Eq, Debug)]
#[repr(u8)]
pub enum StepKind {
    Set = 0,
    Open = 1,
    Go = 2,
    Call = 3,
    Return = 4,
}

impl From<StepKind> for u8 {
    ghost use Rattle.std.specs.Prelude.{◌≡◌};
    ghost use Rattle.program.specs.Kinds.{byte_i};

    ghost from_gives = { λ kind byte. byte ≡ byte_i kind };

    #[inline]
    fn from(kind: StepKind) -> u8 {
        kind as u8
    }
}

impl TryFrom<u8> for StepKind {
    ghost use Rattle.program.specs.Kinds.{KindOfI};

    type Error = Reason;

    ghost try_from_gives = { KindOfI };

    #[inline]
    fn try_from(byte: u8) -> Result<StepKind, Reason> {
        match byte {
            0 => Ok(StepKind::Set),
            1 => Ok(StepKind::Open),
            2 => Ok(StepKind::Go),
            3 => Ok(StepKind::Call),
            4 => Ok(StepKind::Return),
            _ => Err(Reason::UnknownStep),
        }
    }
}
