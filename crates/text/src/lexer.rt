// A text as tokens. Blanks, line ends and comments, from `//` to the end of the line, stand between
// tokens. Relies on std alone.
ghost use Rattle.std.specs.Prelude.{◌+◌, ◌<◌, ◌≤◌, length, IfOk, vec_len};

use crate::tokens::{Kind, Spot, Token};
use std::alloc::{AllocError, Global};

fn begins_word(b: u8) -> bool {
    b.is_ascii_alphanumeric() || b == b'_'
}

// Where what begins at `start` ends: at the first byte behind that which is no part of it.
fn end_of<F: Fn(u8) -> bool>(text: &[u8], start: usize, is_part: F) -> usize
    requires callable { F.IsAlwaysCallable is_part }
    requires inside { start < length text.now }
    ensures past { start < result }
    ensures within { result ≤ length text.now }
{
    let behind = start + 1;
    match text[behind..].iter().position(|b| !is_part(*b)) {
        Some(more) => behind + more,
        None => text.len(),
    }
}

fn word_kind(word: &[u8]) -> Kind {
    match word {
        b"decl" => Kind::Decl,
        b"void" => Kind::Void,
        b"begin" => Kind::Begin,
        b"end" => Kind::End,
        b"skip" => Kind::Skip,
        b"goto" => Kind::Goto,
        b"if" => Kind::If,
        b"return" => Kind::Return,
        b"0" => Kind::Zero,
        b"1" => Kind::One,
        [first, ..] if first.is_ascii_digit() => Kind::Number,
        _ => Kind::Name,
    }
}

fn symbol_kind(b: u8) -> Kind {
    match b {
        b'!' => Kind::Not,
        b'&' => Kind::And,
        b'|' => Kind::Or,
        b'=' => Kind::Equal,
        b'(' => Kind::Opening,
        b')' => Kind::Closing,
        b',' => Kind::Comma,
        b';' => Kind::Semicolon,
        b':' => Kind::Colon,
        b'*' => Kind::Star,
        _ => Kind::Stray,
    }
}

// What begins at `at` is, and where it ends.
fn token_at(text: &[u8], at: usize) -> (Kind, usize)
    requires { at < length text.now }
    ensures past { at < result.1 }
    ensures within { result.1 ≤ length text.now }
{
    match &text[at..] {
        [b':', b'=', ..] => (Kind::Becomes, at + 2),
        [b'!', b'=', ..] => (Kind::Differ, at + 2),
        [first, ..] if begins_word(*first) => {
            let end = end_of(text, at, begins_word);
            (word_kind(&text[at..end]), end)
        }
        _ => (symbol_kind(text[at]), at + 1),
    }
}

// The tokens of `text`; the last is behind all others.
pub fn lex(heap: Global, text: &[u8]) -> Result<Vec<Token>, AllocError>
    ensures { IfOk result (λ tokens. (0 < vec_len tokens) × (vec_len tokens ≤ length text.now + 1)) }
{
    let mut tokens = Vec::new(heap);
    let mut at = 0;
    let mut line = 1;
    let mut line_start = 0;
    // By an index, which tokens and columns are made of: an iterator would count the same beside itself.
    while let Some(first) = text.get(at) {
        let column = at - line_start + 1;
        match first {
            b'\n' => {
                at += 1;
                line += 1;
                line_start = at;
            }
            b' ' | b'\t' | b'\r' => at += 1,
            b'/' if text[at..].starts_with(b"//") => at = end_of(text, at, |b| b != b'\n'),
            _ => {
                let (kind, end) = token_at(text, at);
                let start = at;
                tokens.push(Token {
                    kind,
                    spot: Spot { line, column },
                    start,
                    end,
                })?;
                at = end;
            }
        }
    }
    let column = at - line_start + 1;
    tokens.push(Token {
        kind: Kind::Finish,
        spot: Spot { line, column },
        start: at,
        end: at,
    })?;
    Ok(tokens)
}
