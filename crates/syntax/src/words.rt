// The words of a text: what stands between blanks, line ends and comments. Relies on std alone.
ghost use Rattle.std.specs.Prelude.{◌≡◌, ◌+◌, ◌^◌, ◌<◌, ◌≤◌, true, false, not, length, drop, slice_index};
ghost use Rattle.std.specs.List.{prefix_len};
ghost use Rattle.syntax.specs.Decimal.{gap, ends, uncomment};

use crate::decimal::Place;

// Whether `b` is a blank or a line end.
fn is_gap(b: u8) -> bool
    ensures { result ≡ gap b }
{
    matches!(b, b' ' | b'\t' | b'\r' | b'\n')
}

// Whether a word ends before `b`.
fn ends_word(b: u8) -> bool
    ensures { result ≡ ends b }
{
    b == b'#' || is_gap(b)
}

// How many bytes of `rest`, which begins within a word or behind one, are part of it.
fn word_len(rest: &[u8]) -> usize
    ensures { result ≡ prefix_len (λ b. not (ends b)) rest.now }
{
    rest.iter().take_while(|b| !ends_word(**b)).count()
}

// How many bytes of `rest`, which begins within a comment, are part of it.
fn comment_len(rest: &[u8]) -> usize
    ensures within { result ≤ length rest.now }
    ensures skips { uncomment true rest.now ≡ uncomment false (drop result rest.now) }
{
    rest.iter().take_while(|b| **b != b'\n').count()
}

// The words that `rest` has, which stands at the end of a text of `whole` bytes, from line `line` on.
#[derive(Clone, Copy)]
pub struct Words<'a> {
    rest: &'a [u8],
    whole: usize,
    line: usize,
    ghost few: { line + length rest.now ≤ whole + 1 },
    ghost within: { length rest.now ≤ whole },
    ghost fits: { whole < 2 ^ 63 },
}

impl<'a> Words<'a> {
    ghost use Rattle.syntax.specs.Words.{words_left};

    pub fn new(text: &'a [u8]) -> Words<'a>
        ensures rest { result.rest.now ≡ text.now }
        ensures whole { result.whole ≡ length text.now }
    {
        Words {
            rest: text,
            whole: text.len(),
            line: 1,
        }
    }

    // Goes on to the first word, or to the end. One pass, which counts lines as it goes: a `scan` of what comes before, and
    // then a count, would be two.
    fn skip_gap(&mut self)
        ensures left { words_left self.new ≡ words_left self.old }
        ensures whole { self.new.whole ≡ self.old.whole }
        ensures begins { 0 < length self.new.rest.now → ends (slice_index self.new.rest.now 0) ≡ false }
    {
        while let Some((b, rest)) = self.rest.split_first() {
            if *b == b'#' {
                self.rest = &rest[comment_len(rest)..];
            } else if is_gap(*b) {
                self.rest = rest;
                self.line += usize::from(*b == b'\n');
            } else {
                return;
            }
        }
    }
}

impl<'a> Iterator for Words<'a> {
    ghost use Rattle.std.specs.Iterator.{item_count};
    ghost use Rattle.syntax.specs.Words.{words_left, GivesWord};

    type Item = (Place, &'a [u8]);

    ghost next_gives = { GivesWord };

    ghost remaining = { item_count words_left };

    fn next(&mut self) -> Option<(Place, &'a [u8])> {
        self.skip_gap();
        // The first byte is part of the word, and isn't asked a second time.
        let (_, inner) = self.rest.split_first()?;
        let (word, rest) = self.rest.split_at(1 + word_len(inner));
        let line = self.line;
        let start = self.whole - self.rest.len();
        let end = start + word.len();
        self.rest = rest;
        Some((Place { line, start, end }, word))
    }
}
