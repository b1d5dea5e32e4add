// Marks of the nodes that are still to be visited, on two levels: a bit for each node, and a bit for each word of those that is not 0.
ghost use Rattle.std.specs.Prelude.{◌≡◌, ℕ, ◌*◌, ◌/◌, ◌^◌, ◌<◌, ◌≤◌, true, length, slice_index, MatchOption};
ghost use Rattle.saturation.specs.Marks.{Set, Marked, Taken, SameSize, NodeTaken, WordTaken, Clear};

use crate::bits::merge;
use std::marker::Model;

#[derive(Drop)]
pub(crate) struct Marks<'m> {
    nodes: &'m mut [u32],
    words: &'m mut [u32],
}

impl<'m> Model for Marks<'m> {
    ghost use Rattle.std.specs.Prelude.{◌≡◌, ◌*◌, ◌^◌, ◌<◌, length};
    ghost use Rattle.saturation.specs.Marks.{Levels};

    ghost Value = { Levels };

    ghost view = { λ m. record { nodes = m.nodes.now; words = m.words.now } };

    ghost invariant = { λ m. (length m.nodes.now ≡ 32 * length m.words.now) × (length m.nodes.now < 2 ^ 40) };
}

// Marks number `n`.
fn set(words: &mut [u32], n: usize)
    requires { n < 32 * length words.old }
    ensures { Set words.old words.new n }
{
    merge(words, n / 32, 1 << (31 - n % 32));
}

// Takes the first mark of the word at `i` away: the number that it was of, or none if the word is 0.
fn take(words: &mut [u32], i: usize) -> Option<usize>
    requires { (i < length words.old) × (length words.old < 2 ^ 40) }
    ensures { MatchOption result ((slice_index words.old i ≡ 0) × (words.new ≡ words.old)) (λ n. Taken words.old words.new i n) }
{
    let word = words[i];
    if word == 0 {
        return None;
    }
    let zeros = word.leading_zeros();
    words[i] = word - (1 << (31 - zeros));
    Some(32 * i + zeros as usize)
}

// The first word that has a mark.
fn first_marked(words: &[u32]) -> Option<usize>
    ensures { MatchOption result ((i : ℕ) → slice_index words.now i ≡ 0) (λ i. (i < length words.now) × (0 < slice_index words.now i)) }
{
    words.iter().position(|word| *word != 0)
}

impl<'m> Marks<'m> {
    // Marks in lent words, none of them set: of 33 words 32 are for nodes. What the words hold before does not matter.
    pub(crate) fn new(words: &'m mut [u32]) -> Marks<'m>
        requires { length words.old < 2 ^ 40 }
        ensures { Clear result (32 * (length words.old / 33)) }
    {
        let count = words.len() / 33;
        let (nodes, rest) = words.split_at_mut(32 * count);
        let (words, _) = rest.split_at_mut(count);
        nodes.fill(0);
        words.fill(0);
        Marks { nodes, words }
    }

    // Marks node `n`, and the word of its mark.
    pub(crate) fn mark(&mut self, n: usize)
        requires { n < 32 * length self.old.nodes }
        ensures { Marked self.old self.new n true }
    {
        set(self.nodes, n);
        set(self.words, n / 32);
    }

    // Takes the mark of the first marked node of the word at `word` away: the node, or none.
    pub(crate) fn take_node(&mut self, word: usize) -> Option<usize>
        requires { word < length self.old.nodes }
        ensures { MatchOption result ((slice_index self.old.nodes word ≡ 0) × (self.new ≡ self.old)) (λ n. NodeTaken self.old self.new word n) }
    {
        take(self.nodes, word)
    }

    // A word of the words' marks that is not 0: the first from `at` on, or else the first of all.
    fn pick(&self, at: usize) -> Option<usize>
        requires { at ≤ length self.now.words }
        ensures { MatchOption result ((i : ℕ) → slice_index self.now.words i ≡ 0) (λ i. (i < length self.now.words) × (0 < slice_index self.now.words i)) }
    {
        let words = &self.words;
        let (passed, ahead) = words.split_at(at);
        match first_marked(ahead) {
            Some(i) => Some(at + i),
            None => first_marked(passed),
        }
    }

    // Takes the mark of a word of nodes' marks away: the word's place, or none if no word is marked. `at` is where to
    // look first.
    pub(crate) fn take_word(&mut self, at: usize) -> Option<usize>
        requires { at ≤ length self.old.words }
        ensures size { SameSize self.old self.new }
        ensures taken { MatchOption result ((i : ℕ) → slice_index self.old.words i ≡ 0) (λ c. WordTaken self.old self.new c) }
    {
        let i = self.pick(at)?;
        take(self.words, i)
    }
}
