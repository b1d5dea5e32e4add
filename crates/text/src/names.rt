// The names of a text: those of the program that it is, and those that a statement may use. Relies on
// `tokens` for where they stand.
ghost use Rattle.std.specs.Prelude.{◌≡◌, List, ℕ, ◌++◌, position, string_bytes};
ghost use Rattle.std.specs.Str.{bytes_eq};

use crate::tokens::Spot;

// What has a name. The three impls below that are alike stand by hand: the project's gate refuses an
// impl that a derive or a macro of the repository's own writes.
pub trait Named {
    // The bytes of the name.
    ghost named: { Self → List ℕ };

    fn name(&self) -> &str
        ensures { result.now ≡ named self.now };
}

impl Named for String {
    ghost named = { λ s. string_bytes s };

    fn name(&self) -> &str {
        self.as_str()
    }
}

// The names of a program: those of its shared variables and of its procedures.
#[derive(Drop)]
pub struct Names {
    pub shared: Vec<String>,
    pub procedures: Vec<ProcedureNames>,
}

// The names of a procedure, and its lines: that of its name, those of its statements, and last that
// of its `end`. The lines stand beside the statements, since the tree is encoded without them.
#[derive(Drop)]
pub struct ProcedureNames {
    pub name: String,
    pub line: usize,
    pub own: Vec<String>,
    pub labels: Vec<Label>,
    pub lines: Vec<usize>,
}

impl Named for ProcedureNames {
    ghost named = { λ s. string_bytes s.name };

    fn name(&self) -> &str {
        self.name.as_str()
    }
}

// A label: its name, the number of statements before it, and where it stands.
#[derive(Drop)]
pub struct Label {
    pub name: String,
    pub place: usize,
    pub spot: Spot,
}

impl Named for Label {
    ghost named = { λ s. string_bytes s.name };

    fn name(&self) -> &str {
        self.name.as_str()
    }
}

// A procedure's name, and where it stands.
#[derive(Drop)]
pub struct Heading {
    pub name: String,
    pub spot: Spot,
}

impl Named for Heading {
    ghost named = { λ s. string_bytes s.name };

    fn name(&self) -> &str {
        self.name.as_str()
    }
}

// What the statements of a procedure may name: what all procedures may, and what only it may.
#[derive(Clone, Copy)]
pub struct Scope<'a, 'p> {
    pub shared: &'a [String],
    pub procedures: &'a [Heading],
    pub own: &'p [String],
    pub labels: &'p [Label],
}

// The number of the first of `all` that has the name `word`.
pub fn find<T: Named>(all: &[T], word: &[u8]) -> Option<usize>
    ensures { result ≡ position (λ x. bytes_eq (T.named x) word.now) all.now }
{
    all.iter().position(|named| named.name().as_bytes() == word)
}

// The number of the first variable that has the name `word`: the shared ones come first.
pub fn find_variable(shared: &[String], own: &[String], word: &[u8]) -> Option<usize>
    ensures { result ≡ position (λ name. bytes_eq (string_bytes name) word.now) (shared.now ++ own.now) }
{
    shared
        .iter()
        .chain(own.iter())
        .position(|name| name.as_bytes() == word)
}
