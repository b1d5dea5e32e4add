// The theory of pushdown systems: what runs with calls can do, and how it is decided. Nothing here
// computes; the theorems are proved over any types (proofs/), and the contracts below ask for them
// at systems on numbers whose moves are listed, since a contract can't speak of all types at once.
#![tactic(auto)]

ghost use Rattle.pushdown.specs.Laws.{Laws, Decided};
ghost use Rattle.pushdown.specs.Listed.{Moves, sys};
ghost use Rattle.std.specs.Prelude.{ℕ};

// What is below doesn't matter; summaries are runs, and the least closed relation; reached is
// entered and inside; as many wait as calls stand one within another.
pub fn laws()
    ensures { (M : Moves ℕ ℕ) → Laws (sys M) }
{}

// Whether a node can be come to is told by filling up, and so is the greatest number that can wait,
// or that there is none.
pub fn decided()
    ensures { (M : Moves ℕ ℕ) → Decided M }
{}
