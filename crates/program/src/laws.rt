// The theorems about programs that deciding them rests on. Nothing is computed here: the contract asks
// for the proofs, so that without one of them the crate is refused.
ghost use Rattle.program.specs.Laws.{Laws, WaitsByCalls};

#[tactic(auto, using(crate::proofs::Proved::laws))]
pub fn laws()
    ensures { Laws }
{}

// The law on which telling how many can wait rests.
#[tactic(auto, using(crate::proofs::Proved::waits_by_calls))]
pub fn waits()
    ensures { WaitsByCalls }
{}
