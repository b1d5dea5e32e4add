// The call places of each procedure.
ghost use Rattle.std.specs.Prelude.{◌≡◌, ℕ, ◌+◌, ◌<◌, ◌≤◌, length};
ghost use Rattle.program.specs.Program.{Prog, Proc};
ghost use Rattle.expansion.specs.Procs.{ProcIs};
ghost use Rattle.expansion.specs.Programs.{Known};
ghost use Rattle.expansion.specs.Sites.{steps};
ghost use Rattle.expansion.specs.Listing.{calls_in, calls_of, IsCall, Adds, Noted, ProcListed, CalleeListed, SitesListed};

use crate::nodes::Place;
use crate::source::Source;
use program::procedures::Procedure;
use program::steps::Step;
use program::walks::Procedures;

// Call places, listed in lent words: the first `count` of these are listed. Not a `Vec`, since there is no heap.
#[derive(Drop)]
struct Sites<'s> {
    words: &'s mut [u32],
    count: usize,
}

impl Sites<'_> {
    // Lists one more.
    fn push(&mut self, node: u32)
        requires { self.old.count < length self.old.words.now }
        ensures adds { Adds (λ n. n ≡ node) self.old self.new }
        ensures count { self.new.count ≡ self.old.count + 1 }
    {
        self.words[self.count] = node;
        self.count += 1;
    }

    // Lists `node`, if the step calls `callee`.
    fn note(&mut self, step: Step, callee: usize, node: u32)
        requires { IsCall step callee → self.old.count < length self.old.words.now }
        ensures { Noted step callee node self.old self.new }
    {
        if let Step::Call(to) = step
            && usize::from(to.0) == callee
        {
            self.push(node);
        }
    }

    // Lists the places that call `callee` in the procedure that was read as `procedure`, which begins at
    // place `start`.
    fn list_procedure(&mut self, source: Source, procedure: Procedure, start: Place, callee: usize)
        requires { (g : Prog) × (f : ℕ) × (p : Proc) × ProcIs source procedure start g f p × (self.old.count + calls_in callee p.steps ≤ length self.old.words.now) }
        ensures { ProcListed source.entry procedure start callee self.old self.new }
    {
        let mut place = start;
        for found in source.steps(procedure) {
            self.note(found.step, callee, place.first);
            place = place.next();
        }
    }

    // Lists the places that call `callee`.
    fn list_callee(&mut self, source: Source, callee: usize)
        requires { (g : Prog) × Known source g × (self.old.count + calls_of callee g.procs ≤ length self.old.words.now) }
        ensures { CalleeListed source.entry callee self.old self.new }
    {
        for (f, procedure) in Procedures::new(source.bytes, source.header).enumerate() {
            let start = source.first_place(f, procedure);
            self.list_procedure(source, procedure, start, callee);
        }
    }

    // Lists all call places, those of each procedure in turn, and where those of each begin.
    fn list_all(&mut self, source: Source, starts: &mut [u32])
        requires empty { self.old.count ≡ 0 }
        requires known { (g : Prog) × Known source g × (length g.procs < length starts.old) × (steps g.procs ≤ length self.old.words.now) }
        ensures same { self.new.words.ghost_name ≡ self.old.words.ghost_name }
        ensures listed { SitesListed source.entry.bytes.now source.entry.header starts.new self.new.words.now self.new.count }
    {
        starts[0] = 0;
        let ends = &mut starts[1..source.header.procs + 1];
        for (callee, end) in ends.iter_mut().enumerate() {
            self.list_callee(source, callee);
            *end = self.count as u32;
        }
    }
}

// Lists all call places, those of each procedure in turn, and where those of each begin; how many there are. Their
// slice is not handed out: what `sites` holds once such a borrow ends could not be told (tried: an `ensures*` over a
// part of a field is not proved).
pub fn list_sites(source: Source, starts: &mut [u32], sites: &mut [u32]) -> usize
    requires { (g : Prog) × Known source g × (length g.procs < length starts.old) × (steps g.procs ≤ length sites.old) }
    ensures { SitesListed source.entry.bytes.now source.entry.header starts.new sites.new result }
{
    let mut listed = Sites {
        words: sites,
        count: 0,
    };
    listed.list_all(source, starts);
    listed.count
}
