// Solving a program, for the table and for the depth: its words, its call places and its sets, in lent words.
ghost use Rattle.std.specs.Prelude.{◌≡◌, ◌+◌, ◌*◌, ◌<◌, ◌≤◌, length};
ghost use Rattle.program.specs.Program.{Prog};
ghost use Rattle.expansion.specs.Programs.{Headed, Based, Expanded};
ghost use Rattle.expansion.specs.Sites.{steps};
ghost use Rattle.expansion.specs.Listing.{SitesListed};
ghost use Rattle.places.specs.Settling.{Filled};
ghost use Rattle.places.specs.Solving.{Solved};

use crate::given::Program;
use crate::memory::{Memory, divide};
use expansion::programs::{expand, list_bases};
use expansion::sites::list_sites;
use expansion::source::Source;
use program::programs::MOST_PROCEDURES;
use ranking::Procedures;
use saturation::{System, saturate};

// The most words that say where the call places of the procedures begin, and where the last ones end.
pub const MOST_STARTS: usize = MOST_PROCEDURES + 1;

// A solved program: its nodes and call places, its procedures, and the sets of entries and of returns of its nodes;
// and room for two sets of entries of its procedures.
#[derive(Drop)]
pub struct Saturated<'w> {
    pub system: System<'w, 'w>,
    pub procedures: Procedures<'w, 'w>,
    pub sets: &'w mut [u32],
    pub level: &'w mut [u32],
    pub next: &'w mut [u32],
}

// Writes a program's words, its call places, and where those and its procedures begin; how many call places there are.
fn write_words(
    program: Program,
    bases: &mut [u32],
    starts: &mut [u32],
    words: &mut [u32],
    sites: &mut [u32],
) -> usize
    requires bases { length bases.old ≡ program.header.procs }
    requires starts { length starts.old ≡ program.header.procs + 1 }
    requires words { length words.old ≡ 4 * program.header.table }
    requires sites { (g : Prog) → Headed program.bytes.now program.header g → steps g.procs ≤ length sites.old }
    ensures based { Based program.entry.bytes.now program.entry.header bases.new }
    ensures listed { SitesListed program.entry.bytes.now program.entry.header starts.new sites.new result }
    ensures expanded { Expanded program.entry.bytes.now program.entry.header starts.new words.new }
{
    let Program { bytes, header } = program;
    list_bases(bytes, header, bases);
    let source = Source {
        bytes,
        header,
        bases,
    };
    let count = list_sites(source, starts, sites);
    expand(source, starts, words);
    count
}

// Solves a program, in as many work words as it wants; `bases` has a word for each procedure, and `starts` one more.
// The memory may hold anything before.
pub fn settle<'w>(
    program: Program,
    bases: &'w mut [u32],
    starts: &'w mut [u32],
    work: &'w mut [u32],
) -> Saturated<'w>
    requires room { program.header.work ≤ length work.old }
    requires bases { program.header.procs ≤ length bases.old }
    requires starts { program.header.procs < length starts.old }
    ensures filled { Filled program.entry result }
    ensures solved { Solved program.entry.bytes.now program.entry.header result.sets.now }
{
    let header = program.header;
    let Memory {
        words,
        sets,
        marks,
        level,
        next,
        sites,
    } = divide(work, header.table);
    let bases = &mut bases[..header.procs];
    let starts = &mut starts[..=header.procs];
    let count = write_words(program, bases, starts, words, sites);
    let system = System {
        graph: words,
        sites: &sites[..count],
        shared: header.shared_values(),
        nodes: header.table,
    };
    saturate(system, sets, marks, 0);
    Saturated {
        system,
        procedures: Procedures { bases, starts },
        sets,
        level,
        next,
    }
}
