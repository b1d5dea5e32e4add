// The words of one node, in lent memory: four for each.
ghost use Rattle.std.specs.Prelude.{◌≡◌, ℕ, ◌+◌, ◌*◌, ◌^◌, ◌<◌, length};
ghost use Rattle.program.specs.Program.{Prog, Proc};
ghost use Rattle.expansion.specs.Words.{WroteWords, Wrote};
ghost use Rattle.expansion.specs.Nodes.{PlaceIs, NodeIs};

use crate::source::Source;
use program::expressions::evaluate;
use program::steps::Step;
use program::values::put_bit;

// The call places of a procedure, by their numbers: those at `from` and on, before `until`. A `Range` is not `Copy`.
#[derive(Clone, Copy)]
pub struct Callers {
    pub from: u32,
    pub until: u32,
}

// What a node does: it flows on to one of two nodes; it calls the procedure that begins at a node, while
// another waits; or it returns to where its procedure was called. The engine that reads the words has an enum of its own
// for them, since this crate must not know how they are used.
#[derive(Clone, Copy)]
pub enum Action {
    Flow { first: u32, second: u32 },
    Call { callee: u32, waiting: u32 },
    Return(Callers),
}

impl Action {
    // On to one node.
    fn flow_to(node: u32) -> Action
        ensures { result ≡ Action.Flow node node }
    {
        Action::Flow {
            first: node,
            second: node,
        }
    }
}

// A node, whose procedure begins at `base`.
#[derive(Clone, Copy)]
pub struct Node {
    pub action: Action,
    pub base: u32,
}

// The four words that are written for a node: what kind of action it has, two numbers that go with it, and where its
// procedure begins. Any numbers: what each kind is, only `write_node` says.
#[derive(Clone, Copy)]
pub struct Words {
    pub kind: u32,
    pub first: u32,
    pub second: u32,
    pub base: u32,
}

// A place of a procedure: the node where the procedure begins and the first node of the place, how many
// nodes a place has, and how many shared values there are.
#[derive(Clone, Copy)]
pub struct Place {
    pub base: u32,
    pub first: u32,
    pub width: u32,
    pub shared: u32,
}

impl Place {
    // The place after this one.
    pub fn next(self) -> Place
        requires { self.first + self.width < 2 ^ 32 }
        ensures { result ≡ record self { first = self.first + self.width } }
    {
        Place {
            first: self.first + self.width,
            ..self
        }
    }
}

// A procedure that is written: its program, and its call places.
#[derive(Clone, Copy)]
pub struct Body<'b> {
    pub source: Source<'b>,
    pub callers: Callers,
}

// Writes these words, whatever they tell, as those of node `n`.
pub fn write_words(words: &mut [u32], n: usize, node: Words)
    requires { 4 * n + 3 < length words.old }
    ensures { WroteWords words.old words.new n node }
{
    words[4 * n] = node.kind;
    words[4 * n + 1] = node.first;
    words[4 * n + 2] = node.second;
    words[4 * n + 3] = node.base;
}

// Writes the words of node `n`: a number that tells its kind of action, two that go with it, and where its
// procedure begins.
pub fn write_node(words: &mut [u32], n: usize, node: Node)
    requires { 4 * n + 3 < length words.old }
    ensures { Wrote words.old words.new n node }
{
    let (kind, first, second) = match node.action {
        Action::Flow { first, second } => (0, first, second),
        Action::Call { callee, waiting } => (1, callee, waiting),
        Action::Return(callers) => (2, callers.from, callers.until),
    };
    let four = Words {
        kind,
        first,
        second,
        base: node.base,
    };
    write_words(words, n, four);
}

// What the node of `place` with these values does, where `step` stands, or none behind the last step. Here, below and in
// `expand_place`, `PlaceIs` is asked: as a ghost field of a struct of the three it would be asked of who only makes a place.
fn action_of(body: Body, step: Option<Step>, place: Place, values: u32) -> Action
    requires { (g : Prog) × (f : ℕ) × (p : Proc) × (a : ℕ) × PlaceIs body.source step place g f p a × (values < 2 ^ (g.shared + p.own)) }
    ensures { NodeIs body.entry.source step place body.entry.callers values (record { action = result; base = place.base }) }
{
    let Some(found) = step else {
        return Action::Return(body.callers);
    };
    let next = place.first + place.width;
    match found {
        Step::Set { var, expr } => {
            let yes = evaluate(body.source.bytes, expr.0, values).holds;
            Action::flow_to(next + put_bit(values, u32::from(var.0), yes))
        }
        Step::Open(var) => Action::Flow {
            first: next + put_bit(values, u32::from(var.0), true),
            second: next + put_bit(values, u32::from(var.0), false),
        },
        Step::Go {
            place: target,
            expr,
        } => {
            let there = place.base + u32::from(target.0) * place.width;
            if evaluate(body.source.bytes, expr.0, values).holds {
                Action::flow_to(there + values)
            } else {
                Action::flow_to(next + values)
            }
        }
        Step::Call(callee) => {
            let waiting = next + (values - values % place.shared);
            Action::Call {
                callee: body.source.bases[usize::from(callee.0)],
                waiting,
            }
        }
        Step::Return => Action::Return(body.callers),
    }
}

// The node of `place` with these values, where `step` stands, or none behind the last step.
pub fn node_words(body: Body, step: Option<Step>, place: Place, values: u32) -> Node
    requires { (g : Prog) × (f : ℕ) × (p : Proc) × (a : ℕ) × PlaceIs body.source step place g f p a × (values < 2 ^ (g.shared + p.own)) }
    ensures { NodeIs body.entry.source step place body.entry.callers values result }
{
    Node {
        action: action_of(body, step, place, values),
        base: place.base,
    }
}
