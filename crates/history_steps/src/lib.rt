// The step that a gene takes at a node in the history that is shown: of the steps open to it there, the first of those that attain the least cost.
#![tactic(auto)]

ghost use Rattle.std.specs.Prelude.{◌≡◌, [], ◌∷◌, ◌*◌, ◌+◌, ◌-◌, ◌/◌, ◌%◌, ◌≤◌, ◌<◌, length};
ghost use Rattle.std.proofs.Math.Option.{some};
ghost use Rattle.layout.specs.Headers.{costs, WithinLimits};
ghost use Rattle.histories.specs.Histories.{least};
ghost use Rattle.arcs.specs.inner.Arcs.{leaving};
ghost use Rattle.cell_costs.specs.inner.Costs.{cost_in};
ghost use Rattle.tellings.specs.Steps.{code, step_cost};
ghost use Rattle.tellings.specs.Chosen.{moves, partings, restings, onward, choice};
ghost use Rattle.tellings.specs.inner.Walks.{MayStart, Low, Each, step_by, step_number, no_step, offers};
ghost use Rattle.whole_network.specs.inner.Stages.{RowOf, family};
ghost use Rattle.history_steps.specs.inner.StepChoices.{step_of, moved_to, parted_to, spent, attains, Readable, Fit, Ready, open_to, Within, ChildRows, ChoiceAt};
ghost use Rattle.history_steps.specs.inner.Tables.{Tabled};

use arcs::Out;
use cell_costs::{Children, after};
use layout::Header;
use whole_network::source::Source;
use whole_network::{Kind, Row};

// A step, with the nodes where the children start, the lower-numbered child's first, or with the node that the gene moves on to.
#[derive(Clone, Copy)]
pub enum Step {
    Rest,
    Speciation(usize, usize),
    Duplication(usize),
    Transfer(usize, usize),
    LossGoingDown(usize),
    LossByTransfer(usize),
    FreePass(usize),
}

// Nodes go up to 127, so that a step is one number: its code and its nodes, the code first.
const NODES: usize = 128;

// The number that no step has: above all of theirs.
const NO_STEP: usize = 7 * NODES * NODES;

// The number of the step with this code and these nodes.
fn number_of(code: usize, first: usize, second: usize) -> usize
    requires { (code ≤ 6) × (first < 128) × (second < 128) }
    ensures { result ≡ (code * 128 + first) * 128 + second }
{
    (code * NODES + first) * NODES + second
}

impl Step {
    // The event code: that of an event, as a report has it, or 4 to 6.
    #[tactic(auto, unfolding(tellings::specs::Steps::code))]
    pub fn code(self) -> u32
        ensures { result ≡ code (step_of self) }
    {
        match self {
            Step::Rest => 0,
            Step::Speciation(_, _) => 1,
            Step::Duplication(_) => 2,
            Step::Transfer(_, _) => 3,
            Step::LossGoingDown(_) => 4,
            Step::LossByTransfer(_) => 5,
            Step::FreePass(_) => 6,
        }
    }

    // What the step costs.
    #[tactic(auto, unfolding(tellings::specs::Steps::step_cost))]
    pub fn cost(self, h: Header) -> u32
        requires { WithinLimits h }
        ensures { (result ≡ step_cost (costs h) (step_of self)) × (result ≤ 198) }
    {
        match self {
            Step::Rest | Step::Speciation(_, _) | Step::FreePass(_) => 0,
            Step::Duplication(_) => h.duplication,
            Step::Transfer(_, _) => h.transfer,
            Step::LossGoingDown(_) => h.loss,
            Step::LossByTransfer(_) => h.transfer + h.loss,
        }
    }

    // The node that the gene moves on to, where it does.
    #[tactic(auto, unfolding(tellings::specs::Chosen::onward, crate::specs::inner::StepChoices::moved_to))]
    pub fn moved_to(self) -> Option<usize>
        ensures { result ≡ moved_to (onward (step_of self)) }
    {
        match self {
            Step::LossGoingDown(w) | Step::LossByTransfer(w) | Step::FreePass(w) => Some(w),
            Step::Rest | Step::Speciation(_, _) | Step::Duplication(_) | Step::Transfer(_, _) =>
                None,
        }
    }

    // The nodes where the children start, where there are any.
    #[tactic(auto, unfolding(tellings::specs::Chosen::onward, crate::specs::inner::StepChoices::parted_to))]
    pub fn parted_to(self) -> Option<(usize, usize)>
        ensures { result ≡ parted_to (onward (step_of self)) }
    {
        match self {
            Step::Speciation(p, q) | Step::Transfer(p, q) => Some((p, q)),
            Step::Duplication(v) => Some((v, v)),
            Step::Rest | Step::LossGoingDown(_) | Step::LossByTransfer(_) | Step::FreePass(_) =>
                None,
        }
    }

    // Lower numbers are sooner steps.
    #[tactic(auto, unfolding(tellings::specs::inner::Walks::step_number, tellings::specs::Steps::code, tellings::specs::Steps::first, tellings::specs::Steps::second))]
    fn number(self) -> usize
        requires { Low (step_of self) }
        ensures { result ≡ step_number (step_of self) }
    {
        match self {
            Step::Rest => number_of(0, 0, 0),
            Step::Speciation(p, q) => number_of(1, p, q),
            Step::Duplication(v) => number_of(2, v, v),
            Step::Transfer(p, q) => number_of(3, p, q),
            Step::LossGoingDown(w) => number_of(4, w, 0),
            Step::LossByTransfer(w) => number_of(5, w, 0),
            Step::FreePass(w) => number_of(6, w, 0),
        }
    }

    // The step with this number.
    #[tactic(auto, unfolding(tellings::specs::inner::Walks::step_by, finite::specs::Tests::same))]
    fn of_number(number: usize) -> Step
        ensures { step_of result ≡ step_by (number / 16384) (number / 128 % 128) (number % 128) }
    {
        let first = number / NODES % NODES;
        let second = number % NODES;
        match number / (NODES * NODES) {
            0 => Step::Rest,
            1 => Step::Speciation(first, second),
            2 => Step::Duplication(first),
            3 => Step::Transfer(first, second),
            4 => Step::LossGoingDown(first),
            5 => Step::LossByTransfer(first),
            _ => Step::FreePass(first),
        }
    }
}

// What the steps of a gene at a node are judged by: the costs of events, the gene's row of the table and its children's rows (a leaf gene's own in their
// place, which no step of it reads), and the least cost of its histories from there.
#[derive(Clone, Copy)]
struct StepChoice<'a> {
    header: Header,
    own: &'a [u32],
    children: Children<'a>,
    least: usize,
}

impl StepChoice<'_> {
    // The least cost of the histories that begin with this step.
    fn total(self, s: Step) -> usize
        requires { WithinLimits self.header × Readable self (onward (step_of s)) }
        ensures { cost_in result ≡ spent self.entry (step_of s) }
    {
        let c = s.cost(self.header) as usize;
        match s {
            Step::Rest => c,
            Step::Speciation(p, q) | Step::Transfer(p, q) => self.children.both(c, p, q),
            Step::Duplication(v) => self.children.both(c, v, v),
            Step::LossGoingDown(w) | Step::LossByTransfer(w) | Step::FreePass(w) => {
                after(self.own, c, w)
            }
        }
    }

    // The lower of a number and that of a step that attains the least cost.
    fn offer(self, best: usize, s: Step) -> usize
        requires { Ready self × Fit self (step_of s) }
        ensures { result ≡ offers (attains self.entry) (step_of s ∷ []) best }
    {
        if self.total(s) == self.least {
            best.min(s.number())
        } else {
            best
        }
    }

    // A leaf gene of a species may rest.
    #[tactic(auto, unfolding(tellings::specs::Chosen::restings, tellings::specs::inner::Walks::Each, tellings::specs::inner::Walks::offers))]
    fn rests(self, best: usize, species: usize, out: Out) -> usize
        requires { Ready self × Each (Fit self) (restings species (leaving out)) }
        ensures { result ≡ offers (attains self.entry) (restings species (leaving out)) best }
    {
        match out {
            Out::Leaf(node_species) if species == node_species => self.offer(best, Step::Rest),
            _ => best,
        }
    }

    // The children may part at node v.
    #[tactic(auto, unfolding(tellings::specs::Chosen::partings, tellings::specs::inner::Walks::Each, tellings::specs::inner::Walks::offers))]
    fn parts(self, best: usize, v: usize, out: Out) -> usize
        requires { Ready self × Each (Fit self) (partings v (leaving out)) }
        ensures { result ≡ offers (attains self.entry) (partings v (leaving out)) best }
    {
        match out {
            Out::Leaf(_) | Out::One(_) => best,
            Out::Two(x, y) => {
                let one = self.offer(best, Step::Speciation(x, y));
                self.offer(one, Step::Speciation(y, x))
            }
            Out::Mixed(x, z) => {
                let one = self.offer(best, Step::Transfer(v, z));
                let two = self.offer(one, Step::Transfer(z, v));
                let three = self.offer(two, Step::Transfer(x, z));
                self.offer(three, Step::Transfer(z, x))
            }
        }
    }

    // The gene may move on.
    #[tactic(auto, unfolding(tellings::specs::Chosen::moves, tellings::specs::inner::Walks::Each, tellings::specs::inner::Walks::offers))]
    fn moves(self, best: usize, out: Out) -> usize
        requires { Ready self × Each (Fit self) (moves (leaving out)) }
        ensures { result ≡ offers (attains self.entry) (moves (leaving out)) best }
    {
        match out {
            Out::Leaf(_) => best,
            Out::One(x) => self.offer(best, Step::FreePass(x)),
            Out::Two(x, y) => {
                let one = self.offer(best, Step::LossGoingDown(x));
                self.offer(one, Step::LossGoingDown(y))
            }
            Out::Mixed(x, z) => {
                let one = self.offer(best, Step::LossByTransfer(z));
                self.offer(one, Step::FreePass(x))
            }
        }
    }

    // The number of the first step that attains the least cost, of those open to a gene at node v.
    #[tactic(auto, unfolding(tellings::specs::Chosen::endings, tellings::specs::inner::Walks::Each, tellings::specs::inner::Walks::offers))]
    fn lowest(self, kind: Kind, v: usize, out: Out) -> usize
        requires { Ready self × Each (Fit self) (open_to kind v (leaving out)) }
        ensures { result ≡ offers (attains self.entry) (open_to kind v (leaving out)) no_step }
    {
        match kind {
            Kind::Tip(species) => {
                let ended = self.rests(NO_STEP, species, out);
                self.moves(ended, out)
            }
            Kind::Pair(_, _) => {
                let here = self.offer(NO_STEP, Step::Duplication(v));
                let ended = self.parts(here, v, out);
                self.moves(ended, out)
            }
        }
    }
}

// The rows of a gene's children in the table; of a leaf gene its own.
fn children<'a>(table: &'a [u32], row: Row) -> Children<'a>
    requires { Within table.now row }
    ensures { ChildRows table.now row.start row.kind result }
{
    match row.kind {
        Kind::Tip(_) => Children {
            left: &table[row.start..],
            right: &table[row.start..],
        },
        Kind::Pair(a, b) => Children {
            left: &table[a..],
            right: &table[b..],
        },
    }
}

// What the steps of a row's gene at node v are judged by.
fn choice_at<'a>(header: Header, table: &'a [u32], row: Row, v: usize) -> StepChoice<'a>
    requires { Within table.now row × (1 ≤ v) × (row.start + (v - 1) < length table.now) }
    ensures { ChoiceAt header table.now row v result }
{
    let own = &table[row.start..];
    StepChoice {
        header,
        own,
        children: children(table, row),
        least: own[v - 1] as usize,
    }
}

// The step that the gene of a row takes at node v.
pub fn choose(source: &Source, table: &[u32], row: Row, v: usize) -> Step
    requires { Tabled source.now table.now × RowOf source.now row × MayStart (family source.now) row.gene v }
    ensures { choice (family source.now) (least (family source.now)) row.gene v ≡ some (step_of result) }
{
    let out = source.arcs.out(source.lines, v);
    let choice = choice_at(source.lines.header, table, row, v);
    Step::of_number(choice.lowest(row.kind, v, out))
}
