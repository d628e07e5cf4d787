// 01's search, "a plain machine whose state is a value": the bests by top, in the table of choices, and the count of trials. Its steps are methods of a
// prepared network and gene tree (`Given`), which are lent the tables to work in (`Work`).
#![tactic(auto)]

ghost use Rattle.std.specs.Prelude.{◌≡◌, ◌+◌, ◌≤◌, ◌<◌};
ghost use Rattle.finite.specs.Tables.{at};
ghost use Rattle.layout.specs.inner.Choices.{blank};
ghost use Rattle.layout.specs.inner.Tree.{blank as blank_tree};
ghost use Rattle.layout.specs.inner.Results.{blank as blank_results};
ghost use Rattle.optimum.specs.Optimum.{trials_of};
ghost use Rattle.search.specs.inner.Steps.{takes, fresh, Settling, SettledBy, Finished};
ghost use Rattle.search.specs.inner.Works.{WorkingIn, AssembledIn, AwaitingIn, ReachedIn, LastIn, SearchedIn};

pub mod given;

use given::Given;
use layout::choices::Choices;
use layout::results::Results;
use layout::tree::Tree;
use mapping::Score;
use mapping::seated::SeatedGenes;
use tables::Column;

// The tables that the search works in: the settings tried and the bests, the tree of a switching, and the genes under it. (Lent and filled in place, as by
// `switching::start`: tables that are returned are copied, which made a typical call 9 % slower. `WorkingIn` is no ghost field: it speaks of `Given` too, and
// does not hold yet of the blank tables that `run` is lent.)
#[derive(Drop)]
pub struct Work {
    pub choices: Choices,
    pub tree: Tree,
    pub results: Results,
}

// Where the search stands between two steps: the settings of the components up to `done` are scored, and of the next one those below `setting`, the best of
// which costs `least`, if there is one; `count` settings are scored in all. (The loops count `done` and `setting` too: the promise of `step`, "One step scores
// the next setting", is about a state that says by itself which is next.)
#[derive(Clone, Copy, Default)]
pub struct Stage {
    pub done: usize,
    pub setting: u32,
    pub least: Option<u32>,
    pub count: u32,
}

// What the search found: the trials, and the score of the switching put together from the bests.
#[derive(Clone, Copy)]
pub struct Found {
    pub trials: u32,
    pub score: Score,
}

// How many settings a component with k reticulations has to be tried in: none where k is 0.
fn settings_of(k: u32) -> u32
    requires { k ≤ 8 }
    ensures { result ≡ trials_of k }
{
    if k == 0 { 0 } else { 1 << k }
}

// Whether a setting becomes the best of its component: it is the first, or costs less than the least so far.
#[tactic(auto, unfolding(crate::specs::inner::Steps::takes, finite::specs::Tests::under))]
fn takes(least: Option<u32>, cost: u32) -> bool
    ensures { result ≡ takes least cost }
{
    least.is_none_or(|so_far| cost < so_far)
}

// The stage of a step: before a component's first setting there is no least cost so far, whatever the stage says.
#[tactic(auto, unfolding(crate::specs::inner::Steps::fresh, finite::specs::Tests::same))]
fn fresh(s: Stage) -> Stage
    ensures { result ≡ fresh s }
{
    if s.setting == 0 {
        Stage { least: None, ..s }
    } else {
        s
    }
}

// The next setting was found to cost this.
fn settle(best: &mut Column, s: Stage, cost: u32) -> Stage
    requires { Settling s }
    ensures { SettledBy s cost best.old best.new result }
{
    let mut r = s;
    r.setting += 1;
    r.count += 1;
    if takes(s.least, cost) {
        r.least = Some(cost);
        best[s.done + 1] = s.setting;
    }
    r
}

// All settings of the next component are scored: the one after it is next.
fn finish(setting: &mut Column, s: Stage) -> Stage
    requires { s.done < 127 }
    ensures { Finished s setting.old setting.new result }
{
    setting[s.done + 1] = 0;
    Stage {
        done: s.done + 1,
        setting: 0,
        least: None,
        count: s.count,
    }
}

impl Given<'_> {
    // The score of the switching that has these settings, with its tree and its genes.
    fn evaluated(&self, settings: &Column, tree: &mut Tree, results: &mut Results) -> Score
        requires { WorkingIn self.now tree.old results.old }
        ensures { AssembledIn self.now (at settings.now) tree.new results.new result }
    {
        switching::switch(self.network, settings, tree);
        let seated = SeatedGenes {
            header: self.network.lines.header,
            tree,
            genes: self.genes,
        };
        seated.evaluate(results)
    }

    // "One step scores the next setting of a single component .. and raises the count by one". (What a stage has for the least cost is asked of it only once
    // a setting of the component is scored.)
    #[tactic(auto, using(crate::proofs::Turns::step_fits))]
    pub fn step(&self, work: &mut Work, s: Stage) -> Stage
        requires working { WorkingIn self.now work.old.tree work.old.results }
        requires awaiting { AwaitingIn self.now work.old (fresh s) }
        ensures reached { ReachedIn self.now work.new result × (result.done ≡ s.done) × (result.setting ≡ s.setting + 1) }
        ensures working { WorkingIn self.now work.new.tree work.new.results }
    {
        let s = fresh(s);
        work.choices.setting[s.done + 1] = s.setting;
        let score = self.evaluated(&work.choices.setting, &mut work.tree, &mut work.results);
        settle(&mut work.choices.best, s, score.cost)
    }

    // All settings of the next component, "by rising number".
    fn component(&self, work: &mut Work, s: Stage) -> Stage
        requires working { WorkingIn self.now work.old.tree work.old.results }
        requires reached { ReachedIn self.now work.old s × (s.done < self.now.network.lines.now.header.nodes) × (s.setting ≡ 0) }
        ensures reached_after { ReachedIn self.now work.new result × (result.done ≡ s.done + 1) × (result.setting ≡ 0) }
        ensures working { WorkingIn self.now work.new.tree work.new.results }
    {
        let tried = settings_of(self.network.parts.reticulation_count[s.done + 1]);
        let mut stage = s;
        for _ in 0..tried {
            stage = self.step(work, stage);
        }
        finish(&mut work.choices.setting, stage)
    }

    // All components, "by rising top": the count of trials. A component without reticulations has no setting to score.
    fn components(&self, work: &mut Work) -> u32
        requires { WorkingIn self.now work.old.tree work.old.results × (work.old.choices ≡ blank) }
        ensures last { LastIn self.now work.new result }
        ensures working { WorkingIn self.now work.new.tree work.new.results }
    {
        let mut stage = Stage::default();
        for _ in 0..self.network.lines.header.nodes {
            stage = self.component(work, stage);
        }
        stage.count
    }

    // The search: steps until no setting is left, then the switching of the last state's bests, its tree in one table and its genes in another.
    // (Inlined, so that the tables that it copies are known to be apart: called, it asks the C library for `memmove`, which no caller in C was asked for.)
    #[inline(always)]
    pub fn run(&self, work: &mut Work) -> Found
        requires { (work.old.choices ≡ blank) × (work.old.tree ≡ blank_tree) × (work.old.results ≡ blank_results) }
        ensures { SearchedIn self.now work.new result }
    {
        switching::start(self.network, &mut work.tree);
        mapping::seat_leaves(
            self.network.lines.header.genes,
            self.genes,
            &mut work.results,
        );
        let trials = self.components(work);
        let score = self.evaluated(&work.choices.best, &mut work.tree, &mut work.results);
        Found { trials, score }
    }
}
