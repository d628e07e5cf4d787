// What is counted once for the refusals 8, 9 and 10: the arcs out of each node, and the nodes of each species.
ghost use Rattle.std.specs.Prelude.{◌≡◌, ◌≤◌};
ghost use Rattle.finite.specs.Tables.{at};
ghost use Rattle.layout.specs.Lines.{nodes_of};
ghost use Rattle.shapes.specs.inner.ShortForms.{plain_parent};
ghost use Rattle.shapes.specs.inner.Counts.{Counted};

use layout::lines::Lines;
use tables::{Column, ZEROS, child_counts, fill};

#[derive(Clone, Copy)]
pub struct Counts {
    // Of each node the principal arcs out of it, the secondary ones, and those that lead to no reticulation.
    pub principals: Column,
    pub secondaries: Column,
    pub plains: Column,
    // Of each number up to n the nodes whose species it is.
    pub bearers: Column,
}

// The principal parent of a node that is no reticulation, else 0.
#[tactic(auto, unfolding(crate::specs::inner::ShortForms::plain_parent, finite::specs::Tests::same))]
fn plain_parent(lines: &Lines, v: usize) -> u32
    requires { v ≤ 127 }
    ensures { result ≡ plain_parent (at lines.now.nodes.principal v) (at lines.now.nodes.secondary v) }
{
    if lines.nodes.secondary[v] == 0 {
        lines.nodes.principal[v]
    } else {
        0
    }
}

// All the counts. The arcs that lead to no reticulation are all principal: they are counted by the parents of the nodes that are none.
#[tactic(auto, unfolding(finite::specs::Tables::zeros))]
pub fn counted(lines: &Lines) -> Counts
    ensures { Counted (nodes_of lines.now) result }
{
    let n = lines.header.nodes;
    let mut counts = Counts {
        principals: ZEROS,
        secondaries: ZEROS,
        plains: ZEROS,
        bearers: ZEROS,
    };
    child_counts(n, &lines.nodes.principal, &mut counts.principals);
    child_counts(n, &lines.nodes.secondary, &mut counts.secondaries);
    child_counts(n, &lines.nodes.species, &mut counts.bearers);
    let mut plain = ZEROS;
    fill(n, |v| plain_parent(lines, v), &mut plain);
    child_counts(n, &plain, &mut counts.plains);
    counts
}
