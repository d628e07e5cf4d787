// Refusals 6 and 7: the parents and the stamps.
ghost use Rattle.std.specs.Prelude.{◌≡◌, false, ◌≤◌};
ghost use Rattle.finite.specs.Range.{any};
ghost use Rattle.finite.specs.Tables.{at};
ghost use Rattle.layout.specs.Lines.{nodes_of};
ghost use Rattle.network.specs.Refusals.{bad_parents, bad_parents_at, refusal6, bad_stamps, bad_stamps_at, refusal7};

use layout::lines::Lines;
use tables::{Column, count_of};

// The parents of a node.
#[derive(Clone, Copy)]
struct Parents {
    principal: usize,
    secondary: usize,
}

impl Parents {
    // 6: of node v of n.
    #[tactic(auto, unfolding(crate::specs::Refusals::bad_parents, finite::specs::Tests::same, finite::specs::Tests::under))]
    fn bad(self, n: usize, v: usize) -> bool
        ensures { result ≡ bad_parents n self.principal self.secondary v }
    {
        let p = self.principal;
        let s = self.secondary;
        n < p || n < s || p == v || s == v || (p == 0 && s != 0)
    }

    // 7: of node v, by the stamps of all nodes.
    #[tactic(auto, unfolding(crate::specs::Refusals::bad_stamps, finite::specs::Tests::same, finite::specs::Tests::under))]
    fn badly_stamped(self, stamp: &Column, v: usize) -> bool
        requires { (self.principal ≤ 127) × (self.secondary ≤ 127) × (v ≤ 127) }
        ensures { result ≡ bad_stamps self.principal self.secondary (at stamp.now self.principal) (at stamp.now self.secondary) (at stamp.now v) }
    {
        let p = self.principal;
        let s = self.secondary;
        let t = stamp[v];
        (p != 0 && stamp[p] >= t) || (s != 0 && stamp[s] != t)
    }
}

// Those of node v.
fn parents_of(lines: &Lines, v: usize) -> Parents
    requires { v ≤ 127 }
    ensures { (result.principal ≡ at lines.now.nodes.principal v) × (result.secondary ≡ at lines.now.nodes.secondary v) }
{
    Parents {
        principal: lines.nodes.principal[v] as usize,
        secondary: lines.nodes.secondary[v] as usize,
    }
}

// Whether some node has bad parents.
fn some_bad_parents(lines: &Lines) -> bool
    ensures { result ≡ any lines.now.header.nodes (bad_parents_at (nodes_of lines.now)) }
{
    let n = lines.header.nodes;
    (1..n + 1).any(|v| parents_of(lines, v).bad(n, v))
}

// 6.
#[tactic(auto, using(crate::proofs::AsRead::roots_read), unfolding(crate::specs::Refusals::refusal6, layout::specs::Lines::nodes_in, finite::specs::Tests::same))]
pub fn six(lines: &Lines) -> bool
    ensures { result ≡ refusal6 (nodes_of lines.now) }
{
    some_bad_parents(lines) || count_of(lines.header.nodes, &lines.nodes.principal, 0) != 1
}

// 7: of one node. Its parents are nodes: 6 has passed.
#[tactic(auto, using(crate::proofs::AsRead::principal_low, crate::proofs::AsRead::secondary_low, crate::proofs::AsRead::stamps_read))]
fn bad_stamps_at(lines: &Lines, v: usize) -> bool
    requires node { (1 ≤ v) × (v ≤ lines.now.header.nodes) }
    requires parents { refusal6 (nodes_of lines.now) ≡ false }
    ensures { result ≡ bad_stamps_at (nodes_of lines.now) v }
{
    parents_of(lines, v).badly_stamped(&lines.nodes.stamp, v)
}

// 7.
pub fn seven(lines: &Lines) -> bool
    requires { refusal6 (nodes_of lines.now) ≡ false }
    ensures { result ≡ refusal7 (nodes_of lines.now) }
{
    (1..lines.header.nodes + 1).any(|v| bad_stamps_at(lines, v))
}
