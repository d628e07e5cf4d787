// Columns, of which entry v is about the number v and entry 0 about none: filled from a rule, and what one pass over the numbers 1 to n finds in a column
// of their parents. Any parents will do, for what is no number of 1 to n has no children. A test as a number is here too, for what counts.
#![tactic(auto)]

ghost use Rattle.std.specs.Prelude.{◌≡◌, not, ℕ, ◌≤◌};
ghost use Rattle.finite.specs.Tests.{same, tally};
ghost use Rattle.finite.specs.Range.{count, children};
ghost use Rattle.finite.specs.Tables.{at, zeros, filled};
ghost use Rattle.tables.specs.Children.{next, inside, inside_after, one_more};

// As many nodes and as many genes as a sheet has at most.
pub const MOST: usize = 127;

// One entry for each of them, and entry 0 for none.
pub const ENTRIES: usize = MOST + 1;

// Of a fixed length, for nothing is allocated in a call. An entry 0 is none, for no node and no gene has the number 0; the definitions have it so, and an
// Option would be told apart at each reading. How far a column is filled is a number n, which comes with each call; a type for it, as for a number of a node
// or a gene, would be made for the call and taken apart in it, here and where n is handed on. (Its zeros have a name, as Rust has no `Default` for more than
// 32 entries.)
pub type Column = [u32; ENTRIES];

pub type Flags = [bool; ENTRIES];

pub const ZEROS: Column = [0; ENTRIES];

pub const UNSET: Flags = [false; ENTRIES];

// What the closure gives for the numbers 1 to n. (Here and below a column is lent: with columns returned each is copied, a typical call takes 7 % longer and
// comes to the bar of 0.95, and that of one gene or of 15 nodes goes above 1: docs/DESIGN-PASS.md.)
pub fn fill<F: Fn(usize) -> u32>(n: usize, f: F, out: &mut Column)
    requires few { n ≤ 127 }
    requires callable { (v : ℕ) → 1 ≤ v → v ≤ n → F.pre f v }
    ensures { (g : ℕ → ℕ) → ((v r : ℕ) → 1 ≤ v → v ≤ n → F.post f v r → r ≡ g v) → out.new ≡ filled n out.old g }
{
    for v in 1..=n {
        out[v] = f(v);
    }
}

// The parent p where it is one of 1 to n, else 0: entry 0 takes what no other entry does, and is cleared at the end.
fn slot(n: usize, p: usize) -> usize
    ensures { (result ≡ inside n p) × (result ≤ n) }
{
    if n < p {
        return 0;
    }
    p
}

// The same where child w is above what `after` has for p, else 0.
fn slot_after(n: usize, after: &Column, p: usize, w: usize) -> usize
    requires { n ≤ 127 }
    ensures { (result ≡ inside_after n (at after.now) p w) × (result ≤ n) }
{
    let q = slot(n, p);
    if w <= after[q] as usize {
        return 0;
    }
    q
}

// The lowest child of each that is above what `after` has for it, 0 where there is none; where `after` has zeros, the lowest child. From the highest child
// down, the last one written is the lowest.
pub fn next_children(n: usize, parents: &Column, after: &Column, out: &mut Column)
    requires { (n ≤ 127) × (out.old ≡ zeros) }
    ensures { out.new ≡ filled n zeros (λ v. next n (at parents.now) (at after.now v) v) }
{
    for w in (1..=n).rev() {
        let q = slot_after(n, after, parents[w] as usize, w);
        out[q] = w as u32;
    }
    out[0] = 0;
}

// One child more at the parent p.
fn count_at(n: usize, p: usize, out: &mut Column)
    requires { (n ≤ 127) × (at out.old (inside n p) ≤ 127) }
    ensures { out.new ≡ one_more n out.old p }
{
    out[slot(n, p)] += 1;
}

// How many children each has.
pub fn child_counts(n: usize, parents: &Column, out: &mut Column)
    requires { (n ≤ 127) × (out.old ≡ zeros) }
    ensures { out.new ≡ filled n zeros (children n (at parents.now)) }
{
    for v in 1..=n {
        count_at(n, parents[v] as usize, out);
    }
    out[0] = 0;
}

// 1 where two numbers are the same, else 0: the library's conversion, under the name by which a definition (`tally`) is told.
#[tactic(auto, unfolding(finite::specs::Tests::same))]
pub fn one_if(a: u32, b: u32) -> u32
    ensures { (result ≡ tally (same a b)) × (result ≤ 1) }
{
    u32::from(a == b)
}

// How many children x has, which may be any number: 0 too, which stands for no parent. (A loop, which the compiler takes several entries at a time: with
// `filter` and `count` over the same entries a sheet of 63 nodes and one gene takes 7 % longer.)
pub fn count_of(n: usize, parents: &Column, x: usize) -> u32
    requires { n ≤ 127 }
    ensures { (result ≡ children n (at parents.now) x) × (result ≤ n) }
{
    // No entry is so large.
    let Ok(x) = u32::try_from(x) else {
        return 0;
    };
    let mut count = 0;
    for p in &parents[1..=n] {
        count += one_if(*p, x);
    }
    count
}

// How many of 1 to n have something in a column, where 0 is nothing. (`1..n + 1`: an inclusive range is slower, see crate finite, proofs/Upto.)
pub fn count_some(n: usize, column: &Column) -> u32
    requires { n ≤ 127 }
    ensures { result ≡ count n (λ v. not (same (at column.now v) 0)) }
{
    (1..n + 1).filter(|v| column[*v] != 0).count() as u32
}
