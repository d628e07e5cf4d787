// The verdict on what the nodes of a species network are: refusals 8, 9 and 10, on the lines of the sheet.
#![tactic(auto)]

mod counts;
mod nodes;

ghost use Rattle.std.specs.Prelude.{◌≡◌};
ghost use Rattle.finite.specs.Refusals.{verdict};
ghost use Rattle.layout.specs.Lines.{nodes_of};
ghost use Rattle.refusals.specs.Numbers.{refused};
ghost use Rattle.shapes.specs.Refusals.{shape_refusals};

use layout::lines::Lines;
use nodes::Shapes;
use refusals::Refusal;

// The first refusal of 8, 9 and 10 that applies.
#[tactic(auto, using(finite::proofs::Refusals::verdict_laws), unfolding(crate::specs::Refusals::shape_refusals, crate::specs::Refusals::after_eight))]
pub fn verdict(lines: &Lines) -> Result<(), Refusal>
    ensures { refused result ≡ verdict (shape_refusals (nodes_of lines.now)) }
{
    let counts = counts::counted(lines);
    let shapes = Shapes {
        lines,
        counts: &counts,
    };
    if shapes.eight() {
        return Err(Refusal::BadShape);
    }
    if shapes.nine() {
        return Err(Refusal::BadSpecies);
    }
    if shapes.ten() {
        return Err(Refusal::OnlyReticulations);
    }
    Ok(())
}
