// The verdict on a species network: refusals 6 to 10, on the lines of the sheet.
#![tactic(auto)]

mod parents;

ghost use Rattle.std.specs.Prelude.{◌≡◌};
ghost use Rattle.finite.specs.Refusals.{verdict};
ghost use Rattle.layout.specs.Lines.{nodes_of};
ghost use Rattle.refusals.specs.Numbers.{refused};
ghost use Rattle.network.specs.Refusals.{network_refusals};

use layout::lines::Lines;
use parents::{seven, six};
use refusals::Refusal;

// The first refusal of 6 to 10 that applies. 7 reads the stamps of the parents: 6 has passed, so they are nodes.
#[tactic(auto, using(finite::proofs::Refusals::verdict_laws), unfolding(crate::specs::Refusals::network_refusals, crate::specs::Refusals::after_six))]
pub fn verdict(lines: &Lines) -> Result<(), Refusal>
    ensures { refused result ≡ verdict (network_refusals (nodes_of lines.now)) }
{
    if six(lines) {
        return Err(Refusal::BadParents);
    }
    if seven(lines) {
        return Err(Refusal::BadStamps);
    }
    shapes::verdict(lines)
}
