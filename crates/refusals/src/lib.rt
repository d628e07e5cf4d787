// Why a family is refused, by number; each call says in which order it checks. A refusal's number is what a caller in C and the program's line tell.
#![tactic(auto)]

ghost use Rattle.std.specs.Prelude.{◌≡◌};
ghost use Rattle.refusals.specs.Numbers.{number};

#[derive(Clone, Copy, PartialEq, Eq, Debug)]
pub enum Refusal {
    // The calling program: a scratch or a result that is too short.
    ShortScratch = 1,
    ShortResult = 2,
    // The typist: no header line, a number of the header beyond its limits, the other lines.
    NoHeader = 3,
    BeyondLimits = 4,
    BadLines = 5,
    // The network's curator: parents, stamps, what a node is, species, a node with reticulations alone below it, a component with too many.
    BadParents = 6,
    BadStamps = 7,
    BadShape = 8,
    BadSpecies = 9,
    OnlyReticulations = 10,
    CrowdedComponent = 11,
    // The gene tree's curator: parents and children, species.
    BadGeneTree = 12,
    BadGeneSpecies = 13,
    // The gene tree's curator, of a tree as Newick text: outside the grammar; too long, or of too many genes.
    OutsideGrammar = 14,
    LargeGeneTree = 15,
}

impl Refusal {
    // A method and no `From`: laws speak of a refusal's number under this name, and `u32::from` would hide which number it is.
    pub fn number(self) -> u32
        ensures { result ≡ number self }
    {
        self as u32
    }
}
