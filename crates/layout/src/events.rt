// What happens at a gene. An event has a number, which is what a gene's line of the report tells.
ghost use Rattle.std.specs.Prelude.{◌≡◌};
ghost use Rattle.layout.specs.Events.{number};

#[derive(Clone, Copy, PartialEq, Eq, Debug)]
pub enum Event {
    LeafGene = 0,
    Speciation = 1,
    Duplication = 2,
    Transfer = 3,
}

impl Event {
    // A method and no `From`: laws speak of an event's number under this name, and `u32::from` would hide which number it is.
    pub fn number(self) -> u32
        ensures { result ≡ number self }
    {
        self as u32
    }
}
