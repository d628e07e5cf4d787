// A network that passed 6 to 10, and its components: what later passes ask of it, as ghost fields. (Their own file, as a ghost field may cite nothing that
// names the struct.)
ghost use Rattle.topology.specs.Networks.{Sound};
ghost use Rattle.layout.specs.Lines.{network_of};
ghost use Rattle.layout.specs.inner.Parts.{Parted};
ghost use Rattle.layout.specs.inner.Props.{sound_prop};

use crate::lines::Lines;
use crate::parts::Parts;

// The lines of a sheet whose network is sound.
// (That a sound network is so in one way at most is proved, since it names the root: specs/inner/Props.)
#[derive(Clone, Copy)]
pub struct SoundNetwork<'a> {
    pub lines: &'a Lines,
    ghost sound: { Sound (network_of lines.now) } by { sound_prop (network_of lines.now) },
}

// And with its parts. (It holds no `SoundNetwork`: each promise would read `network.network.lines` where it reads `network.lines`.)
#[derive(Clone, Copy)]
pub struct PartedNetwork<'a> {
    pub lines: &'a Lines,
    pub parts: &'a Parts,
    ghost sound: { Sound (network_of lines.now) } by { sound_prop (network_of lines.now) },
    ghost parted: { Parted (network_of lines.now) parts.now },
}
