// How large a part is, and what lies inside.
ghost use Rattle.std.specs.Prelude.{◌≡◌};
ghost use Rattle.memory.specs.Shape.{size};
ghost use Rattle.part.specs.Verdict.{within};

use crate::part::Part;
use memory::kind::Kind;
pub use memory::range::is_inside;

// How many bytes the part has. No method of the trait: no part has another way to say it.
pub fn size_of<P: Part>(part: &P) -> usize
    ensures { result ≡ size (P.Part.meaning part.now).shape }
{
    part.geometry().size()
}

// Whether a cycle's address is among so many: a bulk erase has none.
pub fn is_within(size: usize, kind: Kind, address: usize) -> bool
    ensures { result ≡ within size kind address }
{
    !kind.has_address() || address < size
}
