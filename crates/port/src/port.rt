// The port: a chip behind frames.
ghost use Rattle.std.specs.Prelude.{◌≡◌, ℕ, ◌≤◌, List, [], ◌∷◌, ◌++◌, length, is_ok, if◌then◌else◌, slice_index};
ghost use Rattle.port.specs.Acts.{Acts};
ghost use Rattle.port.specs.Chip.{Chip, Sound};
ghost use Rattle.port.specs.Machine.{Frame, after, answer, frame, verdict};

use crate::fault::PortFault;

// What every port means: a chip, the longest frame that it carries, and which frames led from one state of
// the port to another. A trace can only be shown by making the exchanges, in their order.
pub trait Port {
    ghost chip: { Self → Chip };

    ghost longest: { Self → ℕ };

    ghost trace: { Self → Self → List Frame → Type 0 };

    fn longest_frame(&self) -> usize
        ensures { result ≡ longest self.now };

    // Sends a frame and fills the buffer with the bytes back, as the chip machine does. A frame that is too long
    // is refused, and everything stays. Bit 1 while busy has no rule: it is the one that came back. Nor has the
    // busy count after a cycle: it is the one that the chip then has.
    fn exchange(&mut self, sent: &[u8], back: &mut [u8]) -> Result<(), PortFault>
        ensures result { result ≡ verdict (longest self.old) (frame sent.now (length back.old)) }
        ensures back { back.new ≡ (if is_ok result then answer (slice_index back.new 0) (chip self.old) (frame sent.now (length back.old)) else back.old) }
        ensures chip { chip self.new ≡ (if is_ok result then after (chip self.new).busy (chip self.old) (frame sent.now (length back.old)) else chip self.old) }
        ensures longest { longest self.new ≡ longest self.old }
        ensures trace { trace self.old self.new (if is_ok result then frame sent.now (length back.old) ∷ [] else []) };

    ghost sound: { (s : Self) → Sound (chip s) × (68 ≤ longest s) };

    ghost stays: { (s : Self) → trace s s [] };

    ghost joins: { (a b c : Self) (l m : List Frame) → trace a b l → trace b c m → trace a c (l ++ m) };

    // The frames are what altered the chip: each acts on it as the machine says.
    ghost tells: { (a b : Self) (l : List Frame) → trace a b l → Acts (chip a) l (chip b) };

    // How long a frame may be stays.
    ghost keeps: { (a b : Self) (l : List Frame) → trace a b l → longest b ≡ longest a };
}
