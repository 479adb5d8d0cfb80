// The bench chip is a port.
ghost use Rattle.std.specs.Prelude.{◌≡◌, ℕ, [], ◌∷◌, length, is_ok, if◌then◌else◌, refl, slice_index};
ghost use Rattle.std.proofs.Common.{◌∙◌, sym, ap, subst, lit≤};
ghost use Rattle.port.specs.Machine.{Runs, after, answer, frame, verdict, none};
ghost use Rattle.port.specs.Bench.{chip_of};
ghost use Rattle.memory.specs.Shape.{size};
ghost use Rattle.memory.specs.Models.{shape_for};
ghost use Rattle.port.specs.Joins.{runs-++, runs_act};

use crate::bench::BenchChip;
use crate::decode::{decode, hear};
use crate::fault::{PortFault, check_length};
use crate::port::Port;

const LONGEST: usize = 320;

impl BenchChip {
    // As `exchange`, with more said: bit 1 shows 0 while the chip is busy, and a cycle sets the busy count to the number chosen at
    // making.
    pub fn transfer(&mut self, sent: &[u8], back: &mut [u8]) -> Result<(), PortFault>
        ensures result { result ≡ verdict 320 (frame sent.now (length back.old)) }
        ensures back { back.new ≡ (if is_ok result then answer 0 (chip_of self.old) (frame sent.now (length back.old)) else back.old) }
        ensures chip { chip_of self.new ≡ (if is_ok result then after self.old.busy_number (chip_of self.old) (frame sent.now (length back.old)) else chip_of self.old) }
        ensures number { self.new.busy_number ≡ self.old.busy_number }
    {
        check_length(LONGEST, sent.len(), back.len())?;
        let order = hear(self.busy, self.image.len(), decode(sent, back.len()));
        self.reply(order, back);
        self.act(order);
        Ok(())
    }
}

impl Port for BenchChip {
    ghost chip = { chip_of };

    ghost longest = { λ _. 320 };

    // A cycle sets the busy count to the number chosen at making.
    ghost trace = { λ a b l. Runs a.busy_number (chip_of a) l (chip_of b) × (a.busy_number ≡ b.busy_number) };

    ghost sound = { λ s.
        let w : length s.image.bytes.items ≡ size (shape_for s.capacity) =
        let v = s.image.bytes.ok.0 in
        let i = s.image.sized in
        let x = ap size s.fitted in cc in
        (record { known = s.known; imaged = record { whole = w; bytes = s.image.byte }; steady = s.status.steady; byte = s.status.byte }, lit≤ tt) };

    ghost stays = { λ s. (none, refl) };

    ghost joins = { λ a b c l m p q.
        let P : ℕ → Type 0 = λ k. Runs k (chip_of b) m (chip_of c) in
        (runs-++ p.0 (subst P (sym p.1) q.0), p.1 ∙ q.1) };

    ghost tells = { λ a b l p. runs_act p.0 };

    ghost keeps = { λ a b l p. refl };

    fn longest_frame(&self) -> usize {
        LONGEST
    }

    // The trait's clauses, without `longest`, which is a constant here, and one more, `bench`: bit 1 shows 0 while busy.
    fn exchange(&mut self, sent: &[u8], back: &mut [u8]) -> Result<(), PortFault>
        ensures result { result ≡ verdict 320 (frame sent.now (length back.old)) }
        ensures back { back.new ≡ (if is_ok result then answer (slice_index back.new 0) (chip_of self.old) (frame sent.now (length back.old)) else back.old) }
        ensures chip { chip_of self.new ≡ (if is_ok result then after (chip_of self.new).busy (chip_of self.old) (frame sent.now (length back.old)) else chip_of self.old) }
        ensures trace { Runs self.old.busy_number (chip_of self.old) (if is_ok result then frame sent.now (length back.old) ∷ [] else []) (chip_of self.new) × (self.old.busy_number ≡ self.new.busy_number) }
        ensures bench { back.new ≡ (if is_ok result then answer 0 (chip_of self.old) (frame sent.now (length back.old)) else back.old) }
    {
        self.transfer(sent, back)
    }
}
