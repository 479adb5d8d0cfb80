// A bus of two ports, of which one is used.
ghost use Rattle.std.specs.Prelude.{◌≡◌, min};
ghost use Rattle.std.proofs.Common.{◌∙◌, ap, ap₂, rules, sym};
ghost use Rattle.port.specs.Bus.{OnSide, by_side};
ghost use Rattle.port.specs.Joins.{of_side, on_side, side_acts};

use crate::fault::{PortFault, check_length};
use crate::port::Port;

#[derive(Clone, Copy, PartialEq, Eq, Debug)]
pub enum Side {
    First,
    Second,
}

// It means the port on the chosen side. The other one is never spoken to.
#[derive(Drop)]
pub struct Bus<L, R> {
    pub(crate) first: L,
    pub(crate) second: R,
    pub(crate) chosen: Side,
}

impl<L, R> Bus<L, R> {
    pub fn new(first: L, second: R, chosen: Side) -> Bus<L, R>
        ensures { (result.first ≡ first) × (result.second ≡ second) × (result.chosen ≡ chosen) }
    {
        Bus {
            first,
            second,
            chosen,
        }
    }

    pub fn release(self) -> (L, R)
        ensures { (result.0 ≡ self.first) × (result.1 ≡ self.second) }
    {
        (self.first, self.second)
    }
}

impl<L: Port, R: Port> Port for Bus<L, R> {
    ghost chip = { λ b. by_side b.chosen (L.Port.chip b.first) (R.Port.chip b.second) };

    ghost longest = { λ b. min (L.Port.longest b.first) (R.Port.longest b.second) };

    ghost trace = { λ a b l. (a.chosen ≡ b.chosen) × OnSide a.chosen ((a.second ≡ b.second) × L.Port.trace a.first b.first l) ((a.first ≡ b.first) × R.Port.trace a.second b.second l) };

    ghost sound = { Prim.search rules };

    ghost stays = { Prim.search rules };

    ghost joins = { λ a b c l m p q. (
      p.0 ∙ q.0,
      on_side a.chosen b.chosen p.0 p.1 q.1
          (λ x y. (x.0 ∙ y.0, L.Port.joins _ _ _ _ _ x.1 y.1))
          (λ x y. (x.0 ∙ y.0, R.Port.joins _ _ _ _ _ x.1 y.1)),
    ) };

    ghost tells = { λ a b l p. side_acts a.chosen b.chosen p.0 p.1 (λ x. L.Port.tells _ _ _ x.1) (λ x. R.Port.tells _ _ _ x.1) };

    ghost keeps = { λ a b l p. of_side a.chosen p.1
        (λ x. ap₂ min (L.Port.keeps _ _ _ x.1) (sym (ap R.Port.longest x.0)))
        (λ x. ap₂ min (sym (ap L.Port.longest x.0)) (R.Port.keeps _ _ _ x.1)) };

    fn longest_frame(&self) -> usize {
        self.first.longest_frame().min(self.second.longest_frame())
    }

    fn exchange(&mut self, sent: &[u8], back: &mut [u8]) -> Result<(), PortFault> {
        check_length(self.longest_frame(), sent.len(), back.len())?;
        match self.chosen {
            Side::First => self.first.exchange(sent, back),
            Side::Second => self.second.exchange(sent, back),
        }
    }
}
