// The bench chip's answers and its acts.
ghost use Rattle.std.specs.Prelude.{◌≡◌, ℕ, true, List, length};
ghost use Rattle.memory.specs.Cycle.{cycle_of};
ghost use Rattle.memory.specs.Image.{bytes_of};
ghost use Rattle.port.specs.Asks.{Within, identify, said};
ghost use Rattle.port.specs.Machine.{act, reply, shown, takes};
ghost use Rattle.port.specs.Bench.{chip_of};

use crate::bench::BenchChip;
use crate::order::Order;
use memory::bytes::fill;
use memory::kind::Kind;
use memory::protection::{WEL, WIP};

const MAKER: u8 = 0x20;

const MEMORY_TYPE: u8 = 0xDA;

impl BenchChip {
    // Bit 1 shows 0 while busy.
    fn status_byte(&self) -> u8
        ensures { result ≡ shown 0 (chip_of self.now) }
    {
        if self.busy > 0 {
            self.status.bits + WIP
        } else if self.latch {
            self.status.bits + WEL
        } else {
            self.status.bits
        }
    }

    // The first bytes of the identification, as many as are wanted. `decode` takes no frame that wants more than three; then FFh.
    fn identify(&self, back: &mut [u8])
        ensures { back.new ≡ reply 0 (chip_of self.now) identify (length back.old) }
    {
        let n = back.len();
        if n > 3 {
            fill(back, 0xFF);
        } else {
            let id = [MAKER, MEMORY_TYPE, self.capacity];
            back.copy_from_slice(&id[0..n]);
        }
    }

    // The bytes back.
    pub(crate) fn reply(&self, order: Order, back: &mut [u8])
        ensures { back.new ≡ reply 0 (chip_of self.now) (said order.entry) (length back.old) }
    {
        match order {
            Order::Status => fill(back, self.status_byte()),
            Order::Identify => self.identify(back),
            Order::Read(address) => self.image.read(address, back),
            Order::Enable | Order::Disable | Order::Cycle { .. } | Order::Unknown => fill(
                back, 0xFF,
            ),
        }
    }

    // If the chip carries out the cycle, whatever data it is sent.
    fn takes(&self, kind: Kind, address: usize) -> bool
        ensures { (sent : List ℕ) → result ≡ takes (chip_of self.now) (cycle_of kind address sent) }
    {
        self.latch
            && self.status.permits(self.image.geometry, kind, address)
            && (kind != Kind::Preset || self.image.is_page_blank(address))
    }

    // What the order does to the chip.
    pub(crate) fn act(&mut self, order: Order)
        requires { Within (length (bytes_of self.old.image)) (said order) }
        ensures number { self.new.busy_number ≡ self.old.busy_number }
        ensures chip { chip_of self.new ≡ act self.old.busy_number (chip_of self.old) (said order.entry) }
    {
        match order {
            Order::Enable => self.latch = true,
            Order::Disable => self.latch = false,
            Order::Status => self.busy = self.busy.saturating_sub(1),
            Order::Cycle {
                kind,
                address,
                data,
            } => {
                if self.takes(kind, address) {
                    self.image.carry(kind, address, data);
                    self.latch = false;
                    self.busy = self.busy_number;
                }
            }
            Order::Identify | Order::Read(_) | Order::Unknown => {}
        }
    }
}
