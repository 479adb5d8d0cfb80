// The driver.
ghost use Rattle.std.specs.Prelude.{◌≡◌};
ghost use Rattle.driver.specs.Driving.{Intact};

use part::outline::Outline;
use port::port::Port;

// A port, and what is known of the chip behind it, which is true of that chip. Only `attach` makes one.
#[derive(Drop)]
pub struct Driver<P: Port> {
    pub(crate) port: P,
    pub(crate) outline: Outline,
    pub ghost intact: { Intact outline (P.Port.chip port) },
}

impl<P: Port> Driver<P> {
    // The port as it stands.
    pub fn release(self) -> P
        ensures { result ≡ self.port }
    {
        let Driver { port, outline: _ } = self;
        port
    }
}
