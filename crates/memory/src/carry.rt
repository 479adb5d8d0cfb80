// An image read and altered.
ghost use Rattle.std.specs.Prelude.{◌≡◌, ◌/◌, length};
ghost use Rattle.memory.specs.Page.{blank, page};
ghost use Rattle.memory.specs.Cycle.{cycle_of};
ghost use Rattle.memory.specs.Image.{bytes_of, carried, rolled, shape_of};

use crate::bytes::{fill, is_blank, roll};
use crate::image::Image;
use crate::kind::Kind;
use crate::model::{PAGE_BYTES, page_start};
use crate::page::{erase, write};

impl Image {
    pub fn len(&self) -> usize
        ensures { result ≡ length (bytes_of self.now) }
    {
        self.bytes.len()
    }

    // Fills the buffer from an address on, which counts modulo the length: reading rolls over after the last byte.
    pub fn read(&self, address: usize, into: &mut [u8])
        ensures { into.new ≡ rolled (bytes_of self.now) address (length into.old) }
    {
        roll(&self.bytes, address, into);
    }

    // If the page that holds the address is wholly FFh. Past the end there is no page, and so no byte that is not.
    pub fn is_page_blank(&self, address: usize) -> bool
        ensures { result ≡ blank (page 64 (address / 64) (bytes_of self.now)) }
    {
        if address >= self.bytes.len() {
            return true;
        }
        let start = page_start(address);
        let bytes = self.bytes.as_slice();
        is_blank(&bytes[start..start + PAGE_BYTES])
    }

    // Carries out a cycle. Past the end it does nothing; an erase ignores its data, a bulk erase its address too.
    pub fn carry(&mut self, kind: Kind, address: usize, sent: &[u8])
        ensures shape { shape_of self.new ≡ shape_of self.old }
        ensures bytes { bytes_of self.new ≡ carried (shape_of self.old) (cycle_of kind address sent.now) (bytes_of self.old) }
    {
        match kind {
            Kind::BulkErase => fill(&mut self.bytes, 0xFF),
            _ if address >= self.bytes.len() => {}
            Kind::SectorErase => {
                let sector = self.geometry.sector_of(address);
                let pages = self.geometry.pages;
                erase(
                    &mut self.bytes,
                    sector * pages * PAGE_BYTES,
                    pages * PAGE_BYTES,
                );
            }
            Kind::Program | Kind::Alter | Kind::Preset => write(
                kind,
                &mut self.bytes,
                address,
                sent,
            ),
        }
    }
}
