// Guest memory as a struct that borrows its bytes beside their base, where the Rust has a bus, with two readers and `decode_block` over it. (system_bus.rs; block.rs, `decode_block(bus, pc)`)
#![tactic(auto)]

ghost use Rattle.std.specs.Prelude.{◌≡◌};
ghost use Rattle.form.specs.Call.{form_call};
ghost use Rattle.guest.specs.Guest.{read_halfword, read_word};

use answer::{Answer, Refusal};

#[derive(Clone, Copy)]
pub struct GuestMemory<'a> {
    pub bytes: &'a [u8],
    pub base: u64,
}

impl<'a> GuestMemory<'a> {
    pub fn view(bytes: &'a [u8], base: u64) -> GuestMemory<'a>
        ensures { (result.bytes ≡ bytes.entry) × (result.base ≡ base) }
    {
        GuestMemory { bytes, base }
    }

    // Odd addresses are read too, and so by `word`.
    pub fn halfword(self, address: u64) -> Answer<u64>
        ensures { result ≡ read_halfword self.entry.bytes.now self.entry.base address }
    {
        if block::spans(self.bytes.len() as u64, self.base, address, 2) {
            let at = (address - self.base) as usize;
            return Ok(u64::from(bits::halfword_at(self.bytes, at)));
        }
        Err(Refusal::OutsideMemory)
    }

    pub fn word(self, address: u64) -> Answer<u64>
        ensures { result ≡ read_word self.entry.bytes.now self.entry.base address }
    {
        if block::spans(self.bytes.len() as u64, self.base, address, 4) {
            let at = (address - self.base) as usize;
            return Ok(u64::from(bits::word_at(self.bytes, at)));
        }
        Err(Refusal::OutsideMemory)
    }

    // Forms the block at an address into the lent record, as `form::form` does.
    pub fn decode_block(self, reading: u64, address: u64, lent: &mut [u8]) -> Answer<()>
        ensures { (result, lent.new) ≡ form_call reading self.entry.bytes.now self.entry.base address lent.old }
    {
        form::form(reading, self.bytes, self.base, address, lent)
    }
}
