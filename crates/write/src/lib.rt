// A guest's write to its memory, with the notices that the cache needs.
#![tactic(auto)]

ghost use Rattle.std.specs.Prelude.{◌≡◌, ◌+◌, ◌≤◌, length};
ghost use Rattle.bits.specs.Bytes.{le, patch};
ghost use Rattle.store.specs.Layout.{opened, Fitting};
ghost use Rattle.write.specs.Write.{good_size, write_judged, noticed_pages, report_pages, write_call};

use answer::{Answer, Refusal};
use block::PAGE;
use cache::Report;
use store::Geometry;

fn good_size(n: u64) -> bool
    ensures { result ≡ good_size n }
{
    matches!(n, 1 | 2 | 4 | 8)
}

fn judge_write(store: &[u8], len: usize, address: u64, n: u64) -> Answer<Geometry>
    ensures { result ≡ write_judged (opened store.now) len address n }
{
    let g = store::open(store).ok_or(Refusal::NoStore)?;
    if len as u64 != PAGE * g.pages {
        return Err(Refusal::BadGeometry);
    }
    if good_size(n) {
        if block::spans(PAGE * g.pages, g.base, address, n) {
            Ok(g)
        } else {
            Err(Refusal::OutsideMemory)
        }
    } else {
        Err(Refusal::WrongWriteSize)
    }
}

// A notice for the page of the first byte, and one for that of the last where it is another.
fn notice_pages(store: &mut [u8], g: Geometry, address: u64, last: u64) -> Report
    requires { Fitting g store.old }
    ensures { (result ≡ report_pages g store.old address last) × (store.new ≡ noticed_pages g store.old address last) }
{
    let first = cache::notice_in(store, g, address);
    if address / PAGE == last / PAGE {
        return first;
    }
    cache::sum(first, cache::notice_in(store, g, last))
}

// The n low bytes of the value.
fn put_low(memory: &mut [u8], at: usize, n: usize, value: u64)
    requires { (n ≤ 8) × (at + n ≤ length memory.old) }
    ensures { memory.new ≡ patch memory.old at (le n value) }
{
    let bytes = value.to_le_bytes();
    memory[at..at + n].copy_from_slice(&bytes[..n]);
}

// Writes n bytes of the guest's memory, with a notice for each page touched.
pub fn guest_write(
    store: &mut [u8],
    memory: &mut [u8],
    address: u64,
    n: u64,
    value: u64,
) -> Answer<Report>
    ensures { (result, store.new, memory.new) ≡ write_call store.old memory.old address n value }
{
    let g = judge_write(store, memory.len(), address, n)?;
    let report = notice_pages(store, g, address, address + n - 1);
    put_low(memory, (address - g.base) as usize, n as usize, value);
    Ok(report)
}
