// The store's lengths and values (docs/FORMATS.md, Values), run through the calls. Each line shows a call's number and value; of a notice, a list of
// them and a write the slots examined and the places dropped.
#![tactic(auto)]

use answer::{Answer, Refusal};
use cache::Report;
use std::io;
use store::Geometry;

// The length that Make asks for.
fn length(rt: &impl Print, e: u64, pages: u64) -> io::Result<()> {
    if store::in_bounds(0, e, 0, pages) {
        println!(rt; "0 {}", Geometry::new(0, e, 0, pages).store_len())
    } else {
        println!(rt; "{} 0", Refusal::BadGeometry.number())
    }
}

// Where the places of two addresses begin: whether they share a slot.
fn share(rt: &impl Print, e: u64, a: u64, b: u64) -> io::Result<()> {
    if store::in_bounds(0, e, 0, 65536) {
        let g = Geometry::new(0, e, 0, 65536);
        println!(rt; "{} {}", g.place(a), g.place(b))?;
    }
    Ok(())
}

fn done(rt: &impl Print, answer: Answer<()>) -> io::Result<()> {
    println!(rt; "{} 0", answer::number(&answer))
}

fn reported(rt: &impl Print, answer: Answer<Report>) -> io::Result<()> {
    let number = answer::number(&answer);
    let Report { examined, dropped } = cache::reported(answer);
    println!(rt; "{number} {examined} {dropped}")
}

// A block of one op, AluImm Add of four bytes.
fn record(address: u64) -> [u8; 1040] {
    let mut r = [0u8; 1040];
    bits::put_doubleword(&mut r, 0, address);
    r[8] = 1;
    r[10] = 4;
    r[16] = 2;
    r[18] = 10;
    r[21] = 4;
    r[24] = 1;
    r
}

// The bytes for a store of four slots over two pages, and these pages.
#[derive(Clone, Copy)]
struct Machine {
    store: [u8; 4200],
    memory: [u8; 8192],
}

impl Machine {
    fn new() -> Self {
        Self {
            store: [0; 4200],
            memory: [0; 8192],
        }
    }

    fn make(&mut self, rt: &impl Print, reading: u64) -> io::Result<()> {
        done(rt, cache::make(&mut self.store, reading, 2, 0, 2))
    }

    fn insert(&mut self, rt: &impl Print, address: u64) -> io::Result<()> {
        done(
            rt,
            cache::insert(&mut self.store, address, &record(address)),
        )
    }

    // The number, and the length of the part that comes back.
    fn lookup(&self, rt: &impl Print, address: u64) -> io::Result<()> {
        let number = answer::number(&cache::find(&self.store, address));
        println!(rt; "{number} {}", cache::lookup(&self.store, address).len())
    }

    fn notice(&mut self, rt: &impl Print, address: u64) -> io::Result<()> {
        reported(rt, cache::notice(&mut self.store, address))
    }

    fn notices(&mut self, rt: &impl Print, addresses: &[u64]) -> io::Result<()> {
        reported(rt, notices::notices(&mut self.store, addresses))
    }

    fn write(&mut self, rt: &impl Print, address: u64, n: u64) -> io::Result<()> {
        let Self { store, memory } = self;
        reported(
            rt,
            write::guest_write(store, memory, address, n, 0x1122_3344_5566_7788),
        )
    }

    fn flush(&mut self, rt: &impl Print) -> io::Result<()> {
        done(rt, cache::flush(&mut self.store))
    }

    fn generation(&self, rt: &impl Print) -> io::Result<()> {
        let answer = cache::generation(&self.store);
        println!(rt; "{} {}", answer::number(&answer), answer::value(answer))
    }
}

// Blocks on both pages; a store at 0xFF8 touches one page, at 0xFF9 both.
fn pages(rt: &impl Print) -> io::Result<()> {
    let mut machine = Machine::new();
    machine.make(rt, 0)?;
    machine.insert(rt, 0)?;
    machine.insert(rt, 0x1002)?;
    machine.write(rt, 0xff8, 8)?;
    machine.lookup(rt, 0)?;
    machine.lookup(rt, 0x1002)?;
    machine.insert(rt, 0)?;
    machine.write(rt, 0xff9, 8)?;
    machine.lookup(rt, 0)?;
    machine.lookup(rt, 0x1002)
}

// An even address and the next share a slot. The bit stays when a block is displaced, and goes with a notice.
fn displaced(rt: &impl Print) -> io::Result<()> {
    let mut machine = Machine::new();
    machine.make(rt, 0)?;
    machine.insert(rt, 0x10)?;
    machine.insert(rt, 0x11)?;
    machine.lookup(rt, 0x10)?;
    machine.lookup(rt, 0x11)?;
    machine.notice(rt, 0xfff)?;
    machine.notice(rt, 0xfff)?;
    machine.lookup(rt, 0x11)?;
    machine.generation(rt)?;
    machine.flush(rt)?;
    machine.generation(rt)
}

// The only block of a page is displaced by another page's: all slots are examined, and none of them has a block to drop.
fn displaced_by_another_page(rt: &impl Print) -> io::Result<()> {
    let mut machine = Machine::new();
    machine.make(rt, 0)?;
    machine.insert(rt, 0x10)?;
    machine.insert(rt, 0x1010)?;
    machine.notice(rt, 0x10)?;
    machine.lookup(rt, 0x1010)?;
    machine.notice(rt, 0x1010)
}

// Lists of notices: a page with a block, one without, the first again; then nothing is left, in another order too. With blocks on both pages an
// empty list, and a list that begins behind memory.
fn lists(rt: &impl Print) -> io::Result<()> {
    let mut machine = Machine::new();
    machine.make(rt, 0)?;
    machine.insert(rt, 0x10)?;
    machine.notices(rt, &[0x10, 0x1000, 0xfff])?;
    machine.notices(rt, &[0x1000, 0xfff, 0x10])?;
    machine.lookup(rt, 0x10)?;
    machine.insert(rt, 0x10)?;
    machine.insert(rt, 0x1012)?;
    machine.notices(rt, &[])?;
    machine.lookup(rt, 0x10)?;
    machine.notices(rt, &[0x2000, 0x1fff, 0xfff])?;
    machine.lookup(rt, 0x10)?;
    machine.lookup(rt, 0x1012)
}

// Outside memory, a wrong size, a write past the end and one at the top of all addresses.
fn refused(rt: &impl Print) -> io::Result<()> {
    let mut machine = Machine::new();
    machine.make(rt, 0)?;
    machine.lookup(rt, 0x2000)?;
    machine.notice(rt, 0x2000)?;
    machine.insert(rt, 0x2000)?;
    machine.write(rt, 0, 3)?;
    machine.write(rt, 0x1ff9, 8)?;
    machine.write(rt, 0xffff_ffff_ffff_ffff, 8)
}

// Bytes that were never made a store, and one byte too few to make one.
fn no_store(rt: &impl Print) -> io::Result<()> {
    let machine = Machine::new();
    machine.generation(rt)?;
    machine.lookup(rt, 0)?;
    done(rt, cache::make(&mut [0; 4199], 0, 2, 0, 2))
}

// A store is made in either reading, and its byte 3 says which; it serves insertions and lookups in both. There is no third.
fn made_in(rt: &impl Print, reading: u64) -> io::Result<()> {
    let mut machine = Machine::new();
    let answer = cache::make(&mut machine.store, reading, 2, 0, 2);
    println!(rt; "{} {}", answer::number(&answer), machine.store[3])?;
    machine.insert(rt, 0x10)?;
    machine.lookup(rt, 0x10)
}

// A store with a block whose byte 3 becomes 2: no call takes it for a store, and each leaves every byte.
fn unknown_reading(rt: &impl Print) -> io::Result<()> {
    let mut machine = Machine::new();
    machine.make(rt, 1)?;
    machine.insert(rt, 0)?;
    machine.store[3] = 2;
    let before = machine.store;
    machine.lookup(rt, 0)?;
    machine.insert(rt, 0)?;
    machine.notice(rt, 0)?;
    machine.notices(rt, &[0, 0x1000])?;
    machine.notices(rt, &[])?;
    machine.flush(rt)?;
    machine.generation(rt)?;
    machine.write(rt, 0, 8)?;
    let same_store = machine.store == before;
    let same_memory = machine.memory.iter().fold(0, |seen, byte| seen | *byte) == 0;
    println!(rt; "{} {}", same_store as u64, same_memory as u64)
}

fn main(rt: HostRuntime) -> io::Result<()> {
    length(&rt, 2, 1)?;
    length(&rt, 14, 65536)?;
    length(&rt, 15, 1)?;
    length(&rt, 2, 0)?;
    share(&rt, 14, 0x100, 0x100 + 32768)?;
    share(&rt, 14, 0x100, 0x101)?;
    share(&rt, 14, 0x100, 0x102)?;
    pages(&rt)?;
    displaced(&rt)?;
    displaced_by_another_page(&rt)?;
    lists(&rt)?;
    refused(&rt)?;
    no_store(&rt)?;
    made_in(&rt, 0)?;
    made_in(&rt, 1)?;
    made_in(&rt, 2)?;
    unknown_reading(&rt)
}
