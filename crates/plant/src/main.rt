// The plant's story on our cache: a loader puts a new routine into guest memory, first by a guest write, then behind the cache's back.
// docs/PLANT.md tells it and says which theorem speaks of each step.
#![tactic(auto)]

use answer::Answer;
use cache::Report;
use std::io;

// The Rust's reading, for the store and for each block.
const READING: u64 = 0;

// Where the contactor's routine stands. Its first op loads x10 with 0, hold open, or with 1, close; a return follows.
const ROUTINE: u64 = 0x100;

const HOLD: u64 = 0x0000_0513;

const CLOSE: u64 = 0x0010_0513;

const RETURN: u64 = 0x8082;

// Where a block record has its first op's immediate, which x10 is loaded with.
const LOADED: usize = 24;

// What a notice or a guest write did.
fn reported(rt: &impl Print, call: &str, answer: Answer<Report>) -> io::Result<()> {
    let number = answer::number(&answer);
    let Report { examined, dropped } = cache::reported(answer);
    println!(rt; "  {call}: {number}, slots examined {examined}, blocks dropped {dropped}")
}

// A page of guest memory, and the bytes for a store of four slots over it.
#[derive(Drop)]
struct Plant {
    store: [u8; 4200],
    memory: [u8; 4096],
}

impl Plant {
    fn new() -> Self {
        Self {
            store: [0; 4200],
            memory: [0; 4096],
        }
    }

    // A new store, and the routine that holds the contactor open: formed, inserted and found.
    fn hold(&mut self, rt: &impl Print) -> io::Result<()> {
        let made = cache::make(&mut self.store, READING, 2, 0, 1);
        println!(rt; "  make: {}", answer::number(&made))?;
        self.write(rt, ROUTINE, 4, HOLD)?;
        self.write(rt, ROUTINE + 4, 2, RETURN)?;
        self.lookup(rt)?;
        self.form_and_insert(rt)?;
        self.lookup(rt)
    }

    fn write(&mut self, rt: &impl Print, address: u64, n: u64, value: u64) -> io::Result<()> {
        let answer = write::guest_write(&mut self.store, &mut self.memory, address, n, value);
        reported(rt, "guest write", answer)
    }

    fn notice(&mut self, rt: &impl Print) -> io::Result<()> {
        reported(rt, "notice", cache::notice(&mut self.store, ROUTINE))
    }

    // What x10 is loaded with by the block that a lookup shows.
    fn lookup(&self, rt: &impl Print) -> io::Result<()> {
        let part = cache::lookup(&self.store, ROUTINE);
        if part.len() == 1040 {
            println!(rt;
                "  lookup: hit, x10 = {}",
                bits::doubleword_at(part, LOADED)
            )
        } else {
            let answer = cache::find(&self.store, ROUTINE);
            println!(rt; "  lookup: {}", answer::number(&answer))
        }
    }

    fn form_and_insert(&mut self, rt: &impl Print) -> io::Result<()> {
        let mut record = [0u8; 1040];
        let formed = form::form(READING, &self.memory, 0, ROUTINE, &mut record);
        let x10 = bits::doubleword_at(&record, LOADED);
        println!(rt; "  form: {}, x10 = {x10}", answer::number(&formed))?;
        let inserted = cache::insert(&mut self.store, ROUTINE, &record);
        println!(rt; "  insert: {}", answer::number(&inserted))
    }
}

// The loader writes as the guest does: the old block is gone before the new routine is there.
fn told(rt: &impl Print) -> io::Result<()> {
    println!(rt; "the loader tells the cache")?;
    let mut plant = Plant::new();
    plant.hold(rt)?;
    plant.write(rt, ROUTINE, 4, CLOSE)?;
    plant.lookup(rt)?;
    plant.form_and_insert(rt)?;
    plant.lookup(rt)
}

// The loader changes the bytes and tells nobody: the theorem's premise fails, and the lookup shows the old block. A notice mends it.
fn untold(rt: &impl Print) -> io::Result<()> {
    println!(rt; "the loader tells nobody")?;
    let mut plant = Plant::new();
    plant.hold(rt)?;
    plant.memory[0x102] = 0x10;
    println!(rt; "  memory changed behind the cache's back")?;
    plant.lookup(rt)?;
    plant.notice(rt)?;
    plant.lookup(rt)?;
    plant.form_and_insert(rt)?;
    plant.lookup(rt)
}

fn main(rt: HostRuntime) -> io::Result<()> {
    told(&rt)?;
    untold(&rt)
}
