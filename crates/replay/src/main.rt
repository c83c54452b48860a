// Runs the Rust's own answers again, and the manual's: host/compare wrote them down (`cargo run --release -p compare -- --replay ../crates/replay` in host/), and this
// program needs no Rust. It makes the same calls and prints how many entries it found the same. The input is 16 pages of memory, and then entries of
// 40 bytes; host/compare/src/replay.rs says what they hold.
#![tactic(auto)]

ghost use Rattle.std.specs.Prelude.{◌^◌, ◌<◌};

use answer::Answer;
use cache::Report;
use std::io;

// Where the memory stands.
const BASE: u64 = 0x8000_0000;

// How many calls a run has.
const RUN: u32 = 128;

// A digest that any one changed byte changes: the modulus is a prime, and 257 is below it.
#[derive(Clone, Copy, PartialEq, Eq)]
struct Digest(u32);

impl Digest {
    fn new() -> Self {
        Self(0)
    }

    fn with_byte(self, byte: u8) -> Self {
        Self(((u64::from(self.0) * 257 + u64::from(byte) + 1) % 4_294_967_291) as u32)
    }

    fn with_bytes(self, s: &[u8]) -> Self {
        s.iter().fold(self, |digest, byte| digest.with_byte(*byte))
    }

    // A call's number, and the N bytes that it was lent.
    fn with_call<const N: usize, F: FnOnce(&mut [u8]) -> Answer<()>>(self, call: F) -> Self
        requires callable { F.IsAlwaysCallable call }
        requires fits { N < 2 ^ 63 }
    {
        let mut lent = [170u8; N];
        let answer = call(&mut lent);
        self.with_byte((answer::number(&answer) % 256) as u8)
            .with_bytes(&lent)
    }
}

// What an entry asks for. The first three are runs of calls.
#[derive(Clone, Copy)]
enum Call {
    Halfwords,
    Words,
    Blocks,
    Alu,
    Make,
    Lookup,
    Insert,
    Notice,
    Flush,
    Generation,
    GuestWrite,
    Whole,
    Notices,
}

impl Call {
    fn of_tag(tag: u8) -> Option<Self> {
        match tag {
            0 => Some(Self::Halfwords),
            1 => Some(Self::Words),
            2 => Some(Self::Blocks),
            3 => Some(Self::Alu),
            4 => Some(Self::Make),
            5 => Some(Self::Lookup),
            6 => Some(Self::Insert),
            7 => Some(Self::Notice),
            8 => Some(Self::Flush),
            9 => Some(Self::Generation),
            10 => Some(Self::GuestWrite),
            11 => Some(Self::Whole),
            12 => Some(Self::Notices),
            _ => None,
        }
    }
}

#[derive(Clone, Copy)]
struct Entry {
    call: Option<Call>,
    number: u64,
    small: u64,
    digest: Digest,
    a: u64,
    b: u64,
    value: u64,
    dropped: u64,
}

impl Entry {
    fn parse(s: &[u8; 40]) -> Self {
        Self {
            call: Call::of_tag(s[0]),
            number: u64::from(s[1]),
            small: u64::from(bits::halfword_at(s, 2)),
            digest: Digest(bits::word_at(s, 4)),
            a: bits::doubleword_at(s, 8),
            b: bits::doubleword_at(s, 16),
            value: bits::doubleword_at(s, 24),
            dropped: bits::doubleword_at(s, 32),
        }
    }

    // Reads the next entry, and counts its bytes to the input's digest. Where the input ends early, the rest of the entry is zeros.
    fn read(rt: &impl Input, input: &mut Digest) -> io::Result<Self> {
        let mut s = [0u8; 40];
        let n = lines::read_full(rt, &mut s)?;
        *input = input.with_bytes(&s[..n]);
        Ok(Self::parse(&s))
    }

    // A run's call i: the next halfword.
    fn halfword(self, i: u32, digest: Digest) -> Digest {
        let raw = (self.a.wrapping_add(u64::from(i)) % 0x1_0000) as u16;
        digest.with_call::<16, _>(|lent| decode::decode_halfword(self.small, raw, lent))
    }

    // The next funct7.
    fn word(self, i: u32, digest: Digest) -> Digest {
        let raw = (self.a % 0x200_0000) as u32 | i << 25;
        digest.with_call::<16, _>(|lent| decode::decode_word(self.small, raw, lent))
    }

    // The next address.
    fn block(self, i: u32, digest: Digest, memory: &[u8]) -> Digest {
        let address = self.a.wrapping_add(u64::from(i));
        digest.with_call::<1040, _>(|lent| form::form(self.small, memory, BASE, address, lent))
    }

    // Has a run the entry's digest?
    fn run<F: Fn(u32, Digest) -> Digest>(self, call: F) -> bool
        requires { F.IsAlwaysCallable call }
    {
        let mut digest = Digest::new();
        for i in 0..RUN {
            digest = call(i, digest);
        }
        digest == self.digest
    }

    fn says(self, number: u64, value: u64) -> bool {
        number == self.number && value == self.value
    }

    fn reports(self, answer: Answer<Report>) -> bool {
        let number = answer::number(&answer);
        let Report { examined, dropped } = cache::reported(answer);
        self.says(number, examined) && dropped == self.dropped
    }

    // The addresses of a list: from the first argument on in steps of the second, up to 2^17 behind and then round again.
    fn list(self) -> [u64; 64] {
        std::array::from_fn(|i| {
            let behind = (i as u64).wrapping_mul(self.b) % 0x2_0000;
            self.a.wrapping_add(behind)
        })
    }
}

// Guest memory of 16 pages, and the bytes for a store of 2^8 slots over it.
#[derive(Drop)]
struct Machine {
    memory: [u8; 65536],
    store: [u8; 266_280],
}

impl Machine {
    // Makes an entry's calls. Is the answer the Rust's?
    fn same(&mut self, entry: Entry) -> bool {
        let Some(call) = entry.call else {
            return false;
        };
        match call {
            Call::Halfwords => entry.run(|i, digest| entry.halfword(i, digest)),
            Call::Words => entry.run(|i, digest| entry.word(i, digest)),
            Call::Blocks => entry.run(|i, digest| entry.block(i, digest, &self.memory)),
            Call::Alu => {
                let answer = alu::alu_call(entry.small, entry.a, entry.b);
                entry.says(answer::number(&answer), answer::value(answer))
            }
            Call::Make => self.make(entry),
            Call::Lookup => self.lookup(entry),
            Call::Insert => self.insert(entry),
            Call::Notice => entry.reports(cache::notice(&mut self.store, entry.a)),
            Call::Flush => entry.says(answer::number(&cache::flush(&mut self.store)), 0),
            Call::Generation => {
                let answer = cache::generation(&self.store);
                entry.says(answer::number(&answer), answer::value(answer))
            }
            Call::GuestWrite => self.guest_write(entry),
            Call::Whole => self.digest() == entry.digest,
            Call::Notices => self.notices(entry),
        }
    }

    // A new store, in the reading that the entry has for a value.
    fn make(&mut self, entry: Entry) -> bool {
        let answer = cache::make(&mut self.store, entry.value, entry.small, entry.a, entry.b);
        answer::number(&answer) == entry.number
    }

    fn lookup(&self, entry: Entry) -> bool {
        let answer = cache::find(&self.store, entry.a);
        let part = cache::lookup(&self.store, entry.a);
        entry.says(answer::number(&answer), cache::value(answer))
            && Digest::new().with_bytes(part) == entry.digest
    }

    // Forms a block and inserts it.
    fn insert(&mut self, entry: Entry) -> bool {
        let mut record = [0u8; 1040];
        let _ = form::form(entry.small, &self.memory, BASE, entry.a, &mut record);
        let answer = cache::insert(&mut self.store, entry.a, &record);
        entry.says(answer::number(&answer), 0)
    }

    fn guest_write(&mut self, entry: Entry) -> bool {
        let Self { memory, store } = self;
        entry.reports(write::guest_write(store, memory, entry.a, entry.small, entry.b))
    }

    fn notices(&mut self, entry: Entry) -> bool {
        let list = entry.list();
        match list.get(..entry.small as usize) {
            Some(addresses) => entry.reports(notices::notices(&mut self.store, addresses)),
            None => false,
        }
    }

    // Of every byte of store and memory.
    fn digest(&self) -> Digest {
        Digest::new()
            .with_bytes(&self.store)
            .with_bytes(&self.memory)
    }

    // Replays the next entries of the input.
    fn replay(
        &mut self,
        rt: &(impl Input + Print),
        input: &mut Digest,
        name: &str,
        entries: u64,
    ) -> io::Result<()> {
        let mut good: u64 = 0;
        for _i in 0..entries {
            let entry = Entry::read(rt, input)?;
            if self.same(entry) {
                good += 1;
            }
        }
        println!(rt; "{name} {good} of {entries}")
    }
}

fn main(rt: HostRuntime) -> io::Result<()> {
    let mut machine = Machine {
        memory: [0; 65536],
        store: [0; 266_280],
    };
    let n = lines::read_full(&rt, &mut machine.memory)?;
    let mut input = Digest::new().with_bytes(&machine.memory[..n]);
    machine.replay(&rt, &mut input, "halfwords", 1025)?;
    machine.replay(&rt, &mut input, "words", 2305)?;
    machine.replay(&rt, &mut input, "blocks", 193)?;
    machine.replay(&rt, &mut input, "alu", 1098)?;
    machine.replay(&rt, &mut input, "cache", 1951)?;
    // Any one byte that was changed, left out or added changes this.
    Entry::read(&rt, &mut input)?;
    println!(rt; "input {}", input.0)
}
