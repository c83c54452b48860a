// The values on forming (docs/FORMATS.md, Values), through the public call, with listings of small pages in both readings, and at the end three of one
// input in the Rust's. A line of six numbers: the number, the record's address, count, byte_len, and the first op's number and kind. A record starts as 170s.
#![tactic(auto)]

use std::io;

// The readings, and a number that is none.
const RUST: u64 = 0;

const MANUAL: u64 = 1;

const NONE: u64 = 2;

fn formed(rt: &impl Print, reading: u64, page: &[u8], base: u64, address: u64) -> io::Result<()> {
    let mut lent = [170u8; 1040];
    let number = answer::number(&form::form(reading, page, base, address, &mut lent));
    let at = bits::doubleword_at(&lent, 0);
    let count = bits::halfword_at(&lent, 8);
    let len = bits::halfword_at(&lent, 10);
    println!(rt; "{number} {at} {count} {len} {} {}", lent[16], lent[17])
}

// A page that starts with these halfwords.
fn page_of(halfwords: &[u16]) -> [u8; 4096] {
    let mut page = [0u8; 4096];
    let (places, _) = page.as_chunks_mut::<2>();
    for (place, raw) in places.iter_mut().zip(halfwords) {
        *place = raw.to_le_bytes();
    }
    page
}

// A halfword at the page's end.
fn at_end(rt: &impl Print, raw: u16, address: u64) -> io::Result<()> {
    let mut page = [0u8; 4096];
    page[4094..].copy_from_slice(&raw.to_le_bytes());
    formed(rt, RUST, &page, 0x1000, address)
}

// One word at the page's start, in a reading.
fn at_start(rt: &impl Print, reading: u64, raw: u32) -> io::Result<()> {
    let mut page = [0u8; 4096];
    page[..4].copy_from_slice(&raw.to_le_bytes());
    formed(rt, reading, &page, 0x1000, 0x1000)
}

fn in_both(rt: &impl Print, raw: u32) -> io::Result<()> {
    at_start(rt, RUST, raw)?;
    at_start(rt, MANUAL, raw)
}

// C.ADDI of x10 with 1, a halfword and C.JR of x1, listed in both readings; then the number and record where the halfword comes first.
fn between(rt: &impl Print, raw: u16) -> io::Result<()> {
    let page = page_of(&[0x0505, raw, 0x8082]);
    lines::list(rt, RUST, &page)?;
    lines::list(rt, MANUAL, &page)?;
    formed(rt, RUST, &page, 0x1000, 0x1002)?;
    formed(rt, MANUAL, &page, 0x1000, 0x1002)
}

// One C.NOP more than a block takes.
fn halfwords(rt: &impl Print) -> io::Result<()> {
    let page = page_of(&[0x0001; 65]);
    formed(rt, RUST, &page, 0x1000, 0x1000)?;
    formed(rt, RUST, &page, 0x1000, 0x1080)
}

// A record of another length.
fn short(rt: &impl Print, reading: u64) -> io::Result<()> {
    let page = [0u8; 4096];
    let mut lent = [170u8; 1039];
    let number = answer::number(&form::form(reading, &page, 0, 0, &mut lent));
    println!(rt; "{number} {}", lent[0])
}

fn main(rt: HostRuntime) -> io::Result<()> {
    at_end(&rt, 0x0513, 0x1ffe)?;
    at_end(&rt, 0x0001, 0x1ffe)?;
    at_end(&rt, 0x0001, 0x1fff)?;
    halfwords(&rt)?;
    in_both(&rt, 0x0000_0073)?;
    in_both(&rt, 0x0000_000f)?;
    in_both(&rt, 0x0000_100f)?;
    // MINU, MAX, SEXT.B and what the Rust reads as it; then C.NOP and C.LWSP with rd 0, which is reserved, and the other way round
    in_both(&rt, 0x0ac5_d533)?;
    in_both(&rt, 0x0ac5_e533)?;
    in_both(&rt, 0x6045_1513)?;
    in_both(&rt, 0x6825_1513)?;
    in_both(&rt, 0x4002_0001)?;
    in_both(&rt, 0x0001_4002)?;
    // C.ADDI of x2 with 0, and C.ADDI16SP with 0, whose record is the same; C.LUI with 0 of x0 and of x1
    between(&rt, 0x0101)?;
    between(&rt, 0x6101)?;
    between(&rt, 0x6001)?;
    between(&rt, 0x6081)?;
    at_start(&rt, NONE, 0x0ac5_d533)?;
    at_end(&rt, 0x0001, 0x0fff)?;
    at_end(&rt, 0x0001, 0x2000)?;
    let page = [0u8; 4096];
    formed(&rt, RUST, &page, 0x800, 0x800)?;
    formed(&rt, RUST, &page[1..], 0, 0)?;
    formed(&rt, RUST, &page, 0xff_ffff_ffff_f000, 0xff_ffff_ffff_f000)?;
    formed(&rt, RUST, &page, 0x100_0000_0000_0000, 0)?;
    short(&rt, RUST)?;
    short(&rt, NONE)?;
    lines::list_input(&rt, RUST)?;
    lines::list_input(&rt, RUST)?;
    lines::list_input(&rt, RUST)
}
