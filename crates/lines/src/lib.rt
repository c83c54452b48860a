// Writes the blocks of one page in a reading to standard output, as docs/FORMATS.md, The listing, has them.
#![tactic(auto)]

ghost use Rattle.std.specs.Prelude.{◌≤◌, length, IfOk};

use block::BlockRecord;
use std::io;
use std::io::Read;
use std::num::NonZeroU16;

// The line of an op record.
fn op_line(rt: &impl Print, record: &[u8; 16]) -> io::Result<()> {
    let [op, kind, rd, rs1, rs2, ilen, ..] = record;
    let pc_off = bits::halfword_at(record, 6);
    // Fallback's raw is below 2^32 and comes out unsigned.
    let imm = bits::doubleword_at(record, 8).cast_signed();
    println!(rt; "{pc_off} {ilen} {op} {kind} {rd} {rs1} {rs2} {imm}")
}

// The lines of the block at an offset of the page, and how many bytes it has.
fn block_lines(
    rt: &impl Print,
    reading: u64,
    page: &[u8],
    at: u64,
) -> io::Result<Option<NonZeroU16>> {
    let mut record = [0u8; 1040];
    if form::form(reading, page, 0, at, &mut record).is_err() {
        return Ok(None);
    }
    let count = bits::halfword_at(&record, 8);
    let len = bits::halfword_at(&record, 10);
    println!(rt; "block {at} {count} {len}")?;
    let (ops, _) = record[BlockRecord::HEAD..].as_chunks::<16>();
    for op in ops.iter().take(count as usize) {
        op_line(rt, op)?;
    }
    Ok(NonZeroU16::new(len))
}

// Each turn lists a block of at least one byte, so the offset grows up to the page's end.
pub fn list(rt: &impl Print, reading: u64, page: &[u8]) -> io::Result<()> {
    let mut at: u64 = 0;
    while at < block::PAGE {
        let Some(len) = block_lines(rt, reading, page, at)? else {
            break;
        };
        at += u64::from(len.get());
    }
    println!(rt; "end {at}")
}

// Reads standard input until buf is full or the input ends, and answers how many bytes it put at the start of buf. A HostRuntime's reader takes no byte
// that it does not put there, so that the next call goes on behind the last.
pub fn read_full(rt: &impl Input, buf: &mut [u8]) -> io::Result<usize>
    ensures { IfOk result (λ n. n ≤ length buf.new) }
{
    let mut input = rt.reader();
    let mut done = 0;
    while done < buf.len() {
        let n = input.read(&mut buf[done..])?;
        if n == 0 {
            break;
        }
        done += n;
    }
    Ok(done)
}

// Lists the page that standard input gives, its rest zero.
pub fn list_input(rt: &(impl Input + Print), reading: u64) -> io::Result<()> {
    let mut page = [0u8; 4096];
    read_full(rt, &mut page)?;
    list(rt, reading, &page)
}
