// The values of docs/FORMATS.md: those marked P stand in specs/Values.antt as one table, proved; this program runs them through the public calls.
// A line of decoding shows a call's number and the lent bytes afterwards, which start as 170s; a line of the ALU the number and the value.
#![tactic(auto)]

ghost use Rattle.std.specs.Prelude.{◌^◌, ◌<◌};

use answer::Answer;
use std::io;

// The readings, and a number that is none.
const RUST: u64 = 0;

const MANUAL: u64 = 1;

const NONE: u64 = 2;

// A call's number, and the N bytes that it was lent.
fn line<const N: usize, F: FnOnce(&mut [u8]) -> Answer<()>>(
    rt: &impl Print,
    call: F,
) -> io::Result<()>
    requires callable { F.IsAlwaysCallable call }
    requires fits { N < 2 ^ 63 }
{
    let mut lent = [170u8; N];
    let answer = call(&mut lent);
    print!(rt; "{}", answer::number(&answer))?;
    for byte in lent {
        print!(rt; " {byte}")?;
    }
    println!(rt;)
}

fn halfword(rt: &impl Print, reading: u64, raw: u16) -> io::Result<()> {
    line::<16, _>(rt, |lent| decode::decode_halfword(reading, raw, lent))
}

fn word(rt: &impl Print, reading: u64, raw: u32) -> io::Result<()> {
    line::<16, _>(rt, |lent| decode::decode_word(reading, raw, lent))
}

// A buffer of another length is refused ahead of anything but the reading.
fn short(rt: &impl Print, reading: u64, raw: u32) -> io::Result<()> {
    line::<15, _>(rt, |lent| decode::decode_word(reading, raw, lent))
}

fn alu(rt: &impl Print, kind: u64, lhs: u64, rhs: u64) -> io::Result<()> {
    let answer = alu::alu_call(kind, lhs, rhs);
    println!(rt; "{} {}", answer::number(&answer), answer::value(answer))
}

fn main(rt: HostRuntime) -> io::Result<()> {
    halfword(&rt, RUST, 0x0000)?;
    halfword(&rt, RUST, 0x9002)?;
    halfword(&rt, RUST, 0x8082)?;
    word(&rt, RUST, 0x0010_0513)?;
    word(&rt, RUST, 0xfff0_0513)?;
    word(&rt, RUST, 0x6825_1513)?;
    word(&rt, RUST, 0x6045_1513)?;
    word(&rt, RUST, 0x6b85_5513)?;
    word(&rt, RUST, 0x2875_5513)?;
    word(&rt, RUST, 0x0ac5_d533)?;
    word(&rt, RUST, 0x0ac5_e533)?;
    // The same, in the manual's reading; one more of each entry that it has no op for; and what both read the same
    word(&rt, MANUAL, 0x6825_1513)?;
    word(&rt, MANUAL, 0x6045_1513)?;
    word(&rt, MANUAL, 0x6b85_5513)?;
    word(&rt, MANUAL, 0x2875_5513)?;
    word(&rt, MANUAL, 0x0ac5_d533)?;
    word(&rt, MANUAL, 0x0ac5_e533)?;
    word(&rt, MANUAL, 0x6055_1513)?;
    word(&rt, MANUAL, 0x6845_1513)?;
    word(&rt, MANUAL, 0xd585_5513)?;
    word(&rt, MANUAL, 0xd485_5513)?;
    word(&rt, MANUAL, 0x5075_5513)?;
    word(&rt, MANUAL, 0x0010_0513)?;
    // One reserved halfword of each entry
    halfword(&rt, RUST, 0x4002)?;
    halfword(&rt, MANUAL, 0x2001)?;
    halfword(&rt, MANUAL, 0x6101)?;
    halfword(&rt, MANUAL, 0x6081)?;
    halfword(&rt, MANUAL, 0x4002)?;
    halfword(&rt, MANUAL, 0x6002)?;
    halfword(&rt, MANUAL, 0x8002)?;
    halfword(&rt, MANUAL, 0x8082)?;
    short(&rt, RUST, 0x0010_0513)?;
    short(&rt, RUST, 0x6045_1513)?;
    short(&rt, MANUAL, 0x6045_1513)?;
    // No reading, ahead of the rest
    word(&rt, NONE, 0x0010_0513)?;
    halfword(&rt, NONE, 0x8082)?;
    short(&rt, NONE, 0x0010_0513)?;
    short(&rt, 0xffff_ffff_ffff_ffff, 0x0010_0513)?;
    // Sra, Addw, Clz, Clzw, OrcB, Sll by 64; then multiply, the last divide, and no kind at all
    alu(&rt, 7, 0x8000_0000_0000_0000, 1)?;
    alu(&rt, 10, 0x7fff_ffff, 1)?;
    alu(&rt, 39, 0, 0)?;
    alu(&rt, 42, 0, 0)?;
    alu(&rt, 49, 0x0100, 0)?;
    alu(&rt, 2, 12345, 64)?;
    alu(&rt, 15, 6, 7)?;
    alu(&rt, 27, 6, 7)?;
    alu(&rt, 58, 6, 7)?;
    alu(&rt, 0xffff_ffff_ffff_ffff, 6, 7)
}
