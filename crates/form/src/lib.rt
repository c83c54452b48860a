// Forms the block at an address of guest memory into a lent record. (block.rs, decode_block)
#![tactic(auto)]

ghost use Rattle.std.specs.Prelude.{◌≡◌, ◌+◌, ◌≤◌, length};
ghost use Rattle.answer.specs.Answer.{done};
ghost use Rattle.reading.specs.Readings.{reading_of};
ghost use Rattle.decode.specs.Call.{put_of};
ghost use Rattle.form.specs.Forming.{stops_block, or_fallback, ilen_at, op_at, ops_from};
ghost use Rattle.form.specs.Written.{Written};
ghost use Rattle.form.specs.Call.{form_judged, formed_into, form_call};

use answer::{Answer, Refusal};
use block::BlockRecord;
use decode::Recorded;
use op::{Op, OpRecord};
use word::instruction::Instruction;

fn stops_block(raw: u32) -> bool
    ensures { result ≡ stops_block raw }
{
    let inst = Instruction(raw);
    let opcode = inst.opcode();
    let funct3 = inst.funct3();
    if opcode == 0x73 {
        return funct3 == 0;
    }
    if opcode == 0x0f {
        return funct3 == 1;
    }
    false
}

// A word without an op that does not stop the block is kept as Fallback.
fn fetch_word(reading: u64, raw: u32, lent: &mut [u8], place: usize, off: u16) -> Option<Recorded>
    requires { place + 16 ≤ length lent.old }
    ensures { (result, lent.new) ≡ put_of (or_fallback raw ((reading_of reading).of_word raw)) 4 place off lent.old }
{
    let Some(Recorded { op, ilen: _ }) = decode::put(reading, raw, lent, place, off) else {
        if stops_block(raw) {
            return None;
        }
        op::write_op(lent, place, Op::Fallback { raw }, 4, off);
        return Some(Recorded {
            op: OpRecord::FALLBACK,
            ilen: 4,
        });
    };
    Some(Recorded { op, ilen: 4 })
}

// Reads what stands at an offset of s, and writes its record to a place of the lent one. Each way says its length: the loop then need not wait for the
// decoder's, which comes through memory.
fn fetch(reading: u64, s: &[u8], at: usize, lent: &mut [u8], place: usize) -> Option<Recorded>
    requires { (at ≤ 4096) × (place + 16 ≤ length lent.old) }
    ensures { (result, lent.new) ≡ put_of (op_at (reading_of reading) s.now at) (ilen_at s.now at) place at lent.old }
{
    if s.len() < at + 2 {
        return None;
    }
    let low = bits::halfword_at(s, at);
    if low % 4 == 3 {
        if s.len() < at + 4 {
            return None;
        }
        return fetch_word(reading, bits::word_at(s, at), lent, place, at as u16);
    }
    let half = decode::put(reading, low, lent, place, at as u16)?; // no Fallback of two bytes
    Some(Recorded {
        op: half.op,
        ilen: 2,
    })
}

// The ops of the block whose bytes start s, each through its part of the lent record; its other bytes stay.
fn form_ops(reading: u64, s: &[u8], lent: &mut [u8; 1040]) -> BlockRecord
    requires { length s.now ≤ 4096 }
    ensures { Written (ops_from (reading_of reading) s.now 64 0) lent.old lent.new result.count result.len }
{
    let mut at = 0;
    for count in 0..BlockRecord::MAX_OPS {
        let place = BlockRecord::HEAD + count * OpRecord::LEN;
        let Some(Recorded { op, ilen }) = fetch(reading, s, at, lent, place) else {
            return BlockRecord { count, len: at };
        };
        at += ilen as usize;
        if block::jumps(op) {
            return BlockRecord {
                count: count + 1,
                len: at,
            };
        }
    }
    BlockRecord {
        count: BlockRecord::MAX_OPS,
        len: at,
    }
}

// The block whose bytes start s. Without an op no byte is written.
fn form_rest(reading: u64, s: &[u8], address: u64, lent: &mut [u8; 1040]) -> Answer<()>
    requires { length s.now ≤ 4096 }
    ensures { (result, lent.new) ≡ formed_into done address (ops_from (reading_of reading) s.now 64 0) lent.old }
{
    let block = form_ops(reading, s, lent);
    let count = block.count;
    let len = block.len;
    if count == 0 {
        return Err(Refusal::NoOp);
    }
    lent[BlockRecord::HEAD + count * OpRecord::LEN..].fill(0);
    block::put_head(lent, address, count as u16, len as u16);
    Ok(()) // the whole record
}

// Whether forming may begin, by the reading, the lengths of the memory and of the lent record, the base and the address.
fn judge_form(reading: u64, len: u64, room: usize, base: u64, address: u64) -> Answer<()>
    ensures { result ≡ form_judged reading len room base address }
{
    if !op::reading_known(reading) {
        return Err(Refusal::BadGeometry);
    }
    if !block::good_memory(len, base) {
        return Err(Refusal::BadGeometry);
    }
    if room != BlockRecord::LEN {
        return Err(Refusal::WrongBuffer);
    }
    if !block::in_memory(len, base, address) {
        return Err(Refusal::OutsideMemory);
    }
    Ok(())
}

// Forms the block at an address of the memory that starts at base, into the lent record of 1,040 bytes.
#[tactic(auto, unfolding(crate::specs::Call::form_call))]
pub fn form(reading: u64, memory: &[u8], base: u64, address: u64, lent: &mut [u8]) -> Answer<()>
    ensures { (result, lent.new) ≡ form_call reading memory.now base address lent.old }
{
    judge_form(reading, memory.len() as u64, lent.len(), base, address)?;
    let from = (address - base) as usize;
    let to = from + (block::PAGE - address % block::PAGE) as usize;
    form_rest(
        reading,
        &memory[from..to],
        address,
        lent.first_chunk_mut().unwrap(),
    )
}
