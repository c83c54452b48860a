// Decodes words and halfwords into op records: at a place of lent bytes, for forming, and as the two public calls.
#![tactic(auto)]

ghost use Rattle.std.specs.Prelude.{◌≡◌, ℕ, ◌+◌, ◌≤◌, length, Option};
ghost use Rattle.op.specs.Reading.{Reading};
ghost use Rattle.op.specs.declared.Op.{Op};
ghost use Rattle.reading.specs.Readings.{reading_of};
ghost use Rattle.decode.specs.Call.{put_of, decode_judged, decoded_into, word_call, half_call};

use answer::{Answer, Refusal};
use op::{Op, OpRecord};

// A word or a halfword: its length in bytes, and what each reading makes of it.
pub trait Encoded: Copy {
    ghost ILEN: { ℕ };

    ghost read_by: { Reading → Self → Option Op };

    const ILEN: u8;

    fn read(self, reading: u64) -> Option<Op>
        ensures { result ≡ read_by (reading_of reading) self };
}

impl Encoded for u32 {
    ghost ILEN = { 4 };

    ghost read_by = { λ r w. r.of_word w };

    const ILEN: u8 = 4;

    fn read(self, reading: u64) -> Option<Op> {
        reading::read_word(reading, self)
    }
}

impl Encoded for u16 {
    ghost ILEN = { 2 };

    ghost read_by = { λ r h. r.of_half h };

    const ILEN: u8 = 2;

    fn read(self, reading: u64) -> Option<Op> {
        reading::read_halfword(reading, self)
    }
}

// What the record that was put into lent bytes has for its op number and its ilen.
#[derive(Clone, Copy)]
pub struct Recorded {
    pub op: u8,
    pub ilen: u8,
}

// Decodes, and writes the record to a place of the lent bytes. Decoder and writer stand in one function, for forming and for the calls below: then the
// compiler joins the end of each arm of the decoder with its arm of the writer.
pub fn put<E: Encoded>(
    reading: u64,
    raw: E,
    lent: &mut [u8],
    at: usize,
    off: u16,
) -> Option<Recorded>
    requires { at + 16 ≤ length lent.old }
    ensures { (result, lent.new) ≡ put_of (E.read_by (reading_of reading) raw) E.ILEN at off lent.old }
{
    let op = raw.read(reading)?;
    op::write_op(lent, at, op, E::ILEN, off);
    Some(Recorded {
        op: op::fields_of(op).op,
        ilen: E::ILEN,
    })
}

// Whether decoding may begin, by the reading and the length of the lent record.
fn judge_decode(reading: u64, room: usize) -> Answer<()>
    ensures { result ≡ decode_judged reading room }
{
    if !op::reading_known(reading) {
        return Err(Refusal::BadGeometry);
    }
    if room != OpRecord::LEN {
        return Err(Refusal::WrongBuffer);
    }
    Ok(())
}

fn decode<E: Encoded>(reading: u64, raw: E, lent: &mut [u8]) -> Answer<()>
    ensures { (result, lent.new) ≡ decoded_into (decode_judged reading (length lent.old)) (E.read_by (reading_of reading) raw) E.ILEN lent.old }
{
    judge_decode(reading, lent.len())?;
    put(reading, raw, lent, 0, 0).ok_or(Refusal::NoOp)?;
    Ok(()) // the record
}

// Decodes a word into the lent record of sixteen bytes.
pub fn decode_word(reading: u64, raw: u32, lent: &mut [u8]) -> Answer<()>
    ensures { (result, lent.new) ≡ word_call reading raw lent.old }
{
    decode::<u32>(reading, raw, lent)
}

// Decodes a halfword into the lent record of sixteen bytes.
pub fn decode_halfword(reading: u64, raw: u16, lent: &mut [u8]) -> Answer<()>
    ensures { (result, lent.new) ≡ half_call reading raw lent.old }
{
    decode::<u16>(reading, raw, lent)
}
