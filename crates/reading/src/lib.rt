// The two readings of words and halfwords: 0 is the Rust's, 1 the manual's. One decoder serves both. Where the manual parts from the Rust, at the
// entries of docs/DIFFERENCES.md, its answer stands here; everywhere else the Rust's rows answer for both.
#![tactic(auto)]

ghost use Rattle.std.specs.Prelude.{◌≡◌, ◌&&◌, eqb};
ghost use Rattle.bits.specs.Bits.{bits_at};
ghost use Rattle.word.specs.Word.{rust_word};
ghost use Rattle.manual.specs.Words.{manual_word};
ghost use Rattle.agree.specs.Differences.{listed, half_entries};
ghost use Rattle.reading.specs.Readings.{reading_of};
ghost use Rattle.reading.specs.Apart.{or_rust};

use bits::field;
use halfword::instruction::CompressedInstruction;
use op::{AluKind, Op};
use word::instruction::Instruction;

const MANUAL: u64 = 1;

// What the manual reads a word as where it parts from the Rust, and None where the Rust's rows say it. Opcode 0x13. The key has funct3, then bits 31 to 20, and then bits 1 and 0, in hexadecimal.
fn imm_apart(inst: Instruction) -> Option<Option<Op>>
    requires { bits_at inst.0 2 5 ≡ 0x4 }
    ensures { or_rust result (rust_word inst.0) ≡ manual_word inst.0 }
{
    let rd = inst.rd();
    let rs1 = inst.rs1();
    let top = field::<20, 12>(inst.0);
    let low = field::<0, 2>(inst.0);
    match inst.funct3() * 0x1_0000 + top * 0x10 + low {
        0x1_6043 => Some(Some(Op::AluImm {
            kind: AluKind::SextB,
            rd,
            rs1,
            imm: 0,
        })),
        0x1_6053 => Some(Some(Op::AluImm {
            kind: AluKind::SextH,
            rd,
            rs1,
            imm: 0,
        })),
        0x1_6823 => Some(None),
        0x1_6843 => Some(None),
        0x5_2873 => Some(Some(Op::AluImm {
            kind: AluKind::OrcB,
            rd,
            rs1,
            imm: 0,
        })),
        0x5_6b83 => Some(Some(Op::AluImm {
            kind: AluKind::Rev8,
            rd,
            rs1,
            imm: 0,
        })),
        0x5_5073 => Some(None),
        0x5_d483 => Some(None),
        0x5_d583 => Some(None),
        _ => None,
    }
}

// Opcode 0x33. The key has funct3, then funct7, and then bits 1 and 0, in hexadecimal.
fn reg_apart(inst: Instruction) -> Option<Option<Op>>
    requires { bits_at inst.0 2 5 ≡ 0xc }
    ensures { or_rust result (rust_word inst.0) ≡ manual_word inst.0 }
{
    let rd = inst.rd();
    let rs1 = inst.rs1();
    let rs2 = inst.rs2();
    let low = field::<0, 2>(inst.0);
    match inst.funct3() * 0x1_0000 + inst.funct7() * 0x10 + low {
        0x5_0053 => Some(Some(Op::AluReg {
            kind: AluKind::Minu,
            rd,
            rs1,
            rs2,
        })),
        0x6_0053 => Some(Some(Op::AluReg {
            kind: AluKind::Max,
            rd,
            rs1,
            rs2,
        })),
        _ => None,
    }
}

// What a reading makes of a word that the Rust's rows do not say. By bits 6 to 2 and not by the whole opcode: else the compiler leads each way into a
// copy of the Rust's arm of its own, and those have jumps where the one arm looks its kinds up.
fn word_apart(reading: u64, raw: u32) -> Option<Option<Op>>
    ensures { or_rust result (rust_word raw) ≡ (reading_of reading).of_word raw }
{
    if reading != MANUAL {
        return None;
    }
    let inst = Instruction(raw);
    match field::<2, 5>(raw) {
        0x4 => imm_apart(inst),
        0xc => reg_apart(inst),
        _ => None,
    }
}

// Reserved by the manual, and decoded by the Rust. The key has the quadrant and then funct3, in hexadecimal.
fn reserved(c: CompressedInstruction) -> bool
    ensures { result ≡ listed half_entries c.0 }
{
    let rd = c.rd();
    let raw = u32::from(c.0);
    let no_imm = (field::<12, 1>(raw) == 0) & (field::<2, 5>(raw) == 0);
    match c.quadrant() * 0x10 + c.funct3() {
        0x11 => rd == 0, // C.ADDIW
        0x13 => no_imm, // C.ADDI16SP, C.LUI
        0x22 => rd == 0, // C.LWSP
        0x23 => rd == 0, // C.LDSP
        0x24 => no_imm & (rd == 0), // C.JR
        _ => false,
    }
}

fn reserved_in(reading: u64, raw: u16) -> bool
    ensures { result ≡ (eqb reading 1 && listed half_entries raw) }
{
    if reading != MANUAL {
        return false;
    }
    reserved(CompressedInstruction(raw))
}

// What a word is read as.
pub fn read_word(reading: u64, raw: u32) -> Option<Op>
    ensures { result ≡ (reading_of reading).of_word raw }
{
    word_apart(reading, raw).unwrap_or_else(|| word::decode_full(raw))
}

// What a halfword is read as.
pub fn read_halfword(reading: u64, raw: u16) -> Option<Op>
    ensures { result ≡ (reading_of reading).of_half raw }
{
    if reserved_in(reading, raw) {
        return None;
    }
    halfword::decode_compressed(raw)
}
