// The ALU without multiply and divide: by a kind, and by a kind's number. (block.rs, `alu`)
#![tactic(auto)]

ghost use Rattle.std.specs.Prelude.{◌≡◌, ◌%◌, ◌^◌, ◌<◌};
ghost use Rattle.alu.specs.Rust.{widen, less, spread, orced, rust_alu};
ghost use Rattle.alu.specs.Call.{alu_call};

use answer::Answer;
use answer::Refusal::NoKind;
use op::{AluKind, kind_at};

const WORD: u64 = 0x1_0000_0000;

// `x as u32`
fn as_u32(x: u64) -> u32
    ensures { result ≡ x % 2 ^ 32 }
{
    (x % WORD) as u32
}

// `x as i32 as i64 as u64`
fn widen_word(x: u32) -> u64
    ensures { result ≡ widen 32 x }
{
    i64::from(x.cast_signed()).cast_unsigned()
}

// `(a as i64) < (b as i64)`
fn less(a: u64, b: u64) -> bool
    ensures { result ≡ less a b }
{
    a.cast_signed() < b.cast_signed()
}

// `if byte != 0 { 0xFF } else { 0x00 }`
fn spread(byte: u64) -> u64
    ensures { result ≡ spread byte }
{
    if byte != 0 { 0xff } else { 0 }
}

// The loop of OrcB.
fn orc_b(x: u64) -> u64
    ensures { result ≡ orced x 8 }
{
    let mut result: u64 = 0;
    for i in 0..8u64 {
        let byte = (x >> (i * 8)) & 0xff;
        result |= spread(byte) << (i * 8);
    }
    result
}

// One arm for each kind, in the Rust's order.
pub fn alu(kind: AluKind, lhs: u64, rhs: u64) -> Answer<u64>
    ensures { result ≡ rust_alu kind lhs rhs }
{
    match kind {
        AluKind::Add => Ok(lhs.wrapping_add(rhs)),
        AluKind::Sub => Ok(lhs.wrapping_sub(rhs)),
        AluKind::Sll => Ok(lhs << (rhs & 0x3f)),
        AluKind::Slt => Ok(less(lhs, rhs) as u64),
        AluKind::Sltu => Ok((lhs < rhs) as u64),
        AluKind::Xor => Ok(lhs ^ rhs),
        AluKind::Srl => Ok(lhs >> (rhs & 0x3f)),
        AluKind::Sra => Ok((lhs.cast_signed() >> (rhs & 0x3f)).cast_unsigned()),
        AluKind::Or => Ok(lhs | rhs),
        AluKind::And => Ok(lhs & rhs),
        AluKind::Addw => Ok(widen_word(as_u32(lhs).wrapping_add(as_u32(rhs)))),
        AluKind::Subw => Ok(widen_word(as_u32(lhs).wrapping_sub(as_u32(rhs)))),
        AluKind::Sllw => Ok(widen_word(as_u32(lhs) << (rhs & 0x1f))),
        AluKind::Srlw => Ok(widen_word(as_u32(lhs) >> (rhs & 0x1f))),
        AluKind::Sraw => Ok((i64::from(as_u32(lhs).cast_signed()) >> (rhs & 0x1f)).cast_unsigned()),
        AluKind::Mul => Err(NoKind),
        AluKind::Mulh => Err(NoKind),
        AluKind::Mulhsu => Err(NoKind),
        AluKind::Mulhu => Err(NoKind),
        AluKind::Div => Err(NoKind),
        AluKind::Divu => Err(NoKind),
        AluKind::Rem => Err(NoKind),
        AluKind::Remu => Err(NoKind),
        AluKind::Mulw => Err(NoKind),
        AluKind::Divw => Err(NoKind),
        AluKind::Divuw => Err(NoKind),
        AluKind::Remw => Err(NoKind),
        AluKind::Remuw => Err(NoKind),
        AluKind::Andn => Ok(lhs & !rhs),
        AluKind::Orn => Ok(lhs | !rhs),
        AluKind::Xnor => Ok(lhs ^ !rhs),
        AluKind::Rol => Ok(lhs.rotate_left((rhs & 0x3f) as u32)),
        AluKind::Ror => Ok(lhs.rotate_right((rhs & 0x3f) as u32)),
        AluKind::Rolw => Ok(widen_word(as_u32(lhs).rotate_left((rhs & 0x1f) as u32))),
        AluKind::Rorw => Ok(widen_word(as_u32(lhs).rotate_right((rhs & 0x1f) as u32))),
        AluKind::Min => Ok(if less(lhs, rhs) { lhs } else { rhs }),
        AluKind::Max => Ok(if less(rhs, lhs) { lhs } else { rhs }),
        AluKind::Minu => Ok(lhs.min(rhs)),
        AluKind::Maxu => Ok(lhs.max(rhs)),
        AluKind::Clz => Ok(lhs.leading_zeros() as u64),
        AluKind::Ctz => Ok(lhs.trailing_zeros() as u64),
        AluKind::Cpop => Ok(lhs.count_ones() as u64),
        AluKind::Clzw => Ok(as_u32(lhs).leading_zeros() as u64),
        AluKind::Ctzw => Ok(as_u32(lhs).trailing_zeros() as u64),
        AluKind::Cpopw => Ok(as_u32(lhs).count_ones() as u64),
        AluKind::SextB => Ok(i64::from(((lhs % 0x100) as u8).cast_signed()).cast_unsigned()),
        AluKind::SextH => Ok(i64::from(((lhs % 0x1_0000) as u16).cast_signed()).cast_unsigned()),
        AluKind::ZextH => Ok(lhs % 0x1_0000),
        AluKind::Rev8 => Ok(lhs.swap_bytes()),
        AluKind::Sh1add => Ok((lhs << 1).wrapping_add(rhs)),
        AluKind::Sh2add => Ok((lhs << 2).wrapping_add(rhs)),
        AluKind::Sh3add => Ok((lhs << 3).wrapping_add(rhs)),
        AluKind::AddUw => Ok((lhs % WORD).wrapping_add(rhs)),
        AluKind::Sh1addUw => Ok(((lhs % WORD) << 1).wrapping_add(rhs)),
        AluKind::Sh2addUw => Ok(((lhs % WORD) << 2).wrapping_add(rhs)),
        AluKind::Sh3addUw => Ok(((lhs % WORD) << 3).wrapping_add(rhs)),
        AluKind::SlliUw => Ok((lhs % WORD) << (rhs & 0x3f)),
        AluKind::OrcB => Ok(orc_b(lhs)),
    }
}

// The public call: any number, also one that is no kind's.
pub fn alu_call(kind: u64, lhs: u64, rhs: u64) -> Answer<u64>
    ensures { result ≡ alu_call kind lhs rhs }
{
    let Some(known) = kind_at(kind) else {
        return Err(NoKind);
    };
    alu(known, lhs, rhs)
}
