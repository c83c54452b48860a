// Halfwords to ops, as the Rust reads them: `decode_compressed`, with a function for each that has cases of its own. (block.rs, `decode_compressed`)
#![tactic(auto)]

pub mod instruction;

ghost use Rattle.std.specs.Prelude.{◌≡◌, ◌+◌, ◌*◌, pos, None};
ghost use Rattle.bits.specs.Bits.{bits_at, signed};
ghost use Rattle.bits.specs.Match.{case};
ghost use Rattle.halfword.specs.Halfword.{nzuimm_addi4spn, uimm_lw, uimm_ld, imm6, imm_addi16sp, imm_lui, off_j, off_b, uimm_lwsp, uimm_ldsp, uimm_swsp, uimm_sdsp};
ghost use Rattle.halfword.specs.Halfword.{prime_reg, prime_rows, prime_imm, half_at, rust_half};

use bits::field;
use instruction::CompressedInstruction;
use op::{AluKind, BranchKind, LoadKind, Op, StoreKind};

impl CompressedInstruction {
    fn nzuimm_addi4spn(self) -> u32
        ensures { result ≡ nzuimm_addi4spn self.0 }
    {
        let raw = u32::from(self.0);
        field::<6, 1>(raw) * 4
            + field::<5, 1>(raw) * 8
            + field::<11, 2>(raw) * 0x10
            + field::<7, 4>(raw) * 0x40
    }

    // C.LW, C.SW
    fn uimm_lw(self) -> i64
        ensures { result ≡ pos (uimm_lw self.0) }
    {
        let raw = u32::from(self.0);
        i64::from(field::<6, 1>(raw) * 4 + field::<10, 3>(raw) * 8 + field::<5, 1>(raw) * 0x40)
    }

    // C.LD, C.SD
    fn uimm_ld(self) -> i64
        ensures { result ≡ pos (uimm_ld self.0) }
    {
        let raw = u32::from(self.0);
        i64::from(field::<10, 3>(raw) * 8 + field::<5, 2>(raw) * 0x40)
    }

    fn six_bits(self) -> u32
        ensures { result ≡ imm6 self.0 }
    {
        let raw = u32::from(self.0);
        field::<12, 1>(raw) * 0x20 + field::<2, 5>(raw)
    }

    // C.ADDI, C.ADDIW, C.LI, C.ANDI
    fn imm6(self) -> i64
        ensures { result ≡ signed 6 (imm6 self.0) }
    {
        bits::sign_extend(u64::from(self.six_bits()), 6)
    }

    // C.SRLI, C.SRAI, C.SLLI
    fn shamt(self) -> i64
        ensures { result ≡ pos (imm6 self.0) }
    {
        i64::from(self.six_bits())
    }

    fn imm_addi16sp(self) -> i64
        ensures { result ≡ signed 10 (imm_addi16sp self.0) }
    {
        let raw = u32::from(self.0);
        let val = field::<12, 1>(raw) * 0x200
            + field::<6, 1>(raw) * 0x10
            + field::<5, 1>(raw) * 0x40
            + field::<3, 2>(raw) * 0x80
            + field::<2, 1>(raw) * 0x20;
        bits::sign_extend(val as u64, 10)
    }

    fn imm_lui(self) -> i64
        ensures { result ≡ signed 18 (imm_lui self.0) }
    {
        let raw = u32::from(self.0);
        bits::sign_extend(
            (field::<12, 1>(raw) * 0x2_0000 + field::<2, 5>(raw) * 0x1000) as u64,
            18,
        )
    }

    fn off_j(self) -> i64
        ensures { result ≡ signed 12 (off_j self.0) }
    {
        let r = u32::from(self.0);
        let val = field::<12, 1>(r) * 0x800
            + field::<11, 1>(r) * 0x10
            + field::<9, 2>(r) * 0x100
            + field::<8, 1>(r) * 0x400
            + field::<7, 1>(r) * 0x40
            + field::<6, 1>(r) * 0x80
            + field::<3, 3>(r) * 2
            + field::<2, 1>(r) * 0x20;
        bits::sign_extend(val as u64, 12)
    }

    // C.BEQZ, C.BNEZ
    fn off_b(self) -> i64
        ensures { result ≡ signed 9 (off_b self.0) }
    {
        let r = u32::from(self.0);
        let val = field::<12, 1>(r) * 0x100
            + field::<10, 2>(r) * 8
            + field::<5, 2>(r) * 0x40
            + field::<3, 2>(r) * 2
            + field::<2, 1>(r) * 0x20;
        bits::sign_extend(val as u64, 9)
    }

    fn uimm_lwsp(self) -> i64
        ensures { result ≡ pos (uimm_lwsp self.0) }
    {
        let raw = u32::from(self.0);
        i64::from(field::<12, 1>(raw) * 0x20 + field::<4, 3>(raw) * 4 + field::<2, 2>(raw) * 0x40)
    }

    fn uimm_ldsp(self) -> i64
        ensures { result ≡ pos (uimm_ldsp self.0) }
    {
        let raw = u32::from(self.0);
        i64::from(field::<12, 1>(raw) * 0x20 + field::<5, 2>(raw) * 8 + field::<2, 3>(raw) * 0x40)
    }

    fn uimm_swsp(self) -> i64
        ensures { result ≡ pos (uimm_swsp self.0) }
    {
        let raw = u32::from(self.0);
        i64::from(field::<9, 4>(raw) * 4 + field::<7, 2>(raw) * 0x40)
    }

    fn uimm_sdsp(self) -> i64
        ensures { result ≡ pos (uimm_sdsp self.0) }
    {
        let raw = u32::from(self.0);
        i64::from(field::<10, 3>(raw) * 8 + field::<7, 3>(raw) * 0x40)
    }
}

fn c_addi4spn(c: CompressedInstruction) -> Option<Op>
    ensures { result ≡ half_at 0x00 c.0 }
{
    let nzuimm = c.nzuimm_addi4spn();
    if nzuimm == 0 {
        return None;
    }
    Some(Op::AluImm {
        kind: AluKind::Add,
        rd: c.rs2_prime(),
        rs1: 2,
        imm: i64::from(nzuimm),
    })
}

fn c_addi16sp_lui(c: CompressedInstruction) -> Option<Op>
    ensures { result ≡ half_at 0x13 c.0 }
{
    let rd = c.rd();
    if rd == 2 {
        // C.ADDI16SP
        Some(Op::AluImm {
            kind: AluKind::Add,
            rd: 2,
            rs1: 2,
            imm: c.imm_addi16sp(),
        })
    } else {
        // C.LUI
        Some(Op::Lui {
            rd,
            imm: c.imm_lui(),
        })
    }
}

fn prime_reg(kind: AluKind, c: CompressedInstruction) -> Option<Op>
    ensures { result ≡ prime_reg kind c.0 }
{
    let rd = c.rs1_prime();
    Some(Op::AluReg {
        kind,
        rd,
        rs1: rd,
        rs2: c.rs2_prime(),
    })
}

// The key has bit 12 and then bits 6 and 5: 5 is the Rust's (1, 0x1).
fn c_prime(c: CompressedInstruction) -> Option<Op>
    ensures { result ≡ case (bits_at c.0 12 1 * 4 + bits_at c.0 5 2) (prime_rows c.0) None }
{
    let raw = u32::from(c.0);
    match field::<12, 1>(raw) * 4 + field::<5, 2>(raw) {
        0 => prime_reg(AluKind::Sub, c),
        1 => prime_reg(AluKind::Xor, c),
        2 => prime_reg(AluKind::Or, c),
        3 => prime_reg(AluKind::And, c),
        4 => prime_reg(AluKind::Subw, c),
        5 => prime_reg(AluKind::Addw, c),
        _ => None,
    }
}

fn prime_imm(kind: AluKind, c: CompressedInstruction, imm: i64) -> Option<Op>
    ensures { result ≡ prime_imm kind c.0 imm }
{
    let rd = c.rs1_prime();
    Some(Op::AluImm {
        kind,
        rd,
        rs1: rd,
        imm,
    })
}

fn c_misc(c: CompressedInstruction) -> Option<Op>
    ensures { result ≡ half_at 0x14 c.0 }
{
    match field::<10, 2>(u32::from(c.0)) {
        0 => prime_imm(AluKind::Srl, c, c.shamt()), // C.SRLI
        1 => prime_imm(AluKind::Sra, c, c.shamt()), // C.SRAI
        2 => prime_imm(AluKind::And, c, c.imm6()), // C.ANDI
        _ => c_prime(c),
    }
}

fn c_jr_mv_add(c: CompressedInstruction) -> Option<Op>
    ensures { result ≡ half_at 0x24 c.0 }
{
    let rd = c.rd();
    let rs2 = c.rs2();
    if field::<12, 1>(u32::from(c.0)) == 0 {
        if rs2 == 0 {
            // C.JR
            Some(Op::Jalr {
                rd: 0,
                rs1: rd,
                imm: 0,
            })
        } else {
            // C.MV
            Some(Op::AluReg {
                kind: AluKind::Add,
                rd,
                rs1: 0,
                rs2,
            })
        }
    } else {
        if rs2 == 0 {
            if rd == 0 {
                // C.EBREAK
                None
            } else {
                // C.JALR
                Some(Op::Jalr {
                    rd: 1,
                    rs1: rd,
                    imm: 0,
                })
            }
        } else {
            // C.ADD
            Some(Op::AluReg {
                kind: AluKind::Add,
                rd,
                rs1: rd,
                rs2,
            })
        }
    }
}

// The key has the quadrant and then funct3, in hexadecimal: 0x15 is the Rust's (1, 0x5).
fn decode_at(key: u16, c: CompressedInstruction) -> Option<Op>
    ensures { result ≡ half_at key c.0 }
{
    match key {
        0x00 => c_addi4spn(c),
        // C.LW
        0x02 => Some(Op::Load {
            kind: LoadKind::Lw,
            rd: c.rs2_prime(),
            rs1: c.rs1_prime(),
            imm: c.uimm_lw(),
        }),
        // C.LD
        0x03 => Some(Op::Load {
            kind: LoadKind::Ld,
            rd: c.rs2_prime(),
            rs1: c.rs1_prime(),
            imm: c.uimm_ld(),
        }),
        // C.SW
        0x06 => Some(Op::Store {
            kind: StoreKind::Sw,
            rs1: c.rs1_prime(), // the address
            rs2: c.rs2_prime(), // what is stored
            imm: c.uimm_lw(),
        }),
        // C.SD
        0x07 => Some(Op::Store {
            kind: StoreKind::Sd,
            rs1: c.rs1_prime(),
            rs2: c.rs2_prime(),
            imm: c.uimm_ld(),
        }),
        // C.ADDI
        0x10 => {
            let rd = c.rd();
            Some(Op::AluImm {
                kind: AluKind::Add,
                rd,
                rs1: rd,
                imm: c.imm6(),
            })
        }
        // C.ADDIW
        0x11 => {
            let rd = c.rd();
            Some(Op::AluImm {
                kind: AluKind::Addw,
                rd,
                rs1: rd,
                imm: c.imm6(),
            })
        }
        // C.LI
        0x12 => Some(Op::AluImm {
            kind: AluKind::Add,
            rd: c.rd(),
            rs1: 0,
            imm: c.imm6(),
        }),
        0x13 => c_addi16sp_lui(c),
        0x14 => c_misc(c),
        // C.J
        0x15 => Some(Op::Jal {
            rd: 0,
            offset: c.off_j(),
        }),
        // C.BEQZ
        0x16 => Some(Op::Branch {
            kind: BranchKind::Beq,
            rs1: c.rs1_prime(),
            rs2: 0,
            offset: c.off_b(),
        }),
        // C.BNEZ
        0x17 => Some(Op::Branch {
            kind: BranchKind::Bne,
            rs1: c.rs1_prime(),
            rs2: 0,
            offset: c.off_b(),
        }),
        // C.SLLI
        0x20 => {
            let rd = c.rd();
            Some(Op::AluImm {
                kind: AluKind::Sll,
                rd,
                rs1: rd,
                imm: c.shamt(),
            })
        }
        // C.LWSP
        0x22 => Some(Op::Load {
            kind: LoadKind::Lw,
            rd: c.rd(),
            rs1: 2,
            imm: c.uimm_lwsp(),
        }),
        // C.LDSP
        0x23 => Some(Op::Load {
            kind: LoadKind::Ld,
            rd: c.rd(),
            rs1: 2,
            imm: c.uimm_ldsp(),
        }),
        0x24 => c_jr_mv_add(c),
        // C.SWSP
        0x26 => Some(Op::Store {
            kind: StoreKind::Sw,
            rs1: 2,
            rs2: c.rs2(),
            imm: c.uimm_swsp(),
        }),
        // C.SDSP
        0x27 => Some(Op::Store {
            kind: StoreKind::Sd,
            rs1: 2,
            rs2: c.rs2(),
            imm: c.uimm_sdsp(),
        }),
        _ => None,
    }
}

pub fn decode_compressed(raw: u16) -> Option<Op>
    ensures { result ≡ rust_half raw }
{
    let c = CompressedInstruction(raw);
    decode_at(c.quadrant() * 0x10 + c.funct3(), c)
}
