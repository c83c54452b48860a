// Ops as the Rust has them, and an op as a record of sixteen bytes (docs/FORMATS.md). (block.rs, types)
#![tactic(auto)]

ghost use Rattle.std.specs.Prelude.{◌≡◌, ◌+◌, ◌≤◌, length};
ghost use Rattle.bits.specs.Bytes.{patch};
ghost use Rattle.op.specs.Kinds.{kind_at};
ghost use Rattle.op.specs.Reading.{reading_known};
ghost use Rattle.op.specs.Record.{fields, op_fields, op_bytes, op_record};
ghost use Rattle.op.specs.WellFormed.{limits, within, ilen_known, op_well_formed};

#[derive(Clone, Copy)]
pub enum AluKind {
    Add,
    Sub,
    Sll,
    Slt,
    Sltu,
    Xor,
    Srl,
    Sra,
    Or,
    And,
    Addw,
    Subw,
    Sllw,
    Srlw,
    Sraw,
    Mul,
    Mulh,
    Mulhsu,
    Mulhu,
    Div,
    Divu,
    Rem,
    Remu,
    Mulw,
    Divw,
    Divuw,
    Remw,
    Remuw,
    Andn,
    Orn,
    Xnor,
    Rol,
    Ror,
    Rolw,
    Rorw,
    Min,
    Max,
    Minu,
    Maxu,
    Clz,
    Ctz,
    Cpop,
    Clzw,
    Ctzw,
    Cpopw,
    SextB,
    SextH,
    ZextH,
    Rev8,
    OrcB,
    Sh1add,
    Sh2add,
    Sh3add,
    AddUw,
    Sh1addUw,
    Sh2addUw,
    Sh3addUw,
    SlliUw,
}

#[derive(Clone, Copy)]
pub enum LoadKind {
    Lb,
    Lbu,
    Lh,
    Lhu,
    Lw,
    Lwu,
    Ld,
}

#[derive(Clone, Copy)]
pub enum StoreKind {
    Sb,
    Sh,
    Sw,
    Sd,
}

#[derive(Clone, Copy)]
pub enum BranchKind {
    Beq,
    Bne,
    Blt,
    Bge,
    Bltu,
    Bgeu,
}

#[derive(Clone, Copy)]
pub enum Op {
    Lui {
        rd: u8,
        imm: i64,
    },
    Auipc {
        rd: u8,
        imm: i64,
    },
    AluImm {
        kind: AluKind,
        rd: u8,
        rs1: u8,
        imm: i64,
    },
    AluReg {
        kind: AluKind,
        rd: u8,
        rs1: u8,
        rs2: u8,
    },
    Load {
        kind: LoadKind,
        rd: u8,
        rs1: u8,
        imm: i64,
    },
    Store {
        kind: StoreKind,
        rs1: u8,
        rs2: u8,
        imm: i64,
    },
    Branch {
        kind: BranchKind,
        rs1: u8,
        rs2: u8,
        offset: i64,
    },
    Jal {
        rd: u8,
        offset: i64,
    },
    Jalr {
        rd: u8,
        rs1: u8,
        imm: i64,
    },

    Fallback {
        raw: u32,
    },
}

// The ALU kind at a position of the enum, from 0.
pub fn kind_at(n: u64) -> Option<AluKind>
    ensures { result ≡ kind_at n }
{
    match n {
        0 => Some(AluKind::Add),
        1 => Some(AluKind::Sub),
        2 => Some(AluKind::Sll),
        3 => Some(AluKind::Slt),
        4 => Some(AluKind::Sltu),
        5 => Some(AluKind::Xor),
        6 => Some(AluKind::Srl),
        7 => Some(AluKind::Sra),
        8 => Some(AluKind::Or),
        9 => Some(AluKind::And),
        10 => Some(AluKind::Addw),
        11 => Some(AluKind::Subw),
        12 => Some(AluKind::Sllw),
        13 => Some(AluKind::Srlw),
        14 => Some(AluKind::Sraw),
        15 => Some(AluKind::Mul),
        16 => Some(AluKind::Mulh),
        17 => Some(AluKind::Mulhsu),
        18 => Some(AluKind::Mulhu),
        19 => Some(AluKind::Div),
        20 => Some(AluKind::Divu),
        21 => Some(AluKind::Rem),
        22 => Some(AluKind::Remu),
        23 => Some(AluKind::Mulw),
        24 => Some(AluKind::Divw),
        25 => Some(AluKind::Divuw),
        26 => Some(AluKind::Remw),
        27 => Some(AluKind::Remuw),
        28 => Some(AluKind::Andn),
        29 => Some(AluKind::Orn),
        30 => Some(AluKind::Xnor),
        31 => Some(AluKind::Rol),
        32 => Some(AluKind::Ror),
        33 => Some(AluKind::Rolw),
        34 => Some(AluKind::Rorw),
        35 => Some(AluKind::Min),
        36 => Some(AluKind::Max),
        37 => Some(AluKind::Minu),
        38 => Some(AluKind::Maxu),
        39 => Some(AluKind::Clz),
        40 => Some(AluKind::Ctz),
        41 => Some(AluKind::Cpop),
        42 => Some(AluKind::Clzw),
        43 => Some(AluKind::Ctzw),
        44 => Some(AluKind::Cpopw),
        45 => Some(AluKind::SextB),
        46 => Some(AluKind::SextH),
        47 => Some(AluKind::ZextH),
        48 => Some(AluKind::Rev8),
        49 => Some(AluKind::OrcB),
        50 => Some(AluKind::Sh1add),
        51 => Some(AluKind::Sh2add),
        52 => Some(AluKind::Sh3add),
        53 => Some(AluKind::AddUw),
        54 => Some(AluKind::Sh1addUw),
        55 => Some(AluKind::Sh2addUw),
        56 => Some(AluKind::Sh3addUw),
        57 => Some(AluKind::SlliUw),
        _ => None,
    }
}

// What an op itself says in its record. Its length and its place in the block are told by whoever places it.
#[derive(Drop)]
pub struct OpRecord {
    pub op: u8,
    pub kind: u8,
    pub rd: u8,
    pub rs1: u8,
    pub rs2: u8,
    pub imm: u64,
}

fn fields(op: u8, kind: u8, rd: u8, rs1: u8, rs2: u8, imm: u64) -> OpRecord
    ensures { result ≡ fields op kind rd rs1 rs2 imm }
{
    OpRecord {
        op,
        kind,
        rd,
        rs1,
        rs2,
        imm,
    }
}

pub fn fields_of(op: Op) -> OpRecord
    ensures { result ≡ op_fields op }
{
    match op {
        Op::Lui { rd, imm } => fields(0, 0, rd, 0, 0, imm.cast_unsigned()),
        Op::Auipc { rd, imm } => fields(1, 0, rd, 0, 0, imm.cast_unsigned()),
        Op::AluImm { kind, rd, rs1, imm } => fields(2, kind as u8, rd, rs1, 0, imm.cast_unsigned()),
        Op::AluReg { kind, rd, rs1, rs2 } => fields(3, kind as u8, rd, rs1, rs2, 0),
        Op::Load { kind, rd, rs1, imm } => fields(4, kind as u8, rd, rs1, 0, imm.cast_unsigned()),
        Op::Store {
            kind,
            rs1,
            rs2,
            imm,
        } => fields(5, kind as u8, 0, rs1, rs2, imm.cast_unsigned()),
        Op::Branch {
            kind,
            rs1,
            rs2,
            offset,
        } => fields(6, kind as u8, 0, rs1, rs2, offset.cast_unsigned()),
        Op::Jal { rd, offset } => fields(OpRecord::JAL, 0, rd, 0, 0, offset.cast_unsigned()),
        Op::Jalr { rd, rs1, imm } => fields(OpRecord::JALR, 0, rd, rs1, 0, imm.cast_unsigned()),
        Op::Fallback { raw } => fields(OpRecord::FALLBACK, 0, 0, 0, 0, u64::from(raw)),
    }
}

impl OpRecord {
    pub const LEN: usize = 16;

    // Op numbers that other rules name; Fallback's is the last.
    pub const JAL: u8 = 7;

    pub const JALR: u8 = 8;

    pub const FALLBACK: u8 = 9;

    pub fn bytes(self, ilen: u8, off: u16) -> [u8; 16]
        ensures { result ≡ op_bytes self ilen off }
    {
        let off = off.to_le_bytes();
        let imm = self.imm.to_le_bytes();
        [
            self.op, self.kind, self.rd, self.rs1, self.rs2, ilen, off[0], off[1], imm[0], imm[1],
            imm[2], imm[3], imm[4], imm[5], imm[6], imm[7],
        ]
    }
}

// Writes an op's record through a mutable part of the lent bytes; those around it stay.
pub fn write_op(out: &mut [u8], at: usize, op: Op, ilen: u8, off: u16)
    requires { at + 16 ≤ length out.old }
    ensures { out.new ≡ patch out.old at (op_record op ilen off) }
{
    out[at..at + OpRecord::LEN].copy_from_slice(&fields_of(op).bytes(ilen, off));
}

// The most that each field of an op record may be.
#[derive(Clone, Copy)]
pub struct Limits {
    pub kind: u8,
    pub rd: u8,
    pub rs1: u8,
    pub rs2: u8,
    pub imm: u64,
}

// The highest register, and an immediate that is not judged.
const REGISTER: u8 = 31;

const ANY: u64 = u64::MAX;

// By op number.
static LIMITS: [Limits; 10] = [
    Limits {
        kind: 0,
        rd: REGISTER,
        rs1: 0,
        rs2: 0,
        imm: ANY,
    },
    Limits {
        kind: 0,
        rd: REGISTER,
        rs1: 0,
        rs2: 0,
        imm: ANY,
    },
    Limits {
        kind: 57,
        rd: REGISTER,
        rs1: REGISTER,
        rs2: 0,
        imm: ANY,
    },
    Limits {
        kind: 57,
        rd: REGISTER,
        rs1: REGISTER,
        rs2: REGISTER,
        imm: 0,
    },
    Limits {
        kind: 6,
        rd: REGISTER,
        rs1: REGISTER,
        rs2: 0,
        imm: ANY,
    },
    Limits {
        kind: 3,
        rd: 0,
        rs1: REGISTER,
        rs2: REGISTER,
        imm: ANY,
    },
    Limits {
        kind: 5,
        rd: 0,
        rs1: REGISTER,
        rs2: REGISTER,
        imm: ANY,
    },
    Limits {
        kind: 0,
        rd: REGISTER,
        rs1: 0,
        rs2: 0,
        imm: ANY,
    },
    Limits {
        kind: 0,
        rd: REGISTER,
        rs1: REGISTER,
        rs2: 0,
        imm: ANY,
    },
    Limits {
        kind: 0,
        rd: 0,
        rs1: 0,
        rs2: 0,
        imm: 0xffff_ffff,
    },
];

fn limits_of(op: u8) -> Limits
    requires { op ≤ 9 }
    ensures { result ≡ limits op }
{
    LIMITS[op as usize]
}

fn within(record: &[u8], most: Limits) -> bool
    requires { length «record».now ≡ 16 }
    ensures { result ≡ within «record».now most }
{
    (record[1] <= most.kind)
        & (record[2] <= most.rd)
        & (record[3] <= most.rs1)
        & (record[4] <= most.rs2)
        & (bits::doubleword_at(record, 8) <= most.imm)
}

fn ilen_known(op: u8, ilen: u8) -> bool
    ensures { result ≡ ilen_known op ilen }
{
    (ilen == 4) | ((ilen == 2) & (op != OpRecord::FALLBACK))
}

// Whether sixteen bytes are a record of one op, wherever it stands.
pub fn op_well_formed(record: &[u8]) -> bool
    requires { length «record».now ≡ 16 }
    ensures { result ≡ op_well_formed «record».now }
{
    let op = record[0];
    if OpRecord::FALLBACK < op {
        return false;
    }
    if ilen_known(op, record[5]) {
        return within(record, limits_of(op));
    }
    false
}

// Whether a reading has this number: 0 is the Rust's, 1 the manual's.
pub fn reading_known(reading: u64) -> bool
    ensures { result ≡ reading_known reading }
{
    reading <= 1
}
