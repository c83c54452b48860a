// Words to ops, as the Rust reads them: `decode_full`, in two steps. `form_of` finds how the operands are read, with the kind, and `op_of`
// reads them. (block.rs, `decode_full`)
#![tactic(auto)]

pub mod instruction;

ghost use Rattle.std.specs.Prelude.{◌≡◌, ◌<◌, None};
ghost use Rattle.bits.specs.Match.{case};
ghost use Rattle.word.specs.Word.{branch_rows, load_rows, store_rows, left_rows, right_rows, imm_rows, left32_rows, imm32_rows, reg_rows, reg32_rows, form_by, op_of, rust_word};

use instruction::Instruction;
use op::{AluKind, BranchKind, LoadKind, Op, StoreKind};

const OP_LUI: u32 = 0x37;

const OP_AUIPC: u32 = 0x17;

const OP_JAL: u32 = 0x6f;

const OP_JALR: u32 = 0x67;

const OP_BRANCH: u32 = 0x63;

const OP_LOAD: u32 = 0x03;

const OP_STORE: u32 = 0x23;

const OP_IMM: u32 = 0x13;

const OP_IMM32: u32 = 0x1b;

const OP_REG: u32 = 0x33;

const OP_REG32: u32 = 0x3b;

// How a word's operands are read, with the kind of the op that they make.
#[derive(Drop)]
pub enum Form {
    Lui,
    Auipc,
    Jal,
    Jalr,
    Branch(BranchKind),
    Load(LoadKind),
    Store(StoreKind),
    Imm(AluKind),
    Shift6(AluKind),
    Shift5(AluKind),
    Unary(AluKind),
    Reg(AluKind),
}

fn branch_form(funct3: u32) -> Option<Form>
    ensures { result ≡ case funct3 branch_rows None }
{
    match funct3 {
        0x0 => Some(Form::Branch(BranchKind::Beq)),
        0x1 => Some(Form::Branch(BranchKind::Bne)),
        0x4 => Some(Form::Branch(BranchKind::Blt)),
        0x5 => Some(Form::Branch(BranchKind::Bge)),
        0x6 => Some(Form::Branch(BranchKind::Bltu)),
        0x7 => Some(Form::Branch(BranchKind::Bgeu)),
        _ => None,
    }
}

fn load_form(funct3: u32) -> Option<Form>
    ensures { result ≡ case funct3 load_rows None }
{
    match funct3 {
        0x0 => Some(Form::Load(LoadKind::Lb)),
        0x1 => Some(Form::Load(LoadKind::Lh)),
        0x2 => Some(Form::Load(LoadKind::Lw)),
        0x3 => Some(Form::Load(LoadKind::Ld)),
        0x4 => Some(Form::Load(LoadKind::Lbu)),
        0x5 => Some(Form::Load(LoadKind::Lhu)),
        0x6 => Some(Form::Load(LoadKind::Lwu)),
        _ => None,
    }
}

fn store_form(funct3: u32) -> Option<Form>
    ensures { result ≡ case funct3 store_rows None }
{
    match funct3 {
        0x0 => Some(Form::Store(StoreKind::Sb)),
        0x1 => Some(Form::Store(StoreKind::Sh)),
        0x2 => Some(Form::Store(StoreKind::Sw)),
        0x3 => Some(Form::Store(StoreKind::Sd)),
        _ => None,
    }
}

// OP_IMM, funct3 1
fn left_form(funct6: u32, shamt: u32) -> Option<Form>
    ensures { result ≡ case funct6 (left_rows shamt) None }
{
    match funct6 {
        0x00 => Some(Form::Shift6(AluKind::Sll)),
        0x18 => match shamt {
            0 => Some(Form::Unary(AluKind::Clz)),
            1 => Some(Form::Unary(AluKind::Ctz)),
            2 => Some(Form::Unary(AluKind::Cpop)),
            _ => None,
        },
        0x1a => match shamt {
            2 => Some(Form::Unary(AluKind::SextB)),
            4 => Some(Form::Unary(AluKind::SextH)),
            _ => None,
        },
        _ => None,
    }
}

// OP_IMM, funct3 5
fn right_form(funct6: u32, shamt: u32) -> Option<Form>
    ensures { result ≡ case funct6 (right_rows shamt) None }
{
    match funct6 {
        0x00 => Some(Form::Shift6(AluKind::Srl)),
        0x10 => Some(Form::Shift6(AluKind::Sra)),
        0x14 => match shamt {
            7 => Some(Form::Unary(AluKind::OrcB)),
            _ => None,
        },
        0x35 => match shamt {
            24 => Some(Form::Unary(AluKind::Rev8)),
            8 => Some(Form::Unary(AluKind::Rev8)),
            _ => None,
        },
        0x18 => Some(Form::Shift6(AluKind::Ror)),
        _ => None,
    }
}

// The shifts stand apart: then the other kinds are looked up, where they would cost a jump, and this is the commonest opcode.
fn imm_form(funct3: u32, funct6: u32, shamt: u32) -> Option<Form>
    requires { funct3 < 8 }
    ensures { result ≡ case funct3 (imm_rows funct6 shamt) None }
{
    if funct3 % 4 == 1 {
        match funct3 {
            0x1 => left_form(funct6, shamt),
            _ => right_form(funct6, shamt),
        }
    } else {
        match funct3 {
            0x0 => Some(Form::Imm(AluKind::Add)),
            0x2 => Some(Form::Imm(AluKind::Slt)),
            0x3 => Some(Form::Imm(AluKind::Sltu)),
            0x4 => Some(Form::Imm(AluKind::Xor)),
            0x6 => Some(Form::Imm(AluKind::Or)),
            _ => Some(Form::Imm(AluKind::And)),
        }
    }
}

// OP_IMM32, funct3 1
fn left32_form(funct7: u32, shamt: u32) -> Option<Form>
    ensures { result ≡ case funct7 (left32_rows shamt) None }
{
    match funct7 {
        0x04 => Some(Form::Shift6(AluKind::SlliUw)),
        0x05 => Some(Form::Shift6(AluKind::SlliUw)),
        0x00 => Some(Form::Shift5(AluKind::Sllw)),
        0x30 => match shamt {
            0 => Some(Form::Unary(AluKind::Clzw)),
            1 => Some(Form::Unary(AluKind::Ctzw)),
            2 => Some(Form::Unary(AluKind::Cpopw)),
            _ => None,
        },
        _ => None,
    }
}

fn imm32_form(funct3: u32, funct7: u32, shamt: u32) -> Option<Form>
    ensures { result ≡ case funct3 (imm32_rows funct7 shamt) None }
{
    match funct3 {
        0x0 => Some(Form::Imm(AluKind::Addw)),
        0x1 => left32_form(funct7, shamt),
        0x5 => match funct7 {
            0x00 => Some(Form::Shift5(AluKind::Srlw)),
            0x20 => Some(Form::Shift5(AluKind::Sraw)),
            0x30 => Some(Form::Shift5(AluKind::Rorw)),
            _ => None,
        },
        _ => None,
    }
}

// The key has funct3 and then funct7, in hexadecimal: 0x520 is the Rust's (0x5, 0x20).
fn reg_form(key: u32) -> Option<Form>
    ensures { result ≡ case key reg_rows None }
{
    match key {
        0x000 => Some(Form::Reg(AluKind::Add)),
        0x020 => Some(Form::Reg(AluKind::Sub)),
        0x100 => Some(Form::Reg(AluKind::Sll)),
        0x200 => Some(Form::Reg(AluKind::Slt)),
        0x300 => Some(Form::Reg(AluKind::Sltu)),
        0x400 => Some(Form::Reg(AluKind::Xor)),
        0x500 => Some(Form::Reg(AluKind::Srl)),
        0x520 => Some(Form::Reg(AluKind::Sra)),
        0x600 => Some(Form::Reg(AluKind::Or)),
        0x700 => Some(Form::Reg(AluKind::And)),
        0x001 => Some(Form::Reg(AluKind::Mul)),
        0x101 => Some(Form::Reg(AluKind::Mulh)),
        0x201 => Some(Form::Reg(AluKind::Mulhsu)),
        0x301 => Some(Form::Reg(AluKind::Mulhu)),
        0x401 => Some(Form::Reg(AluKind::Div)),
        0x501 => Some(Form::Reg(AluKind::Divu)),
        0x601 => Some(Form::Reg(AluKind::Rem)),
        0x701 => Some(Form::Reg(AluKind::Remu)),
        0x420 => Some(Form::Reg(AluKind::Xnor)),
        0x620 => Some(Form::Reg(AluKind::Orn)),
        0x720 => Some(Form::Reg(AluKind::Andn)),
        0x130 => Some(Form::Reg(AluKind::Rol)),
        0x530 => Some(Form::Reg(AluKind::Ror)),
        0x405 => Some(Form::Reg(AluKind::Min)),
        0x505 => Some(Form::Reg(AluKind::Max)),
        0x605 => Some(Form::Reg(AluKind::Minu)),
        0x705 => Some(Form::Reg(AluKind::Maxu)),
        // Zba: shifted add
        0x210 => Some(Form::Reg(AluKind::Sh1add)),
        0x410 => Some(Form::Reg(AluKind::Sh2add)),
        0x610 => Some(Form::Reg(AluKind::Sh3add)),
        _ => None,
    }
}

fn reg32_form(key: u32, rs2: u32) -> Option<Form>
    ensures { result ≡ case key (reg32_rows rs2) None }
{
    match key {
        0x000 => Some(Form::Reg(AluKind::Addw)),
        0x020 => Some(Form::Reg(AluKind::Subw)),
        0x100 => Some(Form::Reg(AluKind::Sllw)),
        0x500 => Some(Form::Reg(AluKind::Srlw)),
        0x520 => Some(Form::Reg(AluKind::Sraw)),
        0x001 => Some(Form::Reg(AluKind::Mulw)),
        0x401 => Some(Form::Reg(AluKind::Divw)),
        0x501 => Some(Form::Reg(AluKind::Divuw)),
        0x601 => Some(Form::Reg(AluKind::Remw)),
        0x701 => Some(Form::Reg(AluKind::Remuw)),
        0x130 => Some(Form::Reg(AluKind::Rolw)),
        0x530 => Some(Form::Reg(AluKind::Rorw)),
        // Zbb: zext.h is `packw rd, rs1, x0`, so it only decodes with rs2 == 0.
        0x404 => match rs2 {
            0 => Some(Form::Reg(AluKind::ZextH)),
            _ => None,
        },
        // Zba: zero-extended shifted add
        0x004 => Some(Form::Reg(AluKind::AddUw)),
        0x210 => Some(Form::Reg(AluKind::Sh1addUw)),
        0x410 => Some(Form::Reg(AluKind::Sh2addUw)),
        0x610 => Some(Form::Reg(AluKind::Sh3addUw)),
        _ => None,
    }
}

#[tactic(auto, unfolding(crate::specs::Word::form_by))]
fn form_of(op: u32, funct3: u32, funct7: u32, rs2: u32) -> Option<Form>
    requires { (funct3 < 8) × (funct7 < 128) × (rs2 < 32) }
    ensures { result ≡ form_by op funct3 funct7 rs2 }
{
    match op {
        OP_LUI => Some(Form::Lui),
        OP_AUIPC => Some(Form::Auipc),
        OP_JAL => Some(Form::Jal),
        OP_JALR => match funct3 {
            0 => Some(Form::Jalr),
            _ => None, // no JALR: its funct3 is 0
        },
        OP_BRANCH => branch_form(funct3),
        OP_LOAD => load_form(funct3),
        OP_STORE => store_form(funct3),
        OP_IMM => imm_form(funct3, funct7 / 2, funct7 % 2 * 32 + rs2),
        OP_IMM32 => imm32_form(funct3, funct7, rs2),
        OP_REG => reg_form(funct3 * 0x100 + funct7),
        OP_REG32 => reg32_form(funct3 * 0x100 + funct7, rs2),
        _ => None,
    }
}

fn op_of(inst: Instruction, form: Form) -> Op
    ensures { result ≡ op_of inst.0 form }
{
    let rd = inst.rd();
    let rs1 = inst.rs1();
    let rs2 = inst.rs2();
    match form {
        Form::Lui => Op::Lui {
            rd,
            imm: inst.imm_u(),
        },
        Form::Auipc => Op::Auipc {
            rd,
            imm: inst.imm_u(),
        },
        Form::Jal => Op::Jal {
            rd,
            offset: inst.imm_j(),
        },
        Form::Jalr => Op::Jalr {
            rd,
            rs1,
            imm: inst.imm_i(),
        },
        Form::Branch(kind) => Op::Branch {
            kind,
            rs1,
            rs2,
            offset: inst.imm_b(),
        },
        Form::Load(kind) => Op::Load {
            kind,
            rd,
            rs1,
            imm: inst.imm_i(),
        },
        Form::Store(kind) => Op::Store {
            kind,
            rs1,
            rs2,
            imm: inst.imm_s(),
        },
        Form::Imm(kind) => Op::AluImm {
            kind,
            rd,
            rs1,
            imm: inst.imm_i(),
        },
        Form::Shift6(kind) => Op::AluImm {
            kind,
            rd,
            rs1,
            imm: inst.shamt6(),
        },
        Form::Shift5(kind) => Op::AluImm {
            kind,
            rd,
            rs1,
            imm: inst.shamt5(),
        },
        Form::Unary(kind) => Op::AluImm {
            kind,
            rd,
            rs1,
            imm: 0,
        },
        Form::Reg(kind) => Op::AluReg { kind, rd, rs1, rs2 },
    }
}

pub fn decode_full(raw: u32) -> Option<Op>
    ensures { result ≡ rust_word raw }
{
    let inst = Instruction(raw);
    let form = form_of(
        inst.opcode(),
        inst.funct3(),
        inst.funct7(),
        inst.rs2() as u32,
    )?;
    Some(op_of(inst, form))
}
