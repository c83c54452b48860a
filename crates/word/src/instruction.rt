// The fields and immediates of a word. (decode.rs, `Instruction`)
ghost use Rattle.std.specs.Prelude.{◌≡◌, pos};
ghost use Rattle.word.specs.Instruction.{opcode, rd, rs1, rs2, funct3, funct7, imm_i, imm_s, imm_b, imm_u, imm_j, shamt6, shamt5};

use bits::field;

#[derive(Clone, Copy)]
pub struct Instruction(pub u32);

impl Instruction {
    pub fn opcode(self) -> u32
        ensures { result ≡ opcode self.0 }
    {
        field::<0, 7>(self.0)
    }

    pub fn rd(self) -> u8
        ensures { result ≡ rd self.0 }
    {
        field::<7, 5>(self.0) as u8
    }

    pub fn rs1(self) -> u8
        ensures { result ≡ rs1 self.0 }
    {
        field::<15, 5>(self.0) as u8
    }

    pub fn rs2(self) -> u8
        ensures { result ≡ rs2 self.0 }
    {
        field::<20, 5>(self.0) as u8
    }

    pub fn funct3(self) -> u32
        ensures { result ≡ funct3 self.0 }
    {
        field::<12, 3>(self.0)
    }

    pub fn funct7(self) -> u32
        ensures { result ≡ funct7 self.0 }
    {
        field::<25, 7>(self.0)
    }

    // I-type immediate
    pub fn imm_i(self) -> i64
        ensures { result ≡ imm_i self.0 }
    {
        bits::sign_extend(u64::from(field::<20, 12>(self.0)), 12)
    }

    // S-type immediate
    pub fn imm_s(self) -> i64
        ensures { result ≡ imm_s self.0 }
    {
        let hi = field::<25, 7>(self.0);
        let lo = field::<7, 5>(self.0);
        bits::sign_extend((hi * 0x20 + lo) as u64, 12)
    }

    // B-type immediate
    pub fn imm_b(self) -> i64
        ensures { result ≡ imm_b self.0 }
    {
        let raw = self.0;
        let bit12 = field::<31, 1>(raw);
        let bit11 = field::<7, 1>(raw);
        let bits10_5 = field::<25, 6>(raw);
        let bits4_1 = field::<8, 4>(raw);
        let val = bit12 * 0x1000 + bit11 * 0x800 + bits10_5 * 0x20 + bits4_1 * 2;
        bits::sign_extend(val as u64, 13)
    }

    // U-type immediate
    pub fn imm_u(self) -> i64
        ensures { result ≡ imm_u self.0 }
    {
        bits::sign_extend((field::<12, 20>(self.0) * 0x1000) as u64, 32)
    }

    // J-type immediate
    pub fn imm_j(self) -> i64
        ensures { result ≡ imm_j self.0 }
    {
        let raw = self.0;
        let bit20 = field::<31, 1>(raw);
        let bits10_1 = field::<21, 10>(raw);
        let bit11 = field::<20, 1>(raw);
        let bits19_12 = field::<12, 8>(raw);
        let val = bit20 * 0x10_0000 + bits19_12 * 0x1000 + bit11 * 0x800 + bits10_1 * 2;
        bits::sign_extend(val as u64, 21)
    }

    // The shift amounts: what the Rust masks out of the I-type immediate.
    pub fn shamt6(self) -> i64
        ensures { result ≡ pos (shamt6 self.0) }
    {
        i64::from(field::<20, 6>(self.0))
    }

    pub fn shamt5(self) -> i64
        ensures { result ≡ pos (shamt5 self.0) }
    {
        i64::from(field::<20, 5>(self.0))
    }
}
