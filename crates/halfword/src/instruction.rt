// The fields of a halfword. (decode.rs, `CompressedInstruction`)
ghost use Rattle.std.specs.Prelude.{◌≡◌};
ghost use Rattle.halfword.specs.Instruction.{quadrant, funct3, rs2_prime, rs1_prime, rd, rs2};

use bits::field;

// 16-bit compressed instruction wrapper
#[derive(Clone, Copy)]
pub struct CompressedInstruction(pub u16);

impl CompressedInstruction {
    pub fn quadrant(self) -> u16
        ensures { result ≡ quadrant self.0 }
    {
        field::<0, 2>(u32::from(self.0)) as u16
    }

    pub fn funct3(self) -> u16
        ensures { result ≡ funct3 self.0 }
    {
        field::<13, 3>(u32::from(self.0)) as u16
    }

    // CL/CS/CA format
    pub fn rs2_prime(self) -> u8
        ensures { result ≡ rs2_prime self.0 }
    {
        field::<2, 3>(u32::from(self.0)) as u8 + 8
    }

    // CL/CS/CA format
    pub fn rs1_prime(self) -> u8
        ensures { result ≡ rs1_prime self.0 }
    {
        field::<7, 3>(u32::from(self.0)) as u8 + 8
    }

    // Full rd/rs1 field for CR/CI formats
    pub fn rd(self) -> u8
        ensures { result ≡ rd self.0 }
    {
        field::<7, 5>(u32::from(self.0)) as u8
    }

    // Full rs2 field for CR/CSS formats
    pub fn rs2(self) -> u8
        ensures { result ≡ rs2 self.0 }
    {
        field::<2, 5>(u32::from(self.0)) as u8
    }
}
