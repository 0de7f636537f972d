// The ready machines beside x86-64.
ghost use Rattle.std.specs.Prelude.{◌≡◌};
ghost use Rattle.machines.specs.Ready.{aarch64, arm, riscv64, riscv32};

use format::Machine;

// DWARF numbers 0 to 31 are integer registers 0 to 31.
const THIRTY_TWO: [u8; 64] = [
    0, 1, 2, 3, 4, 5, 6, 7, 8, 9, 10, 11, 12, 13, 14, 15, 16, 17, 18, 19, 20, 21, 22, 23, 24, 25,
    26, 27, 28, 29, 30, 31, 255, 255, 255, 255, 255, 255, 255, 255, 255, 255, 255, 255, 255, 255,
    255, 255, 255, 255, 255, 255, 255, 255, 255, 255, 255, 255, 255, 255, 255, 255, 255, 255,
];

// And 0 to 15 alone.
const SIXTEEN: [u8; 64] = [
    0, 1, 2, 3, 4, 5, 6, 7, 8, 9, 10, 11, 12, 13, 14, 15, 255, 255, 255, 255, 255, 255, 255, 255,
    255, 255, 255, 255, 255, 255, 255, 255, 255, 255, 255, 255, 255, 255, 255, 255, 255, 255, 255,
    255, 255, 255, 255, 255, 255, 255, 255, 255, 255, 255, 255, 255, 255, 255, 255, 255, 255, 255,
    255, 255,
];

/// AArch64: word 8, stack pointer 31, return address 30, frame pointer 29 (DWARF for the Arm
/// 64-bit Architecture, 4.1).
pub fn aarch64() -> Machine
    ensures { result ≡ aarch64 }
{
    Machine::new(8, 0, 31, 30, 29, THIRTY_TWO)
}

/// ARM of 32 bits: word 4, stack pointer 13, return address 14, frame pointer 11 (DWARF for the
/// Arm Architecture, 4.1).
pub fn arm() -> Machine
    ensures { result ≡ arm }
{
    Machine::new(4, 0, 13, 14, 11, SIXTEEN)
}

/// RISC-V of 64 bits: word 8, stack pointer 2, return address 1, frame pointer 8 (RISC-V ELF
/// psABI, DWARF register numbers).
pub fn riscv64() -> Machine
    ensures { result ≡ riscv64 }
{
    Machine::new(8, 0, 2, 1, 8, THIRTY_TWO)
}

/// RISC-V of 32 bits: as the one of 64, with word 4.
pub fn riscv32() -> Machine
    ensures { result ≡ riscv32 }
{
    Machine::new(4, 0, 2, 1, 8, THIRTY_TWO)
}
