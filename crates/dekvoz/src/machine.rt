// The ready machines.
ghost use Rattle.std.specs.Prelude.{◌≡◌};
ghost use Rattle.format.specs.Machine.{x8664};
ghost use Rattle.machines.specs.Ready.{aarch64, arm, riscv64, riscv32};
ghost use Rattle.machines.specs.Numbers.{machine_numbers, stored};

/// The x86-64 of the System V psABI, at the front of a lent list: 0, or 54 where the list has fewer than 70
/// numbers.
#[unsafe(no_mangle)]
pub extern "C" fn unwind_machine_x86_64(machine: &mut [u64]) -> u64
    ensures { (result, machine.new) ≡ stored (machine_numbers x8664) machine.old }
{
    machines::unwind_machine_x86_64(machine)
}

/// AArch64, as `unwind_machine_x86_64`.
#[unsafe(no_mangle)]
pub extern "C" fn unwind_machine_aarch64(machine: &mut [u64]) -> u64
    ensures { (result, machine.new) ≡ stored (machine_numbers aarch64) machine.old }
{
    machines::unwind_machine_aarch64(machine)
}

/// ARM of 32 bits, as `unwind_machine_x86_64`.
#[unsafe(no_mangle)]
pub extern "C" fn unwind_machine_arm(machine: &mut [u64]) -> u64
    ensures { (result, machine.new) ≡ stored (machine_numbers arm) machine.old }
{
    machines::unwind_machine_arm(machine)
}

/// RISC-V of 64 bits, as `unwind_machine_x86_64`.
#[unsafe(no_mangle)]
pub extern "C" fn unwind_machine_riscv64(machine: &mut [u64]) -> u64
    ensures { (result, machine.new) ≡ stored (machine_numbers riscv64) machine.old }
{
    machines::unwind_machine_riscv64(machine)
}

/// RISC-V of 32 bits, as `unwind_machine_x86_64`.
#[unsafe(no_mangle)]
pub extern "C" fn unwind_machine_riscv32(machine: &mut [u64]) -> u64
    ensures { (result, machine.new) ≡ stored (machine_numbers riscv32) machine.old }
{
    machines::unwind_machine_riscv32(machine)
}
