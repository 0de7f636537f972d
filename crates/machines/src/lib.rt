// The ready machines, as the lists of numbers that the writers take.
#![tactic(auto)]

ghost use Rattle.std.specs.Prelude.{◌≡◌, [], ◌∷◌, ◌+◌, ◌≤◌, length};
ghost use Rattle.format.proofs.Wrote.{Wrote};
ghost use Rattle.format.specs.Machine.{x8664};
ghost use Rattle.machines.specs.Ready.{aarch64, arm, riscv64, riscv32};
ghost use Rattle.machines.specs.Numbers.{machine_numbers, stored};

use format::{Machine, Question};
use numbers::machine::{MAPPED, STRIDE};

pub mod ready;

// The six numbers in front of the map.
fn fields(out: &mut [u64], m: &Machine) -> usize
    requires { 6 ≤ length out.old }
    ensures { Wrote out.old out.new 0 result (m.now.word ∷ m.now.pushed ∷ m.now.stack ∷ m.now.ret ∷ m.now.frame ∷ 0 ∷ []) }
{
    out[..6].copy_from_slice(&[m.word, m.pushed, m.stack, m.ret, m.frame, 0]);
    6
}

// What each DWARF number maps to.
fn map(out: &mut [u64], at: usize, numbers: [u8; 64]) -> usize
    requires { at + 64 ≤ length out.old }
    ensures { Wrote out.old out.new at result numbers }
{
    // One by one: a list of all 64 in front of a copy takes ten times as long.
    for i in 0..MAPPED {
        out[at + i] = u64::from(numbers[i]);
    }
    at + MAPPED
}

// A machine at the front of a lent list: 0, or 54 where the list has fewer than 70 numbers.
fn store(m: Machine, machine: &mut [u64]) -> u64
    ensures { (result, machine.new) ≡ stored (machine_numbers m) machine.old }
{
    if machine.len() < STRIDE {
        return Question::OtherRoom.number();
    }
    let a = fields(machine, &m);
    map(machine, a, m.map);
    0
}

/// The x86-64 of the System V psABI, at the front of a lent list: 0, or 54 where the list has fewer than 70
/// numbers.
#[unsafe(no_mangle)]
pub extern "C" fn unwind_machine_x86_64(machine: &mut [u64]) -> u64
    ensures { (result, machine.new) ≡ stored (machine_numbers x8664) machine.old }
{
    store(Machine::x86_64(), machine)
}

/// AArch64, as `unwind_machine_x86_64`.
#[unsafe(no_mangle)]
pub extern "C" fn unwind_machine_aarch64(machine: &mut [u64]) -> u64
    ensures { (result, machine.new) ≡ stored (machine_numbers aarch64) machine.old }
{
    store(ready::aarch64(), machine)
}

/// ARM of 32 bits, as `unwind_machine_x86_64`.
#[unsafe(no_mangle)]
pub extern "C" fn unwind_machine_arm(machine: &mut [u64]) -> u64
    ensures { (result, machine.new) ≡ stored (machine_numbers arm) machine.old }
{
    store(ready::arm(), machine)
}

/// RISC-V of 64 bits, as `unwind_machine_x86_64`.
#[unsafe(no_mangle)]
pub extern "C" fn unwind_machine_riscv64(machine: &mut [u64]) -> u64
    ensures { (result, machine.new) ≡ stored (machine_numbers riscv64) machine.old }
{
    store(ready::riscv64(), machine)
}

/// RISC-V of 32 bits, as `unwind_machine_x86_64`.
#[unsafe(no_mangle)]
pub extern "C" fn unwind_machine_riscv32(machine: &mut [u64]) -> u64
    ensures { (result, machine.new) ≡ stored (machine_numbers riscv32) machine.old }
{
    store(ready::riscv32(), machine)
}
