//! Prints every entry of a section of call frame information, and of every FDE the rules of each of its rows.
//! On standard input: four numbers of 8 bytes, the lowest first (1 for debug_frame, else 0; the size of an
//! address; the section's address; the first of the 128 registers that are followed), and then the section.
#![tactic(auto)]

use cfi_entries::{Entry, Kind, Refusal, entry_at};
use cfi_fields::{Cie, Fde, cie_at, fde_at};
use cfi_operations::operation_at;
use cfi_pointers::{AddressSize, Bases};
use cfi_rules::pass::{rules_of, step_of, units_of};
use cfi_rules::{CfaRule, Rule, State};
use std::io;
use std::io::Read;

/// What is read, and for what target.
#[derive(Clone, Copy)]
struct Input<'a> {
    section: &'a [u8],
    debug: bool,
    size: AddressSize,
    bases: Bases,
    first: u16,
}

fn show_refusal(rt: &HostRuntime, what: &str, r: Refusal) -> io::Result<()> {
    println!(rt; "{what} refused {} at {}", r.question.number(), r.place)
}

fn show_cie(rt: &HostRuntime, cie: &Cie) -> io::Result<()> {
    let says = cie.augmentation;
    println!(rt;
        "cie {} version {} code {} data {} register {} augmented {} signal {} b {} g {}",
        cie.at,
        cie.version,
        cie.code_factor,
        cie.data_factor,
        cie.register,
        says.augmented,
        says.signal,
        says.b_key,
        says.tagged
    )
}

fn show_rule(rt: &HostRuntime, register: u64, rule: Rule) -> io::Result<()> {
    match rule {
        Rule::Unstated => Ok(()),
        Rule::Undefined => print!(rt; " {register}=u"),
        Rule::SameValue => print!(rt; " {register}=s"),
        Rule::Offset(z) => print!(rt; " {register}=c{z}"),
        Rule::ValOffset(z) => print!(rt; " {register}=v{z}"),
        Rule::Register(other) => print!(rt; " {register}=r{other}"),
        Rule::Expression(_) => print!(rt; " {register}=exp"),
        Rule::ValExpression(_) => print!(rt; " {register}=vexp"),
    }
}

fn show_row(rt: &HostRuntime, location: u64, s: &State) -> io::Result<()> {
    match s.frame.cfa {
        CfaRule::Unset => print!(rt; "row {location} none")?,
        CfaRule::Register(register, z) => print!(rt; "row {location} {register} {z}")?,
        CfaRule::Expression(_) => print!(rt; "row {location} exp")?,
    }
    let mut register = u64::from(s.first);
    for rule in &s.rules {
        show_rule(rt, register, *rule)?;
        register = register.wrapping_add(1);
    }
    println!(rt;
        " signed={} pc={} args={}",
        s.frame.signed, s.frame.with_pc, s.args
    )
}

fn show_rules(rt: &HostRuntime, input: &Input<'_>, at: usize, location: u64) -> io::Result<()> {
    match cfi_rules::rules_at(
        input.section,
        input.debug,
        at,
        input.size,
        &input.bases,
        input.first,
        location,
    ) {
        Ok(s) => show_row(rt, location, &s),
        Err(r) => show_refusal(rt, "row", r),
    }
}

fn show_rows(rt: &HostRuntime, input: &Input<'_>, fde: &Fde) -> io::Result<()> {
    let units = units_of(fde, &input.bases);
    let mut location = 0;
    let mut next = fde.operations;
    let end = fde.end.min(input.section.len());
    show_rules(rt, input, fde.at, 0)?;
    for _operation in 0..end {
        let Ok(read) = operation_at(&input.section[..end], next, &units) else {
            return Ok(());
        };
        next = read.next;
        match step_of(fde.start, location, read.operation) {
            Ok(Some(on)) => {
                location = on;
                if location < fde.size {
                    show_rules(rt, input, fde.at, location)?;
                }
            }
            Ok(None) => {}
            Err(_) => return Ok(()),
        }
    }
    Ok(())
}

fn show_fde(rt: &HostRuntime, input: &Input<'_>, fde: &Fde) -> io::Result<()> {
    match fde.lsda {
        Some(lsda) => println!(rt;
            "fde {} cie {} start {} size {} lsda {}",
            fde.at, fde.cie.at, fde.start, fde.size, lsda.address
        )?,
        None => println!(rt;
            "fde {} cie {} start {} size {}",
            fde.at, fde.cie.at, fde.start, fde.size
        )?,
    }
    show_rows(rt, input, fde)
}

fn show_entry(rt: &HostRuntime, input: &Input<'_>, entry: Entry) -> io::Result<()> {
    match entry.kind {
        Kind::Terminator => println!(rt; "terminator {}", entry.at),
        Kind::Cie => match cie_at(
            input.section,
            input.debug,
            entry.at,
            input.size,
            &input.bases,
        ) {
            Ok(cie) => show_cie(rt, &cie),
            Err(r) => show_refusal(rt, "cie", r),
        },
        Kind::Fde(_) => match fde_at(
            input.section,
            input.debug,
            entry.at,
            input.size,
            &input.bases,
        ) {
            Ok(fde) => show_fde(rt, input, &fde),
            Err(r) => show_refusal(rt, "fde", r),
        },
    }
}

fn show_entries(rt: &HostRuntime, input: &Input<'_>) -> io::Result<()> {
    let mut at = 0;
    for _entry in 0..input.section.len() {
        if at >= input.section.len() {
            return Ok(());
        }
        match entry_at(input.section, input.debug, at) {
            Ok(entry) => {
                show_entry(rt, input, entry)?;
                at = entry.end;
            }
            Err(r) => return show_refusal(rt, "entry", r),
        }
    }
    Ok(())
}

fn main(rt: HostRuntime) -> io::Result<()> {
    let mut given = Vec::new(rt.alloc());
    rt.reader().read_to_end(&mut given)?;
    let number = |at: usize| match cfi_entries::places::field(&given, at, 8) {
        Some((n, _)) => n,
        None => 0,
    };
    let debug = number(0) == 1;
    let bytes = number(8);
    let address = number(16);
    let first = (number(24) % 0x1_0000) as u16;
    let Some(size) = AddressSize::new(bytes) else {
        return println!(rt; "no size of an address");
    };
    if given.len() < 32 {
        return println!(rt; "no section");
    }
    let input = Input {
        section: &given[32..],
        debug,
        size,
        bases: Bases {
            section: address,
            text: None,
            data: None,
            function: None,
        },
        first,
    };
    show_entries(&rt, &input)
}
