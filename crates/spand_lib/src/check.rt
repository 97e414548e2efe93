use crate::fault::Fault;
use crate::set;
use crate::set::Folder;
use command_line::SetPath;
use mgn_params::ParamSet;
use std::io::ErrorKind;
use std::rt::Files;
use std::{io, str};

/// Tells on standard output what a set has. Where its file is no set, the fault tells the first faulty record and why
/// (`BadRecord`); `NoSet` where there is no file of it to be had, `Output` where standard output fails, and `Memory`.
pub fn run<R: Files + Print + AllocGlobal>(rt: &R, file: &SetPath) -> Result<(), Fault> {
    let mut folder = Folder::new(rt, file.dir.as_str());
    match set::read(rt.alloc(), &mut folder, file.set.as_str()) {
        Ok(read) => tell(rt, read.version, &read.set).map_err(|error| fault_of(&error)),
        Err(Fault::BadSet(fault)) => Err(Fault::BadRecord(fault)),
        Err(fault) => Err(fault),
    }
}

fn fault_of(error: &io::Error) -> Fault {
    match error.kind() {
        ErrorKind::OutOfMemory => Fault::Memory,
        _ => Fault::Output,
    }
}

fn tell<R: Print>(rt: &R, version: u64, set: &ParamSet) -> io::Result<()> {
    let name = set.name();
    println!(rt; "set {}", str::from_utf8(name.as_bytes()).unwrap_or(""))?;
    println!(rt; "version {version}")?;
    let tables = [
        ("commodities", set.commodity_count()),
        ("months", set.month_count()),
        ("contracts", set.contract_count()),
        ("intracommodity spreads", set.spreads().len()),
        ("intercommodity spreads", set.credits().len()),
        ("collateral classes", set.class_count()),
        ("spot month charges", set.spots().len()),
    ];
    for (rows, count) in tables {
        println!(rt; "{rows} {count}")?;
    }
    Ok(())
}
