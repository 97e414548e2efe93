ghost use Rattle.std.specs.Prelude.{◌≡◌, ◌≤◌, length, vec_len, IfOk};
ghost use Rattle.mgn_ids.specs.Name.{name_in};
ghost use Rattle.spand_lib.specs.Reading.{IsReadOf, ReadsNamed};
ghost use Rattle.spand_lib.specs.Status.{of_source};

use crate::fault::Fault;
use mgn_ids::SetName;
use mgn_session::{SetSource, SourceFault};
use mgn_setfile::{Cause, SetFile, read_file};
use std::alloc::{AllocError, Global};
use std::io::{ErrorKind, Read};
use std::rt::Files;
use std::{fs, str};

const MOST_BYTES: u64 = 8_388_608;

/// The files of a folder: that of the set NAME is `DIR/NAME.csv`.
pub struct Folder<'a, R> {
    rt: &'a R,
    dir: &'a str,
}

impl<R> Clone for Folder<'_, R> {
    fn clone(&self) -> Result<Self, AllocError> {
        Ok(*self)
    }
}

impl<R> Copy for Folder<'_, R> {}

// All that a file holds, unless it cannot be read or holds more than a set's file may.
fn read_whole<F: Read + Drop>(alloc: Global, file: F) -> Result<Vec<u8>, SourceFault>
    ensures { IfOk result (λ bytes. vec_len bytes ≤ MOST_BYTES) }
{
    let mut bytes = Vec::new(alloc);
    match file.take(MOST_BYTES + 1).read_to_end(&mut bytes) {
        Ok(_) if bytes.len() as u64 <= MOST_BYTES => Ok(bytes),
        Ok(_) => Err(SourceFault::Long),
        Err(error) => Err(fault_of(error.kind())),
    }
}

fn fault_of(kind: ErrorKind) -> SourceFault {
    match kind {
        ErrorKind::OutOfMemory => SourceFault::Memory,
        ErrorKind::NotFound => SourceFault::Missing,
        _ => SourceFault::Failed,
    }
}

impl<'a, R: Files + AllocGlobal> Folder<'a, R> {
    /// The folder of a path.
    pub fn new(rt: &'a R, dir: &'a str) -> Folder<'a, R> {
        Folder { rt, dir }
    }
}

impl<R: Files + AllocGlobal> SetSource for Folder<'_, R> {
    // The folder stays, and what it gives is no longer than a set's file may be. No contract knows what it holds.
    ghost gives = { λ old _ given new. (new ≡ old) × IfOk given (λ bytes. length bytes ≤ 8388608) };

    fn fetch(&mut self, name: &SetName) -> Result<Vec<u8>, SourceFault> {
        let alloc = self.rt.alloc();
        let Ok(name) = str::from_utf8(name.as_bytes()) else {
            return Err(SourceFault::Missing);
        };
        let path = format!(in alloc; "{}/{name}.csv", self.dir)?;
        match fs::open(self.rt, path.as_str()) {
            Ok(file) => read_whole(alloc, file),
            Err(error) => Err(fault_of(error.kind())),
        }
    }
}

// The set of a file's bytes, with the version of its format.
fn read_bytes(alloc: Global, bytes: &[u8]) -> Result<SetFile, Fault>
    ensures { IsReadOf bytes.now result }
{
    match read_file(alloc, bytes) {
        Ok(file) => Ok(file),
        Err(fault) => match fault.cause {
            Cause::Memory => Err(Fault::Memory),
            _ => Err(Fault::BadSet(fault)),
        },
    }
}

fn of_source(fault: SourceFault) -> Fault
    ensures { result ≡ of_source fault }
{
    match fault {
        SourceFault::Memory => Fault::Memory,
        _ => Fault::NoSet,
    }
}

/// The set of a name with the version of its format, by its file in a folder. `NoSet` where the name is none, or the folder
/// gives no file of it; `BadSet` where the file is no set; and `Memory`.
pub fn read<S: SetSource>(alloc: Global, folder: &mut S, name: &str) -> Result<SetFile, Fault>
    ensures { ReadsNamed S.gives folder.old (name_in name.now) result folder.new }
{
    let Ok(name) = SetName::read(name.as_bytes()) else {
        return Err(Fault::NoSet);
    };
    match folder.fetch(&name) {
        Ok(file) => read_bytes(alloc, file.as_slice()),
        Err(fault) => Err(of_source(fault)),
    }
}
