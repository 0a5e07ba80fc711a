//! Files in memory.
ghost use Rattle.std.specs.Prelude.{◌≡◌, ◌≤◌, ◌↔◌, List, ℕ, length, true, IfOk, IsErrOf};
ghost use Rattle.std.specs.Option.{option_map};
ghost use Rattle.mx_outside.specs.Calls.{called, fresh};
ghost use Rattle.mx_outside.specs.Causes.{Rose};
ghost use Rattle.mx_outside.specs.Named.{bytes_of, is_refused};
ghost use Rattle.mx_outside.specs.Moves.{Holds, IsLonger};

use crate::calls::Calls;
use crate::file_set::{FileFault, Files};
use crate::mem_file::MemFile;
use std::alloc::Global;
use std::marker::Model;

/// Files in memory, with a list of calls that fail. The first file with a name is the one that is
/// read.
#[derive(Drop)]
pub struct MemFiles {
    files: Vec<MemFile>,
    calls: Calls,
}

impl Model for MemFiles {
    ghost use Rattle.mx_outside.specs.Named.{FilesState};

    ghost Value = { FilesState };

    ghost view = { λ s. record { files = s.files.items; plan = s.calls } };
}

impl MemFiles {
    /// The files `files`. The calls whose numbers, from 0, are in `failing` fail.
    pub fn new(files: Vec<MemFile>, failing: Vec<u64>) -> MemFiles
        ensures { result ≡ record { files = files.items; plan = fresh failing.items } }
    {
        MemFiles {
            files,
            calls: Calls::new(failing),
        }
    }
}

impl Files for MemFiles {
    ghost told = { λ s name. bytes_of name s.files };

    ghost faults = { λ s. s.plan.faults };

    /// A name that no file has fails.
    fn read(&mut self, alloc: Global, name: &str, most: usize) -> Result<Vec<u8>, FileFault>
        ensures found { IfOk result (λ bytes. Holds (bytes_of name.now self.old.files) bytes.items) }
        ensures within { IfOk result (λ bytes. length bytes.items ≤ most) }
        ensures too_long { IsErrOf result FileFault.TooLong → IsLonger (bytes_of name.now self.old.files) most }
        ensures count { self.old.plan.faults ≤ self.new.plan.faults }
        ensures cause { IsErrOf result FileFault.Failed → Rose self.old.plan.faults self.new.plan.faults }
        ensures kept { (each : List ℕ) → bytes_of each self.new.files ≡ bytes_of each self.old.files }
        ensures plan { self.new.plan ≡ called (is_refused self.old name.now) self.old.plan }
        ensures refused { IsErrOf result FileFault.Failed ↔ (is_refused self.old name.now ≡ true) }
    {
        if self.calls.begin() {
            self.calls.fault();
            return Err(FileFault::Failed);
        }
        let Some(bytes) = find_bytes(self.files.as_slice(), name) else {
            self.calls.fault();
            return Err(FileFault::Failed);
        };
        if bytes.len() > most {
            return Err(FileFault::TooLong);
        }
        Ok(bytes.to_vec(alloc)?)
    }
}

/// The bytes of the first file with this name.
fn find_bytes<'a>(files: &'a [MemFile], name: &str) -> Option<&'a [u8]>
    ensures { option_map (λ bytes. bytes.now) result ≡ bytes_of name.now files.now }
{
    for file in files {
        if file.name.as_str() == name {
            return Some(file.bytes.as_slice());
        }
    }
    None
}
