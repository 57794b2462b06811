//! Files in memory, seen as the map from the bytes of their names to their bytes.
ghost use Rattle.std.specs.Prelude.{◌≡◌, ◌++◌, OnOk, OnErr};
ghost use Rattle.std.specs.Option.{option_copied};
ghost use Rattle.std.specs.FinMap as map;
ghost use Rattle.bm_world.specs.Meanings.{append_to};

use std::alloc::{AllocError, Global};
use std::collections::BTreeMap;
use std::marker::Model;

#[derive(Drop)]
pub struct FileTable {
    alloc: Global,
    bytes_by_name: BTreeMap<String, Vec<u8>>,
}

impl Model for FileTable {
    ghost use Rattle.std.specs.Coded.{coded_ℕ, coded_list};
    ghost use Rattle.std.specs.FinMap as map;
    ghost use Rattle.bm_world.specs.Meanings.{Files};
    ghost use Rattle.bm_world.specs.FileTable.{files_of};

    ghost Value = { Files };

    ghost coded = { map.code (coded_list coded_ℕ) (coded_list coded_ℕ) };

    ghost view = { λ table. files_of table.bytes_by_name.entries };
}

impl FileTable {
    pub fn new(alloc: Global) -> Self
        ensures { result ≡ map.empty }
    {
        FileTable {
            alloc,
            bytes_by_name: BTreeMap::new(alloc),
        }
    }

    pub fn get(&self, name: &str) -> Option<&[u8]>
        ensures { option_copied result ≡ map.get self.now name.now }
    {
        match self.bytes_by_name.get(name) {
            Some(bytes) => Some(bytes.as_slice()),
            None => None,
        }
    }

    /// Sets the bytes of the named file.
    pub fn put(&mut self, name: &str, bytes: &[u8]) -> Result<(), AllocError>
        ensures ok { OnOk result (self.new ≡ map.insert self.old name.now bytes.now) }
        ensures err { OnErr result (self.new ≡ self.old) }
    {
        let name = String::from_str(self.alloc, name)?;
        let bytes = Vec::from_slice(self.alloc, bytes)?;
        self.bytes_by_name.insert(name, bytes)?;
        Ok(())
    }

    /// Appends to the named file, where it is there.
    pub fn append(&mut self, name: &str, bytes: &[u8]) -> Result<(), AllocError>
        ensures ok { OnOk result (self.new ≡ append_to self.old name.now bytes.now) }
        ensures err { OnErr result (self.new ≡ self.old) }
    {
        let Some(file) = self.bytes_by_name.get_mut(name) else {
            return Ok(());
        };
        file.extend_from_slice(bytes)
    }
}
