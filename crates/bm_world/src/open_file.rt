//! A file that is open for reading, seen as the bytes that are left to read.
ghost use Rattle.std.specs.Prelude.{◌≡◌, ◌++◌, min, length, take, drop};

use std::marker::Model;

#[derive(Drop)]
pub struct OpenFile {
    bytes: Vec<u8>,
    at: usize,
}

impl Model for OpenFile {
    ghost use Rattle.std.specs.Prelude.{ℕ, ◌≤◌, List, drop, vec_len};

    ghost Value = { List ℕ };

    ghost view = { λ file. drop file.at file.bytes.items };

    ghost invariant = { λ file. file.at ≤ vec_len file.bytes };
}

impl OpenFile {
    pub fn new(bytes: Vec<u8>) -> Self
        ensures { result ≡ bytes.items }
    {
        OpenFile { bytes, at: 0 }
    }

    /// Moves the next bytes into the front of `into`, as many as there are and as it takes.
    pub fn read(&mut self, into: &mut [u8]) -> usize
        ensures count { result ≡ min (length into.old) (length self.old) }
        ensures came { into.new ≡ take result self.old ++ drop result into.old }
        ensures left { self.new ≡ drop result self.old }
    {
        let left = &self.bytes[self.at..];
        let count = left.len().min(into.len());
        into[..count].copy_from_slice(&left[..count]);
        self.at += count;
        count
    }
}
