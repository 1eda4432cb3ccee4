// Bytes in memory, and nine files of them.
ghost use Rattle.std.specs.Prelude.{◌≡◌, ◌≤◌, length, IfOk, OnOk, OnErr};
ghost use Rattle.process_disk.specs.Disk.{file_of, written, put};
ghost use Rattle.process_disk.specs.Memory.{nine_empty};

use plain_list::Items;
use std::alloc::{AllocError, Global};
use std::marker::Model;
use std::mem;

/// A list of bytes.
pub type Bytes = Items<u8>;

// Writes over what is there, and past the end.
fn put_in(alloc: Global, file: &mut Bytes, at: u64, bytes: &[u8]) -> Result<(), AllocError>
    ensures ok { OnOk result (file.new ≡ written file.old at bytes.now) }
    ensures err { OnErr result (file.new ≡ file.old) }
{
    let mut held = mem::replace(file, Bytes::new(Vec::new(alloc))).into_items();
    let at = held.len().min(at as usize);
    let done = put_within(&mut held, at, bytes);
    *file = Bytes::new(held);
    done
}

fn put_within(file: &mut Vec<u8>, at: usize, bytes: &[u8]) -> Result<(), AllocError>
    requires { at ≤ length file.old.items }
    ensures ok { OnOk result (file.new.items ≡ written file.old.items at bytes.now) }
    ensures err { OnErr result (file.new.items ≡ file.old.items) }
{
    let len = file.len();
    if bytes.len() <= len - at {
        file[at..at + bytes.len()].copy_from_slice(bytes);
        return Ok(());
    }
    let (over, past) = bytes.split_at(len - at);
    file.extend_from_slice(past)?;
    file[at..len].copy_from_slice(over);
    Ok(())
}

/// Files, numbered from 0.
#[derive(Drop)]
pub struct Files {
    files: Vec<Bytes>,
}

impl Model for Files {
    ghost use Rattle.std.specs.Prelude.{List, ℕ};

    ghost Value = { List (List ℕ) };

    ghost view = { λ f. f.files.items };
}

impl Files {
    pub fn empty(alloc: Global) -> Result<Self, AllocError>
        ensures { IfOk result (λ files. files ≡ nine_empty) }
    {
        let mut files = Vec::new(alloc);
        for _ in 0..9_u8 {
            files.push(Bytes::new(Vec::new(alloc)))?;
        }
        Ok(Files { files })
    }

    pub fn copy(&self, alloc: Global) -> Result<Self, AllocError>
        ensures { IfOk result (λ files. files ≡ self.now) }
    {
        let mut files = Vec::new(alloc);
        for file in &self.files {
            files.push(Bytes::new(file.bytes().to_vec(alloc)?))?;
        }
        Ok(Files { files })
    }

    /// The bytes of a file, none where there is no such file.
    pub fn file(&self, file: u8) -> &[u8]
        ensures { result.now ≡ file_of self.now file }
    {
        match self.files.get(usize::from(file)) {
            Some(bytes) => bytes.bytes(),
            None => &[],
        }
    }

    /// Writes into a file, if there is one of that number.
    pub fn put(&mut self, alloc: Global, file: u8, at: u64, bytes: &[u8]) -> Result<(), AllocError>
        ensures ok { OnOk result (self.new ≡ put self.old file at bytes.now) }
        ensures err { OnErr result (self.new ≡ self.old) }
    {
        match self.files.get_mut(usize::from(file)) {
            Some(old) => put_in(alloc, old, at, bytes),
            None => Ok(()),
        }
    }
}
