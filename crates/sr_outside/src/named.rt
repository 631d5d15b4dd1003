//! Files in memory, each a name with its bytes.
ghost use Rattle.std.specs.Prelude.{◌≡◌, ◌<◌, ◌≤◌, ◌^◌, ℕ, min, take, drop, List, length, IfOk, OnOk, OnErr, None, Some, IfSome, IfNone, IsSome, if◌then◌else◌};
ghost use Rattle.std.specs.List.{position};
ghost use Rattle.std.specs.Option.{ForSome};
ghost use Rattle.std.specs.Str.{bytes_eq};
ghost use Rattle.sr_outside.specs.Memory.{IsPlaceOf, bytes_of, bytes_at, name_at};

use std::alloc::{AllocError, Global};
use std::marker::Model;

#[derive(Drop)]
pub struct File {
    name: Vec<u8>,
    bytes: Vec<u8>,
}

impl Model for File {
    ghost use Rattle.sr_outside.specs.Memory.{Named};

    ghost Value = { Named };

    ghost view = { λ file. record { name = file.name.items; bytes = file.bytes.items } };
}

impl File {
    pub fn new(alloc: Global, name: &[u8], bytes: &[u8]) -> Result<File, AllocError>
        ensures name { IfOk result (λ file. file.name ≡ name.now) }
        ensures bytes { IfOk result (λ file. file.bytes ≡ bytes.now) }
    {
        Ok(File {
            name: name.to_vec(alloc)?,
            bytes: bytes.to_vec(alloc)?,
        })
    }

    fn has_name(&self, name: &[u8]) -> bool
        ensures { result ≡ bytes_eq self.now.name name.now }
    {
        self.name.as_slice() == name
    }

    fn name(&self) -> &[u8]
        ensures { result.now ≡ self.now.name }
    {
        self.name.as_slice()
    }

    fn bytes(&self) -> &[u8]
        ensures { result.now ≡ self.now.bytes }
    {
        self.bytes.as_slice()
    }
}

// The place of the first file with this name.
pub fn place_of(files: &[File], name: &[u8]) -> Option<usize>
    ensures place { IfSome result (λ place. place < length files.now) }
    ensures name { IfSome result (λ place. name_at files.now (Some place) ≡ Some name.now) }
    ensures bytes { IfSome result (λ place.
        bytes_of files.now name.now ≡ Some (bytes_at files.now (Some place))) }
    ensures first { IfSome result (IsPlaceOf files.now name.now) }
    ensures not_held { IfNone result (bytes_of files.now name.now ≡ None) }
{
    position_of(files, name)
}

// The place at which a search along the list finds the name.
fn position_of(files: &[File], name: &[u8]) -> Option<usize>
    ensures { result ≡ position (λ file. bytes_eq file.name name.now) files.now }
{
    files.iter().position(|file| file.has_name(name))
}

// Puts a file in the place of the one that has its name.
fn replace_file(files: &mut [File], place: usize, file: File)
    requires within { place < length files.old }
    requires first { IsPlaceOf files.old file.name place }
    ensures bytes { (name : List ℕ) → bytes_of files.new name
        ≡ (if bytes_eq file.name name then Some file.bytes else bytes_of files.old name) }
    ensures names { (i : ℕ) → name_at files.new (Some i) ≡ name_at files.old (Some i) }
{
    files[place] = file;
}

// Puts a file of a new name behind all others.
fn push_file(files: &mut Vec<File>, file: File) -> Result<(), AllocError>
    requires { bytes_of files.old.items file.name ≡ None }
    ensures bytes { OnOk result ((name : List ℕ) → bytes_of files.new.items name
        ≡ (if bytes_eq file.name name then Some file.bytes else bytes_of files.old.items name)) }
    ensures names { (i : ℕ) → i < length files.old.items
        → name_at files.new.items (Some i) ≡ name_at files.old.items (Some i) }
    ensures length { length files.old.items ≤ length files.new.items }
    ensures err { OnErr result (files.new.items ≡ files.old.items) }
{
    files.push(file)?;
    Ok(())
}

// Puts a file in the place of the one that has its name, or behind all others.
pub fn put_file(files: &mut Vec<File>, file: File) -> Result<(), AllocError>
    ensures bytes { OnOk result ((name : List ℕ) → bytes_of files.new.items name
        ≡ (if bytes_eq file.name name then Some file.bytes else bytes_of files.old.items name)) }
    ensures names { (i : ℕ) → i < length files.old.items
        → name_at files.new.items (Some i) ≡ name_at files.old.items (Some i) }
    ensures length { length files.old.items ≤ length files.new.items }
    ensures err { OnErr result (files.new.items ≡ files.old.items) }
{
    match place_of(files, file.name()) {
        Some(place) => {
            replace_file(files, place, file);
            Ok(())
        }
        None => push_file(files, file),
    }
}

// The bytes of the file at this place behind those that were taken.
pub fn rest_of(files: &[File], last: Option<usize>, taken: usize) -> &[u8]
    requires place { ForSome last (λ place. place < length files.now) }
    requires taken { taken ≤ length (bytes_at files.now last) }
    ensures rest { result.now ≡ drop taken (bytes_at files.now last) }
    ensures fits { length (bytes_at files.now last) < 2 ^ 64 }
{
    match last {
        Some(place) => &files[place].bytes()[taken..],
        None => &[],
    }
}

// The name of the file at this place.
pub fn name_of(files: &[File], last: Option<usize>) -> &[u8]
    requires place { ForSome last (λ place. place < length files.now) }
    requires some { IsSome last }
    ensures { name_at files.now last ≡ Some result.now }
{
    match last {
        Some(place) => files[place].name(),
        None => unreachable!(),
    }
}

// Fills a buffer from the front of some bytes, with at most `most` of them, and answers how many it took.
pub fn fill(into: &mut [u8], from: &[u8], most: usize) -> usize
    ensures count { result ≡ min most (min (length from.now) (length into.old)) }
    ensures front { take result into.new ≡ take result from.now }
{
    let count = most.min(from.len().min(into.len()));
    into[..count].copy_from_slice(&from[..count]);
    count
}
