ghost use Rattle.std.specs.Prelude.{◌≡◌, ◌-◌, ◌↔◌, IsTrue, IsSome, Some, OnOk, OnErr, length, min, take, position};
ghost use Rattle.std.specs.Option.{option_copied, option_map, option_map_or};
ghost use Rattle.stalin_outside.specs.Stored.{is_named, stored, contents, Puts, emptied, grown, free_room};

use super::file::MemFile;
use std::alloc::AllocError;

/// Where the first file of this name stands.
pub fn place_of(files: &[MemFile], name: &[u8]) -> Option<usize>
    ensures { result ≡ position (is_named name.now) files.now }
{
    files.iter().position(|file| file.is_named(name))
}

/// The bytes of the file of this name, where there is one.
pub fn bytes_of<'a>(files: &'a [MemFile], name: &[u8]) -> Option<&'a [u8]>
    ensures { option_copied result ≡ contents files.now name.now }
{
    match place_of(files, name) {
        Some(place) => Some(files[place].bytes()),
        None => None,
    }
}

/// Puts a file of this name in the place of the one that is there, or at the end.
pub fn put(files: &mut Vec<MemFile>, name: &[u8], file: MemFile) -> Result<(), AllocError>
    requires { file.name ≡ name.now }
    ensures ok { OnOk result (Puts name.now (Some file) files.old.items files.new.items) }
    ensures err { OnErr result (files.new.items ≡ files.old.items) }
{
    match place_of(files, name) {
        Some(place) => files[place] = file,
        None => files.push(file)?,
    }
    Ok(())
}

/// Empties the file of this name, and tells whether there is one.
pub fn empty(files: &mut [MemFile], name: &[u8]) -> bool
    ensures there { IsTrue result ↔ IsSome (stored files.old name.now) }
    ensures files { Puts name.now (option_map emptied (stored files.old name.now)) files.old files.new }
{
    match place_of(files, name) {
        Some(place) => {
            files[place].empty();
            true
        }
        None => false,
    }
}

/// Puts as many bytes from the front of `piece` at the end of the file of this name as there is room
/// for, and tells how many: none where there is no such file.
pub fn append(files: &mut [MemFile], name: &[u8], piece: &[u8]) -> usize
    ensures count { result ≡ min (free_room (stored files.old name.now)) (length piece.now) }
    ensures files { Puts name.now (option_map (grown (take result piece.now)) (stored files.old name.now)) files.old files.new }
{
    match place_of(files, name) {
        Some(place) => files[place].append(piece),
        None => 0,
    }
}
