//! Files in memory: a name and its bytes, of which the first of a name counts.
ghost use Rattle.std.specs.Prelude.{◌≡◌, ◌≤◌, ◌++◌, [], length, IfSome, IfNone, OnOk, OnErr};
ghost use Rattle.std.specs.Prelude.{None, option_copied, position};
ghost use Rattle.epic_ports.specs.Files.{GivesPiece, ReadsPiece, Replaces, bytes_at};
ghost use Rattle.epic_ports.specs.MemFiles.{files_in, is_named, names_differ, told_in};

use std::alloc::AllocError;

/// A name and its bytes.
pub(crate) type MemFile = (String, Vec<u8>);

/// Where the first file of a name stands.
pub(crate) fn place_of(files: &[MemFile], name: &str) -> Option<usize>
    ensures { result ≡ position (is_named name.now) files.now }
{
    files.iter().position(|file| file.0.as_str() == name)
}

/// Whether no two files have one name.
pub(crate) fn all_differ(files: &[MemFile]) -> bool
    ensures { result ≡ names_differ files.now }
{
    let mut rest = files;
    while let Some((first, others)) = rest.split_first() {
        if file(others, first.0.as_str()).is_some() {
            return false;
        }
        rest = others;
    }
    true
}

/// The bytes of a name.
pub(crate) fn file<'a>(files: &'a [MemFile], name: &str) -> Option<&'a [u8]>
    ensures { option_copied result ≡ files_in files.now name.now }
{
    match place_of(files, name) {
        Some(i) => Some(files[i].1.as_slice()),
        None => None,
    }
}

/// Copies bytes from byte `at` on, as many as there are and as fit, and answers how many.
fn copy_from(bytes: &[u8], at: u64, buf: &mut [u8]) -> usize
    ensures bound { result ≤ length buf.new }
    ensures piece { GivesPiece bytes.now at result buf.new }
{
    if at >= bytes.len() as u64 {
        return 0;
    }
    let rest = &bytes[at as usize..];
    let n = rest.len().min(buf.len());
    buf[..n].copy_from_slice(&rest[..n]);
    n
}

/// Reads a piece of a file from byte `at` on, if it is there.
pub(crate) fn read_piece(files: &[MemFile], name: &str, at: u64, buf: &mut [u8]) -> Option<usize>
    ensures bound { IfSome result (λ n. n ≤ length buf.new) }
    ensures bytes { IfSome result (λ n. ReadsPiece (told_in files.now) name.now at n buf.new) }
    ensures missing { IfNone result (files_in files.now name.now ≡ None) }
{
    match file(files, name) {
        Some(bytes) => Some(copy_from(bytes, at, buf)),
        None => None,
    }
}

/// Makes a file empty, whether it is there or not.
pub(crate) fn empty_file(files: &mut Vec<MemFile>, name: &str) -> Result<(), AllocError>
    ensures ok { OnOk result (Replaces (told_in files.old.items) (told_in files.new.items) name.now
        []) }
    ensures err { OnErr result (files_in files.new.items ≡ files_in files.old.items) }
{
    match place_of(files, name) {
        Some(i) => {
            files[i].1.clear();
            Ok(())
        }
        None => add_file(files, name, &[]),
    }
}

/// Adds bytes at the end of a file, which is made if it isn't there.
pub(crate) fn grow_file(
    files: &mut Vec<MemFile>,
    name: &str,
    bytes: &[u8],
) -> Result<(), AllocError>
    ensures ok { OnOk result (Replaces (told_in files.old.items) (told_in files.new.items) name.now
        (bytes_at (told_in files.old.items) name.now ++ bytes.now)) }
    ensures err { OnErr result (files_in files.new.items ≡ files_in files.old.items) }
{
    match place_of(files, name) {
        Some(i) => {
            files[i].1.extend_from_slice(bytes)?;
            Ok(())
        }
        None => add_file(files, name, bytes),
    }
}

/// Adds a file of a name that isn't there.
fn add_file(files: &mut Vec<MemFile>, name: &str, bytes: &[u8]) -> Result<(), AllocError>
    requires { files_in files.old.items name.now ≡ None }
    ensures ok { OnOk result (Replaces (told_in files.old.items) (told_in files.new.items) name.now
        bytes.now) }
    ensures err { OnErr result (files_in files.new.items ≡ files_in files.old.items) }
{
    let alloc = *files.allocator();
    let name = String::from_str(alloc, name)?;
    let bytes = Vec::from_slice(alloc, bytes)?;
    files.push((name, bytes))?;
    Ok(())
}
