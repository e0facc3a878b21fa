//! The files that a run writes besides its output.

ghost use Rattle.std.specs.Prelude.{◌++◌, List, option_map};
ghost use Rattle.epic_capture.specs.Saving as saving;
ghost use Rattle.epic_app.specs.Added.{IsNamedIn, StoreActs, added_to, all_added, made_of};
ghost use Rattle.epic_app.specs.Keeping.{kept_in};
ghost use Rattle.epic_app.specs.Kept.{Kept, opening};

use epic_capture::file_head;
use epic_ports::{PortError, Store, append_all};

/// The names of the files that a run writes besides its output, as far as they are named.
#[derive(Clone, Copy, Debug)]
pub struct Keeping<'a> {
    /// The capture of what is emitted.
    pub save: Option<&'a str>,
    /// The lines of what happens.
    pub ledger: Option<&'a str>,
    /// The lines of the verdicts.
    pub verdicts: Option<&'a str>,
}

/// Makes a file, if one is named.
fn make<S: Store>(file: Option<&str>, store: &mut S) -> Result<(), PortError>
    ensures { (kept : List Kept) → IsNamedIn (option_map (λ name. name.now) file.entry) kept
        → StoreActs kept (made_of (option_map (λ name. name.now) file.entry))
        (S.contents store.old) (S.reads store.old) (S.writes store.old)
        (S.contents store.new) (S.reads store.new) (S.writes store.new) result }
{
    match file {
        Some(name) => store.create(name),
        None => Ok(()),
    }
}

/// Adds a text at the end of a file, if one is named.
fn add<S: Store>(file: Option<&str>, text: &[u8], store: &mut S) -> Result<(), PortError>
    ensures { (kept : List Kept) → IsNamedIn (option_map (λ name. name.now) file.entry) kept
        → StoreActs kept (added_to (option_map (λ name. name.now) file.entry) text.now)
        (S.contents store.old) (S.reads store.old) (S.writes store.old)
        (S.contents store.new) (S.reads store.new) (S.writes store.new) result }
{
    match file {
        Some(name) => append_all(store, name, text),
        None => Ok(()),
    }
}

/// Makes the capture, if one is named, and writes its header.
fn open_capture<S: Store>(file: Option<&str>, store: &mut S) -> Result<(), PortError>
    ensures { (kept : List Kept) → IsNamedIn (option_map (λ name. name.now) file.entry) kept
        → StoreActs kept (made_of (option_map (λ name. name.now) file.entry)
        ++ added_to (option_map (λ name. name.now) file.entry) saving.file_head)
        (S.contents store.old) (S.reads store.old) (S.writes store.old)
        (S.contents store.new) (S.reads store.new) (S.writes store.new) result }
{
    match make(file, store) {
        Ok(()) => add(file, &file_head(), store),
        Err(error) => Err(error),
    }
}

/// Makes two files, if they are named.
fn make_two<S: Store>(
    first: Option<&str>,
    second: Option<&str>,
    store: &mut S,
) -> Result<(), PortError>
    ensures { (kept : List Kept) → IsNamedIn (option_map (λ name. name.now) first.entry) kept
        → IsNamedIn (option_map (λ name. name.now) second.entry) kept
        → StoreActs kept (made_of (option_map (λ name. name.now) first.entry)
        ++ made_of (option_map (λ name. name.now) second.entry))
        (S.contents store.old) (S.reads store.old) (S.writes store.old)
        (S.contents store.new) (S.reads store.new) (S.writes store.new) result }
{
    match make(first, store) {
        Ok(()) => make(second, store),
        Err(error) => Err(error),
    }
}

/// Makes the files, and writes the header of the capture.
pub fn open_kept<S: Store>(keep: &Keeping<'_>, store: &mut S) -> Result<(), PortError>
    ensures { StoreActs (kept_in keep.now) (opening (kept_in keep.now))
        (S.contents store.old) (S.reads store.old) (S.writes store.old)
        (S.contents store.new) (S.reads store.new) (S.writes store.new) result }
{
    match open_capture(keep.save, store) {
        Ok(()) => make_two(keep.ledger, keep.verdicts, store),
        Err(error) => Err(error),
    }
}

/// What a step adds to the files.
#[derive(Drop)]
pub struct Added {
    pub saved: Vec<u8>,
    pub ledger: Vec<u8>,
    pub verdicts: Vec<u8>,
}

/// Adds texts to two files, if they are named.
fn add_two<S: Store>(
    first: Option<&str>,
    text: &[u8],
    second: Option<&str>,
    other: &[u8],
    store: &mut S,
) -> Result<(), PortError>
    ensures { (kept : List Kept) → IsNamedIn (option_map (λ name. name.now) first.entry) kept
        → IsNamedIn (option_map (λ name. name.now) second.entry) kept
        → StoreActs kept (added_to (option_map (λ name. name.now) first.entry) text.now
        ++ added_to (option_map (λ name. name.now) second.entry) other.now)
        (S.contents store.old) (S.reads store.old) (S.writes store.old)
        (S.contents store.new) (S.reads store.new) (S.writes store.new) result }
{
    match add(first, text, store) {
        Ok(()) => add(second, other, store),
        Err(error) => Err(error),
    }
}

/// Adds this to the files.
pub fn add_kept<S: Store>(keep: &Keeping<'_>, added: &Added, store: &mut S) -> Result<(), PortError>
    ensures { StoreActs (kept_in keep.now)
        (all_added keep.now added.now.saved.items added.now.ledger.items added.now.verdicts.items)
        (S.contents store.old) (S.reads store.old) (S.writes store.old)
        (S.contents store.new) (S.reads store.new) (S.writes store.new) result }
{
    match add(keep.save, &added.saved, store) {
        Ok(()) => add_two(
            keep.ledger,
            &added.ledger,
            keep.verdicts,
            &added.verdicts,
            store,
        ),
        Err(error) => Err(error),
    }
}
