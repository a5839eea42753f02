ghost use Rattle.std.specs.Prelude.{◌≡◌, ◌||◌, not, ℕ, List, map, OnOk, IfOk, IfErr, IsOkUnless};
ghost use Rattle.bundle.specs.Entry.{Entry};
ghost use Rattle.bundle.specs.Bundle.{IsBundle, BadAt, Stops};
ghost use Rattle.bundle.specs.Paths.{has_path, list_eq};
ghost use Rattle.bundle.specs.Fault.{IsFaultOf};
ghost use Rattle.bundle.specs.File.{file_of};

use crate::entry::{FileEntry, next_entry, strip};
use std::alloc::{AllocFailed, Global};
use std::collections::BTreeSet;

/// Why bytes weren't taken as a bundle.
#[derive(Clone, Copy, Debug, PartialEq, Eq)]
pub enum BundleError {
    /// They are no bundle; `at` is the place of the first entry that isn't spelled whole with a
    /// new path, or of the first byte after the last line.
    Bad { at: usize },
    OutOfMemory,
}

impl<T: Drop> From<AllocFailed<T>> for BundleError {
    ghost use Rattle.std.specs.Prelude.{◌≡◌};
    ghost use Rattle.bundle.specs.declared.bundle.BundleError.TheVariants.{OutOfMemory};

    ghost from_gives = { λ _ e. e ≡ OutOfMemory };

    fn from(_error: AllocFailed<T>) -> BundleError {
        BundleError::OutOfMemory
    }
}

// Adds a path, and answers whether it is new.
fn add_path<'a>(seen: &mut BTreeSet<&'a [u8]>, path: &'a [u8]) -> Result<bool, BundleError>
    ensures added { IfOk result (λ new. new ≡ not (has_path seen.old path.now)) }
    ensures err { IsOkUnless result BundleError.OutOfMemory }
    ensures kept { OnOk result ((q : List ℕ) → has_path seen.new q ≡ (list_eq q path.now || has_path seen.old q)) }
{
    Ok(seen.insert(path)?)
}

// Takes entries with new paths from the front, and answers what comes after them.
fn skip_entries(alloc: Global, bytes: &[u8]) -> Result<&[u8], BundleError>
    ensures ok { IfOk result (λ rest. Stops bytes.now rest.now) }
    ensures err { IsOkUnless result BundleError.OutOfMemory }
{
    let mut seen: BTreeSet<&[u8]> = BTreeSet::new(alloc);
    let mut rest = bytes;
    while let Some((file, after)) = next_entry(rest) {
        if !add_path(&mut seen, file.path)? {
            return Ok(rest);
        }
        rest = after;
    }
    Ok(rest)
}

/// Whether the bytes are a bundle: entries with good paths of their own, in any order, then a line
/// `end`, and nothing after it. It takes memory for the paths alone, and none of them is copied.
pub fn check_bundle(alloc: Global, bytes: &[u8]) -> Result<(), BundleError>
    ensures bundle { OnOk result ((files : List Entry) × IsBundle files bytes.now) }
    ensures bad { IfErr result (IsFaultOf bytes.now) }
    ensures only { (files : List Entry) → IsBundle files bytes.now → IsOkUnless result BundleError.OutOfMemory }
{
    let rest = skip_entries(alloc, bytes)?;
    match strip(rest, b"end\n") {
        None => Err(BundleError::Bad {
            at: bytes.len() - rest.len(),
        }),
        Some(more) if more.is_empty() => Ok(()),
        Some(more) => Err(BundleError::Bad {
            at: bytes.len() - more.len(),
        }),
    }
}

// The files of a bundle, in its order.
fn entries(alloc: Global, bytes: &[u8]) -> Result<Vec<FileEntry<'_>>, BundleError>
    requires { (files : List Entry) × IsBundle files bytes.now }
    ensures files { IfOk result (λ files. IsBundle (map file_of files.items) bytes.now) }
    ensures err { IsOkUnless result BundleError.OutOfMemory }
{
    let mut files = Vec::new(alloc);
    let mut rest = bytes;
    while let Some((file, after)) = next_entry(rest) {
        files.push(file)?;
        rest = after;
    }
    Ok(files)
}

/// The files of a bundle, in its order and borrowed from its bytes. `Bad` comes exactly where the
/// bytes are no bundle, with the first place at fault; it takes memory for the paths and for the
/// list of files.
pub fn read_bundle(alloc: Global, bytes: &[u8]) -> Result<Vec<FileEntry<'_>>, BundleError>
    ensures files { IfOk result (λ files. IsBundle (map file_of files.items) bytes.now) }
    ensures bad { IfErr result (IsFaultOf bytes.now) }
    ensures only { (files : List Entry) → IsBundle files bytes.now → IsOkUnless result BundleError.OutOfMemory }
{
    match check_bundle(alloc, bytes) {
        Ok(()) => entries(alloc, bytes),
        Err(fault) => Err(fault),
    }
}
