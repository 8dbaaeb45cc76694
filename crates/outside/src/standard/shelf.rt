//! The real shelf.

ghost use Rattle.std.specs.Prelude.{◌≡◌, None, true, false, IfOk, is_some};
ghost use Rattle.outside.specs.Files.{told_by};

use crate::standard::streams::write_uninterrupted;
use crate::{HostFault, Shelf};
use std::alloc::Global;
use std::fs::{Files, OpenFile};
use std::io::ErrorKind;
use std::path::Path;
use std::{fs, io};

// The file beside a name, and whether it is still to take the name's place.
#[derive(Drop)]
struct Beside<F> {
    file: F,
    path: String,
    name: String,
    is_open: bool,
}

// Makes the file beside this name, which has no bytes. A name that has something else than an ordinary file is refused.
fn make_beside<R: Files>(alloc: Global, runtime: &R, name: &str) -> io::Result<Beside<R::File>>
    ensures { IfOk result (λ beside. beside.is_open ≡ true) }
{
    if let Ok(found) = fs::metadata(runtime, name) {
        if !found.is_file() {
            return Err(io::Error::from(ErrorKind::InvalidInput));
        }
    }
    let path = format!(in alloc; "{name}.saving")?;
    let name = String::from_str(alloc, name)?;
    let file = fs::create(runtime, path.as_str())?;
    Ok(Beside {
        file,
        path,
        name,
        is_open: true,
    })
}

// Makes the place of this name in its folder last, where the folder can be opened.
fn sync_folder<R: Files>(runtime: &R, name: &str) -> io::Result<()> {
    let folder = match Path::new(name).parent() {
        None => Path::new("."),
        Some(folder) if folder.to_str().unwrap_or("").is_empty() => Path::new("."),
        Some(folder) => folder,
    };
    fs::open(runtime, folder)?.sync_all()
}

// Puts the file beside a name in the name's place, with all its bytes on the disk.
fn take_place<R: Files>(runtime: &R, beside: &Beside<R::File>) -> io::Result<()> {
    beside.file.sync_all()?;
    fs::rename(runtime, beside.path.as_str(), beside.name.as_str())?;
    // The name has the new file already.
    let _ = sync_folder(runtime, beside.name.as_str());
    Ok(())
}

// Removes the file beside a name, where it is still to take the name's place.
fn discard<R: Files>(runtime: &R, beside: &mut Beside<R::File>)
    ensures file { beside.new.file ≡ beside.old.file }
    ensures closed { beside.new.is_open ≡ false }
{
    if beside.is_open {
        let _ = fs::remove_file(runtime, beside.path.as_str());
        beside.is_open = false;
    }
}

/// A shelf over the files of a runtime, which tells none of them.
///
/// The bytes of a name stand in a file beside it, the name with `.saving` behind it, until they are kept: a fault before
/// that, or an end of the process, leaves the name's old file. A name of a folder, a pipe or a device can't be made.
/// After a fault the file beside is removed where that can be done, and no call succeeds until a name is made.
#[derive(Drop)]
pub struct FileShelf<R: Files> {
    alloc: Global,
    runtime: R,
    beside: Option<Beside<R::File>>,
    faults: u64,
}

impl<R: Files> FileShelf<R> {
    /// A shelf over the files of this runtime, or of a `&` of one, with none made and no fault so far. `alloc` is for the
    /// names.
    pub fn new(alloc: Global, runtime: R) -> FileShelf<R>
        ensures none { result.beside ≡ None }
        ensures faults { result.faults ≡ 0 }
    {
        FileShelf {
            alloc,
            runtime,
            beside: None,
            faults: 0,
        }
    }
}

impl<R: Files> Shelf for FileShelf<R> {
    ghost seen = { λ s. record { files = None; made = None; begun = is_some s.beside; written = told_by (λ b. R.File.contents b.file) s.beside; faults = s.faults; room = None } };

    fn make(&mut self, name: &str) -> Result<(), HostFault> {
        if let Some(beside) = &mut self.beside {
            discard(&self.runtime, beside);
        }
        match make_beside(self.alloc, &self.runtime, name) {
            Ok(beside) => {
                self.beside = Some(beside);
                Ok(())
            }
            Err(_) => {
                self.beside = None;
                self.faults = self.faults.saturating_add(1);
                Err(HostFault)
            }
        }
    }

    fn put(&mut self, piece: &[u8]) -> Result<usize, HostFault> {
        if let Some(beside) = &mut self.beside {
            if beside.is_open {
                if let Ok(n) = write_uninterrupted(&mut beside.file, piece) {
                    return Ok(n);
                }
                discard(&self.runtime, beside);
            }
        }
        self.faults = self.faults.saturating_add(1);
        Err(HostFault)
    }

    // A file that was kept takes no more, and isn't kept again.
    fn keep(&mut self) -> Result<(), HostFault> {
        if let Some(beside) = &mut self.beside {
            if beside.is_open && take_place(&self.runtime, beside).is_ok() {
                beside.is_open = false;
                return Ok(());
            }
            discard(&self.runtime, beside);
        }
        self.faults = self.faults.saturating_add(1);
        Err(HostFault)
    }
}
