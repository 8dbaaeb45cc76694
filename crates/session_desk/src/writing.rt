//! What a request may have written.

ghost use Rattle.std.specs.Prelude.{◌≡◌, ◌↔◌, true, IfOk, IsTrue};
ghost use Rattle.plain_model.specs.Meant.{meant};
ghost use Rattle.written_keys.specs.Written.{IsEmptied};
ghost use Rattle.session_desk.specs.Writing.{places_meant, emptied_meant};

use command_table::{ReadingFault, read};
use plain_world::Memory;
use resp_frames::Request;
use std::alloc::{AllocError, Global};
use written_keys::{Emptied, Places, emptied_by, places_of};

/// The places that may have been written.
#[derive(Drop)]
pub struct Written<'a> {
    /// These keys.
    pub places: Places<'a>,
    /// And these, in whatever database.
    pub names: Vec<Vec<u8>>,
    /// And all of these databases.
    pub emptied: Emptied,
    /// The database that was selected.
    pub selected: usize,
}

impl<'a> Written<'a> {
    /// Any place.
    pub fn anywhere(alloc: Global) -> Written<'a>
        ensures { result.emptied ≡ Emptied.All }
    {
        Written {
            places: Vec::new(alloc),
            names: Vec::new(alloc),
            emptied: Emptied::All,
            selected: 0,
        }
    }

    /// Keys of these names in whatever database, or any place.
    pub fn of_names(alloc: Global, names: Vec<Vec<u8>>, is_anywhere: bool) -> Written<'a>
        ensures names { result.names ≡ names }
        ensures emptied { is_anywhere ≡ true → result.emptied ≡ Emptied.All }
    {
        let emptied = if is_anywhere {
            Emptied::All
        } else {
            Emptied::Nothing
        };
        Written {
            places: Vec::new(alloc),
            names,
            emptied,
            selected: 0,
        }
    }
}

/// What a request may have written, where a database was selected. `Memory` where memory was refused.
pub fn written_by<'a>(
    alloc: Global,
    request: &'a Request<'_>,
    db: usize,
) -> Result<Written<'a>, Memory>
    ensures places { IfOk result (λ written. written.places.items ≡ places_meant db (meant request.now)) }
    ensures emptied { IfOk result (λ written. written.emptied ≡ emptied_meant (meant request.now)) }
    ensures selected { IfOk result (λ written. written.selected ≡ db) }
{
    match read(alloc, request) {
        Ok(command) => Ok(Written {
            places: places_of(alloc, &command, db)?,
            names: Vec::new(alloc),
            emptied: emptied_by(&command),
            selected: db,
        }),
        Err(ReadingFault::Refused(_)) => Ok(Written {
            places: Vec::new(alloc),
            names: Vec::new(alloc),
            emptied: Emptied::Nothing,
            selected: db,
        }),
        Err(ReadingFault::Memory) => Err(AllocError),
    }
}

/// Whether a database is one that was emptied.
pub fn is_emptied(emptied: Emptied, selected: usize, db: usize) -> bool
    ensures { IsTrue result ↔ IsEmptied emptied selected db }
{
    match emptied {
        Emptied::Nothing => false,
        Emptied::Selected => db == selected,
        Emptied::All => true,
    }
}
