//! The calls that make a space and free it, and the one that tells the library's version.
ghost use Rattle.std.specs.Prelude.{◌≡◌};
ghost use Rattle.mdl_c_parts.specs.Codes.{library_version};
ghost use Rattle.mdl_c_calls.specs.Exports.{Closes, OpensSpace, OpensVersion};

use crate::handle::OneSpace;
use crate::manager::ServedSpace;
use mdl_c_parts::{CLOSED, DONE, IS_OPEN, NO_MEMORY, OTHER_VERSION, VERSION, new_code};
use std::alloc::Global;

/// Returns the version of the library.
pub fn gaz_one_version() -> u32
    ensures { result ≡ library_version }
{
    VERSION
}

/// Makes a space with this number of places and sessions, if the handle has none yet, for a program that has the headers of this version.
pub fn gaz_one_open_version(
    alloc: Global,
    space: &mut OneSpace,
    version: u32,
    places: u16,
    sessions: u16,
) -> u32
    ensures { OpensVersion version places sessions space.old.handle.manager result space.new.handle.manager }
{
    if version != VERSION {
        return OTHER_VERSION;
    }
    open(alloc, space, places, sessions)
}

// Makes a space, if the handle has none yet.
fn open(alloc: Global, space: &mut OneSpace, places: u16, sessions: u16) -> u32
    ensures { OpensSpace places sessions space.old.handle.manager result space.new.handle.manager }
{
    if space.is_open() {
        return IS_OPEN;
    }
    let manager = match ServedSpace::new(alloc, places, sessions) {
        Ok(manager) => manager,
        Err(why) => return new_code(why),
    };
    match Box::new(alloc, manager) {
        Ok(manager) => {
            space.put(manager);
            DONE
        }
        Err(_) => NO_MEMORY,
    }
}

/// Frees the handle's space, with all that its sessions hold and wait for.
pub fn gaz_one_close(alloc: Global, space: &mut OneSpace) -> u32
    ensures { Closes space.old.handle.manager result space.new.handle.manager }
{
    match space.take(alloc) {
        Some(manager) => {
            drop(manager);
            DONE
        }
        None => CLOSED,
    }
}
