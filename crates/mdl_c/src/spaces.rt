//! The calls that make a manager and free it, and the one that tells the library's version.
ghost use Rattle.std.specs.Prelude.{◌≡◌};
ghost use Rattle.mdl_c_parts.specs.Codes.{library_version};
ghost use Rattle.mdl_c_calls.specs.Exports.{Closes, OpensVersion};

use mdl_c_calls::OneSpace;
use std::alloc::Global;

/// Returns the version of the library.
#[unsafe(no_mangle)]
pub extern "C" fn gaz_one_version() -> u32
    ensures { result ≡ library_version }
{
    mdl_c_calls::gaz_one_version()
}

/// Makes a manager with this number of places and sessions, if there is none yet, for a program that has the headers of this version.
#[unsafe(no_mangle)]
pub extern "C" fn gaz_one_open_version(
    alloc: Global,
    space: &mut OneSpace,
    version: u32,
    places: u16,
    sessions: u16,
) -> u32
    ensures { OpensVersion version places sessions space.old.handle.manager result space.new.handle.manager }
{
    mdl_c_calls::gaz_one_open_version(alloc, space, version, places, sessions)
}

/// Frees the manager, with all that its sessions hold and wait for.
#[unsafe(no_mangle)]
pub extern "C" fn gaz_one_close(alloc: Global, space: &mut OneSpace) -> u32
    ensures { Closes space.old.handle.manager result space.new.handle.manager }
{
    mdl_c_calls::gaz_one_close(alloc, space)
}
