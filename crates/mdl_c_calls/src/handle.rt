//! What the C program's memory holds of a `ServedSpace`: a pointer to its box, or null.
ghost use Rattle.std.specs.Prelude.{◌≡◌, true, None, Some, is_some, Option, MatchOption};
ghost use Rattle.mdl_c_parts.specs.Handles.{keeps};
ghost use Rattle.mdl_c_calls.specs.Managers.{Managed};
ghost use Rattle.mdl_c_calls.specs.contracts.manager.ServedSpace.{the_row};

use crate::manager::ServedSpace;
use mdl_c_parts::Parts;
use std::alloc::Global;
use std::marker::Model;
use std::{mem, ptr};

/// A pointer to the box of a `ServedSpace`, or null.
#[derive(Drop)]
#[repr(C)]
pub struct Handle {
    at: *mut u8,
    alloc: Global,
    pub ghost manager: { Option Managed },
}

impl Model for Handle {
    ghost also_owns = { λ h. keeps h.alloc the_row h.at h.manager };
}

impl Handle {
    fn none(alloc: Global) -> Handle
        ensures { result.manager ≡ None }
    {
        Handle {
            at: ptr::null_mut(),
            alloc,
        }
    }

    fn of_parts(parts: Parts<ServedSpace, Global>) -> Handle
        ensures { result.manager ≡ Some parts.value }
    {
        let Parts { ptr, alloc } = parts;
        Handle {
            at: ptr as *mut u8,
            alloc,
        }
    }

    fn into_parts(self) -> Parts<ServedSpace, Global>
        requires { is_some self.manager ≡ true }
        ensures { self.manager ≡ Some result.value }
    {
        let Handle { at, alloc } = self;
        Parts {
            ptr: at as *mut ServedSpace,
            alloc,
        }
    }
}

unsafe impl Send for Handle {}

/// The handle of a `ServedSpace`, or the room for one, in memory of the C program: `struct gaz_one_space` of `gaz_one.h`. All of its bytes are 0 if there is no
/// `ServedSpace`.
#[derive(Drop)]
#[repr(C)]
pub struct OneSpace {
    pub handle: Handle,
    is_open: bool,
    ghost tells: { is_some handle.manager ≡ is_open },
}

impl OneSpace {
    /// Whether there is a `ServedSpace`.
    pub(crate) fn is_open(&self) -> bool
        ensures { result ≡ is_some self.now.handle.manager }
    {
        self.is_open
    }

    /// Takes the `ServedSpace` out, if there is one.
    pub(crate) fn take(&mut self, alloc: Global) -> Option<Box<ServedSpace, Global>>
        ensures taken { MatchOption result (self.old.handle.manager ≡ None) (λ b. self.old.handle.manager ≡ Some b.value) }
        ensures left { self.new.handle.manager ≡ None }
    {
        let was = mem::replace(
            self,
            OneSpace {
                handle: Handle::none(alloc),
                is_open: false,
            },
        );
        if !was.is_open {
            return None;
        }
        let OneSpace { handle, is_open: _ } = was;
        Some(handle.into_parts().into_box())
    }

    /// Puts a `ServedSpace` in, where there is none: one that is there would never be freed.
    pub(crate) fn put(&mut self, manager: Box<ServedSpace, Global>)
        requires empty { self.old.handle.manager ≡ None }
        ensures { self.new.handle.manager ≡ Some manager.value }
    {
        *self = OneSpace {
            handle: Handle::of_parts(Parts::of(manager)),
            is_open: true,
        };
    }
}

fn crosses<T: Send>() {}

/// A handle may be sent from one thread of the C program to another: a law, proved as the contract of a function that does nothing.
pub fn spaces_cross() {
    crosses::<OneSpace>();
}
