//! `mdl_core`: the words of the space of one thread, in a contract.
ghost use Rattle.std.specs.Prelude.{◌≡◌, IfOk};
ghost use Rattle.mdl_core.specs.Words.{SpeaksFor, empty_core};

use mdl_core::NewError;
use mdl_space::CoreSpace;
use std::alloc::Global;

/// A space of one session, which nobody has asked for anything. The session's calls may be made.
fn lone_space(alloc: Global, places: u16) -> Result<CoreSpace, NewError>
    ensures made { IfOk result (λ space. space ≡ empty_core places 1) }
    ensures speaks { IfOk result (λ space. SpeaksFor space 1) }
{
    CoreSpace::new(alloc, places, 1)
}

#[test]
fn a_space_has_its_limits(rt: HostRuntime) {
    // There are 1 to 256 places in a space.
    // One more is refused.
    let refused = lone_space(rt.alloc(), 257);
    assert!(rt; matches!(refused, Err(NewError::BadPlaces)));
}
