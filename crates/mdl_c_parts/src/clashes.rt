//! Whether two modes clash, as a code.
ghost use Rattle.std.specs.Prelude.{◌≡◌};
ghost use Rattle.mdl_key.specs.Modes.{kind_of};
ghost use Rattle.mdl_c_parts.specs.Clashes.{clash_among, clash_answer};
ghost use Rattle.mdl_c_parts.specs.Codes.{mode_at, namespace_at};

use crate::codes::{BAD_MODE, DONE, NO_MODE, NO_NAMESPACE, WOULD_WAIT, mode_of, namespace_of};
use mdl_key::{Kind, Mode, conflicts_granted};

/// Whether a request for a mode has to wait while another session holds the other one, of a key of this namespace.
pub fn clash_code(namespace: u8, held: u8, wanted: u8) -> u32
    ensures { result ≡ clash_answer (namespace_at namespace) (mode_at held) (mode_at wanted) }
{
    let Some(namespace) = namespace_of(namespace) else {
        return NO_NAMESPACE;
    };
    let Some(held) = mode_of(held) else {
        return NO_MODE;
    };
    let Some(wanted) = mode_of(wanted) else {
        return NO_MODE;
    };
    clash_among(namespace.kind(), held, wanted)
}

// The same of a kind of keys.
fn clash_among(kind: Kind, held: Mode, wanted: Mode) -> u32
    ensures { result ≡ clash_among kind held wanted }
{
    if !kind.has_mode(held) || !kind.has_mode(wanted) {
        BAD_MODE
    } else if conflicts_granted(kind, wanted, held) {
        WOULD_WAIT
    } else {
        DONE
    }
}
