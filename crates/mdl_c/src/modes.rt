//! The call that says whether two modes clash.
ghost use Rattle.std.specs.Prelude.{◌≡◌};
ghost use Rattle.mdl_c_parts.specs.Clashes.{clash_answer};
ghost use Rattle.mdl_c_parts.specs.Codes.{mode_at, namespace_at};

/// Whether a request for a mode has to wait while another session holds the other one, of a key of this namespace.
#[unsafe(no_mangle)]
pub extern "C" fn gaz_one_clashes(namespace: u8, held: u8, wanted: u8) -> u32
    ensures { result ≡ clash_answer (namespace_at namespace) (mode_at held) (mode_at wanted) }
{
    mdl_c_parts::clash_code(namespace, held, wanted)
}
