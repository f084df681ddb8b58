//! Which of two modes is the stronger.
ghost use Rattle.std.specs.Prelude.{◌≡◌};
ghost use Rattle.mdl_system.specs.Strength.{common_kind, covers, may_upgrade, may_downgrade};

use mdl_key::{Kind, Mode, at_least};

/// Whether, of two modes of one kind, the first is at least as strong as the second.
pub fn covers(a: Mode, b: Mode) -> bool
    ensures { result ≡ covers a b }
{
    at_least(common_kind(a, b), a, b)
}

/// Whether a held mode may become another by an upgrade.
pub fn may_upgrade(held: Mode, mode: Mode) -> bool
    ensures { result ≡ may_upgrade held mode }
{
    match held {
        Mode::SU => matches!(mode, Mode::SNW | Mode::SNRW | Mode::X),
        Mode::SNW => matches!(mode, Mode::SNRW | Mode::X),
        Mode::SNRW => mode == Mode::X,
        _ => false,
    }
}

/// Whether a held mode may become another by a downgrade.
pub fn may_downgrade(held: Mode, mode: Mode) -> bool
    ensures { result ≡ may_downgrade held mode }
{
    match held {
        Mode::X => matches!(mode, Mode::SU | Mode::SNW | Mode::SNRW),
        Mode::SNW => mode == Mode::SU,
        _ => false,
    }
}

// A kind that has both modes, if there is one.
fn common_kind(a: Mode, b: Mode) -> Kind
    ensures { result ≡ common_kind a b }
{
    if Kind::Object.has_mode(a) && Kind::Object.has_mode(b) {
        Kind::Object
    } else {
        Kind::Scoped
    }
}
