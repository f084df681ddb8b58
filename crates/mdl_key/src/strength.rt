//! The strength of modes, which of them are obtrusive, and the weight of a request.
ghost use Rattle.std.specs.Prelude.{◌≡◌, ◌↔◌, IsTrue, filter};
ghost use Rattle.mdl_key.specs.BitMaps.{bit_map};
ghost use Rattle.mdl_key.specs.Modes.{all_modes};
ghost use Rattle.mdl_key.specs.Classes.{is_obtrusive, is_at_least, IsAtLeast, weight_of};

use crate::matrix::granted_row;
use crate::{Kind, Mode, Namespace};

const DDL_WEIGHT: u8 = 100;

const USER_LOCK_WEIGHT: u8 = 50;

const DML_WEIGHT: u8 = 0;

/// Whether the mode is obtrusive: its tickets are never merely counted, and every request has to check them. All modes are
/// except IX of scoped locks and S, SH, SR, SW and SWLP of object locks. A mode that the kind doesn't use is obtrusive.
///
/// After MySQL 5.7, `MDL_lock::is_obtrusive_lock` of `sql/mdl.cc`.
pub fn is_obtrusive(kind: Kind, mode: Mode) -> bool
    ensures { result ≡ is_obtrusive kind mode }
{
    match kind {
        Kind::Scoped => mode != Mode::IX,
        Kind::Object => !matches!(mode, Mode::S | Mode::SH | Mode::SR | Mode::SW | Mode::SWLP),
    }
}

/// Returns the obtrusive modes as a bit map: bit n is the mode at index n of [`Mode::ALL`].
pub fn obtrusive_row(kind: Kind) -> u16
    ensures { result ≡ bit_map (filter (is_obtrusive kind) all_modes) }
{
    match kind {
        Kind::Scoped => 0b111_1111_1110,
        Kind::Object => 0b111_1100_0001,
    }
}

/// Whether `a` is at least as strong as `b`: whatever clashes with `b` clashes with `a`. Two modes can each be at least as
/// strong as the other, like S and SH, or neither, like SU and SRO.
///
/// After MySQL 5.7, `MDL_ticket::has_stronger_or_equal_type` of `sql/mdl.cc`.
pub fn at_least(kind: Kind, a: Mode, b: Mode) -> bool
    ensures test { result ≡ is_at_least kind a b }
    ensures relation { IsTrue result ↔ IsAtLeast kind a b }
{
    covers(kind, a, b)
}

// Whether the row of `b` in the granted matrix is a subset of the row of `a`.
fn covers(kind: Kind, a: Mode, b: Mode) -> bool
    ensures { result ≡ is_at_least kind a b }
{
    granted_row(kind, b) & !granted_row(kind, a) == 0
}

/// Returns the weight of a request for the mode, by which a search for deadlocks chooses its victim. It is 100 in the
/// namespace of the global lock and 50 in that of user-level locks, for every mode. Elsewhere it is 100 for SU and the
/// modes after it in the order of modes, and 0 for the others.
///
/// After MySQL 5.7, `MDL_ticket::get_deadlock_weight` of `sql/mdl.cc`.
pub fn weight(namespace: Namespace, mode: Mode) -> u8
    ensures { result ≡ weight_of namespace mode }
{
    match namespace {
        Namespace::Global => DDL_WEIGHT,
        Namespace::UserLevelLock => USER_LOCK_WEIGHT,
        _ if mode >= Mode::SU => DDL_WEIGHT,
        _ => DML_WEIGHT,
    }
}
