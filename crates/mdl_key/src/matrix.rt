//! The two matrices: which granted locks a request clashes with, and which pending requests it waits behind.
ghost use Rattle.std.specs.Prelude.{◌≡◌};
ghost use Rattle.mdl_key.specs.BitMaps.{bit_map, has_bit};
ghost use Rattle.mdl_key.specs.Matrices.{clashes, waits_behind, granted_conflicts, waiting_conflicts};

mod tables;

use crate::{Kind, Mode};
use tables::{GRANTED, WAITING};

/// Whether a request for `ask` may not be granted while another session holds `held`.
///
/// After MySQL 5.7, the granted matrices of `sql/mdl.cc`.
pub fn conflicts_granted(kind: Kind, ask: Mode, held: Mode) -> bool
    ensures { result ≡ clashes kind ask held }
{
    contains(granted_row(kind, ask), held)
}

/// Whether a request for `ask` waits while another session's request for `pending` waits.
///
/// After MySQL 5.7, the waiting matrices of `sql/mdl.cc`.
pub fn conflicts_waiting(kind: Kind, ask: Mode, pending: Mode) -> bool
    ensures { result ≡ waits_behind kind ask pending }
{
    contains(waiting_row(kind, ask), pending)
}

/// Returns the modes that clash with a request for `ask` when another session holds them, as a bit map: bit n is the mode
/// at index n of [`Mode::ALL`].
pub fn granted_row(kind: Kind, ask: Mode) -> u16
    ensures { result ≡ bit_map (granted_conflicts kind ask) }
{
    GRANTED[kind as usize][ask as usize]
}

/// Returns the modes that a request for `ask` waits behind when another session waits for them, as such a bit map.
pub fn waiting_row(kind: Kind, ask: Mode) -> u16
    ensures { result ≡ bit_map (waiting_conflicts kind ask) }
{
    WAITING[kind as usize][ask as usize]
}

// Whether a mode is in a set, by its bit in the set's map.
fn contains(modes: u16, mode: Mode) -> bool
    ensures { result ≡ has_bit modes mode }
{
    (modes >> mode as u32) & 1 == 1
}
