//! Modes: their names, and their properties for each kind.
use crate::base::rows::is_right;
use crate::base::texts::is_printed;
use mdl_key::{Kind, Mode, ModeError, Namespace, is_obtrusive, weight};
use std::alloc::Global;

// A mode and its name; whether scoped locks and object locks have it, and whether it is obtrusive there; and the weight of a request for it, except
// on the global lock and on user-level locks.
type Row = (Mode, &'static str, [bool; 2], [bool; 2], u8);

const ROWS: &[Row] = &[
    (Mode::IX, "IX", [true, false], [false, true], 0),
    (Mode::S, "S", [true, true], [true, false], 0),
    (Mode::SH, "SH", [false, true], [true, false], 0),
    (Mode::SR, "SR", [false, true], [true, false], 0),
    (Mode::SW, "SW", [false, true], [true, false], 0),
    (Mode::SWLP, "SWLP", [false, true], [true, false], 0),
    (Mode::SU, "SU", [false, true], [true, true], 100),
    (Mode::SRO, "SRO", [false, true], [true, true], 100),
    (Mode::SNW, "SNW", [false, true], [true, true], 100),
    (Mode::SNRW, "SNRW", [false, true], [true, true], 100),
    (Mode::X, "X", [true, true], [true, true], 100),
];

// Whether a mode has this name, and the name is parsed as the mode.
fn is_named(alloc: Global, mode: Mode, name: &str) -> bool {
    mode.as_str() == name && is_printed(alloc, &mode, name) && name.parse::<Mode>() == Ok(mode)
}

// Whether a mode has the properties in its row, for both kinds.
fn is_as_told((mode, _, had, obtrusive, _): Row) -> bool {
    [Kind::Scoped.has_mode(mode), Kind::Object.has_mode(mode)] == had
        && [
            is_obtrusive(Kind::Scoped, mode),
            is_obtrusive(Kind::Object, mode),
        ] == obtrusive
}

// Whether a request for a mode has this weight, but 100 on the global lock and 50 on user-level locks.
fn weighs(mode: Mode, elsewhere: u8) -> bool {
    weight(Namespace::Global, mode) == 100
        && weight(Namespace::Schema, mode) == elsewhere
        && weight(Namespace::Table, mode) == elsewhere
        && weight(Namespace::Commit, mode) == elsewhere
        && weight(Namespace::UserLevelLock, mode) == 50
}

fn is_told(alloc: Global, row: Row) -> bool {
    is_named(alloc, row.0, row.1) && is_as_told(row) && weighs(row.0, row.4)
}

// The rows are in the order of all modes.
#[test]
fn modes_are_as_told(rt: HostRuntime) {
    for (place, row) in ROWS.iter().enumerate() {
        let right = Mode::ALL.get(place) == Some(&row.0) && is_told(rt.alloc(), *row);
        is_right(&rt, place, right);
    }
}

// Texts that name no mode.
const NO_MODES: &[&str] = &["sr", "IXX", "", "I", " X", "X ", "SWL", "XI"];

#[test]
fn other_texts_name_no_mode(rt: HostRuntime) {
    for (row, name) in NO_MODES.iter().enumerate() {
        is_right(&rt, row, name.parse::<Mode>() == Err(ModeError));
    }
}
