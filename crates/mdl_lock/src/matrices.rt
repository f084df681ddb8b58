//! Prints the two matrices of both kinds of lock.
ghost use Rattle.std.specs.Prelude.{◌≡◌, ◌⊎◌, ◌++◌, OnOk, IfOk, IfErr};
ghost use Rattle.std.specs.Io.KnownBytes.{Appends};
ghost use Rattle.std.specs.List.{list_any};
ghost use Rattle.std.specs.String.{string_bytes};
ghost use Rattle.mdl_key.specs.Modes.{same_mode};
ghost use Rattle.mdl_lock.specs.MatrixText.{kind_name, matrix_name, row_of, row_text, line_of, lines_of_matrix, matrix_text, known_lines, printed};
ghost use Rattle.mdl_lines.specs.Devices.{LeavesWritten};

use mdl_key::{Kind, Mode, conflicts_granted, conflicts_waiting};
use mdl_lines::{Fault, write_all};
use std::alloc::{AllocError, Global};
use std::io::Write;

/// Writes both matrices of both kinds of lock, a line for each requested mode.
///
/// The contract covers writers that show their bytes, as a vector does.
pub fn matrix_run<W: Write>(alloc: Global, writer: &mut W) -> Result<(), Fault>
    ensures printed { OnOk result (Appends (W.contents writer.old) (W.contents writer.new) matrix_text) }

    // After a fault, a first part was written but never all, and nothing unless writing failed.
    ensures part { IfErr result (λ fault. LeavesWritten fault (W.contents writer.old) (W.contents writer.new) matrix_text) }
    ensures fault { IfErr result (λ fault. (fault ≡ Fault.Memory) ⊎ (fault ≡ Fault.Write)) }
{
    let text = matrix_text(alloc).map_err(|_| Fault::Memory)?;
    write_all(writer, text.as_bytes())
}

/// The text of the matrices is these 26 lines.
pub fn matrices_are_known()
    ensures { matrix_text ≡ printed known_lines }
{}

// One of the two matrices.
#[derive(Clone, Copy)]
enum Matrix {
    // The modes that clash with a request while another session holds them.
    Granted,
    // The modes that a request waits behind while another session waits for them.
    Waiting,
}

impl Matrix {
    fn as_str(self) -> &'static str
        ensures { result.now ≡ matrix_name self }
    {
        match self {
            Matrix::Granted => "GRANTED",
            Matrix::Waiting => "WAITING",
        }
    }

    // Whether the other mode is in the row of the requested one.
    fn has(self, kind: Kind, ask: Mode, other: Mode) -> bool
        ensures { result ≡ list_any (same_mode other) (row_of self kind ask) }
    {
        match self {
            Matrix::Granted => conflicts_granted(kind, ask, other),
            Matrix::Waiting => conflicts_waiting(kind, ask, other),
        }
    }
}

// Returns both matrices of both kinds.
fn matrix_text(alloc: Global) -> Result<String, AllocError>
    ensures { IfOk result (λ text. string_bytes text ≡ matrix_text) }
{
    let mut text = String::new(alloc);
    push_lines(alloc, &mut text, Kind::Scoped, Matrix::Granted)?;
    push_lines(alloc, &mut text, Kind::Scoped, Matrix::Waiting)?;
    push_lines(alloc, &mut text, Kind::Object, Matrix::Granted)?;
    push_lines(alloc, &mut text, Kind::Object, Matrix::Waiting)?;
    Ok(text)
}

// Appends the lines of a matrix.
fn push_lines(
    alloc: Global,
    text: &mut String,
    kind: Kind,
    matrix: Matrix,
) -> Result<(), AllocError>
    ensures { OnOk result (string_bytes text.new ≡ string_bytes text.old ++ lines_of_matrix kind matrix) }
{
    for ask in Mode::ALL {
        if kind.has_mode(ask) {
            text.push_str(&line(alloc, kind, matrix, ask)?)?;
        }
    }
    Ok(())
}

// Returns the line of a requested mode, with its line feed.
fn line(alloc: Global, kind: Kind, matrix: Matrix, ask: Mode) -> Result<String, AllocError>
    ensures { IfOk result (λ text. string_bytes text ≡ line_of kind matrix ask) }
{
    let kind_name = kind_name(kind);
    let matrix_name = matrix.as_str();
    let row = row_text(alloc, &row(alloc, kind, matrix, ask)?)?;
    format!(in alloc; "{kind_name} {matrix_name} {ask}: {row}\n")
}

fn kind_name(kind: Kind) -> &'static str
    ensures { result.now ≡ kind_name kind }
{
    match kind {
        Kind::Scoped => "SCOPED",
        Kind::Object => "OBJECT",
    }
}

// Returns the modes in the row of the requested one.
fn row(alloc: Global, kind: Kind, matrix: Matrix, ask: Mode) -> Result<Vec<Mode>, AllocError>
    ensures { IfOk result (λ row. row.items ≡ row_of matrix kind ask) }
{
    Mode::ALL
        .iter()
        .copied()
        .filter(|other| matrix.has(kind, ask, *other))
        .collect(alloc)
}

// Returns the modes of a row, separated by spaces, or `-` if there are none.
fn row_text(alloc: Global, row: &[Mode]) -> Result<String, AllocError>
    ensures { IfOk result (λ text. string_bytes text ≡ row_text row.now) }
{
    if row.is_empty() {
        return String::from_str(alloc, "-");
    }
    let names: Vec<&str> = row.iter().map(|mode| mode.as_str()).collect(alloc)?;
    names.join(alloc, " ")
}
