//! Reporting a fault.
ghost use Rattle.std.specs.Prelude.{◌≡◌, ◌∷◌, [], ◌++◌, OnOk};
ghost use Rattle.std.specs.Io.KnownBytes.{Appends};
ghost use Rattle.mdl_lines.specs.Faults.{fault_text, fault_status};

use crate::fault::Fault;
use std::io;
use std::io::Write;

/// Writes the line of a fault, and returns the status with which a program ends after it. If the line can't be written it is
/// lost, and the status is the same. Takes no memory.
pub fn report<W: Write>(fault: &Fault, writer: &mut W) -> u8
    ensures { result ≡ fault_status fault.now }
{
    let _ = tell(fault, writer);
    match fault {
        Fault::Refused(..) => 1,
        Fault::Memory | Fault::Read | Fault::Write => 3,
    }
}

// Writes the line of a fault.
fn tell<W: Write>(fault: &Fault, writer: &mut W) -> io::Result<()>
    ensures { OnOk result (Appends (W.contents writer.old) (W.contents writer.new) (fault_text fault.now ++ 10 ∷ [])) }
{
    writeln!(writer, "{fault}")
}
