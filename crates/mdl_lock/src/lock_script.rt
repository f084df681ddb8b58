//! Runs a lock script from bytes to bytes.
ghost use Rattle.std.specs.Prelude.{◌≡◌, OnOk, IfOk, IfErr, IfSome, IsOk};
ghost use Rattle.std.specs.Io.KnownBytes.{Appends, IsAtEnd};
ghost use Rattle.std.specs.String.{string_bytes};
ghost use Rattle.mdl_lines.specs.Devices.{LeavesWritten};
ghost use Rattle.mdl_lines.specs.Faults.{IsFaultOf, MayEnd};
ghost use Rattle.mdl_lock.specs.Output.{lock_output_of, StaysLawful, NeverForgets};
ghost use Rattle.mdl_lock.specs.Scripts.{parsed};

use crate::lock_answers::answers_to;
use crate::parse::parse;
use mdl_key::Kind;
use mdl_lines::{Fault, read_all, write_all};
use std::alloc::Global;
use std::io::{Read, Write};

/// Executes a script of commands over one lock, and writes the answers.
///
/// Reads everything, checks all lines, and only then writes. The contract covers readers and writers that show their
/// bytes, as a slice, a cursor or a vector does. A file or a terminal doesn't.
pub fn lock_run<R: Read, W: Write>(
    alloc: Global,
    kind: Kind,
    reader: &mut R,
    writer: &mut W,
) -> Result<(), Fault>
    // On success, what was written is the defined output of what was read, and all was read.
    ensures output { OnOk result (IfSome (R.remaining reader.old) (λ input.
        Appends (W.contents writer.old) (W.contents writer.new) (lock_output_of kind input))) }
    ensures end { OnOk result (IsAtEnd (R.remaining reader.new)) }

    // A script is refused for its first bad line, and for no other.
    ensures ends { IfSome (R.remaining reader.old) (λ input. MayEnd (parsed kind input) result) }

    // After a fault, a first part of the output was written but never all of it, and nothing unless writing failed.
    ensures fault { IfErr result (λ fault. IfSome (R.remaining reader.old) (λ input.
        LeavesWritten fault (W.contents writer.old) (W.contents writer.new) (lock_output_of kind input))) }

    // While that output is made, no two sessions ever hold locks that clash.
    ensures lawful { IfSome (R.remaining reader.old) (λ input. StaysLawful kind (parsed kind input)) }

    // No session is ever left waiting that could be granted.
    ensures none_forgotten { IfSome (R.remaining reader.old) (λ input. NeverForgets kind (parsed kind input)) }
{
    let input = read_all(alloc, reader)?;
    let output = output(alloc, kind, &input)?;
    write_all(writer, output.as_bytes())?;
    Ok(())
}

// Returns the output of a script.
fn output(alloc: Global, kind: Kind, script: &[u8]) -> Result<String, Fault>
    ensures output { IfOk result (λ output. string_bytes output ≡ lock_output_of kind script.now) }
    ensures accepted { OnOk result (IsOk (parsed kind script.now)) }
    ensures fault { IfErr result (IsFaultOf (parsed kind script.now)) }
    ensures lawful { StaysLawful kind (parsed kind script.now) }
    ensures none_forgotten { NeverForgets kind (parsed kind script.now) }
{
    let commands = parse(alloc, kind, script)?;
    answers_to(alloc, kind, &commands)
}
