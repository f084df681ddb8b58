//! Reading all of a reader's bytes, and writing all of a text.
ghost use Rattle.std.specs.Prelude.{◌≡◌, ◌⊎◌, OnOk, OnErr, IfOk, IfErr, IfSome, IsOkUnless, ◌≤◌, length, take, []};
ghost use Rattle.std.specs.Io.KnownBytes.{Appends, IsAtEnd};
ghost use Rattle.mdl_lines.specs.Devices.{AppendsPart};

use crate::fault::Fault;
use std::alloc::Global;
use std::io::{ErrorKind, Read, Write};

/// Reads all that is left. Fails with `Read` if a read fails, and with `Memory` if memory runs out.
pub fn read_all<R: Read>(alloc: Global, reader: &mut R) -> Result<Vec<u8>, Fault>
    ensures all { IfOk result (λ input. IfSome (R.remaining reader.old) (λ bytes. input.items ≡ bytes)) }
    ensures end { OnOk result (IsAtEnd (R.remaining reader.new)) }
    ensures fault { IfErr result (λ fault. (fault ≡ Fault.Memory) ⊎ (fault ≡ Fault.Read)) }
{
    let mut input = Vec::new(alloc);
    match reader.read_to_end(&mut input) {
        Ok(_) => Ok(input),
        Err(error) => {
            if error.kind() == ErrorKind::OutOfMemory {
                Err(Fault::Memory)
            } else {
                Err(Fault::Read)
            }
        }
    }
}

/// Writes all of a text. Fails with `Write` if a write fails or takes nothing. What was written before that stays written, and
/// is never all of the text.
pub fn write_all<W: Write>(writer: &mut W, text: &[u8]) -> Result<(), Fault>
    ensures all { OnOk result (Appends (W.contents writer.old) (W.contents writer.new) text.now) }
    ensures part { OnErr result (AppendsPart (W.contents writer.old) (W.contents writer.new) text.now) }
    ensures fault { IsOkUnless result Fault.Write }
{
    let mut done = 0;
    for _ in 0..u64::MAX {
        if done == text.len() {
            return Ok(());
        }
        done += write_some(writer, &text[done..])?;
    }
    if done < text.len() {
        Err(Fault::Write)
    } else {
        Ok(())
    }
}

// Makes one write, and returns how many bytes it took: none if it was interrupted.
fn write_some<W: Write>(writer: &mut W, text: &[u8]) -> Result<usize, Fault>
    ensures some { IfOk result (λ count. (count ≤ length text.now) × Appends (W.contents writer.old) (W.contents writer.new) (take count text.now)) }
    ensures none { OnErr result (Appends (W.contents writer.old) (W.contents writer.new) []) }
    ensures fault { IsOkUnless result Fault.Write }
{
    match writer.write(text) {
        Ok(0) => Err(Fault::Write),
        Ok(count) => Ok(count),
        Err(error) => {
            if error.kind() == ErrorKind::Interrupted {
                Ok(0)
            } else {
                Err(Fault::Write)
            }
        }
    }
}
