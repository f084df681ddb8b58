//! Plays scripts that C passes.
ghost use Rattle.std.specs.Prelude.{◌≡◌, Some, None};
ghost use Rattle.mdl_lock.specs.Output.{lock_output_of};
ghost use Rattle.mdl_lock.specs.Scripts as commands;
ghost use Rattle.mdl_script.specs.Output.{output_of};
ghost use Rattle.mdl_syntax.specs.Scripts as statements;
ghost use Rattle.mdl_text.specs.Codes.{kind_at};
ghost use Rattle.mdl_text.specs.Playing.{Plays, PlaysLock};

use crate::codes::{NO_KIND, kind_of};
use crate::telling::tell;
use mdl_lock::lock_run;
use mdl_script::replay;
use std::alloc::Global;

/// Plays a script of statements in one thread, as `mdlsim replay` does.
#[tactic(auto, using(crate::proofs::PlayingLemmas::plays))]
#[unsafe(no_mangle)]
pub extern "C" fn gaz_text_replay(
    alloc: Global,
    script: &[u8],
    room: &mut [u8],
    length: &mut usize,
    line: &mut u64,
) -> u32
    ensures { Plays (statements.parsed script.now) (output_of script.now) result
        (record { room = room.old; size = length.old; line = line.old })
        (record { room = room.new; size = length.new; line = line.new }) }
{
    let mut reader = script;
    let mut answers = Vec::new(alloc);
    let end = replay(alloc, &mut reader, &mut answers);
    tell(end, answers.as_slice(), room, length, line)
}

/// Executes a script of commands over one lock, as `mdlsim lock` does: kind 0 is that of a table, kind 1 a scoped one.
#[tactic(auto, using(crate::proofs::PlayingLemmas::plays))]
#[unsafe(no_mangle)]
pub extern "C" fn gaz_text_lock(
    alloc: Global,
    kind: u8,
    script: &[u8],
    room: &mut [u8],
    length: &mut usize,
    line: &mut u64,
) -> u32
    ensures { PlaysLock (kind_at kind) (λ known. commands.parsed known script.now) (λ known. lock_output_of known script.now) result
        (record { room = room.old; size = length.old; line = line.old })
        (record { room = room.new; size = length.new; line = line.new }) }
{
    let Some(kind) = kind_of(kind) else {
        return NO_KIND;
    };
    let mut reader = script;
    let mut answers = Vec::new(alloc);
    let end = lock_run(alloc, kind, &mut reader, &mut answers);
    tell(end, answers.as_slice(), room, length, line)
}
