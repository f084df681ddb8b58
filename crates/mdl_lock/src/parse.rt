//! Reads lock scripts.
ghost use Rattle.std.specs.Prelude.{◌≡◌, ◌≤◌, ◌++◌, ◌∷◌, [], true, Ok, IfOk, IfErr};
ghost use Rattle.std.specs.List.{All};
ghost use Rattle.mdl_key.specs.Words.{most_sessions};
ghost use Rattle.mdl_lines.specs.Faults.{IsFaultOf};
ghost use Rattle.mdl_lock.specs.Scripts.{parsed};

use crate::lines::line_says;
use crate::script_command::ScriptCommand;
use mdl_key::Kind;
use mdl_lines::{Fault, strip_carriage_return};
use std::alloc::Global;

/// Returns the commands of a script. Refused with the number and the error of its first bad line, also if memory ran out
/// before that line.
pub fn parse(alloc: Global, kind: Kind, text: &[u8]) -> Result<Vec<ScriptCommand>, Fault>
    ensures parsed { IfOk result (λ commands. parsed kind text.now ≡ Ok commands.items) }
    ensures refused { IfErr result (λ fault. IsFaultOf (parsed kind text.now) fault) }
    ensures sessions { IfOk result (λ commands. All (λ command. (1 ≤ command.session) × (command.session ≤ most_sessions)) commands.items) }
{
    let mut commands = Vec::new(alloc);
    let mut number = 0;
    let mut has_room = true;
    for line in text.split(|byte| *byte == b'\n') {
        number += 1;
        match line_says(kind, strip_carriage_return(line)) {
            Ok(Some(command)) => has_room = push_in_room(&mut commands, has_room, command),
            Ok(None) => {}
            Err(error) => return Err(Fault::Refused(number, error)),
        }
    }
    if has_room {
        Ok(commands)
    } else {
        Err(Fault::Memory)
    }
}

// Adds a command, if there was room for those before it, and returns whether there is room for it too.
fn push_in_room(commands: &mut Vec<ScriptCommand>, has_room: bool, command: ScriptCommand) -> bool
    ensures { result ≡ true → (has_room ≡ true) × (commands.new.items ≡ commands.old.items ++ command ∷ []) }
{
    has_room && commands.push(command).is_ok()
}
