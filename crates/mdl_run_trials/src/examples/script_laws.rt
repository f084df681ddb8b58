//! `mdl_script_laws`: a law of scripts, in a contract.
ghost use Rattle.std.specs.Prelude.{◌≡◌, ℕ, List, take, Ok};
ghost use Rattle.mdl_core.specs.CoreSystems.{system_of};
ghost use Rattle.mdl_script.specs.Worlds.{script_played};
ghost use Rattle.mdl_syntax.specs.declared.script.Line.{Line};
ghost use Rattle.mdl_syntax.specs.Scripts.{parsed};
ghost use Rattle.mdl_system.specs.Deadlocks.{HasNoDeadlock};

use mdl_script::{Fault, replay};
use mdl_script_laws::no_deadlock_stands;
use std::alloc::Global;
use std::test::Fail;

/// What is answered to a script. No deadlock stands after any number of its lines.
fn answers_to(alloc: Global, script: &[u8]) -> Result<Vec<u8>, Fault>
    ensures { (lines : List Line) → parsed script.now ≡ Ok lines
        → (n : ℕ) → HasNoDeadlock (system_of (script_played (take n lines)).world.core) }
{
    no_deadlock_stands(); // a law is called for its clause, and does nothing
    let mut reader = script;
    let mut answers = Vec::new(alloc);
    replay(alloc, &mut reader, &mut answers)?;
    Ok(answers)
}

#[test]
fn a_deadlock_has_its_victim(rt: HostRuntime) -> Result<(), Fail> {
    // As session 1 asks for the first table, the drop waits for it at the second.
    let script =
        "1 CREATE TABLE a x\n1 CREATE TABLE b x\n1 BEGIN\n1 SELECT b\n2 DROP TABLE a b\n1 SELECT a\n";
    let answers = answers_to(rt.alloc(), script.as_bytes())?;
    assert!(rt; answers.ends_with(b"6 1 ERR 1213\n5 2 OK\n"));
    Ok(())
}
