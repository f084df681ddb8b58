//! What C gets of a run that has ended.
ghost use Rattle.std.specs.Prelude.{◌≡◌};
ghost use Rattle.mdl_text.specs.Playing.{PrintsAnswers, Tells};

use crate::codes::{DONE, NO_MEMORY, NO_ROOM, line_code};
use mdl_lines::Fault;

// Copies the answers to the beginning of the room, if they fit. Sets their length in any case.
fn print(answers: &[u8], room: &mut [u8], length: &mut usize, line: u64) -> u32
    ensures { PrintsAnswers answers.now result
        (record { room = room.old; size = length.old; line = line })
        (record { room = room.new; size = length.new; line = line }) }
{
    *length = answers.len();
    if room.len() < answers.len() {
        return NO_ROOM;
    }
    room[..answers.len()].copy_from_slice(answers);
    DONE
}

/// Reports to C how a run ended that has these answers.
pub fn tell(
    end: Result<(), Fault>,
    answers: &[u8],
    room: &mut [u8],
    length: &mut usize,
    line: &mut u64,
) -> u32
    ensures { Tells end answers.now result
        (record { room = room.old; size = length.old; line = line.old })
        (record { room = room.new; size = length.new; line = line.new }) }
{
    match end {
        Ok(()) => print(answers, room, length, *line),
        Err(Fault::Refused(number, why)) => {
            *line = number;
            line_code(why)
        }
        Err(Fault::Memory | Fault::Read | Fault::Write) => NO_MEMORY,
    }
}
