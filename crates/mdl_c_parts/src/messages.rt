//! The text of each code.
ghost use Rattle.std.specs.Prelude.{◌≡◌, ◌≤◌};
ghost use Rattle.mdl_c_parts.specs.Messages.{answer_rows, cause_rows, context_rows, message_of, refusal_rows, text_in};
ghost use Rattle.mdl_c_parts.specs.Rows.{IsListWritten};

use crate::codes::DONE;
use crate::rows::tell_text;

const UNKNOWN: &str = "There is no such code.";

/// Writes the text of a code. A number that is no code has a text, too.
pub fn tell_message(code: u32, room: &mut [u8], count: &mut usize) -> u32
    ensures code { result ≡ 0 }
    ensures told { IsListWritten (message_of code) room.old room.new count.new }
    ensures short { count.new ≤ 80 }
{
    tell_text(message_of(code), room, count);
    DONE
}

fn message_of(code: u32) -> &'static str
    ensures { result.now ≡ message_of code }
{
    if code < 16 {
        answer_text(code)
    } else if code < 32 {
        refusal_text(code)
    } else if code < 48 {
        cause_text(code)
    } else {
        context_text(code)
    }
}

fn answer_text(code: u32) -> &'static str
    ensures { result.now ≡ text_in answer_rows code }
{
    match code {
        0 => "The call is done.",
        1 => "The lock can't be had now, and nothing has changed.",
        2 => "The session waits.",
        3 => "The wait is lost: it was chosen to break a deadlock.",
        4 => "The wait is lost by a timeout.",
        5 => "The wait is lost: it was killed.",
        6 => "No unsettled wait has this number.",
        _ => UNKNOWN,
    }
}

fn refusal_text(code: u32) -> &'static str
    ensures { result.now ≡ text_in refusal_rows code }
{
    match code {
        16 => "There is no manager.",
        17 => "There is a manager already.",
        18 => "The manager has no session of this number.",
        19 => "A manager has 1 to 256 places.",
        20 => "A manager has 1 to 1024 sessions.",
        21 => "There is no mode of this number.",
        22 => "The name is empty.",
        23 => "The name has more than 255 bytes.",
        24 => "The name isn't UTF-8.",
        25 => "A context keeps the tickets of the session.",
        26 => "The session has no context.",
        27 => "The session holds a ticket, has a wait, or pins a place.",
        28 => "There is no duration of this number.",
        29 => "There is no namespace of this number.",
        30 => "The program was built with the headers of another version.",
        _ => UNKNOWN,
    }
}

fn cause_text(code: u32) -> &'static str
    ensures { result.now ≡ text_in cause_rows code }
{
    match code {
        32 => "The session doesn't pin the place, or it has no key, or all places are in use.",
        33 => "The session holds no ticket of this number.",
        34 => "The mode of the ticket can't become the other.",
        35 => "The key isn't locked exclusively.",
        36 => "The session has a wait that it hasn't ended.",
        37 => "The key doesn't take this mode, or the ticket isn't strong enough for it.",
        38 => "The definition has had all its versions.",
        39 => "The session has no wait.",
        40 => "The wait of the session isn't settled.",
        41 => "The session has used up its numbers.",
        42 => "The lock has as many tickets as it can have.",
        43 => "The definition can't be changed so.",
        44 => "Nothing of this kind can be defined under the key.",
        45 => "Memory ran out.",
        46 => "The session has a ticket or a wait at this place.",
        _ => UNKNOWN,
    }
}

fn context_text(code: u32) -> &'static str
    ensures { result.now ≡ text_in context_rows code }
{
    match code {
        48 => "The context keeps fewer tickets than the mark counted.",
        49 => "The context keeps no ticket of this number.",
        50 => "The context has a wait that it hasn't ended.",
        _ => UNKNOWN,
    }
}
