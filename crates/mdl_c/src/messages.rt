//! The text of each code.
ghost use Rattle.std.specs.Prelude.{◌≡◌, ◌≤◌};
ghost use Rattle.mdl_c_parts.specs.Messages.{message_of};
ghost use Rattle.mdl_c_parts.specs.Rows.{IsListWritten};

/// Writes the text of a code. A number that is no code has a text, too.
#[unsafe(no_mangle)]
pub extern "C" fn gaz_one_message(code: u32, room: &mut [u8], count: &mut usize) -> u32
    ensures code { result ≡ 0 }
    ensures told { IsListWritten (message_of code) room.old room.new count.new }
    ensures short { count.new ≤ 80 }
{
    mdl_c_parts::tell_message(code, room, count)
}
