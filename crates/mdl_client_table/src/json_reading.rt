//! Text in JSON, byte by byte.
ghost use Rattle.std.specs.Prelude.{◌≡◌, OnOk};
ghost use Rattle.mdl_client_table.specs.Json.{ends_word, is_blank, mark_of, with_byte, with_end, with_first, with_json_line, with_end_of_line, with_more, with_opened, with_text_byte};
ghost use Rattle.mdl_client_table.specs.Objects.{objects_end};

use crate::json_cell::cell_of;
use crate::json_error::{JsonFault, Place};
use crate::objects::{Mark, Objects};
use crate::table::Table;
use std::alloc::{AllocError, Global};
use std::marker::Model;

/// Where in a piece the text is.
#[derive(Clone, Copy)]
pub(crate) enum Mode {
    /// Between two pieces.
    Between,
    /// In a word.
    InWord,
    /// In a string.
    InText,
    /// In a string, behind a backslash.
    Escaped,
}

/// Rows in JSON while they are read.
#[derive(Drop)]
pub(crate) struct Json {
    objects: Objects,
    mode: Mode,
    begin: Place,
    piece: Vec<u8>,
}

impl Model for Json {
    ghost use Rattle.mdl_client_table.specs.Json.{JsonText};

    ghost Value = { JsonText };

    ghost view = { λ json. record {
      objects = json.objects;
      mode = json.mode;
      begin = json.begin;
      piece = json.piece.items;
    } };
}

impl Json {
    ghost use Rattle.mdl_client_table.specs.Json.{no_json};

    /// Returns nothing that was read.
    pub(crate) fn new(alloc: Global) -> Json
        ensures { result ≡ no_json }
    {
        Json {
            objects: Objects::new(alloc),
            mode: Mode::Between,
            begin: Place { line: 1, column: 1 },
            piece: Vec::new(alloc),
        }
    }

    /// Adds the line of this number.
    pub(crate) fn add_line(
        &mut self,
        alloc: Global,
        number: u64,
        line: &[u8],
    ) -> Result<(), AllocError>
        ensures { OnOk result (self.new ≡ with_json_line number line.now self.old) }
    {
        let mut column = 1;
        for byte in line {
            let place = Place {
                line: number,
                column,
            };
            self.add_byte(alloc, place, *byte)?;
            column += 1;
        }
        self.end_line(alloc)
    }

    /// Returns the table, or the first fault.
    pub(crate) fn finish(self) -> Result<Table, JsonFault>
        ensures { objects_end self.objects.expected self.begin self.objects.table ≡ result }
    {
        self.objects.finish(self.begin)
    }

    // Adds a byte.
    fn add_byte(&mut self, alloc: Global, place: Place, byte: u8) -> Result<(), AllocError>
        ensures { OnOk result (self.new ≡ with_byte self.old.mode place byte self.old) }
    {
        match self.mode {
            Mode::Between => self.add_first(alloc, place, byte),
            Mode::InWord => self.add_word_byte(alloc, place, byte),
            Mode::InText => self.add_text_byte(alloc, byte),
            Mode::Escaped => self.add_more(Mode::InText, byte),
        }
    }

    // Adds a byte behind a word: one more of its bytes, or the first behind it.
    fn add_word_byte(&mut self, alloc: Global, place: Place, byte: u8) -> Result<(), AllocError>
        ensures { OnOk result (self.new ≡ with_byte Mode.InWord place byte self.old) }
    {
        if ends_word(byte) {
            self.end_piece(alloc)?;
            self.add_first(alloc, place, byte)
        } else {
            self.add_more(Mode::InWord, byte)
        }
    }

    // Adds a byte of a string.
    fn add_text_byte(&mut self, alloc: Global, byte: u8) -> Result<(), AllocError>
        ensures { OnOk result (self.new ≡ with_text_byte byte self.old) }
    {
        match byte {
            b'"' => {
                self.add_more(Mode::InText, byte)?;
                self.end_piece(alloc)
            }
            b'\\' => self.add_more(Mode::Escaped, byte),
            _ => self.add_more(Mode::InText, byte),
        }
    }

    // Adds a byte between two pieces.
    fn add_first(&mut self, alloc: Global, place: Place, byte: u8) -> Result<(), AllocError>
        ensures { OnOk result (self.new ≡ with_first place byte self.old) }
    {
        if is_blank(byte) {
            self.mode = Mode::Between;
            return Ok(());
        }
        if byte == b'"' {
            return self.open(Mode::InText, place, byte);
        }
        match mark_of(byte) {
            Some(mark) => {
                self.mode = Mode::Between;
                self.begin = place;
                self.objects.add_mark(alloc, place, mark)
            }
            None => self.open(Mode::InWord, place, byte),
        }
    }

    // Begins a string or a word.
    fn open(&mut self, mode: Mode, place: Place, byte: u8) -> Result<(), AllocError>
        ensures { OnOk result (self.new ≡ with_opened mode place byte self.old) }
    {
        self.mode = mode;
        self.begin = place;
        self.piece.clear();
        self.piece.push(byte)?;
        Ok(())
    }

    // Adds a byte to the piece.
    fn add_more(&mut self, mode: Mode, byte: u8) -> Result<(), AllocError>
        ensures { OnOk result (self.new ≡ with_more mode byte self.old) }
    {
        self.mode = mode;
        self.piece.push(byte)?;
        Ok(())
    }

    // Ends a string or a word.
    fn end_piece(&mut self, alloc: Global) -> Result<(), AllocError>
        ensures { OnOk result (self.new ≡ with_end self.old) }
    {
        let cell = cell_of(alloc, &self.piece)?;
        self.objects.add_cell(alloc, self.begin, cell)?;
        self.mode = Mode::Between;
        Ok(())
    }

    // Ends a line.
    fn end_line(&mut self, alloc: Global) -> Result<(), AllocError>
        ensures { OnOk result (self.new ≡ with_end_of_line self.old) }
    {
        match self.mode {
            Mode::Between => Ok(()),
            Mode::InWord | Mode::InText | Mode::Escaped => self.end_piece(alloc),
        }
    }
}

// Whether a byte may be between two pieces.
fn is_blank(byte: u8) -> bool
    ensures { result ≡ is_blank byte }
{
    byte == b' ' || byte == b'\t' || byte == b'\n' || byte == b'\r'
}

// The mark that a byte is.
fn mark_of(byte: u8) -> Option<Mark>
    ensures { result ≡ mark_of byte }
{
    match byte {
        b'[' => Some(Mark::OpenList),
        b']' => Some(Mark::CloseList),
        b'{' => Some(Mark::OpenRow),
        b'}' => Some(Mark::CloseRow),
        b',' => Some(Mark::Comma),
        b':' => Some(Mark::Colon),
        _ => None,
    }
}

// Whether a byte ends a word.
fn ends_word(byte: u8) -> bool
    ensures { result ≡ ends_word byte }
{
    is_blank(byte) || byte == b'"' || mark_of(byte).is_some()
}
