//! What a page shows of a line.
use std::marker::Model;

/// What a page shows of a line. All texts are JSON, as `mdl_view_text` prints it.
#[derive(Drop)]
pub struct LineFacts {
    /// The number of the line.
    pub line: u64,
    /// Who holds which locks, and who waits for them, after it.
    pub locks: Vec<u8>,
    /// Who waits for whom, and why.
    pub waits: Vec<u8>,
    /// What would follow if sessions ended.
    pub why: Vec<u8>,
}

impl Model for LineFacts {
    ghost use Rattle.mdl_page.specs.Pages.{FactsView};

    ghost Value = { FactsView };

    ghost view = { λ facts. record {
      line = facts.line;
      locks = facts.locks.items;
      waits = facts.waits.items;
      why = facts.why.items;
    } };
}
