//! Timelines of sessions that wait for each other. [`picture`] draws the [`Moment`]s of a script as SVG: a row for each session, a column for
//! each line, a box for each [`Event`], a bar for each wait, arrows to the sessions that blocked it, a bar for what is held, and colours for light and dark schemes.
//!
//! # Example
//!
//! ```
//! use mdl_picture::{Event, Fate, Moment, picture};
//!
//! let alloc = rt.alloc();
//! // Session 2 waits for session 1 at line 2 of a script.
//! let event = Event {
//!     line: 2,
//!     session: 2,
//!     statement: Vec::from_slice(alloc, b"ALTER TABLE t")?,
//!     answer: Vec::from_slice(alloc, b"WAIT TABLE test.t X")?,
//!     fate: Fate::Waits,
//!     in_the_way: Vec::from_slice(alloc, &[1])?,
//!     held: Vec::new(alloc),
//! };
//! let mut events = Vec::new(alloc);
//! events.push(event)?;
//! let mut moments = Vec::new(alloc);
//! moments.push(Moment {
//!     line: 2,
//!     session: 2,
//!     events,
//! })?;
//! let text = picture(alloc, &moments)?;
//! let arrow = b"<g><title>session 2 waits for session 1 at line 2</title>\n";
//! assert!(rt;
//!     text.windows(arrow.len())
//!         .any(|bytes| bytes == arrow.as_slice())
//! );
//! ```
#![tactic(auto)]

mod arrows;
mod bars;
mod boxes;
mod drawing;
mod frame;
mod held;
mod holds;
mod kind;
mod laws;
mod layout;
mod lines;
mod moment;
mod placing;
mod rows;
mod shapes;
mod sums;
mod svg;
mod tracks;
mod waits;

pub use drawing::picture;
pub use laws::{
    arrows_are_set_apart, arrows_are_the_pairs, boxes_are_apart, boxes_are_the_events,
    boxes_go_right, columns_are_apart, pictures_are_well_formed, rows_are_the_sessions, rows_rise,
    texts_are_kept, tracks_are_apart, waits_are_drawn_once, waits_go_right, what_is_held_is_drawn,
};
pub use moment::{Event, Fate, Held, Moment};
