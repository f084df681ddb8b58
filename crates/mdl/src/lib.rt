//! The whole library behind one name: a crate that lists this one in its line of crates.txt needs no other crate of the repository there.
//!
//! The chief types are at the top of this module. Each layer is a module with all that its crate has: [`key`], [`word`], [`defs`],
//! [`book`], [`graph`], [`system`], [`calls`], [`space`], [`context`], [`lines`], [`syntax`], [`stmt`], [`work`], [`script`] and
//! [`shared`]. So `mdl::Key` and `mdl::key::Key` are one type.
//!
//! Contracts cite the definitions of a layer by its crate: what is `Rattle.mdl_core.specs.Words` there is
//! `Rattle.mdl.specs.mdl_core.Words` for a user of this crate. Lemmas are re-exported in the same way, as
//! `Rattle.mdl.proofs.mdl_core.CallLaws`.
//!
//! # Example
//!
//! ```
//! ghost use Rattle.std.specs.Prelude.{◌≡◌};
//! ghost use Rattle.mdl.specs.mdl_calls.Words.{HasNothing};
//! ghost use Rattle.mdl.specs.mdl_shared.Passes.{manager_table, pass_table};
//! ghost use Rattle.mdl.specs.mdl_shared.SessionViews.{data_of};
//!
//! use crate::requests::Request;
//! use crate::work::answer_all;
//! use mdl::{CloseError, LockSpace, Manager, OwnedRunner, Pass, Session};
//! use std::alloc::{AllocError, Global};
//! use std::sync::Wait;
//!
//! // How many definitions the cache of a session keeps.
//! const CACHE: u16 = 64;
//!
//! /// Answers the requests of the session that a pass is for.
//! pub fn serve<R: Wait>(
//!     rt: &R,
//!     alloc: Global,
//!     manager: &Manager,
//!     pass: Pass,
//!     requests: &[Request<'_>],
//! ) -> Result<String, AllocError>
//!     requires { pass_table pass ≡ manager_table manager.now }
//! {
//!     let mut text = String::new(alloc);
//!     let mut session = Session::open(rt, manager, pass);
//!     let who = session.number();
//!     let end = work(alloc, &mut session, who, requests, &mut text);
//!     close(rt, session);
//!     match end {
//!         Ok(()) => Ok(text),
//!         Err(error) => Err(error),
//!     }
//! }
//!
//! // Answers the requests of a session that has nothing, and has nothing in the end.
//! fn work<S: LockSpace>(
//!     alloc: Global,
//!     space: &mut S,
//!     who: u16,
//!     requests: &[Request<'_>],
//!     text: &mut String,
//! ) -> Result<(), AllocError>
//!     requires speaks { S.speaks_for space.old who }
//!     requires nothing { HasNothing (S.own space.old who) }
//!     ensures { HasNothing (S.own space.new who) }
//! {
//!     let Ok(mut runner) = OwnedRunner::new(alloc, who, CACHE) else {
//!         return Err(AllocError);
//!     };
//!     let end = answer_all(alloc, space, &mut runner, who, requests, text);
//!     runner.leave(space);
//!     end
//! }
//!
//! // Closes a session that has nothing. If it owed a place a reschedule, after a fast release, it would make that first.
//! fn close<R: Wait + Drop>(rt: &impl Wait, session: Session<R>)
//!     requires { HasNothing (data_of session).own }
//! {
//!     let mut session = session;
//!     for _ in rt.forever() {
//!         match session.close() {
//!             Ok(_pass) => return,
//!             Err(CloseError::HoldsTickets(_open)) => unreachable!(),
//!             Err(CloseError::Owes(open, place)) => {
//!                 session = open;
//!                 session.reschedule(place);
//!             }
//!         }
//!     }
//!     unreachable!()
//! }
//! ```
#![tactic(auto)]

pub use mdl_book as book;
pub use mdl_book::{Book, Sessions, Ticket};
pub use mdl_calls as calls;
pub use mdl_context as context;
pub use mdl_context::{Acquire, Context, Request, Resume, Tried};
pub use mdl_defs as defs;
pub use mdl_defs::{
    CacheError, Change, Column, Columns, DefCache, Definition, MOST_KEPT, VersionedDefinition,
};
pub use mdl_graph as graph;
pub use mdl_key as key;
pub use mdl_key::{Duration, Key, Kind, Mode, Namespace, conflicts_granted, conflicts_waiting};
pub use mdl_lines as lines;
pub use mdl_script as script;
pub use mdl_script::{DEFAULT_CACHE, Ran, replay, run_on, run_threads};
pub use mdl_shared as shared;
pub use mdl_shared::{CloseError, Manager, Pass, Session};
pub use mdl_space as space;
pub use mdl_space::{
    Attempt, Begun, CoreSpace, Ended, Held, LockSpace, NewError, Place, Poll, Search, Settled,
    SpaceError, TicketId, TimedOut, Upgrade,
};
pub use mdl_stmt as stmt;
pub use mdl_stmt::{ErrorNumber, OwnedRunner, Progress, Reply, Runner};
pub use mdl_syntax as syntax;
pub use mdl_syntax::{Line, Script, Statement, parse};
pub use mdl_system as system;
pub use mdl_word as word;
pub use mdl_word::Word;
pub use mdl_work as work;
pub use mdl_work::{Gate, OpenGate};
