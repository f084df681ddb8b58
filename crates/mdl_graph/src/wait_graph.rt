//! Which session waits for which.
ghost use Rattle.std.specs.Prelude.{◌≡◌, ℕ, ◌&&◌, ◌||◌, ◌++◌, [], ◌∷◌, List, false, filter, None, OnOk, OnErr, IfOk};
ghost use Rattle.std.specs.FinSet as set;
ghost use Rattle.mdl_book.specs.declared.book_view.BookView.{BookView};
ghost use Rattle.mdl_graph.specs.Graphs.{empty_graph, is_settled, lock_of, waits, AddsBook, IsGraphOf, deadlock, unsettled_deadlock};
ghost use Rattle.mdl_graph.specs.WaitsFor.{SessionTest, is_unsettled, waits_at, wishes_at};

use crate::counts::session_count;
use crate::levels::{level_at, levels_back};
use crate::lists::Lists;
use crate::rows::{add_waiters, make_room, stands_in_some, waits_in_some};
use crate::settling::{unsettled_waits, unsettled_wishes};
use crate::stands::Stands;
use crate::waits::Waits;
use crate::walks::walk;
use crate::{Cycle, Member};
use mdl_book::{Book, Sessions, Ticket};
use mdl_key::Namespace;
use std::alloc::{AllocError, Global};
use std::marker::Model;

/// A graph of which session waits for which at the locks that were added.
///
/// A session that is settled no longer waits, though its ticket may still be in a waiting list. After MySQL 5.7,
/// `MDL_lock::visit_subgraph` of `sql/mdl.cc`, which looks at the locks as it goes.
#[derive(Drop)]
pub struct WaitGraph {
    settled: Sessions,
    wishes: Vec<Member>,
    // The index of each row's mode in the order of modes.
    ranks: Vec<usize>,
    // Pairs of a row and a session that waits in it.
    waits: Vec<(usize, u16)>,
    // Pairs of a session and a row that it blocks.
    stands: Vec<(u16, usize)>,
}

impl Model for WaitGraph {
    ghost use Rattle.std.specs.Prelude.{length};
    ghost use Rattle.mdl_graph.specs.Graphs.{GraphView, graph_code};
    ghost use Rattle.mdl_graph.specs.Searches.{ties_of, AreWished};

    ghost Value = { GraphView };

    ghost coded = { graph_code };

    ghost view = { λ graph. record {
      settled = graph.settled;
      wishes = graph.wishes.items;
      ties = ties_of graph.waits.items graph.stands.items;
    } };

    ghost invariant = { λ graph. AreWished graph.wishes.items (length graph.ranks.items) graph.waits.items graph.stands.items };
}

impl WaitGraph {
    /// Creates a graph of no locks. `settled` are the sessions whose waits are settled. It takes no memory.
    pub fn new(alloc: Global, settled: Sessions) -> WaitGraph
        ensures { result ≡ empty_graph settled }
    {
        WaitGraph {
            settled,
            wishes: Vec::new(alloc),
            ranks: Vec::new(alloc),
            waits: Vec::new(alloc),
            stands: Vec::new(alloc),
        }
    }

    /// Adds a lock: who waits there, and for whom. If memory runs out, the graph is unchanged. A lock at which nobody waits
    /// takes no memory, and hardly any time.
    #[inline]
    pub fn add(&mut self, book: &Book) -> Result<(), AllocError>
        ensures settled { self.new.settled ≡ self.old.settled }
        ensures wishes { OnOk result (self.new.wishes ≡ self.old.wishes ++ wishes_at (is_settled self.old) book.now) }
        ensures waits { OnOk result ((waiter other : ℕ) → waits self.new waiter other
            ≡ (waits self.old waiter other || waits_at (is_settled self.old) book.now waiter other)) }
        ensures graph { OnOk result (AddsBook book.now self.old self.new) }
        ensures unchanged { OnErr result (self.new ≡ self.old) }
    {
        let waiting = book.waiting();
        if waiting.is_empty() {
            return Ok(());
        }
        self.add_lists(book.key().namespace(), book.granted(), waiting)
    }

    /// Adds a lock by its namespace and its two lists, each in order. If memory runs out, the graph is unchanged.
    pub fn add_lists(
        &mut self,
        namespace: Namespace,
        granted: &[Ticket],
        waiting: &[Ticket],
    ) -> Result<(), AllocError>
        ensures settled { self.new.settled ≡ self.old.settled }
        ensures wishes { OnOk result (self.new.wishes ≡ self.old.wishes ++ wishes_at (is_settled self.old) (lock_of namespace granted.now waiting.now)) }
        ensures waits { OnOk result ((waiter other : ℕ) → waits self.new waiter other
            ≡ (waits self.old waiter other || waits_at (is_settled self.old) (lock_of namespace granted.now waiting.now) waiter other)) }
        ensures graph { OnOk result ((settled : SessionTest) (books : List BookView) (book : BookView)
            → book.key.namespace ≡ namespace → book.granted ≡ granted.now → book.waiting ≡ waiting.now
            → IsGraphOf settled books self.old → IsGraphOf settled (books ++ book ∷ []) self.new) }
        ensures unchanged { OnErr result (self.new ≡ self.old) }
    {
        let lists = Lists::new(namespace, granted, waiting);
        make_room(
            &mut self.wishes,
            &mut self.ranks,
            &mut self.waits,
            &mut self.stands,
        )?;
        self.add_reserved(&lists)
    }

    // Adds a lock, once there is room for most of what is added.
    fn add_reserved(&mut self, book: &Lists) -> Result<(), AllocError>
        ensures settled { self.new.settled ≡ self.old.settled }
        ensures wishes { OnOk result (self.new.wishes ≡ self.old.wishes ++ wishes_at (is_settled self.old) book.now) }
        ensures waits { OnOk result ((waiter other : ℕ) → waits self.new waiter other
            ≡ (waits self.old waiter other || waits_at (is_settled self.old) book.now waiter other)) }
        ensures graph { OnOk result ((settled : SessionTest) (books : List BookView) (one : BookView)
            → one.key.namespace ≡ book.now.key.namespace → one.granted ≡ book.now.granted → one.waiting ≡ book.now.waiting
            → IsGraphOf settled books self.old → IsGraphOf settled (books ++ one ∷ []) self.new) }
        ensures unchanged { OnErr result (self.new ≡ self.old) }
    {
        let wishes = self.wishes.len();
        let ranks = self.ranks.len();
        let waits = self.waits.len();
        let stands = self.stands.len();
        match add_waiters(
            &mut self.wishes,
            &mut self.ranks,
            &mut self.waits,
            &mut self.stands,
            &self.settled,
            book,
        ) {
            Ok(()) => Ok(()),
            Err(refused) => {
                self.wishes.truncate(wishes);
                self.ranks.truncate(ranks);
                self.waits.truncate(waits);
                self.stands.truncate(stands);
                Err(refused)
            }
        }
    }

    /// Returns the shortest cycle of unsettled sessions through one of them, if there is one. Of equal length it is the one
    /// whose list of numbers, beginning with that session, is first in lexicographic order. The time that it takes depends on
    /// the number of sessions and rows.
    pub fn find_cycle(&self, from: u16) -> Result<Option<Cycle>, AllocError>
        ensures { IfOk result (λ found. found ≡ deadlock self.now from) }
    {
        if !self.is_between(from) {
            return Ok(None);
        }
        self.search(from)
    }

    /// Returns the cycle that [`WaitGraph::find_cycle`] would return if these sessions were settled, too.
    pub fn find_unsettled_cycle(
        &self,
        from: u16,
        settled: &Sessions,
    ) -> Result<Option<Cycle>, AllocError>
        ensures { IfOk result (λ found. found ≡ unsettled_deadlock (set.contains settled.now) self.now from) }
    {
        let unsettled = self.without(settled)?;
        unsettled.find_cycle(from)
    }

    // Returns a copy of the graph without the requests of these sessions.
    fn without(&self, settled: &Sessions) -> Result<WaitGraph, AllocError>
        ensures wishes { IfOk result (λ graph. graph.wishes ≡ filter (λ wish. is_unsettled (set.contains settled.now) wish.session) self.now.wishes) }
        ensures waits { IfOk result (λ graph. (waiter other : ℕ) → waits graph waiter other ≡ (is_unsettled (set.contains settled.now) waiter && waits self.now waiter other)) }
    {
        let alloc = *self.wishes.allocator();
        let wishes = unsettled_wishes(alloc, &self.wishes, settled)?;
        let waits = unsettled_waits(alloc, &self.waits, settled)?;
        let mut ranks = Vec::new(alloc);
        ranks.extend_from_slice(&self.ranks)?;
        let mut stands = Vec::new(alloc);
        stands.extend_from_slice(&self.stands)?;
        Ok(WaitGraph {
            settled: Sessions::new(),
            wishes,
            ranks,
            waits,
            stands,
        })
    }

    /// Returns the requests of the unsettled sessions that wait at the locks, in the order in which they were added.
    pub fn wishes(&self) -> &[Member]
        ensures { result.now ≡ self.now.wishes }
    {
        &self.wishes
    }

    // Whether a session waits and blocks some row. Otherwise it is in no cycle.
    fn is_between(&self, from: u16) -> bool
        ensures { result ≡ false → deadlock self.now from ≡ None }
    {
        waits_in_some(&self.waits, from) && stands_in_some(&self.stands, from)
    }

    // Finds the cycle by how many steps the others are away from the session.
    fn search(&self, from: u16) -> Result<Option<Cycle>, AllocError>
        ensures { IfOk result (λ found. found ≡ deadlock self.now from) }
    {
        let alloc = *self.wishes.allocator();
        let count = session_count(&self.waits, &self.stands);
        let waits = Waits::new(alloc, self.ranks.len(), &self.waits)?;
        let stands = Stands::new(alloc, count, &self.stands)?;
        let levels = levels_back(
            alloc,
            &waits,
            &stands,
            count,
            self.ranks.len(),
            usize::from(from),
        )?;
        let steps = level_at(&levels, usize::from(from));
        if steps == 0 {
            return Ok(None);
        }
        let members = walk(alloc, &levels, &waits, &stands, &self.wishes, from, steps)?;
        Ok(Some(Cycle::new(members)))
    }
}
