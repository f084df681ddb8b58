//! A session's calls through its context: in the table that threads share, and in a space of one thread.
ghost use Rattle.std.specs.Prelude.{◌≡◌};
ghost use Rattle.mdl_context.specs.Contexts.{Attends};
ghost use Rattle.mdl_shared.specs.Passes.{manager_table, pass_table};

use crate::failure::Failure;
use crate::lap::{Lap, Race, Start};
use crate::seat::close;
use crate::table::table;
use mdl_calls::{LockSpace, TicketId};
use mdl_context::{Acquire, Context, Request};
use mdl_key::{Duration, Key, MOST_PLACES, MOST_SESSIONS, Mode};
use mdl_shared::{Manager, Pass, Session};
use mdl_space::CoreSpace;
use std::alloc::Global;
use std::sync::Wait;
use std::time;
use std::time::{Clock, CpuClock, Instant};

// The number of tables over which a session's other tickets are spread.
const SPREAD: u16 = 250;

// The number of tables that are locked after a savepoint.
const LOCKED: u16 = 100;

/// What is done in a turn through a context.
#[derive(Clone, Copy)]
pub enum Wish {
    /// A table's lock is acquired to read, and released.
    Request,
    /// GLOBAL is acquired in IX and three tables in SW, and the transaction ends.
    Transact,
    /// A lock that is held already is acquired again.
    AskAgain,
    /// A hundred tables are locked, and the session rolls back to the mark before them.
    GoBack,
}

/// The lock space of a session.
pub enum Home {
    /// A new table that threads share.
    Shared,
    /// A new space of one thread, whose only session it is.
    Alone,
}

/// What is timed of a session's context.
#[derive(Clone, Copy)]
pub enum Plan {
    /// Turns of a wish, while the session holds a number of tickets. A transaction has three tables from the index `from` on.
    Turns { wish: Wish, tickets: u16, from: u16 },
    /// The ends of transactions with a number of tickets, which the session acquires before.
    Ends(u16),
}

/// Times `turns` turns of one session.
pub fn time_context<R: Wait + Clock + CpuClock>(
    rt: &R,
    alloc: Global,
    home: &Home,
    plan: Plan,
    turns: u32,
) -> Result<time::Duration, Failure> {
    let race = Race::new(alloc, 1, turns)?;
    let lap = match home {
        Home::Shared => time_shared(rt, alloc, plan, &race),
        Home::Alone => time_alone(rt, alloc, plan, &race),
    };
    drop(race);
    Ok(lap?.clock)
}

// The same for a session of a new table.
fn time_shared<R: Wait + Clock + CpuClock>(
    rt: &R,
    alloc: Global,
    plan: Plan,
    race: &Race,
) -> Result<Lap, Failure> {
    let (manager, mut passes) = Manager::new(alloc, MOST_PLACES, MOST_SESSIONS)?;
    let pass = passes.remove(0);
    drop(passes);
    let lap = time_pass(rt, rt, alloc, &manager, pass, plan, race);
    drop(manager);
    lap
}

/// The same for the session of a pass, which waits with the handle `wait`.
pub fn time_pass<R: Wait + Clock + CpuClock, W: Wait + Drop>(
    rt: &R,
    wait: W,
    alloc: Global,
    manager: &Manager,
    pass: Pass,
    plan: Plan,
    race: &Race,
) -> Result<Lap, Failure>
    requires { pass_table pass ≡ manager_table manager.now }
{
    let mut session = Session::open(wait, manager, pass);
    let mut context = Context::new(alloc, session.number());
    let lap = timed(rt, alloc, &mut session, &mut context, plan, race);
    drop(context);
    close(rt, session);
    lap
}

// The same for the only session of a new space of one thread.
fn time_alone<R: Clock + CpuClock>(
    rt: &R,
    alloc: Global,
    plan: Plan,
    race: &Race,
) -> Result<Lap, Failure> {
    match CoreSpace::new(alloc, MOST_PLACES, 1) {
        Ok(mut space) => {
            let mut context = Context::new(alloc, 1);
            let lap = timed(rt, alloc, &mut space, &mut context, plan, race);
            drop(context);
            drop(space);
            lap
        }
        Err(_) => Err(Failure::Unmade),
    }
}

// The same for a session that has nothing yet.
fn timed<R: Clock + CpuClock, S: LockSpace>(
    rt: &R,
    alloc: Global,
    space: &mut S,
    context: &mut Context<S>,
    plan: Plan,
    race: &Race,
) -> Result<Lap, Failure>
    requires { Attends S.LockSpace space.old context.old }
{
    match plan {
        Plan::Turns {
            wish,
            tickets,
            from,
        } => {
            stock_up(alloc, space, context, tickets)?;
            let next = u64::from(tickets).wrapping_add(1);
            time_turns(rt, alloc, space, context, &wish, from, next, race)
        }
        Plan::Ends(tickets) => time_ends(rt, alloc, space, context, tickets, race),
    }
}

// Times the ends of transactions with `tickets` tickets.
fn time_ends<R: Clock, S: LockSpace>(
    rt: &R,
    alloc: Global,
    space: &mut S,
    context: &mut Context<S>,
    tickets: u16,
    race: &Race,
) -> Result<Lap, Failure>
    requires { Attends S.LockSpace space.old context.old }
{
    let mut spent = time::Duration::ZERO;
    for _turn in 0..race.turns {
        begin(alloc, space, context, tickets)?;
        spent = spent.saturating_add(time_end(rt, space, context)?);
    }
    Ok(Lap::by_clock(spent))
}

// Acquires `tickets` tickets for the transaction. At first they are explicit, since otherwise one of the same table would be used again.
fn begin<S: LockSpace>(
    alloc: Global,
    space: &mut S,
    context: &mut Context<S>,
    tickets: u16,
) -> Result<(), Failure>
    requires { Attends S.LockSpace space.old context.old }
    ensures { Attends S.LockSpace space.new context.new }
{
    stock_up(alloc, space, context, tickets)?;
    match context.make_transactional() {
        Ok(()) => Ok(()),
        Err(_) => Err(Failure::Unexpected),
    }
}

// Ends the transaction. Returns how long that took.
fn time_end<R: Clock, S: LockSpace>(
    rt: &R,
    space: &mut S,
    context: &mut Context<S>,
) -> Result<time::Duration, Failure>
    requires { Attends S.LockSpace space.old context.old }
    ensures { Attends S.LockSpace space.new context.new }
{
    let began = Instant::now(rt)?;
    let ended = context.end_transaction(space);
    let spent = began.elapsed(rt)?;
    match ended {
        Ok(()) => Ok(spent),
        Err(_) => Err(Failure::Unexpected),
    }
}

// Times turns of a wish, of a session that has its tickets. The next one gets the number `next`.
fn time_turns<R: Clock + CpuClock, S: LockSpace>(
    rt: &R,
    alloc: Global,
    space: &mut S,
    context: &mut Context<S>,
    wish: &Wish,
    from: u16,
    next: TicketId,
    race: &Race,
) -> Result<Lap, Failure>
    requires { Attends S.LockSpace space.old context.old }
{
    let mut keys = Vec::new(alloc);
    let lap = match list_keys(alloc, wish, from, &mut keys) {
        Ok(()) => time_wishes(rt, space, context, wish, &keys, next, race),
        Err(why) => Err(why),
    };
    drop(keys);
    lap
}

// The same with the keys of the wish, once all threads are ready. The first turn isn't timed: the space gives the keys their places then.
fn time_wishes<R: Clock + CpuClock, S: LockSpace>(
    rt: &R,
    space: &mut S,
    context: &mut Context<S>,
    wish: &Wish,
    keys: &[Key],
    next: TicketId,
    race: &Race,
) -> Result<Lap, Failure>
    requires { Attends S.LockSpace space.old context.old }
{
    if wish_often(space, context, wish, keys, next, 1) == 0 {
        return Err(Failure::Unexpected);
    }
    let start = Start::of(rt, race)?;
    let made = wish_often(space, context, wish, keys, next, race.turns);
    start.lap(rt, race, made)
}

// Acquires `tickets` explicit tickets, spread over tables.
fn stock_up<S: LockSpace>(
    alloc: Global,
    space: &mut S,
    context: &mut Context<S>,
    tickets: u16,
) -> Result<(), Failure>
    requires { Attends S.LockSpace space.old context.old }
    ensures { Attends S.LockSpace space.new context.new }
{
    for index in 0..tickets {
        let key = table(alloc, index % SPREAD)?;
        let got = acquire(space, context, &key, Mode::SR, Duration::Explicit);
        drop(key);
        if got.is_none() {
            return Err(Failure::Unexpected);
        }
    }
    Ok(())
}

// Adds the keys of a wish. A transaction has three tables from the index `from` on.
fn list_keys(alloc: Global, wish: &Wish, from: u16, keys: &mut Vec<Key>) -> Result<(), Failure> {
    match wish {
        Wish::Request | Wish::AskAgain => list_tables(alloc, keys, SPREAD, 1),
        Wish::Transact => {
            list(keys, Key::global(alloc))?;
            list_tables(alloc, keys, from, 3)
        }
        Wish::GoBack => list_tables(alloc, keys, 0, LOCKED),
    }
}

// Adds the keys of `count` tables from the index `from` on.
fn list_tables(alloc: Global, keys: &mut Vec<Key>, from: u16, count: u16) -> Result<(), Failure> {
    for index in from..from.saturating_add(count) {
        list(keys, table(alloc, index)?)?;
    }
    Ok(())
}

// Adds a key.
fn list(keys: &mut Vec<Key>, key: Key) -> Result<(), Failure> {
    let pushed = keys.push(key);
    let is_there = pushed.is_ok();
    drop(pushed);
    if is_there {
        Ok(())
    } else {
        Err(Failure::Memory)
    }
}

// Makes `turns` turns. Returns how many succeeded. The ticket of the first turn gets the number `next`.
fn wish_often<S: LockSpace>(
    space: &mut S,
    context: &mut Context<S>,
    wish: &Wish,
    keys: &[Key],
    next: TicketId,
    turns: u32,
) -> u32
    requires { Attends S.LockSpace space.old context.old }
    ensures { Attends S.LockSpace space.new context.new }
{
    let Some((first, others)) = keys.split_first() else {
        return 0;
    };
    let mut made = 0u32;
    for _turn in 0..turns {
        let well = match wish {
            Wish::Request => requests(space, context, first),
            Wish::Transact => transacts(space, context, first, others),
            Wish::AskAgain => asks_again(space, context, first, next),
            Wish::GoBack => goes_back(space, context, keys),
        };
        made = made.wrapping_add(u32::from(well));
    }
    made
}

// Acquires a lock to read and releases it. Whether both succeeded.
fn requests<S: LockSpace>(space: &mut S, context: &mut Context<S>, key: &Key) -> bool
    requires { Attends S.LockSpace space.old context.old }
    ensures { Attends S.LockSpace space.new context.new }
{
    match acquire(space, context, key, Mode::SR, Duration::Transaction) {
        Some(id) => context.release(space, id).is_ok(),
        None => false,
    }
}

// Acquires all locks and ends the transaction. Whether all succeeded.
fn transacts<S: LockSpace>(
    space: &mut S,
    context: &mut Context<S>,
    global: &Key,
    tables: &[Key],
) -> bool
    requires { Attends S.LockSpace space.old context.old }
    ensures { Attends S.LockSpace space.new context.new }
{
    acquire(space, context, global, Mode::IX, Duration::Transaction).is_some()
        && acquires(space, context, tables, Mode::SW)
        && context.end_transaction(space).is_ok()
}

// Acquires a lock. Whether its ticket is `id`, which is used again once it is held.
fn asks_again<S: LockSpace>(
    space: &mut S,
    context: &mut Context<S>,
    key: &Key,
    id: TicketId,
) -> bool
    requires { Attends S.LockSpace space.old context.old }
    ensures { Attends S.LockSpace space.new context.new }
{
    acquire(space, context, key, Mode::SR, Duration::Transaction) == Some(id)
}

// Locks all tables and rolls back to the mark before. Whether all succeeded.
fn goes_back<S: LockSpace>(space: &mut S, context: &mut Context<S>, tables: &[Key]) -> bool
    requires { Attends S.LockSpace space.old context.old }
    ensures { Attends S.LockSpace space.new context.new }
{
    let mark = context.savepoint();
    acquires(space, context, tables, Mode::SR) && context.rollback_to(space, mark).is_ok()
}

// Acquires each lock in a mode, for the transaction. Whether all succeeded.
fn acquires<S: LockSpace>(space: &mut S, context: &mut Context<S>, keys: &[Key], mode: Mode) -> bool
    requires { Attends S.LockSpace space.old context.old }
    ensures { Attends S.LockSpace space.new context.new }
{
    let mut all = true;
    for key in keys {
        all &= acquire(space, context, key, mode, Duration::Transaction).is_some();
    }
    all
}

// Acquires a lock. Returns nothing if the request has to wait or is refused.
fn acquire<S: LockSpace>(
    space: &mut S,
    context: &mut Context<S>,
    key: &Key,
    mode: Mode,
    duration: Duration,
) -> Option<TicketId>
    requires { Attends S.LockSpace space.old context.old }
    ensures { Attends S.LockSpace space.new context.new }
{
    let request = Request {
        key,
        mode,
        duration,
    };
    match context.acquire(space, request) {
        Ok(Acquire::Acquired(id)) => Some(id),
        _ => None,
    }
}
