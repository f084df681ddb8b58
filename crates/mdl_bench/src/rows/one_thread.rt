//! The rows of the table that threads share, on one thread.
use crate::contexts::Wish;
use crate::crowds::Crowd;
use crate::many::Many;
use crate::play::Task::{Burdened, Calls, Pairs, Reads, Steps, Transactions};
use crate::reads::Reading;
use crate::row::{Figure, Goal, Row, Workload};
use crate::session::{Call, Stock};
use crate::words::Step;
use crate::work::Work::{Crowds, Ends, Keys, Plays, Shared, Versions};

/// The rows of the table that threads share, on one thread.
pub const ONE_THREAD: &[Row] = &[
    Row(PAIRS, &[Goal(0, 2, 170), Goal(1, 2, 170), Goal(3, 0, 280)]),
    Row(TRANSACTIONS, &[Goal(0, 2, 170), Goal(1, 2, 500)]),
    Row(EXCLUSIVE, &[Goal(0, 1, 250)]),
    Row(GRANTS, &[Goal(1, 2, 300), Goal(1, 0, 900)]),
    Row(PASSES, &[]),
    Row(
        AGAIN,
        &[
            Goal(0, 1, 200),
            Goal(2, 3, 200),
            Goal(4, 5, 200),
            Goal(4, 0, 120),
        ],
    ),
];

/// More of them: reads, waits, and what takes long.
pub const READS_AND_WAITS: &[Row] = &[
    Row(READS, &[Goal(0, 1, 300), Goal(2, 3, 300), Goal(4, 5, 100)]),
    Row(WAITS, &[Goal(2, 5, 420), Goal(3, 5, 420), Goal(4, 5, 420)]),
    Row(PLACES, &[]),
    Row(ENDS, &[]),
    Row(SLOWED, &[]),
];

// What a session knows and holds: a place without a ticket, a place with one, 250 places with a ticket at the last, and with one at each.
const NOTHING: Stock = Stock { known: 1, held: 0 };

const LITTLE: Stock = Stock { known: 1, held: 1 };

const KNOWN: Stock = Stock {
    known: 250,
    held: 1,
};

const MUCH: Stock = Stock {
    known: 250,
    held: 250,
};

const PAIR: Workload = Workload("shared", 1, "pair", 20_000);

const REQUEST: Workload = Workload("shared", 1, "request", 20_000);

// A fast ticket to read is gained and released, and the same through a context.
const PAIRS: &[Figure] = &[
    Figure("a_pair", PAIR, Plays(Pairs(NOTHING))),
    Figure("a_pair_held_250", PAIR, Plays(Pairs(MUCH))),
    Figure("a_pair_steps", PAIR, Plays(Steps(Step::Pair))),
    Figure("a_request", REQUEST, Shared(Wish::Request, 0)),
];

const TRANSACTION: Workload = Workload("shared", 1, "transaction", 5_000);

// The locks of a transaction that writes three tables, by fast tickets, and through a context.
const TRANSACTIONS: &[Figure] = &[
    Figure("d_transaction", TRANSACTION, Plays(Transactions)),
    Figure(
        "d_transaction_context",
        TRANSACTION,
        Shared(Wish::Transact, 0),
    ),
    Figure(
        "d_transaction_steps",
        TRANSACTION,
        Plays(Steps(Step::Transaction)),
    ),
];

const EXCLUSIVE_PAIR: Workload = Workload("shared", 1, "pair", 10_000);

// A lock is taken in X, without the fast path, and released.
const EXCLUSIVE: &[Figure] = &[
    Figure(
        "x_exclusive",
        EXCLUSIVE_PAIR,
        Plays(Calls(Call::Exclusive, NOTHING)),
    ),
    Figure(
        "x_exclusive_steps",
        EXCLUSIVE_PAIR,
        Plays(Steps(Step::Exclusive)),
    ),
];

const RELEASE: Workload = Workload("shared", 1, "release", 500);

const RELEASE_STEPS: Workload = Workload("shared", 1, "release", 10_000);

// One release grants 8 or 63 waits.
const GRANTS: &[Figure] = &[
    Figure("f_grant_8", RELEASE, Crowds(Crowd::Grant(8))),
    Figure("f_grant_63", RELEASE, Crowds(Crowd::Grant(63))),
    Figure(
        "f_grant_63_steps",
        RELEASE_STEPS,
        Plays(Steps(Step::Exchanges(63))),
    ),
];

const CHAIN: Workload = Workload("shared", 1, "chain", 500);

const LONG_CHAIN: Workload = Workload("shared", 1, "chain", 100);

// X is passed on along a chain of 8 or 63 waits, from the first release to the last.
const PASSES: &[Figure] = &[
    Figure("f_pass_8", CHAIN, Crowds(Crowd::Pass(8))),
    Figure("f_pass_63", LONG_CHAIN, Crowds(Crowd::Pass(63))),
];

const CALL: Workload = Workload("shared", 1, "call", 20_000);

const PROBE: Workload = Workload("shared", 1, "probe", 20_000);

// A lock that is held is requested again, beside 0, 9 or 999 others.
const AGAIN: &[Figure] = &[
    Figure("h_again_1", CALL, Shared(Wish::AskAgain, 0)),
    Figure("h_again_1_probe", PROBE, Keys(1)),
    Figure("h_again_10", CALL, Shared(Wish::AskAgain, 9)),
    Figure("h_again_10_probe", PROBE, Keys(10)),
    Figure("h_again_1000", CALL, Shared(Wish::AskAgain, 999)),
    Figure("h_again_1000_probe", PROBE, Keys(251)),
];

const READ: Workload = Workload("shared", 1, "read", 20_000);

const LONG_READ: Workload = Workload("shared", 1, "read", 1_000);

// A definition is read: lent by a cache, compared with a look-up in a map; and copied from it, compared with a copy under the latch.
const READS: &[Figure] = &[
    Figure("r_read_cached", READ, Plays(Reads(Reading::Cached, 1, 1))),
    Figure("r_read_cached_probe", PROBE, Versions(1)),
    Figure(
        "r_read_cached_250",
        READ,
        Plays(Reads(Reading::Cached, 250, 1)),
    ),
    Figure("r_read_cached_250_probe", PROBE, Versions(250)),
    Figure(
        "r_read_kept_64_columns",
        LONG_READ,
        Plays(Reads(Reading::Kept, 1, 64)),
    ),
    Figure(
        "r_read_definition_64_columns",
        LONG_READ,
        Plays(Reads(Reading::Latched, 1, 64)),
    ),
];

const LOOK: Workload = Workload("shared", 1, "look", 100_000);

const SEARCH: Workload = Workload("shared", 1, "search", 500);

const LONG_SEARCH: Workload = Workload("shared", 1, "search", 200);

const QUEUE_SEARCH: Workload = Workload("shared", 1, "search", 20);

const SEARCH_STEPS: Workload = Workload("shared", 1, "search", 1_000);

// A poll of a wait, and searches for a deadlock from the first of a chain, compared with taking all latches, and by the last of a queue.
const WAITS: &[Figure] = &[
    Figure("poll_wait", LOOK, Crowds(Crowd::Poll)),
    Figure("poll_wait_steps", LOOK, Plays(Steps(Step::Load))),
    Figure("search_deadlock_2", SEARCH, Crowds(Crowd::Search(2))),
    Figure("search_deadlock_8", SEARCH, Crowds(Crowd::Search(8))),
    Figure("search_deadlock_63", LONG_SEARCH, Crowds(Crowd::Search(63))),
    Figure("search_queue_63", LONG_SEARCH, Crowds(Crowd::Queue(63))),
    Figure(
        "search_queue_1000",
        QUEUE_SEARCH,
        Crowds(Crowd::Queue(1000)),
    ),
    Figure(
        "search_deadlock_steps",
        SEARCH_STEPS,
        Plays(Steps(Step::Latches)),
    ),
];

const FIRST_CALL: Workload = Workload("shared", 1, "call", 63);

// The same calls of a session that knows one place, of one that knows 250, and of one that has a ticket at each of them.
const PLACES: &[Figure] = &[
    Figure(
        "try_now_and_release_known_1",
        CALL,
        Plays(Calls(Call::Exclusive, LITTLE)),
    ),
    Figure(
        "try_now_and_release_known_250",
        CALL,
        Plays(Calls(Call::Exclusive, KNOWN)),
    ),
    Figure(
        "try_now_and_release_held_250",
        CALL,
        Plays(Calls(Call::Exclusive, MUCH)),
    ),
    Figure("resolve_known_1", CALL, Plays(Calls(Call::Resolve, LITTLE))),
    Figure(
        "resolve_known_250",
        CALL,
        Plays(Calls(Call::Resolve, KNOWN)),
    ),
    Figure("resolve_held_250", CALL, Plays(Calls(Call::Resolve, MUCH))),
    Figure("key_of_known_1", CALL, Plays(Calls(Call::KeyOf, LITTLE))),
    Figure("key_of_known_250", CALL, Plays(Calls(Call::KeyOf, KNOWN))),
    Figure("key_of_held_250", CALL, Plays(Calls(Call::KeyOf, MUCH))),
    Figure(
        "read_definition_known_1",
        CALL,
        Plays(Calls(Call::Read, LITTLE)),
    ),
    Figure(
        "read_definition_known_250",
        CALL,
        Plays(Calls(Call::Read, KNOWN)),
    ),
    Figure(
        "read_definition_held_250",
        CALL,
        Plays(Calls(Call::Read, MUCH)),
    ),
    Figure(
        "upgrade_and_downgrade_known_1",
        CALL,
        Plays(Calls(Call::Alter, LITTLE)),
    ),
    Figure(
        "upgrade_and_downgrade_known_250",
        CALL,
        Plays(Calls(Call::Alter, KNOWN)),
    ),
    Figure(
        "upgrade_and_downgrade_held_250",
        CALL,
        Plays(Calls(Call::Alter, MUCH)),
    ),
    Figure(
        "first_look_up_among_1",
        FIRST_CALL,
        Crowds(Crowd::LookUp(1)),
    ),
    Figure(
        "first_look_up_among_250",
        FIRST_CALL,
        Crowds(Crowd::LookUp(250)),
    ),
];

const END: Workload = Workload("shared", 1, "end", 3);

// The end of a transaction with 10,000 tickets, which a context releases, or the session itself.
const ENDS: &[Figure] = &[
    Figure("end_10000_context", END, Ends(10_000)),
    Figure("end_10000_session", END, Plays(Burdened(Many::End, 10_000))),
];

const SLOWING: Workload = Workload("shared", 1, "exclusive", 50);

// X of a table makes a session's fast tickets of 250 other tables slow.
const SLOWED: &[Figure] = &[Figure("materialise_250", SLOWING, Plays(Burdened(Many::Slow, 250)))];
