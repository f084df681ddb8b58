//! The rows of the table that threads share, on several threads, and on one thread beside them.
use crate::beside::Part;
use crate::contexts::Wish;
use crate::play::Task::{Beside, Mixed, Reads, Steps};
use crate::reads::Reading;
use crate::row::{Figure, Goal, Row, Workload};
use crate::words::Step;
use crate::work::Work::{Alters, Plays, Processors, Through};

/// The rows of the table that threads share, on several threads.
pub const THREADS: &[Row] = &[
    Row(HOT, &[Goal(0, 1, 120), Goal(2, 3, 120)]),
    Row(OWN, &[Goal(1, 0, 120), Goal(3, 2, 120)]),
    Row(CROWDS, &[Goal(0, 1, 170)]),
    Row(CONTEXTS, &[]),
    Row(MIXED, &[Goal(0, 1, 130)]),
    Row(MIXED_OVER_8, &[]),
    Row(PASSED, &[]),
    Row(
        SHARED_READS,
        &[
            Goal(1, 0, 120),
            Goal(3, 2, 120),
            Goal(0, 4, 100),
            Goal(1, 5, 100),
        ],
    ),
];

const PAIR_OF_TWO: Workload = Workload("shared", 2, "pair", 100_000);

const PAIR_OF_FOUR: Workload = Workload("shared", 4, "pair", 100_000);

// Pairs at one place.
const HOT: &[Figure] = &[
    Figure("b_hot", PAIR_OF_TWO, Plays(Beside(Part::Pair, false))),
    Figure("b_hot_steps", PAIR_OF_TWO, Plays(Steps(Step::PairBeside))),
    Figure("b_hot", PAIR_OF_FOUR, Plays(Beside(Part::Pair, false))),
    Figure("b_hot_steps", PAIR_OF_FOUR, Plays(Steps(Step::PairBeside))),
];

const OWN_PAIR: Workload = Workload("shared", 1, "pair", 400_000);

const OWN_PAIR_OF_FOUR: Workload = Workload("shared", 4, "pair", 400_000);

// Pairs of each thread at a place of its own.
const OWN: &[Figure] = &[
    Figure("c_own", OWN_PAIR, Plays(Beside(Part::Pair, true))),
    Figure("c_own", OWN_PAIR_OF_FOUR, Plays(Beside(Part::Pair, true))),
    Figure("c_own_cpu", OWN_PAIR, Processors(Beside(Part::Pair, true))),
    Figure(
        "c_own_cpu",
        OWN_PAIR_OF_FOUR,
        Processors(Beside(Part::Pair, true)),
    ),
];

const TRANSACTION_OF_FOUR: Workload = Workload("shared", 4, "transaction", 50_000);

// Transactions, each thread with tables of its own.
const CROWDS: &[Figure] = &[
    Figure(
        "d_transaction",
        TRANSACTION_OF_FOUR,
        Plays(Beside(Part::Transaction, true)),
    ),
    Figure(
        "d_transaction_steps",
        TRANSACTION_OF_FOUR,
        Plays(Steps(Step::TransactionBeside)),
    ),
];

// Transactions through contexts. Each thread has tables of its own, or all have the same.
const CONTEXTS: &[Figure] = &[
    Figure(
        "d_transaction_context",
        TRANSACTION_OF_FOUR,
        Through(Wish::Transact, true),
    ),
    Figure(
        "d_transaction_same_context",
        TRANSACTION_OF_FOUR,
        Through(Wish::Transact, false),
    ),
];

const ALTER_OF_FOUR: Workload = Workload("shared", 4, "alter", 50_000);

// Transactions, all with the same tables, with an ALTER at times and without.
const MIXED: &[Figure] = &[
    Figure(
        "e_mixed",
        TRANSACTION_OF_FOUR,
        Plays(Beside(Part::TransactionOrAlter, false)),
    ),
    Figure(
        "e_mixed_without",
        TRANSACTION_OF_FOUR,
        Plays(Beside(Part::Transaction, false)),
    ),
    Figure(
        "e_mixed",
        ALTER_OF_FOUR,
        Alters(Beside(Part::TransactionOrAlter, false)),
    ),
];

// Transactions with three of eight tables, with an ALTER of one of the eight at times.
const MIXED_OVER_8: &[Figure] = &[
    Figure("e_mixed_8", TRANSACTION_OF_FOUR, Plays(Mixed)),
    Figure("e_mixed_8", ALTER_OF_FOUR, Alters(Mixed)),
];

const PAIR_OF_8: Workload = Workload("shared", 8, "pair", 1_000);

const PAIR_OF_63: Workload = Workload("shared", 63, "pair", 100);

// X is passed on among 8 or 63 threads: each takes the lock of the same table, and releases it.
const PASSED: &[Figure] = &[
    Figure("x_passed", PAIR_OF_8, Plays(Beside(Part::Exclusive, false))),
    Figure(
        "x_passed",
        PAIR_OF_63,
        Plays(Beside(Part::Exclusive, false)),
    ),
];

const SHARED_READ: Workload = Workload("shared", 1, "read", 100_000);

const READ_OF_FOUR: Workload = Workload("shared", 4, "read", 100_000);

// Reads of one table's definition, lent by each session's own cache, and copied under the latch.
const SHARED_READS: &[Figure] = &[
    Figure(
        "r_read_cached_1",
        SHARED_READ,
        Plays(Reads(Reading::Cached, 1, 1)),
    ),
    Figure(
        "r_read_cached_4",
        READ_OF_FOUR,
        Plays(Reads(Reading::Cached, 1, 1)),
    ),
    Figure(
        "r_read_cached_1_cpu",
        SHARED_READ,
        Processors(Reads(Reading::Cached, 1, 1)),
    ),
    Figure(
        "r_read_cached_4_cpu",
        READ_OF_FOUR,
        Processors(Reads(Reading::Cached, 1, 1)),
    ),
    Figure(
        "r_read_definition_1",
        SHARED_READ,
        Plays(Reads(Reading::Latched, 1, 1)),
    ),
    Figure(
        "r_read_definition_4",
        READ_OF_FOUR,
        Plays(Reads(Reading::Latched, 1, 1)),
    ),
];
