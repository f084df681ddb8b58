//! The rows of a space of one thread, of one lock's book, and of searches for deadlocks.
use crate::books::{Asked, Shape};
use crate::contexts::Wish;
use crate::row::{Figure, Row, Workload};
use crate::work::Work::{Alone, Asks, Grants, Searches, Takes};

/// The rows of the lower crates.
pub const LOWER: &[Row] = &[
    Row(SPACES, &[]),
    Row(BOOKS, &[]),
    Row(GRAPHS, &[]),
    Row(LONG_RING, &[]),
];

const SPACE_PAIR: Workload = Workload("space", 1, "pair", 20_000);

const CONTEXT_PAIR: Workload = Workload("context", 1, "pair", 20_000);

const GO_BACK: Workload = Workload("context", 1, "turn", 100);

// A space of one thread: a session that holds 1 to 1000 tickets takes and releases a lock, also through a context; and it rolls back a hundred.
const SPACES: &[Figure] = &[
    Figure("try_now_and_release_1", SPACE_PAIR, Takes(1)),
    Figure("try_now_and_release_10", SPACE_PAIR, Takes(10)),
    Figure("try_now_and_release_100", SPACE_PAIR, Takes(100)),
    Figure("try_now_and_release_1000", SPACE_PAIR, Takes(1000)),
    Figure(
        "acquire_and_release_1",
        CONTEXT_PAIR,
        Alone(Wish::Request, 1),
    ),
    Figure(
        "acquire_and_release_10",
        CONTEXT_PAIR,
        Alone(Wish::Request, 10),
    ),
    Figure(
        "acquire_and_release_100",
        CONTEXT_PAIR,
        Alone(Wish::Request, 100),
    ),
    Figure(
        "acquire_and_release_1000",
        CONTEXT_PAIR,
        Alone(Wish::Request, 1000),
    ),
    Figure("lock_and_go_back_100", GO_BACK, Alone(Wish::GoBack, 0)),
];

const BOOK_CALL: Workload = Workload("book", 1, "call", 500_000);

const BOOK_RELEASE: Workload = Workload("book", 1, "release", 500);

const LONG_BOOK_RELEASE: Workload = Workload("book", 1, "release", 50);

// The calls of one lock's book, by the number of its tickets or waiters.
const BOOKS: &[Figure] = &[
    Figure("can_grant_10", BOOK_CALL, Asks(Asked::CanGrant, 10)),
    Figure("can_grant_60000", BOOK_CALL, Asks(Asked::CanGrant, 60_000)),
    Figure(
        "next_grantable_10",
        BOOK_CALL,
        Asks(Asked::NextGrantable, 10),
    ),
    Figure(
        "next_grantable_60000",
        BOOK_CALL,
        Asks(Asked::NextGrantable, 60_000),
    ),
    Figure("grant_all_64", BOOK_RELEASE, Grants(64)),
    Figure("grant_all_640", LONG_BOOK_RELEASE, Grants(640)),
];

const GRAPH_OF_2: Workload = Workload("graph", 1, "search", 5_000);

const GRAPH_OF_8: Workload = Workload("graph", 1, "search", 2_000);

const GRAPH_OF_64: Workload = Workload("graph", 1, "search", 200);

// Searches for a deadlock by the number of sessions, with the graph built from all books.
const GRAPHS: &[Figure] = &[
    Figure("search_of_a_chain_2", GRAPH_OF_2, Searches(Shape::Chain, 2)),
    Figure("search_of_a_chain_8", GRAPH_OF_8, Searches(Shape::Chain, 8)),
    Figure(
        "search_of_a_chain_64",
        GRAPH_OF_64,
        Searches(Shape::Chain, 64),
    ),
    Figure("search_of_a_ring_2", GRAPH_OF_2, Searches(Shape::Ring, 2)),
    Figure("search_of_a_ring_8", GRAPH_OF_8, Searches(Shape::Ring, 8)),
    Figure(
        "search_of_a_ring_64",
        GRAPH_OF_64,
        Searches(Shape::Ring, 64),
    ),
    Figure(
        "search_of_a_dense_graph_2",
        GRAPH_OF_2,
        Searches(Shape::Dense, 2),
    ),
    Figure(
        "search_of_a_dense_graph_8",
        GRAPH_OF_8,
        Searches(Shape::Dense, 8),
    ),
    Figure(
        "search_of_a_dense_graph_64",
        GRAPH_OF_64,
        Searches(Shape::Dense, 64),
    ),
];

const GRAPH_OF_1023: Workload = Workload("graph", 1, "search", 20);

// A search in a ring of nearly as many sessions as there can be.
const LONG_RING: &[Figure] = &[Figure(
    "search_of_a_ring_1023",
    GRAPH_OF_1023,
    Searches(Shape::Ring, 1023),
)];
