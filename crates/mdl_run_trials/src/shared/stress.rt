//! Sessions make calls on threads of their own, while one more audits the books: eight sessions over eight tables, and sixteen that race for
//! one. In the end each has some fast tickets, and the words of the locks count just these. Each wait was settled once, as the session that
//! settled it recorded, and many were, some in each way. Each table's version is the number of its changes.
ghost use Rattle.std.specs.Prelude.{◌≡◌};
ghost use Rattle.mdl_shared.specs.Passes.{ArePasses, manager_table, pass_table};

use crate::checks::is_right;
use crate::shared::acts::{Act, Reply, make};
use crate::shared::fast_counts::are_counted;
use crate::shared::players::{Player, leave, look_all_up, play, was_answered, watch};
use crate::shared::sessions::{close, take_last};
use mdl_calls::{Held, Place, Settled};
use mdl_key::Mode;
use mdl_shared::{Audited, Manager, Pass, Session};
use mdl_word::Word;
use std::alloc::{AllocError, Global};
use std::process::Abort;
use std::sync::Wait;
use std::sync::atomic::{AtomicBool, AtomicU64};
use std::thread;
use std::thread::Threads;
use std::time::Clock;

// How many waits have to be settled in the race for one table. `make race` has a million in their place.
const SETTLED: u64 = 20_000;

// A game: the number of tables, the number of sessions that play, and how many waits have to be settled, some in each way. If that is 0, any number
// will do. The next session audits meanwhile, and two more check in the end that all went well.
type Game = (u16, u16, u64);

const GAMES: &[Game] = &[(8, 8, 0), (1, 16, SETTLED)];

// A session with its player, and whether all has gone well.
struct Part<R> {
    session: Session<R>,
    player: Player,
    well: bool,
}

impl<R> Part<R> {
    // Opens the session of a pass. It has done nothing yet.
    fn open(rt: R, alloc: Global, manager: &Manager, pass: Pass, game: Game) -> Part<R>
        requires { pass_table pass ≡ manager_table manager.now }
    {
        let (tables, _, wanted) = game;
        let player = Player::new(alloc, pass.number(), tables, wanted);
        let session = Session::open(rt, manager, pass);
        Part {
            session,
            player,
            well: true,
        }
    }
}

// Plays, watches or does nothing, by the session's number.
fn act<R: Wait + Clock>(
    rt: &R,
    part: &mut Part<&R>,
    players: u16,
    taken: &AtomicBool,
    settled: &AtomicU64,
) {
    let number = part.session.number();
    if number <= players {
        part.well = play(rt, &mut part.session, &mut part.player, taken, settled);
    } else if number - players == 1 {
        part.well = watch(rt, &mut part.session, &part.player, settled);
    }
}

// Opens the sessions of all passes, the last one first, if there is memory for their parts.
fn open_all<'a, R>(
    rt: &'a R,
    alloc: Global,
    manager: &Manager,
    mut passes: Vec<Pass>,
    game: Game,
) -> Result<Vec<Part<&'a R>>, AllocError>
    requires theirs { ArePasses (manager_table manager.now) passes.items }
{
    let mut parts = Vec::with_capacity(alloc, passes.len())?;
    while !passes.is_empty() {
        let pass = take_last(manager, &mut passes);
        parts.push_reserved(Part::open(rt, alloc, manager, pass, game));
    }
    Ok(parts)
}

// The same for a new space.
fn open_game<R: AllocGlobal>(rt: &R, game: Game) -> Option<Vec<Part<&R>>> {
    let (tables, players, _) = game;
    let alloc = rt.alloc();
    let (manager, passes) = Manager::new(alloc, tables, players.saturating_add(3)).ok()?;
    let parts = open_all(rt, alloc, &manager, passes, game).ok();
    drop(manager);
    parts
}

fn close_all<R: Drop>(rt: &impl Abort, mut parts: Vec<Part<R>>) {
    while let Some(part) = parts.pop() {
        let Part {
            session,
            player,
            well: _,
        } = part;
        drop(player);
        close(rt, session);
    }
    parts.destroy_empty();
}

// Returns how often the sessions together changed a table.
fn changes<R>(parts: &[Part<R>], table: usize) -> u64 {
    let mut sum = 0u64;
    for part in parts {
        sum = sum.saturating_add(part.player.changes(table));
    }
    sum
}

// Whether each wait of a session was settled once, as one of all sessions recorded.
fn is_settled<R>(alloc: Global, parts: &[Part<R>], part: &Part<R>) -> bool {
    let mut killed = Vec::new(alloc);
    let (mut told, mut victims) = (true, 0u64);
    let session = part.session.number();
    for settler in parts {
        let tally = &settler.player.tally;
        told = tally.tell_kills(session, &mut killed) && told;
        victims = victims.saturating_add(tally.victims(session));
    }
    told && killed.sort().is_ok() && part.player.tally.agrees(&killed, victims)
}

// How many waits ended in each way.
#[derive(Clone, Copy)]
struct Ends {
    granted: u64,
    victims: u64,
    timeouts: u64,
    killed: u64,
}

impl Ends {
    // Whether there are so many, some in each way.
    fn are(self, wanted: u64) -> bool {
        let all = self
            .granted
            .saturating_add(self.victims)
            .saturating_add(self.timeouts)
            .saturating_add(self.killed);
        let some = self.granted > 0 && self.victims > 0 && self.timeouts > 0 && self.killed > 0;
        wanted == 0 || some && all >= wanted
    }
}

// Returns how many waits of all sessions ended in this way.
fn count<R>(parts: &[Part<R>], how: Settled) -> u64 {
    let mut count = 0u64;
    for part in parts {
        count = count.saturating_add(part.player.tally.count(how));
    }
    count
}

// The same for each way.
fn count_ends<R>(parts: &[Part<R>]) -> Ends {
    Ends {
        granted: count(parts, Settled::Granted),
        victims: count(parts, Settled::Victim),
        timeouts: count(parts, Settled::Timeout),
        killed: count(parts, Settled::Killed),
    }
}

// Whether each session's waits were settled once, and nothing went wrong.
fn are_settled<R>(alloc: Global, parts: &[Part<R>]) -> bool {
    let mut well = true;
    for part in parts {
        well = well && part.well && is_settled(alloc, parts, part);
    }
    well
}

// Adds the tickets of all parts. Whether there was memory.
fn add_held<R>(parts: &[Part<R>], all: &mut Vec<Held>) -> bool {
    let mut added = true;
    for part in parts {
        added = added
            && match part.session.held() {
                Ok(mut held) => all.append(&mut held).is_ok(),
                Err(_) => false,
            };
    }
    added
}

fn leave_all<R: Wait>(alloc: Global, parts: &mut [Part<R>]) -> bool {
    let mut all = true;
    for part in parts.iter_mut() {
        all = leave(alloc, &mut part.session) && all;
    }
    all
}

// Returns the word of a place's lock, as a session gets it that tries for a fast ticket while another one requests X.
fn read_word<R: Wait>(
    alloc: Global,
    asker: &mut Session<R>,
    reader: &mut Session<R>,
    place: Place,
) -> Option<Word> {
    let asked = make(alloc, asker, Act::Begin(place, Mode::X));
    let tried = make(alloc, reader, Act::TryFast(place, Mode::S));
    let ended = match asked {
        Reply::Waiting(_) => {
            was_answered(make(alloc, asker, Act::TimeOut))
                && was_answered(make(alloc, asker, Act::End))
        }
        Reply::Granted(id) => was_answered(make(alloc, asker, Act::Release(id))),
        _ => false,
    };
    match tried {
        Reply::Obtruded(word) if ended => Some(word),
        _ => None,
    }
}

// Whether the word of each lock counts just these tickets, of which there are some.
fn are_words_right<R: Wait>(
    alloc: Global,
    asker: &mut Session<R>,
    reader: &mut Session<R>,
    held: &[Held],
    tables: u16,
) -> bool {
    let mut right = !held.is_empty()
        && look_all_up(alloc, asker, tables)
        && look_all_up(alloc, reader, tables);
    for place in 1..=tables {
        right = right
            && match read_word(alloc, asker, reader, place) {
                Some(word) => are_counted(word, held, place),
                None => false,
            };
    }
    right
}

// Whether no ticket is left, and each table's version is the number of its changes.
fn is_left<R>(books: &[Audited], parts: &[Part<R>]) -> bool {
    let mut left = true;
    for (table, book) in books.iter().enumerate() {
        let book = &book.book;
        left = left
            && book.granted.is_empty()
            && book.waiting.is_empty()
            && book.standing.version == changes(parts, table);
    }
    left
}

// Whether an audit finds in the end that all have left.
fn have_left<R: Wait>(session: &mut Session<R>, parts: &[Part<R>], tables: u16) -> bool {
    match session.audit() {
        Ok(books) => books.len() == usize::from(tables) && is_left(&books, parts),
        Err(_) => false,
    }
}

// Checks in the end, by two sessions that did nothing, that all went well with the others.
fn is_well<R: Wait>(
    alloc: Global,
    parts: &mut [Part<R>],
    asker: &mut Session<R>,
    reader: &mut Session<R>,
    tables: u16,
) -> bool {
    let mut held = Vec::new(alloc);
    let words = add_held(parts, &mut held) && are_words_right(alloc, asker, reader, &held, tables);
    drop(held);
    let left = leave_all(alloc, parts);
    words && left && are_settled(alloc, parts) && have_left(reader, parts, tables)
}

// The same for the sessions of a game, the last two of which come first and did nothing.
fn went_well<R: Wait>(alloc: Global, parts: &mut [Part<R>], tables: u16) -> bool {
    match parts {
        [reader, asker, others @ ..] => is_well(
            alloc,
            others,
            &mut asker.session,
            &mut reader.session,
            tables,
        ),
        _ => false,
    }
}

// Plays all parts, each on a thread of its own.
fn play_all<R: Threads + Wait + Clock + Sync>(rt: &R, parts: &mut [Part<&R>], players: u16) {
    let taken = AtomicBool::new(false);
    let settled = AtomicU64::new(0);
    let threads = parts.len().max(1);
    thread::for_each_mut(
        rt,
        parts,
        threads,
        &|_, part| {
            act(rt, part, players, &taken, &settled);
        },
    );
}

// Returns how the waits of a game end, if there is memory for it and all goes well in it.
fn ends_of<R: Threads + Wait + Clock + Abort + AllocGlobal + Sync>(
    rt: &R,
    game: Game,
) -> Option<Ends> {
    let mut parts = open_game(rt, game)?;
    let (tables, players, _) = game;
    play_all(rt, &mut parts, players);
    let well = went_well(rt.alloc(), &mut parts, tables);
    let ends = count_ends(&parts);
    close_all(rt, parts);
    if well { Some(ends) } else { None }
}

// Whether a game goes well, and so many waits end in it as are wanted.
fn goes_well<R: Threads + Wait + Clock + Abort + AllocGlobal + Sync>(rt: &R, game: Game) -> bool {
    match ends_of(rt, game) {
        Some(ends) => ends.are(game.2),
        None => false,
    }
}

#[test]
fn threads_make_all_calls_beside_audits(rt: HostRuntime) {
    for game in GAMES {
        is_right(&rt, "players", usize::from(game.1), goes_well(&rt, *game));
    }
}
