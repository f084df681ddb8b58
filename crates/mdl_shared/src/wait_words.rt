//! What the words of waits say.
ghost use Rattle.mdl_calls.specs.Limits.{is_within};
ghost use Rattle.std.specs.Prelude.{false, true, ◌≡◌, ◌≢◌};
ghost use Rattle.mdl_steps.specs.WaitStates.{unsettled_state, wait_in};
ghost use Rattle.mdl_shared.specs.SessionViews.{settled_of};

use mdl_calls::Settled;
use mdl_steps::WaitWord;

/// How a wait is settled, by the state of its word.
pub(crate) fn settled_in(state: u64) -> Option<Settled>
    ensures { result ≡ settled_of state }
{
    match state {
        WaitWord::GRANTED => Some(Settled::Granted),
        WaitWord::VICTIM => Some(Settled::Victim),
        WaitWord::TIMEOUT => Some(Settled::Timeout),
        WaitWord::KILLED => Some(Settled::Killed),
        _ => None,
    }
}

/// Whether a word shows the unsettled wait with this number.
pub(crate) fn is_open(word: WaitWord, number: u64) -> bool
    ensures open { result ≡ true → word.0 ≡ wait_in number unsettled_state }
    ensures other { result ≡ false → word.0 ≢ wait_in number unsettled_state }
{
    word.number() == number && word.state() == WaitWord::UNSETTLED
}

/// Whether a space with `sessions` sessions has one with this number.
pub(crate) fn is_session(session: u16, sessions: usize) -> bool
    ensures { result ≡ is_within sessions session }
{
    1 <= session && usize::from(session) <= sessions
}
