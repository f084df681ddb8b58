//! The word of a session's wait.
ghost use Rattle.std.specs.Prelude.{◌≡◌, ◌<◌, ◌^◌};
ghost use Rattle.mdl_steps.specs.WaitStates.{lost_state, wait_in, wait_number, wait_state};

/// The word of a session's wait, as a step met it: eight times the number of the session's last wait, plus a state.
///
/// | bits    | what they hold                                                                                |
/// |---------|-----------------------------------------------------------------------------------------------|
/// | 63 to 3 | the number of the session's last wait, or 0 before the first                                  |
/// | 2 to 0  | the state: 0 idle, 1 unsettled, 2 granted, or lost: 3 as a victim, 4 by its timeout, 5 killed |
#[derive(Clone, Copy, Debug, PartialEq, Eq)]
pub struct WaitWord(pub u64);

/// How a wait is lost.
#[derive(Clone, Copy, Debug, PartialEq, Eq)]
pub enum Loss {
    /// As the victim of a deadlock.
    Victim,
    /// By a timeout.
    Timeout,
    /// Killed by a session.
    Killed,
}

impl WaitWord {
    /// The state of a session that waits for nothing.
    pub const IDLE: u64 = 0;
    /// The state of a wait that isn't settled.
    pub const UNSETTLED: u64 = 1;
    /// The state of a wait that was granted and isn't ended.
    pub const GRANTED: u64 = 2;
    /// The state of a wait that was lost as the victim of a deadlock and isn't ended.
    pub const VICTIM: u64 = 3;
    /// The state of a wait that was lost by its timeout and isn't ended.
    pub const TIMEOUT: u64 = 4;
    /// The state of a wait that was lost because a session killed it, and isn't ended.
    pub const KILLED: u64 = 5;

    /// Returns the number of the session's last wait, or 0 before the first.
    pub fn number(self) -> u64
        ensures { result ≡ wait_number self.0 }
    {
        self.0 / 8
    }

    /// Returns the state: one of the constants above.
    pub fn state(self) -> u64
        ensures { result ≡ wait_state self.0 }
    {
        self.0 % 8
    }
}

impl Loss {
    /// Returns the state of a wait that was lost in this way and isn't ended.
    pub fn state(self) -> u64
        ensures { result ≡ lost_state self }
    {
        match self {
            Loss::Victim => WaitWord::VICTIM,
            Loss::Timeout => WaitWord::TIMEOUT,
            Loss::Killed => WaitWord::KILLED,
        }
    }
}

// Returns the word of the wait with this number, in this state.
pub(crate) fn word_in(wait: u64, state: u64) -> u64
    requires { (wait < 2 ^ 61) × (state < 8) }
    ensures { result ≡ wait_in wait state }
{
    8 * wait + state
}
