//! What a session does with a line.

ghost use Rattle.std.specs.Prelude.{◌≡◌};
ghost use Rattle.mic_debugger.specs.Plans.{reply_of};

use crate::reply::Reply;
use crate::until::Until;

/// What a line comes to.
#[derive(Clone, Copy, Debug, PartialEq, Eq)]
pub enum Plan {
    /// The board is clocked until this many turns were waited for.
    Clock { until: Until, times: u32 },
    /// Nothing is clocked, and this is shown.
    Show(Shown),
}

/// What is shown where nothing is clocked.
#[derive(Clone, Copy, Debug, PartialEq, Eq)]
pub enum Shown {
    /// What a reply prints.
    Reply(Reply),
    Registers,
    /// The memory words from LV up to SP.
    Stack,
    /// Where the run stands.
    Where,
}

impl Plan {
    /// The reply where the plan was carried out.
    pub(crate) fn reply(self) -> Reply
        ensures { result ≡ reply_of self }
    {
        match self {
            Plan::Show(Shown::Reply(reply)) => reply,
            _ => Reply::Done,
        }
    }
}
