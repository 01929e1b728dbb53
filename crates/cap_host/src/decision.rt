// What a host is to do about a message.
ghost use Rattle.std.specs.Prelude.{◌≡◌, []};
ghost use Rattle.cap_host.specs.Decision.{decided, IsSound};
ghost use Rattle.cap_host.specs.Host.{entries_of};

use crate::host::Host;
use cap_base::Item;
use cap_entries::HostEntry;
use cap_host_answers::Answer;
use cap_journal::Journal;
use cap_msgs::Body;

/// What a host is to do about a message.
#[derive(Drop)]
pub(crate) enum Decision {
    /// It adds nothing. There is no reply where it is silent.
    Tells(Option<Body>),
    /// It adds these items of the terminal at this place as one group, and replies.
    Takes {
        terminal: u8,
        items: Vec<Item>,
        body: Body,
    },
}

impl<J: Journal<HostEntry> + Drop> Host<J> {
    // A reply alone.
    pub(crate) fn tells(&self, answer: Answer) -> Decision
        requires { answer.added ≡ [] }
        ensures decided { decided result ≡ answer }
        ensures sound { IsSound (entries_of self.now) result }
    {
        let Answer { added: _, reply } = answer;
        Decision::Tells(reply)
    }
}
