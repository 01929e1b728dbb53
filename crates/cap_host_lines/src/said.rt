ghost use Rattle.std.specs.Prelude.{◌≡◌};
ghost use Rattle.cap_host_lines.specs.Says.{said_counted, said_dropped, said_published};

use crate::answer::Answer;
use cap_host::PublishFault;
use cap_plays::LineFault;
use cap_schedule::Outcome;

/// What a line says, and the text that it gives to the answers of a terminal.
#[derive(Drop)]
pub struct HostSaid {
    pub outcome: Outcome,
    pub reply: Option<Vec<u8>>,
}

/// What a line says to an answer that counts, at this place.
pub(crate) fn counted(
    place: u64,
    given: Result<Option<Answer>, LineFault>,
) -> Result<HostSaid, LineFault>
    ensures { result ≡ said_counted place given }
{
    match given {
        Ok(Some(Answer { kind, reason, text })) => Ok(HostSaid {
            outcome: Outcome::Answered {
                place: Some(place),
                kind,
                reason,
            },
            reply: Some(text),
        }),
        Ok(None) => Ok(HostSaid {
            outcome: Outcome::Silent,
            reply: None,
        }),
        Err(fault) => Err(fault),
    }
}

/// What a line says to an answer that is dropped.
pub(crate) fn dropped(given: Result<Option<Answer>, LineFault>) -> Result<HostSaid, LineFault>
    ensures { result ≡ said_dropped given }
{
    match given {
        Ok(
            Some(
                Answer {
                    kind,
                    reason,
                    text: _,
                },
            ),
        ) => Ok(HostSaid {
            outcome: Outcome::Answered {
                place: None,
                kind,
                reason,
            },
            reply: None,
        }),
        Ok(None) => Ok(HostSaid {
            outcome: Outcome::Silent,
            reply: None,
        }),
        Err(fault) => Err(fault),
    }
}

/// What a line says to a set that is published or not.
pub(crate) fn published(given: Result<u64, PublishFault>) -> Result<HostSaid, LineFault>
    ensures { result ≡ said_published given }
{
    match given {
        Ok(version) => Ok(HostSaid {
            outcome: Outcome::PublishedAs(version),
            reply: None,
        }),
        Err(PublishFault::SetLimit) => Ok(HostSaid {
            outcome: Outcome::SetLimit,
            reply: None,
        }),
        Err(PublishFault::Memory) => Err(LineFault::Memory),
        Err(PublishFault::Disk) => Err(LineFault::Disk),
        Err(PublishFault::Failed) => Err(LineFault::Disk),
    }
}
