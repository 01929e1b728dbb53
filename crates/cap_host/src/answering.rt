// A host as an end that answers.
ghost use Rattle.std.specs.Prelude.{◌≡◌, IsTrue};

use crate::host::Host;
use crate::opening::HostOpenCause;
use cap_answering::{Answering, HostFault, ReopenFault, Reply};
use cap_entries::HostEntry;
use cap_journal::{OpenFault, Reopen};

impl<J: Reopen<HostEntry> + Drop> Answering for Host<J> {
    ghost use Rattle.std.specs.Prelude.{List, ℕ};
    ghost use Rattle.cap_entries.specs.declared.host.HostEntry.{HostEntry as Entry_of_host};
    ghost use Rattle.cap_entries.specs.HostAllowed.{LegalHost};
    ghost use Rattle.cap_entries.specs.HostRecord.{host_reading};
    ghost use Rattle.cap_journal.specs.File.{entries_in};
    ghost use Rattle.cap_host.specs.Host.{journal_of, entries_of, has_failed as host_failed, tells as host_tells};
    ghost use Rattle.cap_host.specs.Answering.{HostAdds, HostReplies, HostHas, front_more, adds_stay_legal};

    type Journal = J;

    ghost Entry = { Entry_of_host };

    ghost entries = { λ host. entries_of host };

    ghost is_allowed = { LegalHost };

    ghost adds = { HostAdds };

    ghost replies = { HostReplies };

    ghost tells = { λ host. host_tells host };

    ghost is_readable = { λ host. J.is_readable (journal_of host) };

    ghost faults = { λ host. J.faults (journal_of host) };

    ghost has_failed = { λ host. host_failed host };

    ghost may_leave = { λ host image. J.may_leave (journal_of host) image };

    ghost tick = { λ host. J.moment (journal_of host) };

    ghost left_since = { λ host t image. J.left_since (journal_of host) t image };

    ghost has = { HostHas };

    ghost journal_may_leave = { J.may_leave };

    ghost journal_faults = { J.faults };

    ghost journal_tells = { J.tells };

    ghost allowed = { λ host. host.ties.legal };

    ghost stays_allowed = { adds_stay_legal };

    ghost kept = { λ host image tells works left. J.kept (journal_of host) image tells (host.ledger.works works) left };

    ghost stands = { λ host image tells left. front_more (entries_in host_reading image) (entries_of host) (J.stands (journal_of host) image tells left) };

    ghost has_one = { λ image list other is also. cc (is, also) };

    ghost counts_now = { λ host t image tells le left. J.counts_now (journal_of host) t image tells le left };

    fn answer(&mut self, bytes: &[u8], moment: u64) -> Result<Reply, HostFault> {
        cap_msgs::reading_is_exact();
        self.answer(bytes, moment)
    }

    fn reopen(self) -> Result<Self, (ReopenFault, J)> {
        let alloc = self.alloc;
        let mut journal = self.into_journal();
        match journal.reopen() {
            Ok(()) => {}
            Err(OpenFault::Disk) => return Err((ReopenFault::Disk, journal)),
            Err(OpenFault::NotFormatted) => return Err((ReopenFault::NotFormatted, journal)),
            Err(OpenFault::Damaged(place)) => return Err((ReopenFault::Damaged(place), journal)),
            Err(OpenFault::Memory) => return Err((ReopenFault::Memory, journal)),
        }
        match Host::open(alloc, journal) {
            Ok(host) => Ok(host),
            Err(error) => {
                let fault = match error.cause {
                    HostOpenCause::NotAllowed(i) => ReopenFault::NotAllowed(i),
                    HostOpenCause::Disk => ReopenFault::Disk,
                    HostOpenCause::Memory => ReopenFault::Memory,
                };
                Err((fault, error.back))
            }
        }
    }
}
