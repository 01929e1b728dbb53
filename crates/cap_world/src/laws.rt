//! Laws over every run of the model of a host and its terminals. Each is a function without a body whose contract is the law, so that
//! whoever calls it has the law.

ghost use Rattle.cap_world.specs.Agreement.{EveryRunAgrees};
ghost use Rattle.cap_world.specs.Accepted.{EveryAdviceIsAccepted, EveryAnswerIsExpected};
ghost use Rattle.cap_world.specs.Approved.{EveryCompletionIsApproved};
ghost use Rattle.cap_world.specs.SetsInForce.{EverySetIsPublished, NoSetGoesBack};
ghost use Rattle.cap_world.specs.LegalJournals.{EveryTerminalJournalIsLegal, EveryHostJournalIsLegal, EveryTaskStaysLegal};
ghost use Rattle.cap_world.specs.Node.{MergedBytesAreARun};
ghost use Rattle.cap_world.specs.Settled.{EveryRunCanSettle};
ghost use Rattle.cap_world.specs.Worked.{FirstSaleIsARun, InterruptedSaleIsARun, SettledSaleIsARun};

/// Whatever was sold, cancelled, closed, sent, lost, repeated and reordered, and wherever the power went at either end, also within a
/// write: the host's log of each terminal is a front of that terminal's items, none twice; it has what the terminal had acknowledged;
/// and once the terminal's queue is empty, the host has captured exactly its completed, uncancelled sales, and each period has the same
/// totals at both ends.
pub fn every_run_agrees()
    ensures { EveryRunAgrees }
{}

/// No run is a dead end: from each of its worlds, whatever stands of what was tried, one opening of each end that is off and three
/// happenings an item that waits (it is sent, it arrives, its answer arrives) lead to a world in which every end is on and nothing
/// waits. Each terminal's items are then those that it had when it was opened, the host has captured exactly its completed, uncancelled
/// sales, and its periods have the same totals at both ends.
pub fn every_run_can_settle()
    ensures { EveryRunCanSettle }
{}

/// The host approves each item and batch that a terminal sent, whenever it arrives.
pub fn every_advice_is_accepted()
    ensures { EveryAdviceIsAccepted }
{}

/// No message of the host acknowledges an item that its terminal doesn't have, and totals agree.
pub fn every_answer_is_expected()
    ensures { EveryAnswerIsExpected }
{}

/// Each completed sale was approved: by the terminal within the floor in force, or by an answer of the host by its own rule.
pub fn every_completion_is_approved()
    ensures { EveryCompletionIsApproved }
{}

/// The parameter set in force at a terminal is none, or exactly one that the host published.
pub fn every_set_is_published()
    ensures { EverySetIsPublished }
{}

/// The version in force at a terminal never goes back.
pub fn no_set_goes_back()
    ensures { NoSetGoesBack }
{}

/// Whatever a power cut may have left of a terminal's journal is legal.
pub fn every_terminal_journal_is_legal()
    ensures { EveryTerminalJournalIsLegal }
{}

/// Whatever a power cut may have left of the host's journal is legal.
pub fn every_host_journal_is_legal()
    ensures { EveryHostJournalIsLegal }
{}

/// Whatever an interrupted call of a terminal tried to add, each front of it leaves a legal journal legal.
pub fn every_task_stays_legal()
    ensures { EveryTaskStaysLegal }
{}

/// The work of the ends on what a network brings, where each message was sent by its sender or is foreign, merged into one list, leads
/// from any world of a run through worlds of a run.
pub fn merged_bytes_are_a_run()
    ensures { MergedBytesAreARun }
{}

/// A sale within the floor, its advice and the answer are a run: one item, which is acknowledged, stands in the log and is captured.
pub fn first_sale_is_a_run()
    ensures { FirstSaleIsARun }
{}

/// A sale whose completion is cut within the write, and which is then given up, is a run: one item, and nothing at the host.
pub fn interrupted_sale_is_a_run()
    ensures { InterruptedSaleIsARun }
{}

/// A sale whose answer is lost, a power cut at both ends, and the way on from there are a run: one item, acknowledged and captured once.
pub fn settled_sale_is_a_run()
    ensures { SettledSaleIsARun }
{}
