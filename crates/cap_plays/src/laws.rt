//! Laws over every run that a schedule names. Each is a function without a body whose contract is the law, so that whoever calls it has the law.

ghost use Rattle.cap_plays.specs.Laws.{EveryPlayIsARun, EveryPlayAgrees, OnePlayWithoutFaults, OneTextWithoutFaults, EveryPlayEndsOn};
ghost use Rattle.cap_plays.specs.Worked.{WorkedSchedules};

/// What a schedule names is a run of the model of a host and its terminals.
pub fn every_play_is_a_run()
    ensures { EveryPlayIsARun }
{}

/// Whatever a schedule does, and wherever it lets the power go or a disk fail: at its end the ends agree.
pub fn every_play_agrees()
    ensures { EveryPlayAgrees }
{
    cap_world::laws::every_run_agrees();
}

/// A schedule without cuts and faults at device calls names exactly one run.
pub fn one_play_without_faults()
    ensures { OnePlayWithoutFaults }
{}

/// Nor does anything depend on the dates that messages bear: such a schedule has one text.
pub fn one_text_without_faults()
    ensures { OneTextWithoutFaults }
{}

/// At the end of a schedule every end is on.
pub fn every_play_ends_on()
    ensures { EveryPlayEndsOn }
{}

/// Three short schedules have the texts that they are to have: a sale with its advice, a cut within the write of a sale's end, and an answer
/// that is lost as the host's power goes.
pub fn worked_schedules()
    ensures { WorkedSchedules }
{}
