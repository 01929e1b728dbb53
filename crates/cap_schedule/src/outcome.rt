ghost use Rattle.std.specs.Prelude.{◌≡◌};
ghost use Rattle.cap_schedule.specs.Outcomes.{reason_text, response_text, spaced_reason, spaced_letters, outcome_text, wording_text};

use cap_base::{Reason, Response};
use cap_leaf::Kind;
use cap_text::message_number;
use std::fmt;

/// What became of a line. Sales, periods, messages and answers are named by their numbers.
#[derive(Clone, Copy)]
pub enum Outcome {
    IsOff,
    WasCut,
    DiskFailed,
    Begun(u64),
    Sold(u64),
    GivenUp(u64),
    DeclinedSale(u64),
    CancelledSale(u64),
    ClosedPeriod(u64),
    Limit(u64),
    AboveFloor(u64),
    NotPending(u64),
    NoSale(u64),
    NotCompleted(u64),
    AlreadyCancelled(u64),
    PeriodLimit,
    Sent(u64),
    NothingQueued,
    NoMessage(u64),
    Answered {
        place: Option<u64>,
        kind: Kind,
        reason: Option<Reason>,
    },
    Silent,
    AckedUpTo(u64),
    CancelAnswered {
        n: u64,
        response: Response,
    },
    Diagnosed(u64),
    PlanOf(u64),
    PartAdded {
        version: u64,
        part: u64,
        parts: u64,
    },
    Stale {
        number: u64,
        acked: u64,
    },
    Beyond {
        number: u64,
        len: u64,
    },
    NotForUs,
    NotAwaited,
    Rejected(Reason),
    Unread {
        reason: Reason,
        place: u64,
    },
    PublishedAs(u64),
    SetLimit,
    Restarted,
}

/// The letters of a reason.
pub fn reason_letters(reason: Reason) -> &'static str
    ensures { result.now ≡ reason_text reason }
{
    match reason {
        Reason::Unpr => "UNPR",
        Reason::Imsg => "IMSG",
        Reason::Pars => "PARS",
        Reason::Secu => "SECU",
        Reason::Intp => "INTP",
        Reason::Rcpp => "RCPP",
        Reason::Dpmg => "DPMG",
        Reason::Vers => "VERS",
        Reason::Msgt => "MSGT",
    }
}

// The letters of a response.
fn response_letters(response: Response) -> &'static str
    ensures { result.now ≡ response_text response }
{
    match response {
        Response::Appr => "APPR",
        Response::Decl => "DECL",
        Response::Part => "PART",
        Response::Tech => "TECH",
    }
}

// The letters of a reason, where there is one.
fn letters_of(reason: Option<Reason>) -> Option<&'static str>
    ensures { spaced_letters result ≡ spaced_reason reason }
{
    match reason {
        Some(reason) => Some(reason_letters(reason)),
        None => None,
    }
}

// The text of an outcome in its parts.
#[derive(Clone, Copy)]
enum Wording {
    Words(&'static str),
    Number(&'static str, u64),
    Two(&'static str, u64, u64),
    Three(&'static str, u64, u64, u64),
    Letters(&'static str, &'static str),
    NumberLetters(&'static str, u64, &'static str),
    LettersNumber(&'static str, &'static str, u64),
    // With a place and a reason where there are any, and the number of a message.
    Answer(Option<u64>, &'static str, Option<&'static str>),
}

impl fmt::Display for Wording {
    ghost use Rattle.std.specs.Prelude.{Some};
    ghost use Rattle.cap_schedule.specs.Outcomes.{wording_text};

    ghost output = { λ w. Some (wording_text w) };

    fn fmt<W: fmt::Write>(&self, f: &mut fmt::Formatter<W>) -> fmt::Result {
        match self {
            Wording::Words(words) => write!(f, "{words}"),
            Wording::Number(words, n) => write!(f, "{words}{n}"),
            Wording::Two(words, m, n) => write!(f, "{words}{m} {n}"),
            Wording::Three(words, k, m, n) => write!(f, "{words}{k} {m} {n}"),
            Wording::Letters(words, letters) => write!(f, "{words}{letters}"),
            Wording::NumberLetters(words, n, letters) => write!(f, "{words}{n} {letters}"),
            Wording::LettersNumber(words, letters, n) => write!(f, "{words}{letters} {n}"),
            Wording::Answer(Some(place), kind, Some(reason)) => {
                write!(f, "answered {place} {kind} {reason}")
            }
            Wording::Answer(Some(place), kind, None) => write!(f, "answered {place} {kind}"),
            Wording::Answer(None, kind, Some(reason)) => write!(f, "answered {kind} {reason}"),
            Wording::Answer(None, kind, None) => write!(f, "answered {kind}"),
        }
    }
}

impl Outcome {
    // What is printed of it.
    fn wording(&self) -> Wording
        ensures { wording_text result ≡ outcome_text self.now }
    {
        match self {
            Outcome::IsOff => Wording::Words("off"),
            Outcome::WasCut => Wording::Words("cut"),
            Outcome::DiskFailed => Wording::Words("disk"),
            Outcome::Begun(n) => Wording::Number("begun ", *n),
            Outcome::Sold(n) => Wording::Number("sale ", *n),
            Outcome::GivenUp(n) => Wording::Number("void ", *n),
            Outcome::DeclinedSale(n) => Wording::Number("declined ", *n),
            Outcome::CancelledSale(n) => Wording::Number("cancelled ", *n),
            Outcome::ClosedPeriod(p) => Wording::Number("closed ", *p),
            Outcome::Limit(most) => Wording::Number("limit ", *most),
            Outcome::AboveFloor(n) => Wording::Number("above floor ", *n),
            Outcome::NotPending(n) => Wording::Number("not pending ", *n),
            Outcome::NoSale(n) => Wording::Number("no sale ", *n),
            Outcome::NotCompleted(n) => Wording::Number("not completed ", *n),
            Outcome::AlreadyCancelled(n) => Wording::Number("already cancelled ", *n),
            Outcome::PeriodLimit => Wording::Words("period limit"),
            Outcome::Sent(k) => Wording::Number("sent ", *k),
            Outcome::NothingQueued => Wording::Words("empty"),
            Outcome::NoMessage(k) => Wording::Number("no message ", *k),
            Outcome::Answered {
                place,
                kind,
                reason,
            } => Wording::Answer(*place, message_number(*kind), letters_of(*reason)),
            Outcome::Silent => Wording::Words("silent"),
            Outcome::AckedUpTo(m) => Wording::Number("acked ", *m),
            Outcome::CancelAnswered { n, response } => {
                Wording::NumberLetters("cancel answer ", *n, response_letters(*response))
            }
            Outcome::Diagnosed(last) => Wording::Number("diagnosed ", *last),
            Outcome::PlanOf(actions) => Wording::Number("plan ", *actions),
            Outcome::PartAdded {
                version,
                part,
                parts,
            } => Wording::Three("part ", *version, *part, *parts),
            Outcome::Stale { number, acked } => Wording::Two("stale ", *number, *acked),
            Outcome::Beyond { number, len } => Wording::Two("beyond ", *number, *len),
            Outcome::NotForUs => Wording::Words("not for us"),
            Outcome::NotAwaited => Wording::Words("not awaited"),
            Outcome::Rejected(reason) => Wording::Letters("rejected ", reason_letters(*reason)),
            Outcome::Unread { reason, place } => {
                Wording::LettersNumber("unread ", reason_letters(*reason), *place)
            }
            Outcome::PublishedAs(version) => Wording::Number("published ", *version),
            Outcome::SetLimit => Wording::Words("set limit"),
            Outcome::Restarted => Wording::Words("restarted"),
        }
    }
}

impl fmt::Display for Outcome {
    ghost use Rattle.std.specs.Prelude.{Some};
    ghost use Rattle.cap_schedule.specs.Outcomes.{outcome_text};

    ghost output = { λ o. Some (outcome_text o) };

    fn fmt<W: fmt::Write>(&self, f: &mut fmt::Formatter<W>) -> fmt::Result {
        let wording = self.wording();
        write!(f, "{wording}")
    }
}
