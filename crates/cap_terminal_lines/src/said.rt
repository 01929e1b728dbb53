ghost use Rattle.std.specs.Prelude.{◌≡◌, None};

use cap_schedule::Outcome;

/// What a line says, and the text that it sends.
#[derive(Drop)]
pub struct Said {
    pub outcome: Outcome,
    pub sent: Option<Vec<u8>>,
}

// A line that sends nothing.
pub(crate) fn quiet(outcome: Outcome) -> Said
    ensures { result ≡ record { outcome = outcome; sent = None } }
{
    Said {
        outcome,
        sent: None,
    }
}
