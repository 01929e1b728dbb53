use cap_base::{Account, Amount, Code6};
use cap_terminal_answers::PartNumbers;

/// What an entry changes in the index.
#[derive(Clone, Copy)]
pub(crate) enum Change {
    Nothing,
    Begin {
        amount: Amount,
        account: Account,
    },
    Decline {
        n: u64,
    },
    Complete {
        n: u64,
        code: Code6,
    },
    GiveUp {
        n: u64,
    },
    TakeBack {
        n: u64,
    },
    Close {
        p: u64,
    },
    Acknowledge {
        m: u64,
    },
    /// A part of a set with these numbers, whose rows give this floor.
    Stage {
        numbers: PartNumbers,
        floor: Option<Option<u64>>,
    },
}
