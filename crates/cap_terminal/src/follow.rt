ghost use Rattle.std.specs.Prelude.{◌≡◌, ◌+◌};
ghost use Rattle.cap_terminal.specs.Index.{changed};
ghost use Rattle.cap_terminal.specs.View.{index_view};
ghost use Rattle.cap_terminal.specs.Ready.{IsReady, freed, more_owed};

use crate::change::Change;
use crate::index::Index;

impl Index {
    /// Follows an entry. It takes no memory.
    pub fn apply(&mut self, change: Change)
        requires { IsReady self.old change }
        ensures view { index_view self.new ≡ changed (index_view self.old) change }
        ensures owed { self.new.owed + freed change ≡ self.old.owed + more_owed change }
    {
        match change {
            Change::Nothing => {}
            Change::Begin { amount, account } => self.begin(amount, account),
            Change::Decline { n } => self.decline(n),
            Change::Complete { n, code } => self.complete(n, code),
            Change::GiveUp { n } => self.give_up(n),
            Change::TakeBack { n } => self.cancel(n),
            Change::Close { p } => self.close(p),
            Change::Acknowledge { m } => self.acked = m,
            Change::Stage { numbers, floor } => self.stage(numbers, floor),
        }
    }
}
