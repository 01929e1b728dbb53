// Ends that answer, as their callers see them.
ghost use Rattle.std.specs.Prelude.{◌≡◌, ◌⊎◌, ◌≤◌, ℕ, List, [], ◌++◌, length, take, Bool, true, false, IsTrue, IfOk, IfErr, IsErrOf};
ghost use Rattle.cap_base.specs.Causes.{Rose};
ghost use Rattle.cap_answering.specs.declared.reply.Reply.{Reply};
ghost use Rattle.cap_answering.specs.Answering.{Answers};

use crate::fault::{HostFault, ReopenFault};
use crate::reply::Reply;

/// An end that answers whatever arrives, and keeps entries in a journal.
pub trait Answering: Sized {
    type Journal;

    /// The type of the entries.
    ghost Entry: { Type 0 };

    /// The entries.
    ghost entries: { Self → List Entry };

    /// Whether a list of entries is one that such an end may have.
    ghost is_allowed: { List Entry → Type 0 };

    /// What it adds to its entries, at this moment, for these bytes.
    ghost adds: { List Entry → ℕ → List ℕ → List Entry → Type 0 };

    /// What it then replies.
    ghost replies: { List Entry → ℕ → List ℕ → Reply → Type 0 };

    /// Whether contracts see its images: its disk is honest and formatted.
    ghost tells: { Self → Bool };

    /// Whether its journal reads what was written. `adds` and `replies` hold of `answer` where it does.
    ghost is_readable: { Self → Bool };

    /// The faults of its disk.
    ghost faults: { Self → ℕ };

    /// Whether an earlier call since opening answered `Disk`.
    ghost has_failed: { Self → Bool };

    /// The images that a crash may leave now.
    ghost may_leave: { Self → List ℕ → Type 0 };

    /// The moment of its disk, a number that doesn't fall.
    ghost tick: { Self → ℕ };

    /// The images that a crash at some moment from that one on might have left.
    ghost left_since: { Self → ℕ → List ℕ → Type 0 };

    /// The image has exactly these entries.
    ghost has: { List ℕ → List Entry → Type 0 };

    /// Of a journal: the images that a crash may leave now, and the faults of its disk.
    ghost journal_may_leave: { Self.Journal → List ℕ → Type 0 };

    ghost journal_faults: { Self.Journal → ℕ };

    /// Whether contracts see its images.
    ghost journal_tells: { Self.Journal → Bool };

    /// Answers at most 65,536 bytes at a moment, in seconds since 1970.
    fn answer(&mut self, bytes: &[u8], moment: u64) -> Result<Reply, HostFault>
        requires size { length bytes.now ≤ 65536 }
        requires range { moment ≤ 253402300799 }
        ensures answers { Answers entries adds replies is_readable has_failed tells tick left_since has self.old self.new moment bytes.now result }
        ensures disk { IsErrOf result HostFault.Disk → Rose (faults self.old) (faults self.new) }
        ensures fails { IsErrOf result HostFault.Disk → has_failed self.new ≡ true }
        ensures still { (IsErrOf result HostFault.Disk → ⊥) → has_failed self.new ≡ has_failed self.old }
        ensures faults { faults self.old ≤ faults self.new }
        ensures is_readable { is_readable self.new ≡ is_readable self.old }
        ensures tells { tells self.new ≡ tells self.old };

    /// Opens the end again.
    fn reopen(self) -> Result<Self, (ReopenFault, Self::Journal)>
        // Ok: the entries are those of an image that a crash could leave before.
        ensures entries { IsTrue (tells self) → IfOk result (λ end. (image : List ℕ) × may_leave self image × has image (entries end)) }
        ensures works { IfOk result (λ end. has_failed end ≡ false) }
        ensures is_readable { IfOk result (λ end. is_readable end ≡ is_readable self) }
        ensures tells { IfOk result (λ end. tells end ≡ tells self) }
        ensures faults { IfOk result (λ end. faults self ≤ faults end) }
        // Refused: it leaves only images that a crash could leave before.
        ensures refused { IsTrue (tells self) → IfErr result (λ error. (image : List ℕ) → journal_may_leave error.1 image → may_leave self image) }
        ensures back_faults { IfErr result (λ error. faults self ≤ journal_faults error.1) }
        ensures back_tells { IfErr result (λ error. journal_tells error.1 ≡ tells self) }
        ensures disk { IfErr result (λ error. error.0 ≡ ReopenFault.Disk → Rose (faults self) (journal_faults error.1)) }
        // Where all those images have entries that are allowed, it is refused for the disk or for want of memory alone.
        ensures why { IsTrue (tells self) → ((image : List ℕ) → may_leave self image → (list : List Entry) × has image list × is_allowed list) → IfErr result (λ error. (error.0 ≡ ReopenFault.Disk) ⊎ (error.0 ≡ ReopenFault.Memory)) };

    /// The entries are allowed, and stay so with each front of what is added to them.
    ghost allowed: { (end : Self) → is_allowed (entries end) };

    ghost stays_allowed: { (list : List Entry) (at : ℕ) (body : List ℕ) (added : List Entry) (kept : ℕ) → is_allowed list → adds list at body added → is_allowed (list ++ take kept added) };

    /// Where no call has answered `Disk`, every image has exactly the entries; and at any time each has them at its head.
    ghost kept: { (end : Self) (image : List ℕ) → IsTrue (tells end) → has_failed end ≡ false → may_leave end image → has image (entries end) };

    ghost stands: { (end : Self) (image : List ℕ) → IsTrue (tells end) → may_leave end image → (more : List Entry) × has image (entries end ++ more) };

    /// An image has one list of entries.
    ghost has_one: { (image : List ℕ) (list other : List Entry) → has image list → has image other → list ≡ other };

    /// This moment is one of those since an earlier one.
    ghost counts_now: { (end : Self) (t : ℕ) (image : List ℕ) → IsTrue (tells end) → t ≤ tick end → may_leave end image → left_since end t image };
}
