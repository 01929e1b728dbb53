ghost use Rattle.std.specs.Prelude.{◌≡◌, ◌≤◌, ◌<◌, ◌^◌, ◌↔◌, ℕ, List, length};
ghost use Rattle.cap_leaf.specs.declared.kinds.Kind.{Kind};
ghost use Rattle.cap_leaf.specs.declared.fault.Fault.{Fault};
ghost use Rattle.cap_leaf.specs.Trees.{Data};
ghost use Rattle.cap_trees.specs.Fits.{FitsKind};
ghost use Rattle.cap_msgs.specs.declared.message.Body.{Body};
ghost use Rattle.cap_msgs.specs.declared.message.Message.{Message};
ghost use Rattle.cap_msgs.specs.Trees.{body_kind, body_tree, message_kind, message_tree, text_of};
ghost use Rattle.cap_msgs.specs.Ranges.{IsSpellable};
ghost use Rattle.cap_msgs.specs.Received.{Received, Read, Unread};
ghost use Rattle.cap_msgs.specs.Reads.{Reads};
ghost use Rattle.cap_msgs.specs.Shapes.{HasShape, HasHeader, HasMessage, FitsHeader, FitsBody};

/// All bytes read as one message or as one fault, and never as both.
pub fn reading_is_exact()
    ensures some { (bytes : List ℕ) → (r : Received) × Reads bytes r }
    ensures one { (bytes : List ℕ) (r s : Received) → Reads bytes r → Reads bytes s → r ≡ s }
{}

/// The messages that some bytes spell are those whose numbers are in range (and that are values of their type): each of them reads back from
/// its own text, which has 1 to 32,768 bytes.
pub fn texts_read_again()
    ensures spellable { (bytes : List ℕ) (m : Message) → Reads bytes (Read m) → IsSpellable m }
    ensures again { (m : Message) → IsSpellable m → Reads (text_of m) (Read m) }
    ensures size { (m : Message) → IsSpellable m → (1 ≤ length (text_of m)) × (length (text_of m) ≤ 32768) }
{}

/// A fault lies within the bytes, and tells an exchange of at most ten digits.
pub fn faults_are_within()
    ensures place { (bytes : List ℕ) (f : Fault) → Reads bytes (Unread f) → f.place ≤ length bytes }
    ensures exchange { (bytes : List ℕ) (f : Fault) → Reads bytes (Unread f) → f.exchange < 10 ^ 10 }
{}

/// The trees of the bodies of a message are exactly the trees that fit the message's table at the body, and likewise those of headers and of
/// whole messages.
pub fn shapes_fit()
    ensures body { (k : Kind) (d : Data) → HasShape k d ↔ FitsBody k d }
    ensures header { (k : Kind) (d : Data) → HasHeader k d ↔ FitsHeader k d }
    ensures message { (k : Kind) (d : Data) → HasMessage k d ↔ FitsKind k d }
{}

/// A message and its tree are one to one, within one kind of message.
pub fn messages_are_whole()
    ensures body { (a b : Body) → body_kind a ≡ body_kind b → body_tree a ≡ body_tree b → a ≡ b }
    ensures message { (m n : Message) → message_kind m ≡ message_kind n → message_tree m ≡ message_tree n → m ≡ n }
{}
