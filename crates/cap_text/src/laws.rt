ghost use Rattle.std.specs.Prelude.{◌≡◌, ◌⊎◌, ◌↔◌, ℕ, List};
ghost use Rattle.cap_leaf.specs.declared.kinds.Kind.{Kind};
ghost use Rattle.cap_leaf.specs.declared.fault.Fault.{Fault};
ghost use Rattle.cap_leaf.specs.Trees.{Data};
ghost use Rattle.cap_text.specs.Pieces.{Spells};
ghost use Rattle.cap_text.specs.Faults.{FirstFault};
ghost use Rattle.cap_text.specs.Canon.{canonical_text};
ghost use Rattle.cap_trees.specs.Fits.{FitsKind};

/// Bytes spell one tree of one kind or have one first fault, and never both.
pub fn reading_is_exact()
    ensures tree { (bytes : List ℕ) (k j : Kind) (d e : Data) → Spells k d bytes → Spells j e bytes → (k ≡ j) × (d ≡ e) }
    ensures fault { (bytes : List ℕ) (f g : Fault) → FirstFault bytes f → FirstFault bytes g → f ≡ g }
    ensures either { (bytes : List ℕ) → ((k : Kind) × (d : Data) × Spells k d bytes) ⊎ ((f : Fault) × FirstFault bytes f) }
{}

/// What was read can be written, and reads as the same tree again; and two documents of one kind have the same tree exactly where their
/// canonical texts are the same.
pub fn writing_is_stable()
    ensures fits { (k : Kind) (d : Data) (bytes : List ℕ) → Spells k d bytes → FitsKind k d }
    ensures again { (k : Kind) (d : Data) (bytes : List ℕ) → Spells k d bytes → Spells k d (canonical_text k d) }
    ensures same { (k : Kind) (d e : Data) (a b : List ℕ) → Spells k d a → Spells k e b → (d ≡ e) ↔ (canonical_text k d ≡ canonical_text k e) }
{}
