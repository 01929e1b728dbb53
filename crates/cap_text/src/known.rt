ghost use Rattle.std.specs.Prelude.{◌≡◌, ◌<◌, ◌≤◌, ◌+◌, ◌^◌};
ghost use Rattle.cap_text.specs.Pieces.{document, opening, closing, leaf_opening, ending};

use cap_base::{Ident, read_number};
use cap_leaf::Kind;

/// What the pieces that were read tell. A place past the last `u64` stands still.
#[derive(Drop)]
pub(crate) struct Known {
    pub place: u64,
    pub named: Option<Kind>,
    pub exchange: u64,
    pub initiator: bool,
    pub from: Option<Ident>,
    pub depth: u64,
    pub closed: bool,
    pub open_leaf: bool,
    pub version: bool,
    ghost counted: { depth ≤ place },
}

impl Known {
    ghost use Rattle.cap_text.specs.Faults.{nothing, told_by};
    ghost use Rattle.cap_text.specs.Bytes.{passed_by};
    ghost use Rattle.cap_text.specs.SeenKnown.{known_of};

    pub fn nothing() -> Known
        ensures known { known_of result ≡ nothing }
        ensures place { result.place ≡ 0 }
    {
        Known {
            place: 0,
            named: None,
            exchange: 0,
            initiator: false,
            from: None,
            depth: 0,
            closed: false,
            open_leaf: false,
            version: false,
        }
    }

    /// So many bytes that tell nothing else.
    pub fn pass(&mut self, bytes: u64)
        ensures known { self.old.place + bytes < 2 ^ 64 → known_of self.new ≡ passed_by (known_of self.old) bytes }
        ensures place { self.new.place ≤ self.old.place + bytes }
    {
        self.place = self.place.saturating_add(bytes);
    }

    /// The opening of `Document`.
    pub fn name(&mut self, kind: Kind, bytes: u64)
        requires { 1 ≤ bytes }
        ensures known { self.old.place + bytes < 2 ^ 64 → known_of self.new ≡ told_by (known_of self.old) (document kind) bytes }
        ensures place { self.new.place ≤ self.old.place + bytes }
    {
        self.named = Some(kind);
        self.place = self.place.saturating_add(bytes);
        self.depth = 1;
    }

    /// The opening of a structure.
    pub fn open(&mut self, tag: &str, bytes: u64)
        requires { 1 ≤ bytes }
        ensures known { self.old.place + bytes < 2 ^ 64 → known_of self.new ≡ told_by (known_of self.old) (opening tag.now) bytes }
        ensures place { self.new.place ≤ self.old.place + bytes }
    {
        self.place = self.place.saturating_add(bytes);
        self.depth = self.depth.saturating_add(1);
        self.initiator = tag == "InitgPty";
    }

    /// The closing of a structure.
    pub fn close(&mut self, tag: &str, bytes: u64)
        ensures known { self.old.place + bytes < 2 ^ 64 → known_of self.new ≡ told_by (known_of self.old) (closing tag.now) bytes }
        ensures place { self.new.place ≤ self.old.place + bytes }
    {
        self.place = self.place.saturating_add(bytes);
        self.depth = self.depth.saturating_sub(1);
        self.closed = tag != "Hdr";
    }

    /// The opening of a leaf.
    pub fn open_a_leaf(&mut self, tag: &str, bytes: u64)
        ensures known { self.old.place + bytes < 2 ^ 64 → known_of self.new ≡ told_by (known_of self.old) (leaf_opening tag.now) bytes }
        ensures place { self.new.place ≤ self.old.place + bytes }
    {
        self.open_leaf = true;
        self.version = tag == "PrtcolVrsn";
        self.place = self.place.saturating_add(bytes);
    }

    /// A leaf's content and its closing.
    pub fn end_a_leaf(&mut self, tag: &str, content: &[u8], bytes: u64)
        ensures known { self.old.place + bytes < 2 ^ 64 → known_of self.new ≡ told_by (known_of self.old) (ending tag.now content.now) bytes }
        ensures place { self.new.place ≤ self.old.place + bytes }
    {
        if tag == "XchgId" {
            self.exchange = read_number(content, 10).unwrap_or(0);
        }
        if tag == "Id" && self.initiator {
            self.from = Ident::read(content);
        }
        self.open_leaf = false;
        self.version = false;
        self.place = self.place.saturating_add(bytes);
    }
}
