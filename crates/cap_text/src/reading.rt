ghost use Rattle.std.specs.Prelude.{◌≡◌, ◌<◌, ◌≤◌, ◌+◌, ◌^◌, ◌++◌, ◌∷◌, [], IfOk, OnOk, length, take, false};

use crate::ending::end;
use crate::held::Held;
use crate::known::Known;
use crate::open::{Doc, Outcome};
use crate::skipping::{end_in, spaces_in};
use cap_base::Memory;
use std::alloc::Global;

/// Where a reader stands.
#[derive(Drop)]
pub(crate) struct Reading {
    pub held: Held,
    pub doc: Doc,
    pub known: Known,
}

impl Reading {
    ghost use Rattle.cap_text.specs.Bytes.{begun, on_bytes, ended, piece_of};
    ghost use Rattle.cap_text.specs.Seen.{reading_of};
    ghost use Rattle.cap_text.specs.SeenDocs.{doc_of};
    ghost use Rattle.cap_text.specs.SeenKnown.{known_of};
    ghost use Rattle.cap_text.specs.Runs.{skipped_of};

    pub fn begun() -> Reading
        ensures { reading_of result ≡ begun }
    {
        Reading {
            held: Held::nothing(),
            doc: Doc::First,
            known: Known::nothing(),
        }
    }

    // How many bytes are white space that may stand here.
    fn skipped(&self, bytes: &[u8]) -> usize
        ensures count { result ≡ skipped_of (doc_of self.now.doc) self.now.held.bytes.items bytes.now }
        ensures within { result ≤ length bytes.now }
    {
        if self.held.bytes.is_empty() && self.doc.may_blank() {
            spaces_in(bytes)
        } else {
            0
        }
    }

    // Ends the piece that is held.
    fn end(&mut self, alloc: Global) -> Result<(), Memory>
        requires { self.old.held.stuck ≡ false }
        ensures read { self.old.known.place + (length self.old.held.bytes.items + 1) < 2 ^ 64
            → OnOk result (reading_of self.new ≡ ended (doc_of self.old.doc) (known_of self.old.known) (self.old.held.bytes.items ++ 62 ∷ []) (piece_of (doc_of self.old.doc) (self.old.held.bytes.items ++ 62 ∷ []))) }
        ensures few { OnOk result (self.new.known.place + length self.new.held.bytes.items ≤ self.old.known.place + (length self.old.held.bytes.items + 1)) }
    {
        match end(
            &mut self.doc,
            &mut self.known,
            self.held.bytes.as_slice(),
            alloc,
        )? {
            Outcome::Barred => self.held.bar(),
            Outcome::Read => self.held.clear(),
            Outcome::Moved(doc) => {
                self.doc = doc;
                self.held.clear();
            }
        }
        Ok(())
    }

    // Reads bytes up to the end of a piece, or as many as may be held: how many.
    fn read(&mut self, alloc: Global, bytes: &[u8]) -> Result<usize, Memory>
        requires free { self.old.held.stuck ≡ false }
        requires some { 1 ≤ length bytes.now }
        requires begun { skipped_of (doc_of self.old.doc) self.old.held.bytes.items bytes.now ≡ 0 }
        ensures read { self.old.known.place + length self.old.held.bytes.items + length bytes.now < 2 ^ 64
            → IfOk result (λ n. reading_of self.new ≡ on_bytes (reading_of self.old) (take n bytes.now)) }
        ensures some { IfOk result (λ n. 1 ≤ n) }
        ensures within { IfOk result (λ n. n ≤ length bytes.now) }
        ensures few { IfOk result (λ n. self.new.known.place + length self.new.held.bytes.items ≤ self.old.known.place + length self.old.held.bytes.items + n) }
    {
        let room = 128 - self.held.bytes.len();
        let near = &bytes[..room.min(bytes.len())];
        let before = end_in(near);
        self.held.hold(&near[..before]);
        if before == near.len() {
            return Ok(before);
        }
        self.end(alloc)?;
        Ok(before + 1)
    }

    // Reads some of the bytes: how many.
    fn advance(&mut self, alloc: Global, bytes: &[u8]) -> Result<usize, Memory>
        requires { 1 ≤ length bytes.now }
        ensures read { self.old.known.place + length self.old.held.bytes.items + length bytes.now < 2 ^ 64
            → IfOk result (λ n. reading_of self.new ≡ on_bytes (reading_of self.old) (take n bytes.now)) }
        ensures some { IfOk result (λ n. 1 ≤ n) }
        ensures within { IfOk result (λ n. n ≤ length bytes.now) }
        ensures few { IfOk result (λ n. self.new.known.place + length self.new.held.bytes.items ≤ self.old.known.place + length self.old.held.bytes.items + n) }
    {
        if self.held.stuck {
            self.held.keep(bytes);
            return Ok(bytes.len());
        }
        let skipped = self.skipped(bytes);
        if skipped == 0 {
            return self.read(alloc, bytes);
        }
        self.doc.pass();
        self.known.pass(skipped as u64);
        Ok(skipped)
    }

    /// Reads bytes.
    pub fn feed(&mut self, alloc: Global, piece: &[u8]) -> Result<(), Memory>
        ensures { self.old.known.place + length self.old.held.bytes.items + length piece.now < 2 ^ 64
            → OnOk result (reading_of self.new ≡ on_bytes (reading_of self.old) piece.now) }
    {
        let mut at = 0;
        while at < piece.len() {
            at += self.advance(alloc, &piece[at..])?;
        }
        Ok(())
    }
}
