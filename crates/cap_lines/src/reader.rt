// Lines, taken from an input one after the other.
ghost use Rattle.std.specs.Prelude.{◌≡◌, ◌≤◌, ◌<◌, ℕ, true, false, List, [], length, Err, None, IfErr};
ghost use Rattle.cap_base.specs.Causes.{Rose};

use crate::held::Held;
use cap_base::Source;
use std::alloc::Global;

/// The most bytes that are taken as an input.
pub const MOST_BYTES: usize = 16_777_216;

/// The most lines of an input.
pub const MOST_LINES: usize = 100_000;

/// How many bytes are taken at once.
const PIECE: usize = 4096;

/// What comes next of an input.
#[derive(Clone, Copy, Debug, PartialEq, Eq)]
pub enum Next {
    /// A line.
    Line,
    /// No more: the input ended within the limits.
    End,
    /// No more: the input is past a limit.
    Limit,
}

/// Why the next line was not taken.
#[derive(Clone, Copy, Debug, PartialEq, Eq)]
pub enum InputFault {
    /// The input could not be read.
    Read,
    /// There was no memory for more. What was taken is not lost.
    Memory,
}

/// Takes the lines of an input, each before the bytes behind it are asked for. It holds no more than the line that has not ended, and a
/// piece of the input.
#[derive(Drop)]
pub struct LineReader {
    held: Held,
    taken: usize,
    given: usize,
    is_ended: bool,
}

impl LineReader {
    ghost use Rattle.std.specs.Prelude.{Option};
    ghost use Rattle.cap_lines.specs.Reading.{HasRead, Waits, Answers, Finishes, Refills, Turns, IsPrompt, line_of};

    /// A reader that has taken nothing.
    pub fn new(alloc: Global) -> LineReader
        ensures { (left : Option (List ℕ)) → HasRead result left [] [] }
    {
        LineReader {
            held: Held::new(alloc),
            taken: 0,
            given: 0,
            is_ended: false,
        }
    }

    /// The line that was given last.
    pub fn line(&self) -> &[u8]
        ensures { result.now ≡ line_of self.now }
    {
        self.held.line()
    }

    /// Gives the next line. More of the input is asked for only where all lines that had ended were given. At the input's end what stands
    /// behind the last line feed is a line too. After `End`, `Limit` and a fault the same call may come again.
    pub fn next<S: Source>(&mut self, input: &mut S) -> Result<Next, InputFault>
        ensures turn { Turns self.old (S.left input.old) (S.left input.new) self.new result }
        ensures prompt { IsPrompt self.old (S.left input.old) self.new }
        ensures cause { result ≡ Err InputFault.Read → Rose (S.faults input.old) (S.faults input.new) }
        ensures input_later { S.faults input.old ≤ S.faults input.new }
    {
        'pieces: loop {
            if let Some(next) = self.answer() {
                return Ok(next);
            }
            if self.refill(input)? == 0 {
                return Ok(self.finish());
            }
        }
    }

    // What comes next without the input, where that is known.
    fn answer(&mut self) -> Option<Next>
        ensures answers { Answers self.old self.new result }
        ensures waits { result ≡ None → Waits self.new }
        ensures taken { self.new.taken ≡ self.old.taken }
    {
        if self.is_ended {
            return Some(Next::End);
        }
        if self.given < MOST_LINES {
            if self.held.split_line() {
                self.given += 1;
                return Some(Next::Line);
            }
        } else if !self.held.is_empty() {
            return Some(Next::Limit);
        }
        if self.taken > MOST_BYTES {
            return Some(Next::Limit);
        }
        None
    }

    // Takes a piece of the input, and tells how many bytes it has.
    fn refill<S: Source>(&mut self, input: &mut S) -> Result<usize, InputFault>
        requires { Waits self.old }
        ensures refills { Refills self.old (S.left input.old) (S.left input.new) self.new result }
        ensures cause { result ≡ Err InputFault.Read → Rose (S.faults input.old) (S.faults input.new) }
        ensures input_later { S.faults input.old ≤ S.faults input.new }
    {
        if self.held.make_room(PIECE).is_err() {
            return Err(InputFault::Memory);
        }
        let mut piece = [0u8; PIECE];
        let Ok(count) = input.take(&mut piece) else {
            return Err(InputFault::Read);
        };
        let within = count.min(MOST_BYTES - self.taken);
        self.held.push(piece.split_at(within).0);
        self.taken += count;
        Ok(count)
    }

    // What comes at the input's end.
    fn finish(&mut self) -> Next
        requires { Waits self.old }
        ensures { Finishes self.old self.new result }
    {
        self.is_ended = true;
        if self.held.is_empty() {
            return Next::End;
        }
        self.held.split_rest();
        self.given += 1;
        Next::Line
    }
}
