// A reader that holds its record and its place in it, thin over the line reader's cursor (01, 'Line reader').
//
// No public function has a `requires`: whatever a caller passes is answered. specs/ says what each answer is.
#![tactic(auto)]

ghost use Rattle.reader.specs.Step.{Steps, Starts, Nexts, IsPlace, IsUnread};

use line::read::{Answer, Cursor, read_frame, rest};

// What a step answers, and the reader's place behind it; an error has a place too, since `Steps` says that the reader stays there.
#[derive(Clone, Copy)]
pub struct Moved {
    pub answer: Answer,
    pub at: Cursor,
}

// A record and a place in it.
#[derive(Clone, Copy)]
pub struct Reader<'a> {
    line: &'a [u8],
    at: Cursor,
}

impl<'a> Reader<'a> {
    // At the record's beginning.
    pub fn new(line: &'a [u8]) -> Self
        ensures { Starts line.entry result }
    {
        Self {
            line,
            at: Cursor { at: 0 },
        }
    }

    // The frame at the reader's place; the reader moves behind it, and stays where there is none.
    #[tactic(auto, using(crate::proofs::Steps::stays), unfolding(line::specs::Reader::behind))]
    pub fn next(&mut self, octets: &mut [u8]) -> Answer
        ensures { Nexts self.old octets.old result octets.new self.new }
    {
        let answer = read_frame(self.line, self.at, octets);
        if let Ok(found) = answer {
            self.at = found.next;
        }
        answer
    }

    pub fn place(&self) -> usize
        ensures { IsPlace self.now result }
    {
        self.at.at
    }

    // What is still unread: a part of the caller's own record.
    pub fn rest(self) -> &'a [u8]
        ensures { IsUnread self.entry result }
    {
        rest(self.line, self.at)
    }
}

// A step of a reader that stands at a cursor, for callers that hold none.
pub fn next_from(line: &[u8], cursor: Cursor, octets: &mut [u8]) -> Moved
    ensures { Steps line.now cursor.at octets.old result.answer octets.new result.at.at }
{
    let mut reader = Reader { line, at: cursor };
    let answer = reader.next(octets);
    Moved {
        answer,
        at: reader.at,
    }
}
