// A stream with its handles and its two buffers: its ends always lie in them.
//
// Callers make the page of `out` and `stream.used`: a method that takes a closure proves, but each of the four closures would need clauses of its own.
// `KeepsBuffers` is a clause: a relation of the console before and after, which no field says.
ghost use Rattle.std.specs.Prelude.{◌≡◌, true, ◌+◌, ◌≤◌, replicate, slice_range};
ghost use Rattle.text.specs.Put.{has_room};
ghost use Rattle.stream.specs.Ready.{buffer_room, octet_waits, Ready};
ghost use Rattle.stream.specs.Promises.{BeginsFresh, WritesOut, MakesRoom, Fills, StepsTo};

use crate::{BUFFER_ROOM, Stream};
use std::io::{Stdin, Stdout};

// The buffers are arrays with their ends in `stream`, since no crate here has a heap; `Ready` says that these lie in them.
#[derive(Drop)]
pub struct Console {
    stdin: Stdin,
    stdout: Stdout,
    pub stream: Stream,
    pub buf: [u8; BUFFER_ROOM],
    pub out: [u8; BUFFER_ROOM],
    pub ghost ready: { Ready stream },
}

impl Console {
    ghost use Rattle.stream.specs.Buffers.{KeepsBuffers};

    pub fn new(stdin: Stdin, stdout: Stdout) -> Console
        ensures begins { BeginsFresh result.stream }
        ensures empty { (result.buf ≡ replicate buffer_room 0) × (result.out ≡ replicate buffer_room 0) }
    {
        Console {
            stdin,
            stdout,
            stream: Stream::begin(),
            buf: [0; BUFFER_ROOM],
            out: [0; BUFFER_ROOM],
        }
    }

    // `Stream::write_out`.
    pub fn write_out(&mut self)
        ensures writes { WritesOut self.old.stream self.new.stream }
        ensures keeps { KeepsBuffers self.old self.new }
    {
        self.stream.write_out(self.stdout, &self.out);
    }

    // `Stream::room`: as much as the whole buffer has is then there.
    #[tactic(auto, using(crate::proofs::Staying::room_is_made))]
    pub fn room(&mut self, need: usize)
        ensures made { need ≤ buffer_room → has_room need self.new.out self.new.stream.used ≡ true }
        ensures makes { MakesRoom (has_room need self.old.out self.old.stream.used) self.old.stream self.new.stream }
        ensures keeps { KeepsBuffers self.old self.new }
    {
        self.stream.room(self.stdout, need, &self.out);
    }

    // `Stream::fill`.
    pub fn fill(&mut self)
        ensures fills { Fills (octet_waits self.old.stream.input) self.old.stream self.old.buf self.new.stream self.new.buf }
        ensures keeps { self.new.out ≡ self.old.out }
    {
        self.stream
            .fill(self.stdin, self.stdout, &mut self.buf, &self.out);
    }

    // What is read and not yet taken.
    pub fn waiting(&self) -> &[u8]
        ensures { result.now ≡ slice_range self.now.buf self.now.stream.input.at self.now.stream.input.end }
    {
        &self.buf[self.stream.input.at..self.stream.input.end]
    }

    // So many more octets are taken.
    pub fn take(&mut self, count: usize)
        requires { self.old.stream.input.at + count ≤ self.old.stream.input.end }
        ensures takes { self.new.stream ≡ record self.old.stream { input = record self.old.stream.input { at = self.old.stream.input.at + count } } }
        ensures keeps { KeepsBuffers self.old self.new }
    {
        self.stream.input.at += count;
    }

    // `Stream::stepped`, with the input as it stands: `StepsTo` takes one.
    pub fn stepped(&mut self, used: usize, ends: bool)
        requires { used ≤ buffer_room }
        ensures steps { StepsTo self.old.stream self.old.stream.input used ends self.new.stream }
        ensures keeps { KeepsBuffers self.old self.new }
    {
        let input = self.stream.input;
        self.stream.stepped(input, used, ends);
    }
}
