// What is on this line? Standard input, a record, to standard output, a line of text for each frame in it.
#![tactic(auto)]

ghost use Rattle.std.specs.Prelude.{◌≡◌, true};
ghost use Rattle.text.specs.Put.{has_room};
ghost use Rattle.listing.specs.Lines.{frame_line_room};

use line::write::FRAME_ROOM;
use listing::{FRAME_LINE_ROOM, Listing};
use stream::Console;
use text::Page;

// Between characters: the console, and room for what is held of the record.
// The listing is no field: beside the buffers each character loads and stores it, which costs a record of Hard Resets 7 instructions more of 100, and one of long frames 3.
// Pages of the console are made here, and by no method of it: stream/src/console.rt.
// Room for a line is a clause and no ghost field: it holds behind `Console::room` alone, and a text takes of it.
#[derive(Drop)]
struct Run {
    console: Console,
    window: [u8; FRAME_ROOM],
}

impl Run {
    // The end of the input: what is then said, and no more.
    fn end(&mut self, listing: Listing)
        requires { has_room frame_line_room self.old.console.out self.old.console.stream.used ≡ true }
    {
        let mut page = Page {
            octets: &mut self.console.out,
            at: self.console.stream.used,
        };
        listing.finish(&mut page);
        let used = page.at;
        self.console.stepped(used, true);
    }

    fn take(&mut self, listing: Listing, c: u8) -> Listing
        requires { has_room frame_line_room self.old.console.out self.old.console.stream.used ≡ true }
    {
        let mut page = Page {
            octets: &mut self.console.out,
            at: self.console.stream.used,
        };
        let next = listing.feed(c, &mut self.window, &mut page);
        let used = page.at;
        self.console.stepped(used, next.is_none());
        next.unwrap_or(listing)
    }

    // One character, or the end of the input.
    #[tactic(auto, using(stream::proofs::Staying::room_is_made))]
    fn one(&mut self, listing: Listing) -> Listing {
        self.console.fill();
        self.console.room(FRAME_LINE_ROOM);
        let next = self.console.waiting().first().copied();
        match next {
            Some(c) => {
                self.console.take(1);
                self.take(listing, c)
            }
            None => {
                self.end(listing);
                listing
            }
        }
    }

    // Each character in turn. A loop without end would ask for Wait, so that this one ends, after 2^64 - 1 characters, which are never read.
    fn all(&mut self, mut listing: Listing) {
        for _ in 0..usize::MAX {
            listing = self.one(listing);
            if !self.console.stream.on {
                return;
            }
        }
    }
}

fn main(rt: HostRuntime) {
    let mut run = Run {
        console: Console::new(rt.stdin(), rt.stdout()),
        window: [0; FRAME_ROOM],
    };
    run.all(Listing::begin());
    run.console.write_out();
}
