//! What a stream of octets shows, counted.
ghost use Rattle.std.specs.Prelude.{◌≡◌, ◌+◌, ◌∷◌, [], None, IfOk, IfSome, OnOk};
ghost use Rattle.dnp_link.specs.FrameContent.{event_content};
ghost use Rattle.dnp_link.specs.Stream.{reading};
ghost use Rattle.bench_layers.specs.Counts.{counts_of};
ghost use Rattle.bench_layers.specs.Meter.{Meters};

use dnp_link::{LinkEvent, LinkFeed};
use dnp_transport::{Assembler, Taken};
use gw_model::Memory;
use std::alloc::Global;
use std::io::{self, ErrorKind, Read};

/// How many octets one read asks for.
const PIECE: usize = 65_536;

/// How many octets there are, how many events they show (a frame, or an octet that was dropped), and how many
/// fragments the frames carry.
#[derive(Clone, Copy)]
pub struct Counts {
    pub octets: u64,
    pub events: u64,
    pub fragments: u64,
}

/// Counts what the octets of a reader show. It fails where the reader does, where memory runs out, and where
/// 4,294,967,295 reads don't reach the end.
pub fn measure<R: Read>(alloc: Global, reader: &mut R) -> io::Result<Counts>
    ensures { IfOk result (λ counts. IfSome (R.remaining reader.old) (λ octets. counts ≡ counts_of octets)) }
{
    let mut stream = LinkFeed::new(alloc);
    let mut meter = Meter::new(alloc);
    let mut octets = 0;
    let mut buffer = vec![in alloc; 0u8; PIECE]?;
    for _ in 0..u32::MAX {
        let count = reader.read(&mut buffer)?;
        if count == 0 {
            return Ok(Counts {
                octets,
                events: meter.events,
                fragments: meter.fragments,
            });
        }
        octets = sum(octets, count as u64)?;
        stream.feed(&buffer[..count]).map_err(out_of_memory)?;
        meter.drain(&mut stream)?;
    }
    Err(io::Error::from(ErrorKind::Other))
}

/// An assembler that takes the user data of each frame, and what there was so far.
#[derive(Drop)]
struct Meter {
    assembler: Assembler,
    events: u64,
    fragments: u64,
}

impl Meter {
    /// A meter that no event has come to.
    fn new(alloc: Global) -> Meter
        ensures assembler { result.assembler ≡ None }
        ensures events { result.events ≡ 0 }
        ensures fragments { result.fragments ≡ 0 }
    {
        Meter {
            assembler: Assembler::new(alloc),
            events: 0,
            fragments: 0,
        }
    }

    /// Takes the events that a feed shows.
    fn drain(&mut self, feed: &mut LinkFeed) -> io::Result<()>
        ensures taken { OnOk result (Meters self.old self.new (reading feed.old).events) }
        ensures rest { OnOk result (feed.new ≡ (reading feed.old).rest) }
    {
        while let Some(event) = &feed.next() {
            self.take(event)?;
        }
        Ok(())
    }

    /// Takes an event.
    fn take(&mut self, event: &LinkEvent) -> io::Result<()>
        ensures { OnOk result (Meters self.old self.new (event_content event.now ∷ [])) }
    {
        self.events = sum(self.events, 1)?;
        let frame = match event {
            LinkEvent::Frame(frame) => frame,
            LinkEvent::Skipped(_) => return Ok(()),
        };
        let taken = self.assembler.segment(frame.user()).map_err(out_of_memory)?;
        if let Taken::Fragment(_) = taken {
            self.fragments = sum(self.fragments, 1)?;
        }
        Ok(())
    }
}

/// Both counts together.
fn sum(a: u64, b: u64) -> io::Result<u64>
    ensures { IfOk result (λ both. both ≡ a + b) }
{
    match a.checked_add(b) {
        Some(both) => Ok(both),
        None => Err(io::Error::from(ErrorKind::Other)),
    }
}

fn out_of_memory(_memory: Memory) -> io::Error {
    io::Error::from(ErrorKind::OutOfMemory)
}
