// A script, heard in pieces of which one is held at a time.
ghost use Rattle.std.specs.Prelude.{◌≡◌, ◌<◌, ◌++◌, [], length, Contains, IfOk, IfErr, IsTrue};
ghost use Rattle.std.specs.Str.Lines.{strip_carriage_return};
ghost use Rattle.host_model.specs.Calls.{IsOfSource, Faulted};
ghost use Rattle.script_source.specs.Hearing.{Listens, Takes, IsShort, HeardLast, HearingStops, stop_of};
ghost use Rattle.script_source.specs.Feeds.{MovesLine, Fills, IsLast};

use crate::halt::Halt;
use crate::script::{Heard, MAX_LINE};
use host_model::{Host, HostFault};
use memchr::memchr;
use std::alloc::{AllocError, Global};
use std::marker::Model;

const PIECE: usize = 4_096;

/// The piece that is held. Contracts see the bytes that are heard and not yet taken.
#[derive(Drop)]
pub struct Pieces {
    piece: Vec<u8>,
    from: usize,
    to: usize,
}

impl Model for Pieces {
    ghost use Rattle.std.specs.Prelude.{List, ℕ, slice_range};
    ghost use Rattle.script_source.specs.Feeds.{IsWithin};

    ghost Value = { List ℕ };

    ghost view = { λ s. slice_range s.piece.items s.from s.to };

    ghost invariant = { λ s. IsWithin s.from s.to s.piece.items };
}

impl Pieces {
    /// Room for a piece, and nothing heard yet.
    pub fn new(alloc: Global) -> Result<Pieces, AllocError>
        ensures { IfOk result (λ pieces. pieces ≡ []) }
    {
        Ok(Pieces {
            piece: vec![in alloc; 0u8; PIECE]?,
            from: 0,
            to: 0,
        })
    }

    /// Takes the next line, and hears more only where its end isn't held yet.
    pub fn next_line<H: Host>(&mut self, alloc: Global, host: &mut H) -> Result<Heard, Halt>
        ensures listens { Listens (H.state host.old) (H.state host.new) }
        ensures takes { IsTrue (H.state host.old).is_faithful → IfOk result (λ heard.
            Takes (self.old ++ (H.state host.old).script) heard
            (self.new ++ (H.state host.new).script)) }
        ensures short { IfOk result IsShort }

        // a line whose end is held asks nothing of the host
        ensures held { Contains self.old 10 → host.new ≡ host.old }
        ensures last { HeardLast self.old (H.state host.new).last host.old host.new }
        ensures stops { IfErr result (λ halt.
            HearingStops (stop_of halt) (H.state host.old) (H.state host.new)) }
    {
        let mut line = Vec::new(alloc);
        while self.fill(host)? {
            let is_ended = self.move_line(&mut line)?;
            if line.len() > MAX_LINE {
                return Ok(Heard::TooLong);
            }
            if is_ended {
                drop_return(&mut line);
                return Ok(Heard::Line(line));
            }
        }
        Ok(last_line(line))
    }

    /// Hears a piece where none is held, and says whether bytes are held then.
    fn fill<H: Host>(&mut self, host: &mut H) -> Result<bool, HostFault>
        ensures listens { Listens (H.state host.old) (H.state host.new) }
        ensures held { 0 < length self.old → (self.new ≡ self.old) × (host.new ≡ host.old) }
        ensures last { HeardLast self.old (H.state host.new).last host.old host.new }
        ensures fills { IfOk result
            (Fills self.old (H.state host.old) self.new (H.state host.new)) }
        ensures cause { IfErr result (λ fault. IsOfSource fault
            × Faulted fault (H.state host.old) (H.state host.new)) }
    {
        if self.from < self.to {
            return Ok(true);
        }
        let count = host.hear(&mut self.piece)?;
        self.from = 0;
        self.to = count;
        Ok(count > 0)
    }

    /// Moves what is held up to a line feed, or all of it, to the end of a line, and says whether
    /// there was a feed.
    fn move_line(&mut self, line: &mut Vec<u8>) -> Result<bool, AllocError>
        ensures { IfOk result (λ is_ended.
            MovesLine is_ended self.old line.old.items self.new line.new.items) }
    {
        let pending = &self.piece[self.from..self.to];
        match memchr(b'\n', pending) {
            Some(end) => {
                line.extend_from_slice(&pending[..end])?;
                self.from += end + 1;
                Ok(true)
            }
            None => {
                line.extend_from_slice(pending)?;
                self.from = self.to;
                Ok(false)
            }
        }
    }
}

/// What is left of a script behind its last line feed.
fn last_line(line: Vec<u8>) -> Heard
    ensures { IsLast line.items result }
{
    if line.is_empty() {
        return Heard::End;
    }
    Heard::Line(line)
}

/// Drops one carriage return at the end.
fn drop_return(line: &mut Vec<u8>)
    ensures { line.new.items ≡ strip_carriage_return line.old.items }
{
    if line.last() == Some(&b'\r') {
        line.pop();
    }
}
