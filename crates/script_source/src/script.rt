// The script, taken line by line.
ghost use Rattle.std.specs.Prelude.{◌≡◌, ◌++◌, [], None, Some, Err, Contains, IfOk, IfErr, OnOk, IsTrue};
ghost use Rattle.script_source.specs.Hearing.{Listens, Takes, IsShort, HeardLast, HearingStops};

use crate::halt::Halt;
use crate::pieces::Pieces;
use host_model::{Host, Stop};
use std::alloc::{AllocError, Global};
use std::marker::Model;

/// The most bytes that a line may have, a carriage return before its line feed counted. The bound
/// is this project's own.
pub const MAX_LINE: usize = 8_192;

/// What comes next in a script.
#[derive(Debug, Drop)]
pub enum Heard {
    /// Nothing: the script is at its end.
    End,
    /// A line, without its line feed and without one carriage return before that. The last line
    /// may lack the line feed, and then it is taken as it is.
    Line(Vec<u8>),
    /// A line of more than `MAX_LINE` bytes. What the next call answers is not promised.
    TooLong,
}

/// A script that is heard in pieces, of which one is held at a time. Contracts see the bytes that
/// are heard and not yet taken, and the stop that it has answered.
#[derive(Drop)]
pub struct Script {
    pieces: Pieces,
    halt: Option<Halt>,
}

impl Model for Script {
    ghost use Rattle.std.specs.Option.{option_map};
    ghost use Rattle.script_source.specs.Hearing.{ScriptValue, stop_of};

    ghost Value = { ScriptValue };

    ghost view = { λ s. record { held = s.pieces; stop = option_map stop_of s.halt } };
}

impl Script {
    /// A script of which nothing is heard yet. Takes memory for one piece of 4,096 bytes, and fails
    /// only where there is none. Makes no host call.
    pub fn new(alloc: Global) -> Result<Script, AllocError>
        ensures { IfOk result (λ script. script ≡ record { held = []; stop = None }) }
    {
        Ok(Script {
            pieces: Pieces::new(alloc)?,
            halt: None,
        })
    }

    /// Takes the next line, and hears more only where its end isn't held yet.
    ///
    /// Errors: `Stop::Host` where the host could not hear, with the fault that it has counted, and
    /// `Stop::NoMemory` where there is no memory for the line. The call of the host that failed is
    /// the last one. What is left of the script then is not promised: bytes of the line that were
    /// held may be lost. From then on it answers the same one and asks the host nothing. No file is
    /// written.
    ///
    /// But for the same answer again, the last call of the host heard, or bytes were held and the
    /// host is asked nothing.
    ///
    /// Each byte is looked at once, and copied once into the line. A host call hears up to 4,096
    /// bytes, and a line whose end is held takes none.
    pub fn next_line<H: Host>(&mut self, alloc: Global, host: &mut H) -> Result<Heard, Stop>
        ensures listens { Listens (H.state host.old) (H.state host.new) }
        ensures takes { IsTrue (H.state host.old).is_faithful → IfOk result (λ heard.
            Takes (self.old.held ++ (H.state host.old).script) heard
            (self.new.held ++ (H.state host.new).script)) }
        ensures short { IfOk result IsShort }

        // a line whose end is held asks nothing of the host
        ensures held { Contains self.old.held 10 → host.new ≡ host.old }
        ensures last { self.old.stop ≡ None →
            HeardLast self.old.held (H.state host.new).last host.old host.new }
        ensures dead { (stop : Stop) → self.old.stop ≡ Some stop →
            (result ≡ Err stop) × (self.new ≡ self.old) × (host.new ≡ host.old) }
        ensures running { OnOk result (self.new.stop ≡ None) }
        ensures stopped { IfErr result (λ stop. self.new.stop ≡ Some stop) }
        ensures stops { self.old.stop ≡ None → IfErr result (λ stop.
            HearingStops stop (H.state host.old) (H.state host.new)) }
    {
        if let Some(halt) = self.halt {
            return Err(halt.stop());
        }
        match self.pieces.next_line(alloc, host) {
            Ok(heard) => Ok(heard),
            Err(halt) => {
                self.halt = Some(halt);
                Err(halt.stop())
            }
        }
    }
}
