// What is heard and said.
ghost use Rattle.std.specs.Prelude.{◌≡◌, ◌≤◌, ◌<◌, None, IfErr, IfOk, OnOk, IsTrue, length};
ghost use Rattle.ground_store.specs.Causes.{IsSayStop, IsHearStop};
ghost use Rattle.ground_store.specs.Acts.{Tells, Listens, stop_of};

use crate::again::{again, keep};
use crate::ground::Ground;
use host_model::{Host, Stop};

impl<H: Host> Ground<H> {
    /// Says these bytes behind those said before. After a stop a front of them was said, and a crash inside leaves a front.
    pub fn say(&mut self, bytes: &[u8]) -> Result<(), Stop>
        ensures tells { Tells H.state bytes.now (stop_of result) self.old self.new }
        ensures same { (self.new.nodes ≡ self.old.nodes) × (self.new.logs ≡ self.old.logs) }
        ensures stops { self.old.stopped ≡ None → IfErr result (λ stop. IsSayStop stop) }
    {
        if let Some(stop) = &self.stopped {
            return Err(again(self.alloc, stop));
        }
        match self.host.say(bytes) {
            Ok(()) => Ok(()),
            Err(fault) => Err(keep(self.alloc, &mut self.stopped, Stop::Host(fault))),
        }
    }

    /// Hears the next bytes of the script: at least one and at most as many as there is room for, or none at its end. After a
    /// stop nothing of the script is lost.
    pub fn hear(&mut self, into: &mut [u8]) -> Result<usize, Stop>
        requires { 0 < length into.old }
        ensures listens { Listens H.state into.new result self.old self.new }
        ensures room { IfOk result (λ count. count ≤ length into.new) }
        ensures stops { self.old.stopped ≡ None → IfErr result (λ stop. IsHearStop stop) }
        ensures same { (self.new.nodes ≡ self.old.nodes) × (self.new.logs ≡ self.old.logs) }
    {
        if let Some(stop) = &self.stopped {
            return Err(again(self.alloc, stop));
        }
        match self.host.hear(into) {
            Ok(count) => Ok(count),
            Err(fault) => Err(keep(self.alloc, &mut self.stopped, Stop::Host(fault))),
        }
    }
}
