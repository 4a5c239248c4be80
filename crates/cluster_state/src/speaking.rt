// What is heard and said.
ghost use Rattle.std.specs.Prelude.{◌≡◌, ◌<◌, ◌≤◌, None, IfErr, IfOk, IsTrue, length};
ghost use Rattle.ground_store.specs.Acts.{Tells, Listens, stop_of};
ghost use Rattle.ground_store.specs.Causes.{IsSayStop, IsHearStop};
ghost use Rattle.cluster_state.specs.Starting.{SameBeside};
ghost use Rattle.cluster_state.specs.Station.{StaysStation};

use crate::cluster::Cluster;
use host_model::{Host, Stop};

impl<H: Host> Cluster<H> {
    /// Says these bytes behind those said before. After a stop a front of them was said, and a crash inside leaves a front.
    pub fn say(&mut self, bytes: &[u8]) -> Result<(), Stop>
        ensures tells { Tells H.state bytes.now (stop_of result) self.old.base self.new.base }
        ensures same { (self.new.base.nodes ≡ self.old.base.nodes) × (self.new.base.logs ≡ self.old.base.logs) }
        ensures beside { SameBeside self.old self.new }
        ensures station { IsTrue (H.state self.old.base.host).is_faithful → StaysStation H.state (stop_of result) self.old self.new }
        ensures stops { self.old.base.stopped ≡ None → IfErr result (λ stop. IsSayStop stop) }
    {
        self.base.say(bytes)
    }

    /// Hears the next bytes of the script: at least one and at most as many as there is room for, or none at its end. After a stop
    /// nothing of the script is lost.
    pub fn hear(&mut self, into: &mut [u8]) -> Result<usize, Stop>
        requires { 0 < length into.old }
        ensures listens { Listens H.state into.new result self.old.base self.new.base }
        ensures room { IfOk result (λ count. count ≤ length into.new) }
        ensures same { (self.new.base.nodes ≡ self.old.base.nodes) × (self.new.base.logs ≡ self.old.base.logs) }
        ensures beside { SameBeside self.old self.new }
        ensures station { IsTrue (H.state self.old.base.host).is_faithful → StaysStation H.state (stop_of result) self.old self.new }
        ensures stops { self.old.base.stopped ≡ None → IfErr result (λ stop. IsHearStop stop) }
    {
        self.base.hear(into)
    }
}
