// Stops between two actions.
ghost use Rattle.std.specs.Prelude.{◌≡◌, None, Some, OnOk};
ghost use Rattle.ground_store.specs.Acts.{Acts, IsAgain, stop_of};
ghost use Rattle.ground_store.specs.Drawing.{IsOwn};
ghost use Rattle.ground_store.specs.Steps.{Stays};
ghost use Rattle.ground_store.specs.Value.{IsAtRest};

use crate::again::{again, keep};
use crate::ground::Ground;
use host_model::{Host, Stop};

impl<H: Host> Ground<H> {
    /// Answers the stop again where the ground has stopped, or `NoMemory` where the copy of a damaged file's name finds none,
    /// and else `Ok`: then the host's files are as this value knows them, and no write is pending. Asks nothing of the host.
    pub fn check(&self) -> Result<(), Stop>
        ensures acts { Acts H.state Stays Stays (stop_of result) self.now self.now }
        ensures runs { OnOk result (self.now.stopped ≡ None) }
        ensures rest { OnOk result (IsAtRest self.now.nodes self.now.logs (H.state self.now.host)) }
    {
        match &self.stopped {
            Some(stop) => Err(again(self.alloc, stop)),
            None => Ok(()),
        }
    }

    /// Stops for a reason of the caller's own, as want of memory between two actions, and answers it, or `NoMemory` where the
    /// copy of a damaged file's name finds none. From then on each call answers it, and asks nothing of the host.
    pub fn stop(&mut self, stop: Stop) -> Stop
        requires running { self.old.stopped ≡ None }
        requires own { IsOwn stop }
        ensures acts { Acts H.state Stays Stays (Some result) self.old self.new }
        ensures kept { self.new ≡ record self.old { stopped = Some stop } }
        ensures again { IsAgain stop result }
    {
        keep(self.alloc, &mut self.stopped, stop)
    }
}
