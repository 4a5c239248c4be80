// Numbers that are drawn.
ghost use Rattle.std.specs.Prelude.{◌≡◌, None, IfErr, IfOk, IsErr};
ghost use Rattle.store_layout.specs.Nodes.{IsNoCounter, draw_ops, next_name_path};
ghost use Rattle.ground_store.specs.Acts.{Acts, stop_of};
ghost use Rattle.ground_store.specs.Drawing.{MayDraw, Draws, DrawCause, HasDrawn, IsDrawFull, IsDrawn, IsOwn, PlanCause};

use crate::again::{again, keep};
use crate::ground::Ground;
use host_model::{Host, Stop};
use node_store::{NodeOp, NodeStop, NodeStore};
use std::alloc::Global;
use store_layout::{draw_ops, next_name_path, next_number, nodes_name};

/// One past the greatest number that is drawn.
const NUMBER_END: u64 = 1 << 63;

/// The number of the next file's name, and the change that draws it.
fn plan(alloc: Global, nodes: &NodeStore) -> Result<(u64, Vec<NodeOp>), Stop>
    ensures drawn { IfOk result (λ plan. IsDrawn nodes.now.nodes plan.0) }
    ensures ops { IfOk result (λ plan. plan.1.items ≡ draw_ops next_name_path plan.0) }
    ensures stops { IfErr result (λ stop. PlanCause nodes.now.nodes stop) }
{
    let path = next_name_path(alloc)?;
    let Some(number) = next_number(alloc, nodes, &path)? else {
        return Err(Stop::Damaged(nodes_name(alloc)?));
    };
    if number + 1 >= NUMBER_END {
        return Err(Stop::Full);
    }
    Ok((number, draw_ops(alloc, path, number)?))
}

impl<H: Host> Ground<H> {
    /// Draws the number for the name of a new file: answers the number of `/next/name`, which is raised by one, so that no
    /// later draw answers it again. From 1 to 2^63 - 2.
    ///
    /// `Damaged` names the nodes, exactly where they say no such number. `Full` comes exactly where the number after it would
    /// reach 2^63 or there is no room for the change. Each other stop is a fault of the disk or the host's memory, which is
    /// counted, or want of memory. A fault of the host or a crash inside leaves the number drawn or not; at any other stop the
    /// host was asked nothing. One multi: six calls of the host, two of them syncs. This project's own.
    pub fn draw_name(&mut self) -> Result<u64, Stop>
        ensures acts { Acts H.state (MayDraw self.old.nodes) (Draws self.old.nodes) (stop_of result) self.old self.new }
        ensures drawn { IfOk result (λ number. HasDrawn number self.old.nodes.nodes self.new.nodes.nodes) }
        ensures name { self.new.nodes.name ≡ self.old.nodes.name }
        ensures logs { self.new.logs ≡ self.old.logs }
        ensures none { IsNoCounter self.old.nodes.nodes next_name_path → IsErr result }
        ensures full { IsDrawFull self.old.nodes → IsErr result }
        ensures untouched { IfErr result (λ stop. IsOwn stop → self.new.host ≡ self.old.host) }
        ensures stops { self.old.stopped ≡ None → IfErr result (λ stop. DrawCause self.old.nodes stop (H.state self.old.host) (H.state self.new.host)) }
    {
        if let Some(stop) = &self.stopped {
            return Err(again(self.alloc, stop));
        }
        let (number, ops) = match plan(self.alloc, &self.nodes) {
            Ok(plan) => plan,
            Err(stop) => return Err(keep(self.alloc, &mut self.stopped, stop)),
        };
        match self.multi(&ops) {
            Ok(()) => Ok(number),
            Err(NodeStop::Stop(stop)) => Err(stop),
            Err(NodeStop::Exists | NodeStop::Missing | NodeStop::Version(_)) => unreachable!(),
        }
    }
}
