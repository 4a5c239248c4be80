// Files that are taken out by their names.
ghost use Rattle.std.specs.Prelude.{◌≡◌, None, IfErr, OnOk, MatchOption};
ghost use Rattle.std.specs.FinMap as map;
ghost use Rattle.host_model.specs.Alters.{Alters};
ghost use Rattle.store_layout.specs.Names.{IsFile, IsRemovableName};
ghost use Rattle.ground_store.specs.Acts.{Acts, stop_of};
ghost use Rattle.ground_store.specs.Steps.{MayTake, Takes};
ghost use Rattle.ground_store.specs.Causes.{FileCause};

use crate::again::{again, keep};
use crate::files::take;
use crate::ground::Ground;
use crate::log_map::LogMap;
use host_model::{Host, Name, Stop};
use row_keys::LogName;

impl<H: Host> Ground<H> {
    /// Takes the data file, the log or the sorted log of this name out, if it is there. Whole or absent at a stop or a crash,
    /// and lasting at `Ok`. A log that is taken out isn't appended to any more. One call of the host.
    pub fn remove_name(&mut self, name: &Name) -> Result<(), Stop>
        requires { IsRemovableName name.now }
        ensures acts { Acts H.state (MayTake name.now) (Takes name.now) (stop_of result) self.old self.new }
        ensures logs { OnOk result (self.new.logs ≡ map.remove self.old.logs name.now) }
        ensures nodes { self.new.nodes ≡ self.old.nodes }
        ensures stops { self.old.stopped ≡ None → IfErr result (λ stop. FileCause stop (H.state self.old.host) (H.state self.new.host)) }
    {
        if let Some(stop) = &self.stopped {
            return Err(again(self.alloc, stop));
        }
        let log = match LogName::new(self.alloc, name.as_bytes()) {
            Ok(log) => log,
            Err(_) => return Err(keep(self.alloc, &mut self.stopped, Stop::NoMemory)),
        };
        match take_logged(&mut self.host, &mut self.logs, name, log) {
            Ok(()) => Ok(()),
            Err(stop) => Err(keep(self.alloc, &mut self.stopped, stop)),
        }
    }
}

/// Takes a file out, and gives its log up where it is one's.
fn take_logged<H: Host>(
    host: &mut H,
    logs: &mut LogMap,
    name: &Name,
    log: Option<LogName>,
) -> Result<(), Stop>
    ensures alters { Alters (IsFile name.now) (MayTake name.now) (Takes name.now) result (H.state host.old) (H.state host.new) }
    ensures logs { OnOk result (MatchOption log (logs.new ≡ logs.old) (λ own. logs.new ≡ map.remove logs.old own)) }
    ensures stops { IfErr result (λ stop. FileCause stop (H.state host.old) (H.state host.new)) }
{
    take(host, name)?;
    logs.forget(log);
    Ok(())
}
