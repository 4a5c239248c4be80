// The logs that a ground made.
ghost use Rattle.std.specs.Prelude.{◌≡◌, ◌↔◌, ◌+◌, IfErr, IsErrOf, IsSome, OnErr, OnOk, MatchOption, length, IsTrue};
ghost use Rattle.std.specs.FinMap as map;
ghost use Rattle.host_model.specs.Picture.{OnBytes};
ghost use Rattle.host_model.specs.Stores.{Stores};
ghost use Rattle.host_model.specs.declared.fault.Stop.TheVariants.{Full};
ghost use Rattle.journal_core.specs.Changes.{MayGain, Gains};
ghost use Rattle.journal_core.specs.Journal.{IsOpen, IsFull, AppendCause};
ghost use Rattle.ground_store.specs.Value.{log_at};

use host_model::{Host, Stop};
use log_files::Log;
use row_keys::LogName;
use std::alloc::{AllocError, Global};
use std::collections::BTreeMap;
use std::marker::Model;

/// The logs that were made, by their names. Contracts see where each goes on.
#[derive(Drop)]
pub struct LogMap {
    logs: BTreeMap<LogName, Log>,
}

impl Model for LogMap {
    ghost use Rattle.std.specs.FinMap as map;
    ghost use Rattle.ground_store.specs.Value.{Logs};
    ghost use Rattle.ground_store.specs.Codes.{logs_code};

    ghost Value = { Logs };

    ghost coded = { logs_code };

    ghost view = { λ m. map.from_entries m.logs.entries };
}

impl LogMap {
    /// No logs. Takes no memory.
    pub fn new(alloc: Global) -> LogMap
        ensures { result ≡ map.empty }
    {
        LogMap {
            logs: BTreeMap::new(alloc),
        }
    }

    /// Takes a log up, in place of one of its name. At want of memory the map is as it was.
    pub fn insert(&mut self, name: LogName, log: Log) -> Result<(), AllocError>
        ensures ok { OnOk result (self.new ≡ map.insert self.old name log) }
        ensures err { OnErr result (self.new ≡ self.old) }
    {
        self.logs.insert(name, log)?;
        Ok(())
    }

    /// Gives a log up, if it is there.
    pub fn remove(&mut self, name: &LogName)
        ensures { self.new ≡ map.remove self.old name.now }
    {
        let _ = self.logs.remove(name);
    }

    /// Gives a log up, if there is one and it is there.
    pub fn forget(&mut self, name: Option<LogName>)
        ensures { MatchOption name (self.new ≡ self.old) (λ log. self.new ≡ map.remove self.old log) }
    {
        if let Some(log) = name {
            self.remove(&log);
        }
    }

    /// Adds these bytes to a log that is there. Takes no memory.
    pub fn append<H: Host>(
        &mut self,
        host: &mut H,
        name: &LogName,
        framed: &[u8],
    ) -> Result<(), Stop>
        requires there { IsSome (map.get self.old name.now) }
        requires opened { IsTrue (H.state host.old).is_faithful → IsOpen (log_at self.old name.now).name (log_at self.old name.now).end (H.state host.old).files }
        ensures stores { Stores (log_at self.old name.now).name (OnBytes (MayGain (log_at self.old name.now).end framed.now)) (OnBytes (Gains (log_at self.old name.now).end framed.now)) result (H.state host.old) (H.state host.new) }
        ensures opened { IsTrue (H.state host.new).is_faithful → OnOk result (IsOpen (log_at self.old name.now).name ((log_at self.old name.now).end + 5 + length framed.now) (H.state host.new).files) }
        ensures ok { OnOk result (self.new ≡ map.insert self.old name.now (record (log_at self.old name.now) { end = (log_at self.old name.now).end + 5 + length framed.now })) }
        ensures err { OnErr result (self.new ≡ self.old) }
        ensures full { IsErrOf result Full ↔ IsFull (log_at self.old name.now).end framed.now }
        ensures untouched { IsFull (log_at self.old name.now).end framed.now → host.new ≡ host.old }
        ensures stops { IfErr result (λ stop. AppendCause (log_at self.old name.now).end framed.now stop (H.state host.old) (H.state host.new)) }
    {
        let Some(log) = self.logs.get_mut(name) else {
            unreachable!()
        };
        log.append(host, framed)
    }
}
