// The files, the script and the replies, as a program sees them.
ghost use Rattle.std.specs.Prelude.{◌≡◌, ◌+◌, ◌<◌, [], None, length, IsTrue, IfOk};
ghost use Rattle.host_model.specs.State.{HostState};
ghost use Rattle.host_model.specs.Picture.{file_at, file_names};
ghost use Rattle.std.specs.Option.{option_map};
ghost use Rattle.host_model.specs.Calls.{Names, Reaches, Writes, Syncs, Replaces, Asks, Reads, Says, Hears, IsSound};

use crate::{HostCall, HostFault, Name, Stop};
use std::alloc::Global;

/// What a program asks of the outside: the files of one directory, a script that is heard, and replies that are said.
///
/// Contracts see a host as a `HostState`. A host is *faithful* where its calls read, change and keep the files, and hear
/// and say, as stated here; what a call asks of the files, or says of them, it asks and says only of a faithful host. It
/// is *honest* where it is faithful and a crash leaves just what the disk model allows: between two syncs of a file each
/// written range and the part past the old end may hold any bytes, and after a sync that succeeded a crash leaves what a
/// read gives. Each call keeps both.
///
/// Every call but `names` may answer `Memory`, beside a fault of its own kind; each fault it answers is counted in it.
/// A call that fails leaves all as it was, but for what is said here. The model is this project's own.
pub trait Host {
    /// What contracts see of it.
    ghost state: { Self → HostState };

    /// The files' names, in byte order. Answers only `Stop::Host(Disk)`, or `Stop::NoMemory` where the list finds none.
    fn names(&mut self, alloc: Global) -> Result<Vec<Name>, Stop>
        ensures { Names result (state self.old) (state self.new) };

    /// Makes the file empty, whether it is there or not. Whole, and lasting on return. Where it fails it is done or not
    /// done, and a crash inside leaves either.
    fn create(&mut self, name: &Name) -> Result<(), HostFault>
        ensures { Replaces HostCall.Create name.now (Some []) result (state self.old) (state self.new) };

    /// Takes the file out, and does nothing where it isn't there. Whole, and lasting on return. Where it fails it is done
    /// or not done, and a crash inside leaves either.
    fn remove(&mut self, name: &Name) -> Result<(), HostFault>
        ensures { Replaces HostCall.Remove name.now None result (state self.old) (state self.new) };

    /// How many bytes the file has, or none exactly where it isn't there.
    fn length(&mut self, name: &Name) -> Result<Option<u64>, HostFault>
        ensures asks { Asks HostCall.Length result (state self.old) (state self.new) }
        ensures is { IsTrue (state self.old).is_faithful → IfOk result (λ size. size ≡ option_map length (file_at (state self.old).files name.now)) };

    /// Reads as many bytes as there is room for, from an offset on. The file is there, and all of them lie in it.
    fn read(&mut self, name: &Name, at: u64, into: &mut [u8]) -> Result<(), HostFault>
        requires { IsTrue (state self.old).is_faithful → Reaches (state self.old).files name.now (at + length into.old) }
        ensures { Reads name.now at into.new result (state self.old) (state self.new) };

    /// Writes bytes from an offset on, which is at most the file's length, and lengthens the file where they reach past
    /// its end. Where it fails the range may hold any bytes, also past the old end; a crash before the next sync may leave
    /// the same.
    fn write(&mut self, name: &Name, at: u64, bytes: &[u8]) -> Result<(), HostFault>
        requires { IsTrue (state self.old).is_faithful → Reaches (state self.old).files name.now at }
        ensures { Writes name.now at bytes.now result (state self.old) (state self.new) };

    /// Brings what was written to the file to the disk: at `Ok` a crash leaves of it what a read gives.
    fn sync(&mut self, name: &Name) -> Result<(), HostFault>
        ensures { Syncs name.now result (state self.old) (state self.new) };

    /// Hears the next bytes of the script: at least one and at most as many as there is room for, or none at its end. There
    /// is room for one. Where it fails nothing of the script is lost.
    fn hear(&mut self, into: &mut [u8]) -> Result<usize, HostFault>
        requires { 0 < length into.old }
        ensures { Hears into.new result (state self.old) (state self.new) };

    /// Says the bytes behind those said before. Where it fails a front of them was said, and a crash inside leaves a front
    /// said.
    fn say(&mut self, bytes: &[u8]) -> Result<(), HostFault>
        ensures { Says bytes.now result (state self.old) (state self.new) };

    ghost sound: { (host : Self) → IsSound (state host) };
}
