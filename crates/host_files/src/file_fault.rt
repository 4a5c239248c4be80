// Why a call on files failed.
ghost use Rattle.std.specs.Prelude.{◌≡◌, ◌↔◌};
ghost use Rattle.std.specs.IoError.{error_kind};
ghost use Rattle.std.specs.declared.io.ErrorKind.TheVariants.{OutOfMemory};
ghost use Rattle.host_files.specs.declared.file_fault.FileFault.TheVariants.{Memory};

use std::alloc::AllocError;
use std::io;

/// The two causes that a call on files may have.
#[derive(Clone, Copy, Debug)]
pub enum FileFault {
    Disk,
    Memory,
}

impl From<AllocError> for FileFault {
    ghost from_gives = { λ _ fault. fault ≡ Memory };

    fn from(_: AllocError) -> Self {
        FileFault::Memory
    }
}

impl From<io::Error> for FileFault {
    ghost from_gives = { λ error fault. (fault ≡ Memory) ↔ (error_kind error ≡ OutOfMemory) };

    fn from(error: io::Error) -> Self {
        match error.kind() {
            io::ErrorKind::OutOfMemory => FileFault::Memory,
            _ => FileFault::Disk,
        }
    }
}
