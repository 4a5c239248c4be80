// Why the nodes, and what hangs on them, give nothing.
ghost use Rattle.std.specs.Prelude.{◌≡◌};
ghost use Rattle.level_scan.specs.declared.nodes_fault.NodesFault.TheVariants.{NoMemory};

use std::alloc::AllocError;

/// Why nothing comes of records and cells that were read.
#[derive(Debug, Drop)]
pub enum NodesFault {
    /// They don't fit together, which is damage to the nodes.
    Damaged,
    /// No memory for it.
    NoMemory,
}

impl From<AllocError> for NodesFault {
    ghost from_gives = { λ _ fault. fault ≡ NoMemory };

    fn from(_: AllocError) -> Self {
        NodesFault::NoMemory
    }
}
