// A stop that is kept, and answered again.
ghost use Rattle.std.specs.Prelude.{◌≡◌, Some};
ghost use Rattle.ground_store.specs.Acts.{IsAgain};

use host_model::Stop;
use std::alloc::Global;

/// The same stop once more, or want of memory where the copy of its name finds none.
pub fn again(alloc: Global, stop: &Stop) -> Stop
    ensures { IsAgain stop.now result }
{
    match stop {
        Stop::Host(fault) => Stop::Host(*fault),
        Stop::Damaged(name) => match name.copy(alloc) {
            Ok(name) => Stop::Damaged(name),
            Err(_) => Stop::NoMemory,
        },
        Stop::Full => Stop::Full,
        Stop::NoMemory => Stop::NoMemory,
    }
}

/// Keeps a stop, and answers it.
pub fn keep(alloc: Global, kept: &mut Option<Stop>, stop: Stop) -> Stop
    ensures kept { kept.new ≡ Some stop }
    ensures again { IsAgain stop result }
{
    let answer = again(alloc, &stop);
    *kept = Some(stop);
    answer
}
