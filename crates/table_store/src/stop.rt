// What a store that has stopped answers.
ghost use Rattle.std.specs.Prelude.{◌≡◌, Some};
ghost use Rattle.table_store.specs.Creating.{IsUnnamed};

use host_model::Stop;

/// The same stop once more, where it names no file. Takes no memory.
pub fn again(stop: &Stop) -> Stop
    requires { IsUnnamed stop.now }
    ensures { result ≡ stop.now }
{
    match stop {
        Stop::Host(fault) => Stop::Host(*fault),
        Stop::Full => Stop::Full,
        Stop::NoMemory => Stop::NoMemory,
        Stop::Damaged(_) => unreachable!(),
    }
}

/// Keeps a stop that names no file, so that it can be answered again. Takes no memory.
pub fn keep(kept: &mut Option<Stop>, stop: Stop) -> Stop
    requires { IsUnnamed stop }
    ensures kept { kept.new ≡ Some stop }
    ensures same { result ≡ stop }
{
    *kept = Some(again(&stop));
    stop
}
