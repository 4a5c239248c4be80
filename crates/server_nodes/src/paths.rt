// The paths of the nodes of servers and of their logs.
ghost use Rattle.std.specs.Prelude.{◌≡◌, ◌++◌, codes, IfOk};
ghost use Rattle.row_keys.specs.Forms.{IsPath};
ghost use Rattle.store_layout.specs.Nodes.{next_session_path};
ghost use Rattle.server_nodes.specs.Sessions.{server_path, log_path};

use row_keys::{Path, ServerName, SessionId};
use std::alloc::{AllocError, Global};

const NEXT_SESSION: &[u8] = b"/next/session";

const SERVERS: &[u8] = b"/servers";

const SERVER_PREFIX: &[u8] = b"/servers/";

const LOG_PREFIX: &[u8] = b"/logs/";

fn path_of(alloc: Global, bytes: &[u8]) -> Result<Path, AllocError>
    requires { IsPath bytes.now }
    ensures { IfOk result (λ path. path ≡ bytes.now) }
{
    let path = Path::new(alloc, bytes)?;
    Ok(path.unwrap())
}

fn path_behind(alloc: Global, prefix: &[u8], name: &[u8]) -> Result<Path, AllocError>
    requires { IsPath (prefix.now ++ name.now) }
    ensures { IfOk result (λ path. path ≡ prefix.now ++ name.now) }
{
    let mut bytes = prefix.to_vec(alloc)?;
    bytes.extend_from_slice(name)?;
    path_of(alloc, &bytes)
}

/// The path of the counter for sessions. Takes memory for it.
pub fn next_session_path(alloc: Global) -> Result<Path, AllocError>
    ensures { IfOk result (λ path. path ≡ next_session_path) }
{
    path_of(alloc, NEXT_SESSION)
}

/// The path right above those of servers. Takes memory for it.
pub fn servers_path(alloc: Global) -> Result<Path, AllocError>
    ensures { IfOk result (λ path. path ≡ codes "/servers") }
{
    path_of(alloc, SERVERS)
}

/// The path of a server's node. Takes memory for it.
pub fn server_path(alloc: Global, name: &ServerName) -> Result<Path, AllocError>
    ensures { IfOk result (λ path. path ≡ server_path name.now) }
{
    path_behind(alloc, SERVER_PREFIX, name.as_bytes())
}

/// The path of the node of a session's log. Takes memory for it.
pub fn log_path(alloc: Global, session: &SessionId) -> Result<Path, AllocError>
    ensures { IfOk result (λ path. path ≡ log_path session.now) }
{
    path_behind(alloc, LOG_PREFIX, session.as_bytes())
}
