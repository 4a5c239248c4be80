// Sessions, and the names of their logs.
ghost use Rattle.std.specs.Prelude.{◌≡◌, ◌<◌, ◌^◌, IfOk};
ghost use Rattle.store_layout.specs.Words.{hexadecimal_digit};
ghost use Rattle.server_nodes.specs.Sessions.{last_digits, session_of, log_of};

use row_keys::{LogName, SessionId};
use std::alloc::{AllocError, Global};

/// How many digits a session has.
const DIGITS: usize = 16;

const LOG_PREFIX: &[u8] = b"log-";

fn hexadecimal_digit(value: u8) -> u8
    requires { value < 16 }
    ensures { result ≡ hexadecimal_digit value }
{
    if value < 10 {
        b'0' + value
    } else {
        b'a' + (value - 10)
    }
}

fn last_digits(alloc: Global, number: u64) -> Result<Vec<u8>, AllocError>
    ensures { IfOk result (λ digits. digits.items ≡ last_digits 16 number) }
{
    let mut digits = Vec::new(alloc);
    let mut rest = number;
    for _ in 0..DIGITS {
        digits.push(hexadecimal_digit((rest % 16) as u8))?;
        rest /= 16;
    }
    digits.reverse();
    Ok(digits)
}

/// The session of a drawn number. Takes memory for its digits.
pub fn session_of(alloc: Global, number: u64) -> Result<SessionId, AllocError>
    ensures { IfOk result (λ session. session ≡ session_of number) }
{
    let digits = last_digits(alloc, number)?;
    let session = SessionId::new(alloc, &digits)?;
    Ok(session.unwrap())
}

/// The log of a session. Takes memory for its name.
pub fn log_of(alloc: Global, session: &SessionId) -> Result<LogName, AllocError>
    ensures { IfOk result (λ log. log ≡ log_of session.now) }
{
    let mut name = LOG_PREFIX.to_vec(alloc)?;
    name.extend_from_slice(session.as_bytes())?;
    let log = LogName::new(alloc, &name)?;
    Ok(log.unwrap())
}
