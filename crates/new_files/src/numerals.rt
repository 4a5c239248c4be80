// Drawn numbers as texts.
ghost use Rattle.std.specs.Prelude.{◌≡◌, ◌<◌, IfOk};
ghost use Rattle.new_files.specs.Names.{base36_digit, name_text};

use std::alloc::{AllocError, Global};

/// How many digits a number has at least.
const LEAST: usize = 7;

const BASE: u64 = 36;

fn base36_digit(value: u8) -> u8
    requires { value < 36 }
    ensures { result ≡ base36_digit value }
{
    if value < 10 {
        b'0' + value
    } else {
        b'A' + (value - 10)
    }
}

/// The text of a drawn number: seven digits of upper-case base 36, or as many as it needs. Takes memory for them.
pub fn name_text(alloc: Global, number: u64) -> Result<Vec<u8>, AllocError>
    ensures { IfOk result (λ text. text.items ≡ name_text number) }
{
    let mut digits = Vec::new(alloc);
    let mut rest = number;
    while rest > 0 || digits.len() < LEAST {
        digits.push(base36_digit((rest % BASE) as u8))?;
        rest /= BASE;
    }
    digits.reverse();
    Ok(digits)
}
