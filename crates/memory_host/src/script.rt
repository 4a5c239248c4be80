// The bytes that are heard.
ghost use Rattle.std.specs.Prelude.{◌≡◌, ◌<◌, length, IfOk};
ghost use Rattle.host_model.specs.Calls.{HearsFront};

use std::alloc::{AllocError, Global};
use std::marker::Model;

/// What is left of a script. Contracts see its bytes.
#[derive(Drop)]
pub struct Script {
    bytes: Vec<u8>,
    heard: usize,
}

impl Model for Script {
    ghost use Rattle.std.specs.Prelude.{ℕ, List, drop, ◌≤◌, vec_len};

    ghost Value = { List ℕ };

    ghost view = { λ a. drop a.heard a.bytes.items };

    ghost invariant = { λ a. a.heard ≤ vec_len a.bytes };
}

impl Script {
    pub fn new(alloc: Global, bytes: &[u8]) -> Result<Script, AllocError>
        ensures { IfOk result (λ script. script ≡ bytes.now) }
    {
        Ok(Script {
            bytes: bytes.to_vec(alloc)?,
            heard: 0,
        })
    }

    /// Hears as many bytes as there is room for and are left.
    pub fn hear(&mut self, into: &mut [u8]) -> usize
        requires { 0 < length into.old }
        ensures { HearsFront (length into.new) result into.new self.old self.new }
    {
        let rest = &self.bytes[self.heard..];
        let count = rest.len().min(into.len());
        into[..count].copy_from_slice(&rest[..count]);
        self.heard += count;
        count
    }
}
