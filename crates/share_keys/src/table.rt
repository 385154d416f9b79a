//! The keys of a world's viewers.

use crate::sealing::Key;
use std::marker::Model;

/// How many viewers a world may have.
pub(crate) const SEATS: usize = 64;

/// The keys of a world's viewers, at most one for each of 64.
#[derive(Drop)]
pub struct Keys {
    keys: [Option<Key>; SEATS],
}

impl Model for Keys {
    ghost use Rattle.std.specs.Prelude.{◌≡◌, List, Option, length};
    ghost use Rattle.share_keys.specs.declared.sealing.Key.{Key};

    ghost Value = { List (Option Key) };

    ghost view = { λ k. k.keys };

    ghost invariant = { λ k. length k.keys ≡ 64 };
}

impl Keys {
    ghost use Rattle.std.specs.Prelude.{◌≡◌};
    ghost use Rattle.share_keys.specs.Table as spec;

    /// Returns a table without keys.
    pub fn none() -> Keys
        ensures { result ≡ spec.no_keys }
    {
        Keys {
            keys: [None; SEATS],
        }
    }

    /// Returns the key of a viewer, if it has one.
    pub fn get(&self, who: u8) -> Option<Key>
        ensures { result ≡ spec.key_at self.now who }
    {
        let place = who as usize;
        if place < SEATS {
            self.keys[place]
        } else {
            None
        }
    }

    /// Reports whether a viewer has a key.
    pub fn has_any(&self) -> bool
        ensures { result ≡ spec.has_any self.now }
    {
        self.keys.iter().any(|key| key.is_some())
    }

    /// Gives a viewer a key, instead of any other that it has. Ignored if `who` isn't below 64.
    pub fn put(&mut self, who: u8, key: Key)
        ensures { self.new ≡ spec.with_key self.old who key }
    {
        let place = who as usize;
        if place < SEATS {
            self.keys[place] = Some(key);
        }
    }
}
