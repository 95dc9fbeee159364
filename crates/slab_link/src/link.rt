//! A link to a value in a slab.
//!
//! One number of the four bytes means that there is no value. An `Option<usize>` would take 16.
ghost use Rattle.std.specs.Prelude.{◌≡◌, ◌<◌, Some, None, IfSome};
ghost use Rattle.slab_link.specs.Numbers.{links_end};

use std::marker::Model;

/// A link names keys below this.
pub const LINKS_END: usize = 0xffff_ffff;

/// The key of a value in a slab, or none. It takes 4 bytes, where an `Option<usize>` takes 16.
#[derive(Clone, Copy)]
pub struct Link {
    /// The key, or `u32::MAX` for none.
    raw: u32,
}

impl Model for Link {
    ghost use Rattle.std.specs.Prelude.{ℕ, Option};
    ghost use Rattle.std.specs.Coded.{coded_ℕ, coded_option};

    ghost Value = { Option ℕ };

    ghost coded = { coded_option coded_ℕ };

    ghost use Rattle.slab_link.specs.Kept.{key_in, kept_of, kept_of_key};

    ghost view = { key_in };

    ghost inverse = { kept_of };

    ghost inverse_ok = { λ a _. kept_of_key a };
}

impl Link {
    /// A link to no value.
    pub fn none() -> Link
        ensures { result ≡ None }
    {
        Link { raw: u32::MAX }
    }

    /// A link to the value of this key.
    pub fn to(key: usize) -> Link
        requires { key < links_end }
        ensures { result ≡ Some key }
    {
        Link { raw: key as u32 }
    }

    /// A link to the value of this key, or to none.
    pub fn of(key: Option<usize>) -> Link
        requires { IfSome key (λ key. key < links_end) }
        ensures { result ≡ key }
    {
        match key {
            None => Link::none(),
            Some(key) => Link::to(key),
        }
    }

    /// The key that it names, if it names one.
    pub fn key(self) -> Option<usize>
        ensures { result ≡ self }
    {
        if self.raw == u32::MAX {
            return None;
        }
        Some(self.raw as usize)
    }
}
