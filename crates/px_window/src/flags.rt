//! The flags of an evaluation.
ghost use Rattle.std.specs.Prelude.{⊤, ◌≡◌, [], ◌∷◌, codes};
ghost use Rattle.px_window.specs.Flags.{known};

use bitflags::{Flag, Flags, bitflag_items};
use std::convert::From;
use std::default::Default;

/// Truths about an evaluation, one bit each (polars `StateFlags`).
#[derive(Clone, Copy, Debug, PartialEq, Eq)]
pub struct StateFlags(u8);

bitflag_items! {
    impl StateFlags: u8 {
        const VERBOSE = 1;
        const CACHE_WINDOW_EXPR = 2;
        const HAS_WINDOW = 4;
        const IN_STREAMING = 8;
    }
}

impl Flags for StateFlags {
    type Bits = u8;

    ghost exact = { ⊤ };

    ghost table = { (codes "VERBOSE", 1) ∷ (codes "CACHE_WINDOW_EXPR", 2) ∷ (codes "HAS_WINDOW", 4) ∷ (codes "IN_STREAMING", 8) ∷ [] };

    ghost set_of = { λ f. f.0 };

    fn flags<'a>() -> &'a [Flag<StateFlags>] {
        StateFlags::FLAGS
    }

    fn bits(&self) -> u8 {
        self.0
    }

    fn from_bits_retain(bits: u8) -> StateFlags {
        StateFlags(bits)
    }
}

impl StateFlags {
    /// The bits.
    pub fn as_u8(self) -> u8
        ensures { result ≡ self.0 }
    {
        self.0
    }
}

impl Default for StateFlags {
    ghost is_default = { λ f. f.0 ≡ 2 };

    /// Windows keep the groups of their keys, and nothing else is set.
    fn default() -> StateFlags {
        StateFlags::CACHE_WINDOW_EXPR
    }
}

impl From<u8> for StateFlags {
    ghost from_gives = { λ bits f. f.0 ≡ known bits };

    /// The flags of these bits; bits without a name are dropped.
    fn from(bits: u8) -> StateFlags {
        StateFlags(bits & 15)
    }
}
