//! What a call began with: for proofs alone, which know by it what has passed through a device since.

ghost use Rattle.std.specs.Prelude.{ℕ, List, Option, None};
ghost use Rattle.zf_narrow.specs.declared.narrow.Narrow.{Narrow};
ghost use Rattle.zf_narrow.specs.declared.narrow.Narrow.TheVariants.{I8};

use std::marker::Brand;

/// What a call began with, as its types tell.
pub(crate) trait Begun {
    /// The type of its values.
    ghost narrow: { Narrow };

    /// What the device exposed of its bytes.
    ghost start: { Option (List ℕ) };

    /// What a source may have given.
    ghost gave: { List ℕ → Type 0 };
}

impl Begun for Brand {
    ghost narrow = { I8 };

    ghost start = { None };

    ghost gave = { λ _. Unit {0} };
}
