//! What a script is about.

ghost use Rattle.std.specs.Prelude.{◌≡◌};
ghost use Rattle.zf_cached.specs.Steps.{Setting, Session};

use zf_base::Shape;

/// What a script is about: an array, seen through a window.
pub trait Subject {
    // The type of a block's code.
    ghost Code: { Type 0 };

    // What no line changes.
    ghost Kept: { Type 0 };

    ghost kept: { Self → Kept };

    ghost setting: { Kept → Setting Code };

    // What lines change.
    ghost session: { Self → Session Code };

    // What every call finds and leaves: of parts that stand beside one another, that they fit.
    ghost sound: { Self → Type 0 };

    /// The sizes.
    fn sizes(&self) -> Shape
        requires { sound self.now }
        ensures { result ≡ (session self.now).shape };
}
