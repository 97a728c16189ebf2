//! Laws of samples. Each is a function with no parameters and an empty body, whose contract is the theorem.

ghost use Rattle.std.specs.Prelude.{◌≡◌, ℕ};
ghost use Rattle.zf_header.specs.declared.header.Header.{Header};
ghost use Rattle.zf_header.specs.declared.header.Mode.TheVariants.{Reversible};
ghost use Rattle.zf_header.specs.HeaderBits.{IsHeader};
ghost use Rattle.zf_sample.specs.Summaries.{summary_of};

/// No value of a reversible stream is another when it comes back.
pub fn reversible_samples()
    ensures { (h : Header) (seed : ℕ) → IsHeader h → h.mode ≡ Reversible → (summary_of h seed).changed ≡ 0 }
{}
