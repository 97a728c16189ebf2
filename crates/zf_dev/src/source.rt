//! Where bytes come from.

ghost use Rattle.std.specs.Prelude.{◌≡◌, ℕ, ◌<◌, ◌≤◌, Bool, true, List, [], Option, length, take, drop, IsOk, IsErr, IfOk, OnOk, OnErr};
ghost use Rattle.zf_dev.specs.Faults.{HasCause};
ghost use Rattle.zf_dev.specs.Source.{Takes, Gives, EndsAt, SeesEnd};

use crate::Failed;

/// A stream of bytes that is read up to its end.
pub trait Source {
    /// What every call leaves as it is: of a source that borrows another, which one that is.
    ghost Kept: { Type 0 };

    /// The bytes still to come, where the source exposes them.
    ghost contents: { Self → Option (List ℕ) };

    /// These may be all the bytes that it gave so far. By default it says nothing: then `contents` alone
    /// tells.
    ghost gave: { Self → List ℕ → Type 0 } = { λ _ _. Unit {0} };

    /// Whether a read gave no byte, and none gave one since, as far as that is told. By default it says
    /// nothing.
    ghost ended: { Self → Bool } = { λ _. true };

    /// It takes no more of what it reads than it gives: what it did not give is left there. By default it
    /// says nothing.
    ghost is_exact: { Self → Type 0 } = { λ _. Unit {0} };

    /// How many faults there were. It stands still at the last value of a `u64`.
    ghost faults: { Self → ℕ };

    /// How many reads saw the end, at most. By default it says nothing.
    ghost ends_seen: { Self → ℕ } = { λ _. 0 };

    /// No call fails from here on.
    ghost never_fails: { Self → Type 0 };

    ghost kept: { Self → Kept };

    /// Reads some of the next bytes into the start of `buf`, which is not empty, and says how many; the rest
    /// of `buf` stays. 0 is the end of the stream. `Failed`: the source failed and has counted it; nothing
    /// was taken.
    fn read(&mut self, buf: &mut [u8]) -> Result<usize, Failed>
        requires { 0 < length buf.old }
        ensures bound { IfOk result (λ n. n ≤ length buf.old) }
        ensures taken { IfOk result (λ n. Takes (contents self.old) (contents self.new) (take n buf.new)) }
        ensures rest { IfOk result (λ n. drop n buf.new ≡ drop n buf.old) }
        ensures end { IfOk result (λ n. EndsAt (contents self.old) (contents self.new) n) }
        ensures ended { IfOk result (λ n. n ≡ 0 → ended self.new ≡ true) }
        ensures untaken { OnErr result (Takes (contents self.old) (contents self.new) []) }
        ensures gave { IfOk result (λ n. Gives (gave self.old) (gave self.new) (take n buf.new)) }
        ensures ungiven { OnErr result (Gives (gave self.old) (gave self.new) []) }
        ensures seen { IfOk result (λ n. SeesEnd (n ≡ 0) (ends_seen self.old) (ends_seen self.new)) }
        ensures unseen { OnErr result (ends_seen self.new ≤ ends_seen self.old) }
        ensures still_exact { is_exact self.old → is_exact self.new }
        ensures unchanged { OnOk result (faults self.new ≡ faults self.old) }
        ensures kept { kept self.new ≡ kept self.old }
        ensures cause { HasCause (IsErr result) (faults self.old) (faults self.new) }
        ensures sure { never_fails self.old → IsOk result × never_fails self.new };

    /// Says that this source will be read to its end, so it may take more of what it reads from than it is
    /// asked for: it need not be exact any more.
    fn read_ahead(&mut self)
        ensures contents_stay { contents self.new ≡ contents self.old }
        ensures ungiven { Gives (gave self.old) (gave self.new) [] }
        ensures still_ended { ended self.old ≡ true → ended self.new ≡ true }
        ensures unseen { ends_seen self.new ≤ ends_seen self.old }
        ensures faults_stay { faults self.new ≡ faults self.old }
        ensures kept { kept self.new ≡ kept self.old }
        ensures sure { never_fails self.old → never_fails self.new }
    {}
}
