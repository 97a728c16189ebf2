//! Where bytes go.

ghost use Rattle.std.specs.Prelude.{◌≡◌, ℕ, ◌<◌, ◌≤◌, List, [], Option, length, take, IsErr, IfOk, OnOk, OnErr};
ghost use Rattle.zf_dev.specs.Faults.{HasCause};
ghost use Rattle.zf_dev.specs.Sink.{Appends, AppendsPrefix, AppendsPart};

use crate::Failed;

/// A stream of bytes that is written. It may hold bytes back until it is flushed.
pub trait Sink {
    /// What every call leaves as it is: of a sink that borrows another, which one that is.
    ghost Kept: { Type 0 };

    /// The bytes written, where the sink exposes them.
    ghost contents: { Self → Option (List ℕ) };

    /// How many faults there were. It stands still at the last value of a `u64`.
    ghost faults: { Self → ℕ };

    /// All that was written was handed on: the sink holds none of it back.
    ghost is_flushed: { Self → Type 0 } = { λ _. Unit {0} };

    ghost kept: { Self → Kept };

    /// Writes the first of `bytes`, which are not empty, and says how many: at least one. `Failed`: the sink
    /// failed and has counted it; nothing was written.
    fn write(&mut self, bytes: &[u8]) -> Result<usize, Failed>
        requires { 0 < length bytes.now }
        ensures some { IfOk result (λ n. 0 < n) }
        ensures bound { IfOk result (λ n. n ≤ length bytes.now) }
        ensures appended { IfOk result (λ n. Appends (contents self.old) (contents self.new)
            (take n bytes.now)) }
        ensures unwritten { OnErr result (Appends (contents self.old) (contents self.new) []) }
        ensures unchanged { OnOk result (faults self.new ≡ faults self.old) }
        ensures kept { kept self.new ≡ kept self.old }
        ensures cause { HasCause (IsErr result) (faults self.old) (faults self.new) };

    /// Hands on what the sink holds back of the bytes written. After a fault it may hold some of them still.
    fn flush(&mut self) -> Result<(), Failed>
        ensures flushed { OnOk result (is_flushed self.new) }
        // What was written stays what it was, whoever has it now.
        ensures stays { Appends (contents self.old) (contents self.new) [] }
        ensures unchanged { OnOk result (faults self.new ≡ faults self.old) }
        ensures kept { kept self.new ≡ kept self.old }
        ensures cause { HasCause (IsErr result) (faults self.old) (faults self.new) };
}

/// Writes all of `bytes`. `Failed`: the sink failed; a prefix of them is written, but not all.
pub fn write_all<O: Sink>(out: &mut O, bytes: &[u8]) -> Result<(), Failed>
    ensures all { OnOk result (Appends (O.contents out.old) (O.contents out.new) bytes.now) }
    ensures part { OnErr result (AppendsPart (O.contents out.old) (O.contents out.new) bytes.now) }
    ensures prefix { AppendsPrefix (O.contents out.old) (O.contents out.new) bytes.now }
    ensures unchanged { OnOk result (O.faults out.new ≡ O.faults out.old) }
    ensures same_sink { O.kept out.new ≡ O.kept out.old }
    ensures cause { HasCause (IsErr result) (O.faults out.old) (O.faults out.new) }
{
    let mut written = 0;
    while written < bytes.len() {
        written += out.write(&bytes[written..])?;
    }
    Ok(())
}
