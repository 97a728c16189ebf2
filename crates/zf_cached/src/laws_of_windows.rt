//! Laws of windows.

ghost use Rattle.std.specs.Prelude.{◌≡◌, ℕ, true, List, length};
ghost use Rattle.zf_spec.specs.Grid.{IsShape, is_inside};
ghost use Rattle.zf_cached.specs.Windows.{Window, LiesIn, mapped, whole, sliced, has_place};

/// A position of a window is one of the array, and two positions of a window are two of the array.
pub fn positions_of_windows()
    ensures inside { (ns : List ℕ) (w : Window) (ps : List ℕ) → LiesIn ns w → length ps ≡ length w.size
        → is_inside w.size ps ≡ true → is_inside ns (mapped w ps) ≡ true }
    ensures dimensions { (ns : List ℕ) (w : Window) (ps : List ℕ) → LiesIn ns w → length ps ≡ length w.size
        → length (mapped w ps) ≡ length ns }
    ensures once { (ns : List ℕ) (w : Window) (ps qs : List ℕ) → LiesIn ns w → length ps ≡ length w.size
        → length qs ≡ length w.size → mapped w ps ≡ mapped w qs → ps ≡ qs }
{}

/// The whole array is a window, which maps each position to itself, and a slice of a window is one.
pub fn windows_of_windows()
    ensures whole { (ns : List ℕ) → IsShape ns → LiesIn ns (whole ns) }
    ensures same { (ns ps : List ℕ) → length ps ≡ length ns → mapped (whole ns) ps ≡ ps }
    ensures slice { (ns : List ℕ) (w : Window) (axis at : ℕ)
        → LiesIn ns w → has_place w axis at ≡ true → LiesIn ns (sliced w axis at) }
{}
