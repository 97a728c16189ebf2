//! Positions and extents, and the numbering of the positions of a box.

ghost use Rattle.std.specs.Prelude.{◌≡◌, ◌≤◌, ◌<◌, ◌^◌, ◌/◌, ◌%◌, true, map, nat_lt, ◌==◌, slice_index_or};
ghost use Rattle.std.specs.List.{AllByRecursion, list_any};
ghost use Rattle.zf_spec.specs.Grid.{product, raster, coordinates, is_inside};
ghost use Rattle.zf_base.specs.Positions.{axes, used_axes, with_unused};

/// A position of an array. Coordinates along unused axes are 0.
///
/// It also holds sizes; those along unused axes are 1.
#[derive(Clone, Copy, Debug, PartialEq, Eq)]
pub struct Pos {
    pub x: u64,
    pub y: u64,
    pub z: u64,
    pub w: u64,
}

/// The part of a block that lies in the array: its first position, and how many values it has along each
/// axis.
#[derive(Clone, Copy, Debug, PartialEq, Eq)]
pub struct Extent {
    pub origin: Pos,
    pub size: Pos,
}

// The number of an axis in a list that has those of the first axes, or else `other`.
#[inline(always)]
fn along(list: &[u64], axis: usize, other: u64) -> u64
    ensures { result ≡ slice_index_or list.now axis other }
{
    if axis < list.len() { list[axis] } else { other }
}

impl Pos {
    /// The position with these coordinates along the first axes, x first, and 0 along those that are not
    /// used.
    ///
    /// ```text
    /// array.get(Pos::new([3, 5]))
    /// ```
    pub fn new<const D: usize>(coordinates: [u64; D]) -> Pos
        requires { D ≤ 4 }
        ensures { result ≡ with_unused 0 coordinates.entry }
    {
        Pos::of(&coordinates, 0)
    }

    /// Sizes, or steps: these along the first axes, x first, and 1 along those that are not used.
    ///
    /// ```text
    /// Window::new(&shape, Pos::new([3, 5]), Pos::of_sizes([2, 4]), Pos::of_sizes([1, 1]))
    /// ```
    pub fn of_sizes<const D: usize>(sizes: [u64; D]) -> Pos
        requires { D ≤ 4 }
        ensures { result ≡ with_unused 1 sizes.entry }
    {
        Pos::of(&sizes, 1)
    }

    /// These numbers along the first axes, and `others` along the rest.
    #[inline(always)]
    fn of(first: &[u64], others: u64) -> Pos
        ensures { result ≡ with_unused others first.now }
    {
        Pos {
            x: along(first, 0, others),
            y: along(first, 1, others),
            z: along(first, 2, others),
            w: along(first, 3, others),
        }
    }

    /// These numbers along the first axes, and `others` along the rest.
    #[inline(always)]
    pub(crate) fn first_axes(self, dims: u8, others: u64) -> Pos
        requires one_at_least { 1 ≤ dims }
        requires four_at_most { dims ≤ 4 }
        ensures { result ≡ with_unused others (used_axes dims self) }
    {
        match dims {
            1 => Pos {
                x: self.x,
                y: others,
                z: others,
                w: others,
            },
            2 => Pos {
                z: others,
                w: others,
                ..self
            },
            3 => Pos { w: others, ..self },
            _ => self,
        }
    }

    /// Whether some size is zero.
    pub(crate) fn any_zero(&self) -> bool
        ensures { result ≡ list_any (λ n. n == 0) (axes self.now) }
    {
        self.x == 0 || self.y == 0 || self.z == 0 || self.w == 0
    }

    /// Whether some size is more than `most`.
    pub(crate) fn any_above(&self, most: u64) -> bool
        ensures { result ≡ list_any (λ n. nat_lt most n) (axes self.now) }
    {
        self.x > most || self.y > most || self.z > most || self.w > most
    }

    /// The block of this position, by its coordinates among the blocks.
    #[inline(always)]
    pub(crate) fn block(self) -> Pos
        ensures { axes result ≡ map (λ p. p / 4) (axes self) }
    {
        Pos {
            x: self.x / 4,
            y: self.y / 4,
            z: self.z / 4,
            w: self.w / 4,
        }
    }

    /// The indices of this position in its block.
    #[inline(always)]
    pub(crate) fn indices(self) -> Pos
        ensures { axes result ≡ map (λ p. p % 4) (axes self) }
    {
        Pos {
            x: self.x % 4,
            y: self.y % 4,
            z: self.z % 4,
            w: self.w % 4,
        }
    }

    /// The number of positions of a box of these sizes.
    pub(crate) fn product(&self) -> u64
        requires not_zero { AllByRecursion (λ n. 1 ≤ n) (axes self.now) }
        requires fits { product (axes self.now) < 2 ^ 64 }
        ensures { result ≡ product (axes self.now) }
    {
        self.x * self.y * self.z * self.w
    }

    /// The number of a position of a box of these sizes, x fastest.
    #[inline(always)]
    pub(crate) fn raster(&self, at: &Pos) -> u64
        requires inside { is_inside (axes self.now) (axes at.now) ≡ true }
        requires fits { product (axes self.now) < 2 ^ 64 }
        ensures { result ≡ raster (axes self.now) (axes at.now) }
    {
        at.x + self.x * (at.y + self.y * (at.z + self.z * at.w))
    }

    /// The position with this number of a box of these sizes.
    #[inline(always)]
    pub(crate) fn coordinates(&self, number: u64) -> Pos
        requires { AllByRecursion (λ n. 1 ≤ n) (axes self.now) }
        ensures value { axes result ≡ coordinates (axes self.now) number }
        ensures bound { AllByRecursion (λ c. c ≤ number) (axes result) }
    {
        let (rows, x) = split(number, self.x);
        let (slices, y) = split(rows, self.y);
        let (volumes, z) = split(slices, self.z);
        let (_, w) = split(volumes, self.w);
        Pos { x, y, z, w }
    }
}

// How often `len` is in a number, and what is left. Most numbers of blocks are below the first lengths, and
// then nothing is divided.
#[inline(always)]
fn split(number: u64, len: u64) -> (u64, u64)
    requires { 1 ≤ len }
    ensures times { result.0 ≡ number / len }
    ensures left { result.1 ≡ number % len }
{
    if number < len {
        (0, number)
    } else {
        (number / len, number % len)
    }
}
