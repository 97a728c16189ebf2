//! The types of values and the numbers of dimensions that arrays have.

/// Calls a function in the type and the number of dimensions of an array of a type and a shape.
macro_rules! in_kind {
    ($ty:expr, $shape:expr, $function:ident, [$($more:ty),*], ($($argument:expr),*)) => {
        match ($ty, $shape.dims()) {
            (Ty::I32, 1) => $function::<i32, 1, $($more),*>($($argument),*),
            (Ty::I32, 2) => $function::<i32, 2, $($more),*>($($argument),*),
            (Ty::I32, 3) => $function::<i32, 3, $($more),*>($($argument),*),
            (Ty::I32, _) => $function::<i32, 4, $($more),*>($($argument),*),
            (Ty::I64, 1) => $function::<i64, 1, $($more),*>($($argument),*),
            (Ty::I64, 2) => $function::<i64, 2, $($more),*>($($argument),*),
            (Ty::I64, 3) => $function::<i64, 3, $($more),*>($($argument),*),
            (Ty::I64, _) => $function::<i64, 4, $($more),*>($($argument),*),
        }
    };
}

pub(crate) use in_kind;
