//! Summaries of large arrays that are made from a number.

use crate::support::{Kind, header_of};
use std::test::Fail;
use zf_base::Ty;
use zf_header::Mode;
use zf_sample::{Summary, sample};

// The array, the number that it is made from, and its summary: values, blocks, bytes of the stream, and
// values that change.
const SAMPLES: [(Kind, u64, [u64; 4]); 6] = [
    (
        (Ty::I32, 1, [1, 1, 1, 1], Mode::Reversible),
        0,
        [1, 1, 24, 0],
    ),
    (
        (Ty::I32, 2, [5, 7, 1, 1], Mode::Reversible),
        1,
        [35, 4, 144, 0],
    ),
    (
        (Ty::I64, 3, [9, 2, 3, 1], Mode::Rate(100)),
        7,
        [54, 3, 56, 54],
    ),
    (
        (Ty::I32, 4, [3, 3, 3, 3], Mode::Precision(5)),
        12345678901,
        [81, 1, 16, 81],
    ),
    (
        (Ty::I64, 1, [17, 1, 1, 1], Mode::Precision(40)),
        18446744073709551615,
        [17, 5, 56, 17],
    ),
    (
        (Ty::I32, 2, [8, 8, 1, 1], Mode::Rate(33)),
        3,
        [64, 4, 32, 64],
    ),
];

#[test]
fn samples_are_summed_up(rt: HostRuntime) -> Result<(), Fail> {
    for (kind, seed, [values, blocks, bytes, changed]) in SAMPLES {
        let h = header_of(&rt, &kind)?;
        let summary = Summary {
            values,
            blocks,
            bytes,
            changed,
        };
        assert!(rt; sample(rt.alloc(), &h, seed)? == summary);
    }
    Ok(())
}
