//! The blocks of the format's worked rows, and of both types, with their codes by a program that was written
//! from the definitions alone.

/// What code a block gets: without loss; of so many bits, which have all planes from this one on whole; or of
/// so many planes.
pub enum Code {
    Reversible,
    Rate(u32, u32),
    Precision(u32),
}

/// A row of one dimension: how many values exist, the block, the code, its length and its digest, and what
/// the block comes back as.
pub type Line<T> = (u64, [T; 4], Code, u64, u64, [T; 4]);

/// An array of one block, which is filled with values that follow no rule, and its codes: of each the length,
/// the digest, and that of the block that comes back.
pub struct Row {
    pub dims: u8,
    pub sizes: [u64; 4],
    pub codes: &'static [(Code, u64, u64, u64)],
}

/// The rows of the format. The planes of 1 2 3 4 have codes of 39 bits together: one bit fewer, and the
/// lowest plane is cut.
pub static ROWS: [Line<i32>; 11] = [
    (1, [0, 9, 9, 9], Code::Reversible, 6, 0, [0; 4]),
    (
        1,
        [1, 9, 9, 9],
        Code::Reversible,
        39,
        0x30_0000_001f,
        [1; 4],
    ),
    (
        1,
        [-1, 9, 9, 9],
        Code::Reversible,
        40,
        0x58_0000_001f,
        [-1; 4],
    ),
    (
        1,
        [i32::MIN, 9, 9, 9],
        Code::Reversible,
        8,
        0x60,
        [i32::MIN; 4],
    ),
    (
        2,
        [1, 2, 9, 9],
        Code::Reversible,
        44,
        0x748_0000_001f,
        [1, 2, 2, 1],
    ),
    (
        4,
        [0, 0, 0, 1],
        Code::Reversible,
        40,
        0x10_0000_001f,
        [0, 0, 0, 1],
    ),
    (4, [1, 0, 0, 0], Code::Rate(64, 0), 64, 0, [0; 4]),
    (4, [-1073741824; 4], Code::Rate(1, 32), 1, 1, [i32::MIN; 4]),
    (
        4,
        [805306368, -805306368, -805306368, 805306368],
        Code::Rate(2, 32),
        2,
        1,
        [1073741824, -1073741824, 1073741824, -1073741824],
    ),
    (
        4,
        [1, 2, 3, 4],
        Code::Rate(39, 0),
        39,
        0x27_6000_0000,
        [0, 2, 2, 4],
    ),
    (
        4,
        [1, 2, 3, 4],
        Code::Rate(38, 1),
        38,
        0x27_6000_0000,
        [0, 2, 2, 4],
    ),
];

/// Values that differ little: the first coefficient alone has ones in many planes. Bits 36 to 39 of the code
/// at a rate are those of plane 12: the digit that is known to come, a group bit, and a run.
pub const SMOOTH: [i32; 4] = [268435456, 268437999, 268430001, 268435400];

pub static FOURS: [Line<i32>; 11] = [
    (
        4,
        [1073741824, -1073741824, 536870912, 0],
        Code::Reversible,
        18,
        206242,
        [1073741824, -1073741824, 536870912, 0],
    ),
    (
        4,
        SMOOTH,
        Code::Reversible,
        101,
        14178882699262749366,
        SMOOTH,
    ),
    (
        4,
        SMOOTH,
        Code::Rate(37, 13),
        37,
        24,
        [268435456, 268435456, 268435456, 268435456],
    ),
    (
        4,
        SMOOTH,
        Code::Rate(38, 13),
        38,
        137438953496,
        [268441600, 268437504, 268433408, 268429312],
    ),
    (
        4,
        SMOOTH,
        Code::Rate(39, 13),
        39,
        137438953496,
        [268431360, 268439552, 268439552, 268431360],
    ),
    (
        4,
        SMOOTH,
        Code::Rate(40, 12),
        40,
        137438953496,
        [268434432, 268440576, 268430336, 268436480],
    ),
    (
        4,
        SMOOTH,
        Code::Rate(47, 11),
        47,
        137576392425496,
        [268436480, 268436480, 268430336, 268434432],
    ),
    (
        4,
        SMOOTH,
        Code::Rate(130, 0),
        130,
        15587799574177897871,
        [268435457, 268437999, 268430001, 268435399],
    ),
    (4, SMOOTH, Code::Precision(1), 1, 0, [0, 0, 0, 0]),
    (
        4,
        SMOOTH,
        Code::Precision(20),
        40,
        137438953496,
        [268434432, 268440576, 268430336, 268436480],
    ),
    (
        4,
        SMOOTH,
        Code::Precision(21),
        44,
        14431090114584,
        [268434944, 268433920, 268428800, 268435968],
    ),
];

/// The same, wider: plane 31 has bits 63 to 68 of the code at a rate, over the end of a word.
pub const WIDE_SMOOTH: [i64; 4] = [
    -1152921504606846976,
    -1152921504606000000,
    -1152921504600000000,
    -1152921500000000000,
];

pub static WIDE_FOURS: [Line<i64>; 12] = [
    (
        4,
        [
            4611686018427387904,
            -4611686018427387904,
            2305843009213693952,
            0,
        ],
        Code::Reversible,
        19,
        412482,
        [
            4611686018427387904,
            -4611686018427387904,
            2305843009213693952,
            0,
        ],
    ),
    (4, [0, 0, 0, 0], Code::Reversible, 7, 0, [0, 0, 0, 0]),
    (
        4,
        WIDE_SMOOTH,
        Code::Reversible,
        171,
        15341465899098155738,
        WIDE_SMOOTH,
    ),
    (
        4,
        WIDE_SMOOTH,
        Code::Rate(64, 32),
        64,
        44,
        [
            -1152921504606846976,
            -1152921504606846976,
            -1152921504606846976,
            -1152921504606846976,
        ],
    ),
    (
        4,
        WIDE_SMOOTH,
        Code::Rate(65, 32),
        65,
        75,
        [
            -1152921507828072448,
            -1152921505680588800,
            -1152921503533105152,
            -1152921501385621504,
        ],
    ),
    (
        4,
        WIDE_SMOOTH,
        Code::Rate(67, 32),
        67,
        261,
        [
            -1152921505680588800,
            -1152921507828072448,
            -1152921505680588800,
            -1152921499238137856,
        ],
    ),
    (
        4,
        WIDE_SMOOTH,
        Code::Rate(70, 31),
        70,
        1501,
        [
            -1152921504606846976,
            -1152921506754330624,
            -1152921504606846976,
            -1152921498164396032,
        ],
    ),
    (
        4,
        WIDE_SMOOTH,
        Code::Rate(130, 16),
        130,
        7439198764165655518,
        [
            -1152921504606896128,
            -1152921504605945856,
            -1152921504600014848,
            -1152921500000010240,
        ],
    ),
    (
        4,
        WIDE_SMOOTH,
        Code::Rate(300, 0),
        300,
        8891992746428449462,
        WIDE_SMOOTH,
    ),
    (
        4,
        WIDE_SMOOTH,
        Code::Precision(3),
        5,
        12,
        [
            -2305843009213693952,
            -2305843009213693952,
            -2305843009213693952,
            -2305843009213693952,
        ],
    ),
    (
        4,
        WIDE_SMOOTH,
        Code::Precision(33),
        69,
        509,
        [
            -1152921505680588800,
            -1152921507828072448,
            -1152921505680588800,
            -1152921499238137856,
        ],
    ),
    (
        4,
        WIDE_SMOOTH,
        Code::Precision(64),
        193,
        8891992746428449462,
        WIDE_SMOOTH,
    ),
];

pub static NARROW: [Row; 4] = [
    Row {
        dims: 1,
        sizes: [3, 1, 1, 1],
        codes: &[
            (Code::Reversible, 134, 1956684627123463394, 56895915491206),
            (Code::Rate(50, 20), 50, 823235889384005, 56880726540288),
            (Code::Precision(11), 44, 13995331340869, 56928006832128),
        ],
    },
    Row {
        dims: 2,
        sizes: [2, 4, 1, 1],
        codes: &[
            (
                Code::Reversible,
                526,
                8180852763865897717,
                1168924164681503008,
            ),
            (
                Code::Rate(333, 12),
                333,
                16062405351034088947,
                9245308262622429184,
            ),
            (
                Code::Precision(32),
                513,
                7952811603220003963,
                4576349796101694208,
            ),
        ],
    },
    Row {
        dims: 3,
        sizes: [4, 1, 3, 1],
        codes: &[
            (
                Code::Reversible,
                1728,
                366808261792705798,
                2828002446868736084,
            ),
            (
                Code::Rate(1000, 17),
                1000,
                11222649400793745473,
                3913482336453263360,
            ),
            (Code::Precision(1), 42, 1102732859393, 8492031877639569408),
        ],
    },
    Row {
        dims: 4,
        sizes: [3, 4, 2, 1],
        codes: &[
            (
                Code::Reversible,
                6779,
                5535070232925048690,
                12105165861853044184,
            ),
            (
                Code::Rate(4000, 17),
                4000,
                11513085565700210130,
                3429952307855360000,
            ),
            (
                Code::Precision(20),
                5006,
                12818770991516045988,
                15858529641455157248,
            ),
        ],
    },
];

pub static WIDE: [Row; 4] = [
    Row {
        dims: 1,
        sizes: [3, 1, 1, 1],
        codes: &[
            (
                Code::Reversible,
                263,
                7798388890627055335,
                13792055133801348998,
            ),
            (
                Code::Rate(150, 27),
                150,
                2868955736345504138,
                13792054927964504064,
            ),
            (
                Code::Precision(128),
                256,
                12456549694190536489,
                13792055133801319208,
            ),
        ],
    },
    Row {
        dims: 2,
        sizes: [2, 4, 1, 1],
        codes: &[
            (
                Code::Reversible,
                1023,
                1403586650123146815,
                4589244254436856096,
            ),
            (
                Code::Rate(700, 20),
                700,
                14451455868105715484,
                17936751867790884864,
            ),
            (
                Code::Precision(33),
                524,
                3708915322248773883,
                7210988131338682368,
            ),
        ],
    },
    Row {
        dims: 3,
        sizes: [4, 1, 3, 1],
        codes: &[
            (
                Code::Reversible,
                3436,
                11565787277790241821,
                17932441797335443540,
            ),
            (
                Code::Rate(1999, 33),
                1999,
                11042142440065275650,
                3143995912703967232,
            ),
            (
                Code::Precision(63),
                4025,
                4731865045780366094,
                6078856052316671248,
            ),
        ],
    },
    Row {
        dims: 4,
        sizes: [3, 4, 2, 1],
        codes: &[
            (
                Code::Reversible,
                13530,
                6635918160429931472,
                12719662604011675096,
            ),
            (
                Code::Rate(9000, 21),
                9000,
                9621338582435006963,
                13582226909105750016,
            ),
            (Code::Precision(2), 248, 1151233903701985218, 0),
        ],
    },
];
