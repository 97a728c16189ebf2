//! The order of the coefficients of a block.

ghost use Rattle.std.specs.Prelude.{◌≡◌, ◌^◌, ◌<◌, ◌≤◌, All, length};
ghost use Rattle.zf_spec.specs.Grid.{IsDimension};
ghost use Rattle.zf_spec.specs.Ranks.{order};

/// The places of a block of one dimension, by rank.
static ORDER_1: [u8; 4] = [0, 1, 2, 3];

/// The places of a block of two dimensions, by rank.
static ORDER_2: [u8; 16] = [0, 1, 4, 5, 2, 8, 6, 9, 3, 12, 10, 7, 13, 11, 14, 15];

/// The places of a block of three dimensions, by rank.
static ORDER_3: [u8; 64] = [
    0, 1, 4, 16, 5, 17, 20, 2, 8, 32, 21, 6, 18, 9, 33, 24, 36, 3, 12, 48, 22, 25, 37, 10, 34, 40,
    7, 19, 13, 49, 28, 52, 26, 38, 41, 23, 29, 53, 11, 35, 14, 50, 44, 56, 42, 27, 39, 30, 54, 45,
    57, 15, 51, 60, 43, 46, 58, 31, 55, 61, 47, 59, 62, 63,
];

/// The places of a block of four dimensions, by rank.
static ORDER_4: [u8; 256] = [
    0, 1, 4, 16, 64, 5, 17, 65, 20, 68, 80, 2, 8, 32, 128, 21, 69, 81, 84, 6, 18, 66, 9, 33, 129,
    24, 72, 36, 132, 96, 144, 3, 12, 48, 192, 85, 22, 70, 82, 25, 73, 37, 133, 97, 145, 88, 100,
    148, 10, 34, 130, 40, 136, 160, 7, 19, 67, 13, 49, 193, 28, 76, 52, 196, 112, 208, 86, 89, 101,
    149, 26, 74, 38, 134, 98, 146, 41, 137, 161, 104, 152, 164, 23, 71, 83, 29, 77, 53, 197, 113,
    209, 92, 116, 212, 11, 35, 131, 14, 50, 194, 44, 140, 56, 200, 176, 224, 90, 102, 150, 105,
    153, 165, 87, 42, 138, 162, 93, 117, 213, 168, 27, 75, 39, 135, 99, 147, 30, 78, 54, 198, 114,
    210, 45, 141, 57, 201, 177, 225, 108, 156, 120, 216, 180, 228, 15, 51, 195, 60, 204, 240, 106,
    154, 166, 169, 91, 103, 151, 94, 118, 214, 109, 157, 121, 217, 181, 229, 43, 139, 163, 46, 142,
    58, 202, 178, 226, 172, 184, 232, 31, 79, 55, 199, 115, 211, 61, 205, 241, 124, 220, 244, 170,
    107, 155, 167, 110, 158, 122, 218, 182, 230, 173, 185, 233, 95, 119, 215, 125, 221, 245, 47,
    143, 59, 203, 179, 227, 62, 206, 242, 188, 236, 248, 171, 174, 186, 234, 111, 159, 123, 219,
    183, 231, 126, 222, 246, 189, 237, 249, 63, 207, 243, 252, 175, 187, 235, 190, 238, 250, 127,
    223, 247, 253, 191, 239, 251, 254, 255,
];

/// The place of each rank in a block of `d` dimensions, 1 to 4.
///
/// The place with the smaller sum of indices comes first, then the one with the smaller sum of squares, then
/// the one with the greater x, then y, then z. In one and two dimensions this is the order of zfp 1.0; in
/// three and four dimensions the choice among equal sums is this project's own.
#[inline(always)]
pub fn order(d: u8) -> &'static [u8]
    requires dimension { IsDimension d }
    ensures places { result.now ≡ order d }
    ensures count { length result.now ≡ 4 ^ d }
    ensures within { All (λ p. p < 4 ^ d) result.now }
{
    match d {
        1 => &ORDER_1,
        2 => &ORDER_2,
        3 => &ORDER_3,
        _ => &ORDER_4,
    }
}
