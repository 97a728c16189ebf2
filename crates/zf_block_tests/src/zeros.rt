//! The codes of blocks of zeros: how long they are, and how they are passed.

use std::process::Abort;
use zf_bits::BitReader;
use zf_block::{
    Dims, pass_prec_zeros, pass_rate_zeros, pass_rev_zeros, prec_len_of_zeros, rate_len_of_zeros,
    rev_len_of_zeros,
};

// A count of one plane and its bit; all of a rate; a bit a plane, of no more planes than the type has.
#[test]
fn codes_of_zeros_have_their_lengths(rt: HostRuntime) {
    for count in 1..5 {
        let d = Dims::new(count);
        assert!(rt; rev_len_of_zeros::<i32>(d) == 6 && rev_len_of_zeros::<i64>(d) == 7);
        assert!(rt;
            rate_len_of_zeros::<i32>(d, 1) == 1 && rate_len_of_zeros::<i64>(d, 32768) == 32768
        );
        assert!(rt; prec_len_of_zeros::<i32>(d, 40) == 32 && prec_len_of_zeros::<i64>(d, 40) == 40);
    }
}

// Of 27 bits, of which bit 20 alone is one: codes are passed as long as one of zeros is there whole.
#[test]
fn codes_of_zeros_are_passed(rt: HostRuntime) {
    let words = [1 << 20];
    let mut reader = BitReader::new(&words, 27);
    for passed in 1..4 {
        assert!(rt; pass_rev_zeros::<i32>(Dims::new(1), &mut reader) && reader.at() == 6 * passed);
    }
    assert!(rt; !pass_rev_zeros::<i32>(Dims::new(1), &mut reader) && reader.at() == 18);

    let mut reader = BitReader::new(&words, 27);
    assert!(rt; pass_rate_zeros::<i64>(Dims::new(2), 14, &mut reader) && reader.at() == 14);
    assert!(rt; !pass_rate_zeros::<i64>(Dims::new(2), 7, &mut reader) && reader.at() == 14);
    assert!(rt; pass_prec_zeros::<i32>(Dims::new(3), 5, &mut reader) && reader.at() == 19);
    assert!(rt; !pass_prec_zeros::<i32>(Dims::new(3), 2, &mut reader) && reader.at() == 19);

    let mut reader = BitReader::new(&words, 27);
    reader.seek(21);
    assert!(rt; !pass_rev_zeros::<i64>(Dims::new(4), &mut reader) && reader.at() == 21);
    assert!(rt; pass_rev_zeros::<i32>(Dims::new(4), &mut reader) && reader.at() == 27);
    assert!(rt; !pass_prec_zeros::<i32>(Dims::new(4), 1, &mut reader));
}
