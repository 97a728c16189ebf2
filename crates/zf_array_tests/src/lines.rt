//! Lines beside a plain vector of vectors, over writes that a generator chooses.

ghost use Rattle.std.specs.Prelude.{◌≡◌, ◌≤◌, ◌<◌, ◌+◌, ◌^◌, length};
ghost use Rattle.zf_lines.specs.Rows.{HasSize};

use std::alloc::{AllocError, Global};
use std::fs;
use std::rt::Files;
use std::test::Fail;
use zf_lines::Lines;

// Knuth's linear congruential generator, of which the upper bits are used.
#[derive(Drop)]
struct Numbers(u64);

impl Numbers {
    fn below(&mut self, n: usize) -> usize
        requires { 0 < n }
        ensures { result < n }
    {
        self.0 = self
            .0
            .wrapping_mul(6_364_136_223_846_793_005)
            .wrapping_add(1_442_695_040_888_963_407);
        (self.0 >> 33) as usize % n
    }
}

// The same blocks, each a vector of its own.
fn plain(alloc: Global, lines: u32, len: usize, zero: i64) -> Result<Vec<Vec<i64>>, AllocError> {
    let mut all = Vec::new(alloc);
    for _ in 0..lines {
        all.push(vec![in alloc; zero; len]?)?;
    }
    Ok(all)
}

// Whether the first blocks, all of them written, are the same in both.
fn is_same(lines: &Lines<i64>, count: u32, all: &Vec<Vec<i64>>) -> bool
    requires { count ≤ lines.now.written }
{
    for i in 0..count {
        let Some(block) = all.get(i as usize) else {
            return false;
        };
        if lines.line(i) != block.as_slice() {
            return false;
        }
    }
    true
}

// Writes one value to a whole block, or to a part of it, in both; the number of the block.
fn write(
    lines: &mut Lines<i64>,
    all: &mut Vec<Vec<i64>>,
    count: u32,
    len: usize,
    numbers: &mut Numbers,
    value: i64,
) -> u32
    requires sized { HasSize lines.old.blocks count len }
    requires some { (0 < count) × (0 < len) }
    ensures sized { HasSize lines.new.blocks count len }
    ensures written { result < lines.new.written }
    ensures within { result < count }
{
    let i = numbers.below(count as usize);
    let a = numbers.below(len);
    let n = numbers.below(len - a) + 1;
    if let Some(block) = all.get_mut(i) {
        write_plain(block, a, n, value);
    }
    let i = i as u32;
    lines.write_to(i);
    if n == len {
        write_whole(lines, count, len, i, value);
    } else {
        write_part(lines, count, len, i, a, n, value);
    }
    i
}

// Makes so many values from a place on be one.
fn write_plain(block: &mut Vec<i64>, from: usize, count: usize, value: i64) {
    for place in block.iter_mut().skip(from).take(count) {
        *place = value;
    }
}

// Makes all values of a line be one.
fn write_whole(lines: &mut Lines<i64>, count: u32, len: usize, i: u32, value: i64)
    requires sized { HasSize lines.old.blocks count len }
    requires line { (i < count) × (i < lines.old.written) }
    ensures sized { HasSize lines.new.blocks count len }
    ensures written { lines.new.written ≡ lines.old.written }
{
    for place in lines.line_mut(i) {
        *place = value;
    }
}

// Makes a part of a line be one value.
fn write_part(
    lines: &mut Lines<i64>,
    count: u32,
    len: usize,
    i: u32,
    from: usize,
    values: usize,
    value: i64,
)
    requires sized { HasSize lines.old.blocks count len }
    requires line { (i < count) × (i < lines.old.written) }
    requires part { from + values ≤ len }
    ensures sized { HasSize lines.new.blocks count len }
    ensures written { lines.new.written ≡ lines.old.written }
{
    for place in lines.part_mut(i, from, values) {
        *place = value;
    }
}

// Whether both are the same after each of a hundred writes: up to the block that was written to, and at the
// end all.
fn compare(alloc: Global, count: u32, len: usize) -> Result<bool, AllocError>
    requires { (0 < count) × (count ≤ 2 ^ 16) × (0 < len) × (len ≤ 2 ^ 8) }
{
    let mut all = plain(alloc, count, len, 7)?;
    let mut lines = Lines::new(alloc, count, len, 7i64)?;
    let mut numbers = Numbers(count as u64);
    let mut same = true;
    for step in 0..100i64 {
        let i = write(&mut lines, &mut all, count, len, &mut numbers, step);
        same &= is_same(&lines, i + 1, &all);
    }
    lines.write_to(count - 1);
    same &= is_same(&lines, count, &all);
    drop(lines);
    drop(all);
    Ok(same)
}

// How many lines there are, and how long each is.
static SIZES: [(u32, usize); 5] = [(1, 4), (2, 4), (3, 16), (8, 64), (5, 256)];

#[test]
fn as_vectors_over_random_writes(rt: HostRuntime) -> Result<(), Fail> {
    for (count, len) in SIZES.iter() {
        assert!(rt; 0 < *count && *count <= 65536 && 0 < *len && *len <= 256);
        assert!(rt; compare(rt.alloc(), *count, *len)?);
    }
    Ok(())
}

#[test]
fn made_and_dropped_many_times(rt: HostRuntime) -> Result<(), Fail> {
    for round in 0..4096i64 {
        let mut lines = Lines::new(rt.alloc(), 16, 64, round)?;
        lines.write_to(15);
        assert!(rt; lines.line(15) == [round; 64].as_slice());
        drop(lines);
    }
    Ok(())
}

#[test]
fn lines_of_every_size(rt: HostRuntime) -> Result<(), Fail> {
    for len in [0usize, 4, 16, 64, 256] {
        let none = Lines::new(rt.alloc(), 0, len, -1i32)?;
        drop(none);
        let mut lines = Lines::new(rt.alloc(), 65536, len, -1i32)?;
        lines.write_to(65535);
        assert!(rt; lines.line(65535).len() == len);
        drop(lines);
    }
    Ok(())
}

// How many pages of memory the process has: the first number that the system says of it.
fn pages(rt: &(impl Files + AllocGlobal)) -> Result<u64, Fail> {
    let text = fs::read_to_string(rt, "/proc/self/statm")?;
    let number = first_number(text.as_str());
    drop(text);
    Ok(number.ok_or("a number")?)
}

// The number that a text begins with.
fn first_number(text: &str) -> Option<u64> {
    text.split(' ').next()?.parse::<u64>().ok()
}

// 512 times lines of 2 MiB, one after the other. Where they leak, the process has 262144 pages more
// afterwards; what an allocator keeps for a while of what it is given back is less than half of it.
#[test]
fn dropped_lines_give_their_memory_back(rt: HostRuntime) -> Result<(), Fail> {
    let before = pages(&rt)?;
    for round in 0..512i64 {
        let mut lines = Lines::new(rt.alloc(), 4096, 64, round)?;
        lines.write_to(4095);
        assert!(rt; lines.line(4095).len() == 64);
        drop(lines);
    }
    let after = pages(&rt)?;
    assert!(rt; after < before.saturating_add(131072));
    Ok(())
}
