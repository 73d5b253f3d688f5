// Codewords by the generator matrix, which is built here from its own definition, beside those of the library.
use crate::code::nine;
use polar::code::encode;
use polar::plan::Plan;
use polar::refusal::Refusal;
use std::test::Fail;

// Writes the row of a leaf in the matrix of `row.len()` symbols. The matrix of one symbol is a 1. In that of more, the rows of
// the left leaves are those of the left half's matrix and zeros, and the rows of the right leaves are those of the right half's
// matrix twice, from the first symbol and from the middle; where the left half is longer, a zero stands between the two.
fn write_row(row: &mut [u8], leaf: usize) {
    let n = row.len();
    if n < 2 {
        row.fill(1);
        return;
    }
    let right = n / 2;
    let left = n - right;
    if leaf < left {
        write_row(&mut row[0..left], leaf);
        row[left..n].fill(0);
    } else {
        write_row(&mut row[0..right], leaf - left);
        row.copy_within(0..right, left);
        row[right..left].fill(0);
    }
}

// Adds the row of a leaf to a word, modulo 2.
fn add_row(leaf: usize, word: &mut [u8]) {
    let mut room = [0u8; 4096];
    let row = &mut room[0..word.len().min(4096)];
    write_row(row, leaf);
    for (sum, bit) in word.iter_mut().zip(row) {
        *sum ^= *bit;
    }
}

// Writes the word of the data: the sum of the rows of the active leaves whose datum is 1.
fn write_word(marks: &[u8], data: &[u8], word: &mut [u8]) {
    word.fill(0);
    let mut rest = data.iter();
    for (leaf, mark) in marks.iter().enumerate() {
        if *mark == 1 && rest.next().is_some_and(|datum| *datum == 1) {
            add_row(leaf, word);
        }
    }
}

// The matrix of nine symbols.
const NINE: [[u8; 9]; 9] = [
    [1, 0, 0, 0, 0, 0, 0, 0, 0],
    [1, 1, 0, 0, 0, 0, 0, 0, 0],
    [1, 0, 1, 0, 0, 0, 0, 0, 0],
    [1, 0, 0, 1, 0, 0, 0, 0, 0],
    [1, 1, 0, 1, 1, 0, 0, 0, 0],
    [1, 0, 0, 0, 0, 1, 0, 0, 0],
    [1, 1, 0, 0, 0, 1, 1, 0, 0],
    [1, 0, 1, 0, 0, 1, 0, 1, 0],
    [1, 1, 1, 1, 0, 1, 1, 1, 1],
];

#[test]
fn nine_rows(rt: HostRuntime) -> Result<(), Fail> {
    let mut plan = Plan::new(rt.alloc())?;
    for (leaf, known) in NINE.iter().enumerate() {
        let mut row = [7u8; 9];
        write_row(&mut row, leaf);
        assert!(rt; row == *known);
        assert_eq!(rt; nine(&mut plan, leaf), Ok(*known));
    }
    Ok(())
}

// Fills a slice with pseudo-random bits.
fn put_noise(state: &mut u64, out: &mut [u8]) {
    for bit in out.iter_mut() {
        *state = state
            .wrapping_mul(6364136223846793005)
            .wrapping_add(1442695040888963407);
        *bit = u8::from(*state >> 63 == 1);
    }
}

// Whether the library's word and the matrix's are the same, of pseudo-random data at these marks.
fn agree(plan: &mut Plan, marks: &[u8], state: &mut u64) -> Result<bool, Refusal> {
    plan.fill(marks.len(), marks)?;
    let mut data = [0u8; 4096];
    let data = &mut data[0..plan.active().min(4096)];
    put_noise(state, data);
    let mut word = [7u8; 4096];
    encode(plan, data, &mut word)?;
    let mut sums = [7u8; 4096];
    write_word(marks, data, &mut sums[0..marks.len().min(4096)]);
    Ok(word == sums)
}

// The same with every leaf active, and at a pseudo-random plan.
fn both_agree(plan: &mut Plan, len: usize, state: &mut u64) -> Result<bool, Refusal> {
    let mut marks = [1u8; 4096];
    let marks = &mut marks[0..len.min(4096)];
    let all = agree(plan, marks, state)?;
    put_noise(state, marks);
    if !marks.contains(&1) {
        marks.fill(1);
    }
    Ok(agree(plan, marks, state)? && all)
}

#[test]
fn short_lengths(rt: HostRuntime) -> Result<(), Fail> {
    let mut plan = Plan::new(rt.alloc())?;
    let mut state = 1;
    for len in 1..129 {
        assert_eq!(rt; both_agree(&mut plan, len, &mut state), Ok(true));
    }
    Ok(())
}

#[test]
fn longer_lengths(rt: HostRuntime) -> Result<(), Fail> {
    let mut plan = Plan::new(rt.alloc())?;
    let mut state = 2;
    let lengths = [
        129, 255, 257, 384, 511, 768, 1000, 2047, 2049, 3001, 4095, 4096,
    ];
    for len in lengths {
        assert_eq!(rt; both_agree(&mut plan, len, &mut state), Ok(true));
    }
    Ok(())
}
