//! The lottery: draws under known seeds, by the vectors of RFC 8439's cipher with a counter of 64 bits, and
//! what is no seed and no student.
use crate::comparing::same;
use crate::given::{expect_said, student};
use sc_lottery::{Draws, Seed, SeedError, StudentNumber, draw};
use std::process::Abort;

const ZEROS: [u8; 64] = [b'0'; 64];

/// The seed that 64 digits write.
fn seed(rt: &impl Abort, digits: &[u8]) -> Seed {
    Seed::from_hex(digits).ok().expect(rt, "a seed")
}

/// Students' numbers, and their draws under the seed of zeros.
const DRAWS_OF_ZEROS: [(u32, u64); 8] = [
    (1, 0xe56a5d4028bd8653),
    (2, 0xb819d2bd1aed8da0),
    (3, 0xccef36a8c70d778b),
    (4, 0x7c5941da8d485751),
    (5, 0x3fe02477374ad8b8),
    (6, 0xf4b8436a1ca11815),
    (7, 0x69b687c38665eeb2),
    (999_999_999, 0xca78c135d87c7d89),
];

fn expect_draw(rt: &impl Abort, seed: &Seed, number: u32, want: u64) {
    let draw = draw(seed, student(rt, number));
    assert_eq!(rt; draw, want, "student {number}");
}

#[test]
fn draws_of_the_zero_seed(rt: HostRuntime) {
    let seed = seed(&rt, &ZEROS);
    for (number, want) in &DRAWS_OF_ZEROS {
        expect_draw(&rt, &seed, *number, *want);
    }
}

#[test]
fn the_first_byte_of_the_seed_counts_lowest(rt: HostRuntime) {
    let text = b"000102030405060708090a0b0c0d0e0f101112131415161718191a1b1c1d1e1f";
    let draw = draw(&seed(&rt, text), student(&rt, 1));
    same(&rt, &draw, &0x7703bd8d494adcb8);
}

#[test]
fn both_cases_of_letters_read_alike(rt: HostRuntime) {
    let lower = b"00112233445566778899aabbccddeeff00112233445566778899aabbccddeeff";
    let upper = b"00112233445566778899AABBCCDDEEFF00112233445566778899AABBCCDDEEFF";
    let seeds = (seed(&rt, lower), seed(&rt, upper));
    assert!(rt; seeds.0 == seeds.1);
    same(&rt, &draw(&seeds.0, student(&rt, 1)), &0xec209e20502a894d);
}

/// The digits write no seed, by this fault.
fn expect_fault(rt: &impl Abort, digits: &[u8], fault: SeedError) {
    same(rt, &Seed::from_hex(digits), &Err(fault));
}

#[test]
fn constructors_refusals_of_seeds(rt: HostRuntime) {
    expect_fault(&rt, &ZEROS[..63], SeedError::Length);
    expect_fault(&rt, &[b'0'; 66], SeedError::Length);
    expect_fault(&rt, b"", SeedError::Length);
    for index in 0..64 {
        let mut text = ZEROS;
        text[index] = b'g';
        text[63] = b'g';
        expect_fault(&rt, &text, SeedError::Digit { index });
    }
}

#[test]
fn numbers_of_students(rt: HostRuntime) {
    assert!(rt; StudentNumber::new(0).is_none());
    same(&rt, &student(&rt, 1).get(), &1);
    same(&rt, &student(&rt, 999_999_999).get(), &999_999_999);
    assert!(rt; StudentNumber::new(1_000_000_000).is_none());
}

#[test]
fn refusals_in_words(rt: HostRuntime) {
    let length = SeedError::Length.to_string(rt.alloc());
    expect_said(&rt, "no seed", length, "Length");
    let digit = SeedError::Digit { index: 5 }.to_string(rt.alloc());
    expect_said(&rt, "no seed", digit, "Digit 5");
}

/// The student's draw is the same one as under the seed by itself.
fn expect_the_same(rt: &impl Abort, draws: &mut Draws, seed: &Seed, number: u32) {
    let student = student(rt, number);
    assert_eq!(rt; draws.draw(student), draw(seed, student), "{number}");
}

// Forwards by steps within one block and past it, back, far on, and the same one again.
#[test]
fn draws_are_read_in_any_order(rt: HostRuntime) {
    let seed = seed(&rt, &ZEROS);
    let mut draws = Draws::new(seed);
    assert!(rt; draws.seed() == seed);
    for number in &[1, 2, 3, 9, 34, 35, 80, 5, 999_999_999, 1, 1] {
        expect_the_same(&rt, &mut draws, &seed, *number);
    }
}
