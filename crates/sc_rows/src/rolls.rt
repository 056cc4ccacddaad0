//! Rolls of both kinds: who holds the seats of one school.
ghost use Rattle.std.specs.Prelude.{◌≡◌, ◌≤◌, [], ◌∷◌, ◌++◌, length, All, Contains, OnOk, IfOk};
ghost use Rattle.std.specs.List.Sorted.{IsPermutation};
ghost use Rattle.std.specs.Option.{option_to_list};

use crate::comparing::same;
use crate::given::student;
use sc_papers::{Key, Seats, StudentNo};
use sc_seats::{HeapRoll, HeldKey, Roll, SortedRoll};
use std::alloc::{AllocError, Global};
use std::process::Abort;

fn key(rt: &impl Abort, class: u8, draw: u64, number: u32) -> Key {
    Key {
        class,
        draw,
        student: student(rt, number),
    }
}

fn seats(rt: &impl Abort, number: u32) -> Seats {
    Seats::new(number).expect(rt, "a number of seats")
}

fn expect_same(rt: &impl Abort, key: Option<Key>, want: Option<&Key>) {
    same(rt, &key.as_ref(), &want);
}

/// Offers the key, and sees that the roll told beforehand whether it would be refused. Where a growth is refused the roll is as it was, and the key is offered again.
fn offer_again<R: Roll>(rt: &impl Abort, roll: &mut R, key: &Key) -> Result<Option<Key>, AllocError>
    requires within { length (R.keys roll.old) ≤ R.seats roll.old }
    requires new { ¬ Contains (R.keys roll.old) key.now }
    ensures within { length (R.keys roll.new) ≤ R.seats roll.new }
    ensures together { IfOk result (λ out. IsPermutation (key.now ∷ R.keys roll.old)
        (option_to_list out ++ R.keys roll.new)) }
{
    let held = roll.len();
    let worst = roll.worst();
    let refused = roll.refuses(key);
    if let Ok(out) = roll.offer(*key) {
        same(rt, &(out == Some(*key)), &refused);
        return Ok(out);
    }
    same(rt, &roll.len(), &held);
    expect_same(rt, roll.worst(), worst.as_ref());
    let out = roll.offer(*key)?;
    Ok(out)
}

/// Offers the key of a student who has not been offered.
fn offer<R: Roll>(
    rt: &impl Abort,
    roll: &mut R,
    seen: &mut Vec<StudentNo>,
    key: Key,
) -> Result<Option<Key>, AllocError>
    requires within { length (R.keys roll.old) ≤ R.seats roll.old }
    requires known { All (λ held. Contains seen.old.items held.student) (R.keys roll.old) }
    ensures within { OnOk result (length (R.keys roll.new) ≤ R.seats roll.new) }
    ensures known { OnOk result (All (λ held. Contains seen.new.items held.student) (R.keys roll.new)) }
{
    if seen.as_slice().contains(&key.student) {
        return Ok(None);
    }
    seen.push(key.student)?;
    let out = offer_again(rt, roll, &key)?;
    Ok(out)
}

/// Offers the key of a student who has not been offered, and sees who goes.
fn expect_out<R: Roll>(
    rt: &impl Abort,
    roll: &mut R,
    seen: &mut Vec<StudentNo>,
    key: &Key,
    want: Option<&Key>,
) -> Result<(), AllocError>
    requires within { length (R.keys roll.old) ≤ R.seats roll.old }
    requires known { All (λ held. Contains seen.old.items held.student) (R.keys roll.old) }
    ensures within { OnOk result (length (R.keys roll.new) ≤ R.seats roll.new) }
    ensures known { OnOk result (All (λ held. Contains seen.new.items held.student) (R.keys roll.new)) }
{
    let out = offer(rt, roll, seen, *key)?;
    expect_same(rt, out, want);
    Ok(())
}

/// A roll's copy holds so many, and the same worst, with as many seats.
fn expect_copied<R: Roll>(rt: &impl Abort, roll: &R, copy: &R, held: usize, worst: Option<&Key>) {
    same(rt, &copy.len(), &held);
    expect_same(rt, copy.worst(), worst);
    same(rt, &copy.capacity(), &roll.capacity());
}

/// An offer, who is put out for it, and who is the worst of those held then.
#[derive(Clone, Copy)]
struct OneOffer<'a> {
    key: &'a Key,
    out: Option<&'a Key>,
    worst: Option<&'a Key>,
}

impl<'a> OneOffer<'a> {
    fn new(key: &'a Key, out: Option<&'a Key>, worst: Option<&'a Key>) -> Self {
        OneOffer { key, out, worst }
    }
}

/// Makes these offers, one after the other, and sees what each comes to.
fn expect_offers<R: Roll>(
    rt: &impl Abort,
    roll: &mut R,
    seen: &mut Vec<StudentNo>,
    offers: &[OneOffer<'_>],
) -> Result<(), AllocError>
    requires within { length (R.keys roll.old) ≤ R.seats roll.old }
    requires known { All (λ held. Contains seen.old.items held.student) (R.keys roll.old) }
    ensures within { OnOk result (length (R.keys roll.new) ≤ R.seats roll.new) }
    ensures known { OnOk result (All (λ held. Contains seen.new.items held.student) (R.keys roll.new)) }
{
    for offer in offers {
        expect_out(rt, roll, seen, offer.key, offer.out)?;
        expect_same(rt, roll.worst(), offer.worst);
    }
    Ok(())
}

/// Makes these offers to a roll of so many seats on which nobody is.
fn expect_offers_to_none<R: Roll>(
    rt: &impl Abort,
    alloc: Global,
    number: u32,
    offers: &[OneOffer<'_>],
) -> Result<(), AllocError> {
    let mut seen = Vec::new(alloc);
    let mut roll = R::with_capacity(alloc, seats(rt, number));
    expect_offers(rt, &mut roll, &mut seen, offers)
}

/// A key of class 3 by the student's draw under the zero seed.
fn drawn(rt: &impl Abort, number: u32) -> Key {
    let draw = match number {
        1 => 0xe56a5d4028bd8653,
        2 => 0xb819d2bd1aed8da0,
        3 => 0xccef36a8c70d778b,
        _ => 0x7c5941da8d485751,
    };
    key(rt, 3, draw, number)
}

/// Who stays on a roll of two seats.
fn offer_four<R: Roll>(
    rt: &impl Abort,
    roll: &mut R,
    seen: &mut Vec<StudentNo>,
) -> Result<(), AllocError>
    requires { R.keys roll.old ≡ [] }
    ensures within { OnOk result (length (R.keys roll.new) ≤ R.seats roll.new) }
    ensures known { OnOk result (All (λ held. Contains seen.new.items held.student) (R.keys roll.new)) }
{
    let keys = [drawn(rt, 1), drawn(rt, 2), drawn(rt, 3), drawn(rt, 4)];
    let [one, two, three, four] = &keys;
    let offers = [
        OneOffer::new(three, None, Some(three)),
        OneOffer::new(two, None, Some(three)),
        OneOffer::new(four, Some(three), Some(two)),
        OneOffer::new(one, Some(one), Some(two)),
    ];
    expect_offers(rt, roll, seen, &offers)
}

/// A copy of a roll of two seats holds the same keys: the last one first, each goes for a better one. The roll still
/// holds them.
fn expect_copied_keys<R: Roll>(
    rt: &impl Abort,
    roll: &R,
    seen: &mut Vec<StudentNo>,
) -> Result<(), AllocError>
    requires within { length (R.keys roll.now) ≤ R.seats roll.now }
    requires known { All (λ held. Contains seen.old.items held.student) (R.keys roll.now) }
{
    let keys = [
        drawn(rt, 2),
        drawn(rt, 4),
        key(rt, 0, 0, 5),
        key(rt, 0, 0, 6),
    ];
    let [two, four, five, six] = &keys;
    let offers = [
        OneOffer::new(five, Some(two), Some(four)),
        OneOffer::new(six, Some(four), Some(six)),
    ];
    let mut copy = roll.copy()?;
    expect_copied(rt, roll, &copy, 2, Some(two));
    expect_offers(rt, &mut copy, seen, &offers)?;
    expect_same(rt, roll.worst(), Some(two));
    Ok(())
}

/// Who stays on a roll of two seats, and on a copy of it.
fn two_seats<R: Roll>(rt: &impl Abort, alloc: Global) -> Result<(), AllocError> {
    let mut seen = Vec::new(alloc);
    let mut roll = R::with_capacity(alloc, seats(rt, 2));
    offer_four(rt, &mut roll, &mut seen)?;
    expect_copied_keys(rt, &roll, &mut seen)
}

/// Without a seat nobody stays.
fn no_seat<R: Roll>(rt: &impl Abort, alloc: Global) -> Result<(), AllocError> {
    let seven = key(rt, 3, 5, 7);
    let offers = [OneOffer::new(&seven, Some(&seven), None)];
    expect_offers_to_none::<R>(rt, alloc, 0, &offers)
}

/// With one seat the number settles equal draws.
fn few_seats<R: Roll>(rt: &impl Abort, alloc: Global) -> Result<(), AllocError> {
    no_seat::<R>(rt, alloc)?;
    let seven = key(rt, 3, 5, 7);
    let eight = key(rt, 3, 5, 8);
    let offers = [
        OneOffer::new(&eight, None, Some(&eight)),
        OneOffer::new(&seven, Some(&eight), Some(&seven)),
    ];
    expect_offers_to_none::<R>(rt, alloc, 1, &offers)
}

#[test]
fn a_held_key_keeps_its_guess(rt: HostRuntime) {
    let one = key(&rt, 4, 0xe56a5d4028bd8653, 1);
    let held = HeldKey::of(one, 199_999);
    same(&rt, &held.guess(), &199_999);
    same(&rt, &held.key(), &one);
}

#[test]
fn sorted_rolls(rt: HostRuntime) {
    two_seats::<SortedRoll>(&rt, rt.alloc()).expect(&rt, "memory");
    few_seats::<SortedRoll>(&rt, rt.alloc()).expect(&rt, "memory");
}

#[test]
fn heap_rolls(rt: HostRuntime) {
    two_seats::<HeapRoll>(&rt, rt.alloc()).expect(&rt, "memory");
    few_seats::<HeapRoll>(&rt, rt.alloc()).expect(&rt, "memory");
}

/// Offers the key to two rolls, and tells whether they answer alike and then hold alike.
fn offer_both<A: Roll, B: Roll>(
    rt: &impl Abort,
    one: &mut A,
    in_one: &mut Vec<StudentNo>,
    other: &mut B,
    in_other: &mut Vec<StudentNo>,
    key: Key,
) -> Result<bool, AllocError>
    requires within_one { length (A.keys one.old) ≤ A.seats one.old }
    requires within_other { length (B.keys other.old) ≤ B.seats other.old }
    requires known_one { All (λ held. Contains in_one.old.items held.student) (A.keys one.old) }
    requires known_other { All (λ held. Contains in_other.old.items held.student) (B.keys other.old) }
    ensures within_one { OnOk result (length (A.keys one.new) ≤ A.seats one.new) }
    ensures within_other { OnOk result (length (B.keys other.new) ≤ B.seats other.new) }
    ensures known_one { OnOk result (All (λ held. Contains in_one.new.items held.student) (A.keys one.new)) }
    ensures known_other { OnOk result (All (λ held. Contains in_other.new.items held.student) (B.keys other.new)) }
{
    let from_one = offer(rt, one, in_one, key)?;
    let from_other = offer(rt, other, in_other, key)?;
    Ok(from_one == from_other && one.worst() == other.worst() && one.len() == other.len())
}

/// The key that a state of the generator makes.
fn drawn_key(rt: &impl Abort, state: u64) -> Key {
    let class = (state >> 62) as u8;
    let draw = (state >> 56) % 8;
    let number = ((state >> 33) % 1_000) as u32 + 1;
    key(rt, class, draw, number)
}

/// Whether both kinds of roll answer alike to keys drawn at random, by Knuth's linear congruential
/// generator. Few draws are different, so that the number often decides.
fn agree(rt: &impl Abort, alloc: Global, capacity: u32) -> Result<bool, AllocError> {
    let mut sorted = SortedRoll::with_capacity(alloc, seats(rt, capacity));
    let mut heap = HeapRoll::with_capacity(alloc, seats(rt, capacity));
    let mut in_sorted = Vec::new(alloc);
    let mut in_heap = Vec::new(alloc);
    let mut alike = true;
    let mut state = 1962_u64;
    for _offer in 0..600 {
        state = state
            .wrapping_mul(6_364_136_223_846_793_005)
            .wrapping_add(1_442_695_040_888_963_407);
        let drawn = drawn_key(rt, state);
        let both = offer_both(
            rt,
            &mut sorted,
            &mut in_sorted,
            &mut heap,
            &mut in_heap,
            drawn,
        )?;
        alike = alike && both;
    }
    Ok(alike)
}

#[test]
fn both_rolls_agree_on_random_offers(rt: HostRuntime) {
    for capacity in &[0, 1, 2, 7, 40, 1_000] {
        let alike = agree(&rt, rt.alloc(), *capacity).expect(&rt, "memory");
        assert!(rt; alike, "{capacity}");
    }
}

/// A copy of the roll of eight, made again where memory was refused.
fn expect_copy<R: Roll>(rt: &impl Abort, roll: &R) -> Result<(), AllocError> {
    let copy = match roll.copy() {
        Ok(copy) => copy,
        Err(_refused) => roll.copy()?,
    };
    let worst = roll.worst();
    expect_copied(rt, roll, &copy, 8, worst.as_ref());
    drop(copy);
    Ok(())
}

/// Nine offers to a roll of eight seats, and a copy of it.
fn grow<R: Roll>(rt: &impl Abort, alloc: Global) -> Result<(), AllocError> {
    // The test's own list, which may be refused too.
    let mut seen = match Vec::with_capacity(alloc, 9) {
        Ok(seen) => seen,
        Err(_refused) => Vec::with_capacity(alloc, 9)?,
    };
    let mut roll = R::with_capacity(alloc, seats(rt, 8));
    for number in 1..=8_u32 {
        let offered = key(rt, 3, 9, number);
        expect_out(rt, &mut roll, &mut seen, &offered, None)?;
        expect_same(rt, roll.worst(), Some(&offered));
    }
    let last = key(rt, 3, 9, 9);
    expect_out(rt, &mut roll, &mut seen, &last, Some(&last))?;
    expect_copy(rt, &roll)
}

// Run with each allocation refused in turn, this one sees that a refused growth leaves a roll as it was.
#[test]
fn rolls_stay_where_memory_is_refused(rt: HostRuntime) {
    grow::<SortedRoll>(&rt, rt.alloc()).expect(&rt, "memory");
    grow::<HeapRoll>(&rt, rt.alloc()).expect(&rt, "memory");
}
