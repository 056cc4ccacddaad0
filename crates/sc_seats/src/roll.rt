ghost use Rattle.std.specs.Prelude.{◌≡◌, ◌↔◌, ℕ, ◌≤◌, ◌-◌, true, List, [], ◌∷◌, ◌++◌, length, All, Contains, IfOk, IfSome, IsSome, IsTrue, OnErr, slice_get};
ghost use Rattle.std.specs.List.Sorted.{IsPermutation};
ghost use Rattle.std.specs.Option.{option_to_list};
ghost use Rattle.sc_papers.specs.Key.{is_before};
ghost use Rattle.sc_papers.specs.declared.key.Key.{Key as Priority};
ghost use Rattle.sc_seats.specs.Roll.{IsAscending, Refuses};

use crate::held_key::HeldKey;
use sc_papers::{Key, Seats};
use std::alloc::{AllocError, Global};

/// The keys of the students who hold the seats of a school, each ahead of the next, and how many
/// seats there are.
pub trait Roll: Drop {
    // The keys held, the best first.
    ghost keys: { Self → List Priority };

    // How many seats there are.
    ghost seats: { Self → ℕ };

    /// A roll of this capacity on which nobody is. It takes no memory: `offer` takes it.
    fn with_capacity(alloc: Global, capacity: Seats) -> Self
        ensures nobody { keys result ≡ [] }
        ensures capacity { seats result ≡ capacity };

    /// Offers a seat to a key that is not held, and answers the key put out for it, if there is one.
    /// With room the key is held and none is put out. Without room the best stay, among those held
    /// and the offered one, and the last of them is put out: at capacity 0 the offered one.
    /// A refused growth changes nothing.
    fn offer(&mut self, key: Key) -> Result<Option<Key>, AllocError>
        requires { ¬ Contains (keys self.old) key }
        ensures together { IfOk result (λ out. IsPermutation (key ∷ keys self.old)
            (option_to_list out ++ keys self.new)) }
        ensures last { IfOk result
            (λ out. IfSome out (λ worst. All (λ held. is_before held worst ≡ true) (keys self.new))) }
        ensures full { IfOk result (λ out. IsSome out → length (keys self.old) ≡ seats self.old) }
        ensures unchanged { OnErr result (keys self.new ≡ keys self.old) }
        ensures capacity { seats self.new ≡ seats self.old }
        ensures within { length (keys self.new) ≤ seats self.new }
        ensures ascending { IsAscending (keys self.new) }
    {
        let out = self.offer_held(HeldKey::of(key, 0))?;
        Ok(out.map(|out| out.key()))
    }

    /// Does what `offer` does. Whoever is put out comes with the guess with which they were offered a seat.
    fn offer_held(&mut self, key: HeldKey) -> Result<Option<HeldKey>, AllocError>
        requires { ¬ Contains (keys self.old) key }
        ensures together { IfOk result (λ out. IsPermutation (key ∷ keys self.old)
            (option_to_list out ++ keys self.new)) }
        ensures last { IfOk result
            (λ out. IfSome out (λ worst. All (λ held. is_before held worst ≡ true) (keys self.new))) }
        ensures full { IfOk result (λ out. IsSome out → length (keys self.old) ≡ seats self.old) }
        ensures unchanged { OnErr result (keys self.new ≡ keys self.old) }
        ensures capacity { seats self.new ≡ seats self.old }
        ensures within { length (keys self.new) ≤ seats self.new }
        ensures ascending { IsAscending (keys self.new) };

    /// Whether an offer to a key that is not held would put out that key itself: no seat is free, and everybody who holds
    /// one is ahead. It takes no memory. In constant time.
    fn refuses(&self, key: &Key) -> bool
        requires { ¬ Contains (keys self.now) key.now }
        ensures { IsTrue result ↔ Refuses (keys self.now) (seats self.now) key.now };

    /// The last of the keys held, or `None` where none is.
    fn worst(&self) -> Option<Key>
        ensures { result ≡ slice_get (keys self.now) (length (keys self.now) - 1) };

    /// How many keys are held, at most the capacity.
    fn len(&self) -> usize
        ensures length { result ≡ length (keys self.now) }
        ensures within { result ≤ seats self.now }
        ensures ascending { IsAscending (keys self.now) };

    /// How many seats there are.
    fn capacity(&self) -> Seats
        ensures { result ≡ seats self.now };

    /// An equal roll, or the error of a refused growth. The cost is its length.
    fn copy(&self) -> Result<Self, AllocError>
        ensures keys { IfOk result (λ roll. keys roll ≡ keys self.now) }
        ensures capacity { IfOk result (λ roll. seats roll ≡ seats self.now) };
}
