//! How live allocations lie to one another.

ghost use Rattle.std.specs.Prelude.{◌≡◌, ℕ, List, Option, ◌∷◌, [], ◌++◌};
ghost use Rattle.std.specs.List.{All, AllPairs};
ghost use Rattle.km_model.specs.Placement.{Allocation, without_allocation};
ghost use Rattle.km_pages.specs.declared.runs.Run.{Run};
ghost use Rattle.km_pages.specs.Uses.{use_of};
ghost use Rattle.km_pages.specs.Laid.{AreApart, AreLaid, IsBeside};

/// They never meet: one comes where it meets none, and others go.
pub fn allocations_stay_apart()
    ensures none { AreApart [] }
    ensures come { (used : List Allocation) (x : Allocation) → AreApart used → All (λ (y : Allocation). IsBeside y x) used → AreApart (used ++ x ∷ []) }
    ensures go { (used : List Allocation) (a : ℕ) → AreApart used → AreApart (without_allocation used a) }
    ensures starts { (pages : List (Option Run)) (used : List Allocation) → AreLaid pages used → AreApart used → AllPairs (λ (x y : Allocation). x.start ≡ y.start → ⊥) used }
{}

/// Those that begin at one address are of one use.
pub fn one_use_at_an_address()
    ensures { (pages : List (Option Run)) (used : List Allocation) → AreLaid pages used → All (λ (x : Allocation). All (λ (y : Allocation). x.start ≡ y.start → use_of x.«use» ≡ use_of y.«use») used) used }
{}
