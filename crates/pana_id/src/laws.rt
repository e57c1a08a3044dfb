ghost use Rattle.std.specs.Prelude.{◌≡◌, ℕ, ◌+◌, ◌≤◌, ◌↔◌, [], ◌∷◌, false, max, IsTrue};
ghost use Rattle.pana_id.specs.Id.{Id, depth, has, is_zero, parts, sum_of, are_disjoint, is_single, ones, AtPoints, IsNormal, IsValid, SharesNoPoint, IsParted, IsSum};

/// Two normal ids of depth at most 256 that own the same points are the same tree.
pub fn same_points_same_tree()
    ensures { (i j : Id) → IsValid i → IsValid j → AtPoints (λ point. has i point ≡ has j point) → i ≡ j }
{}

/// The parts of an id divide it, are at most one deeper, and add up to it again.
pub fn parts_of_an_id()
    ensures parted { (i : Id) → is_single i 256 ≡ false → IsValid i → IsParted i (parts i).0 (parts i).1 }
    ensures valid { (i : Id) → is_single i 256 ≡ false → IsValid i → IsValid (parts i).0 × IsValid (parts i).1 }
    ensures depths { (i : Id) → (depth (parts i).0 ≤ depth i + 1) × (depth (parts i).1 ≤ depth i + 1) }
    ensures disjoint { (i : Id) → IsTrue (are_disjoint (parts i).0 (parts i).1) }
    ensures sum { (i : Id) → IsNormal i → sum_of (parts i).0 (parts i).1 ≡ i }
{}

/// The sum of two ids owns what either owns, and is no deeper than the deeper of the two.
pub fn sum_of_two_ids()
    ensures summed { (i j : Id) → IsValid i → IsValid j → IsSum (sum_of i j) i j }
    ensures valid { (i j : Id) → IsValid i → IsValid j → IsValid (sum_of i j) }
    ensures depths { (i j : Id) → depth (sum_of i j) ≤ max (depth i) (depth j) }
{}

/// The sum of two ids with no point in common, of which neither is 0, can be divided, and its parts are no
/// deeper than the deeper of the two.
pub fn sum_can_be_divided()
    ensures divides { (i j : Id) → SharesNoPoint i j → IsValid i → IsValid j → is_zero i ≡ false → is_zero j ≡ false → is_single (sum_of i j) 256 ≡ false }
    ensures depths { (i j : Id) → SharesNoPoint i j → IsValid i → IsValid j → is_zero i ≡ false → is_zero j ≡ false → (depth (parts (sum_of i j)).0 ≤ max (depth i) (depth j)) × (depth (parts (sum_of i j)).1 ≤ max (depth i) (depth j)) }
{}

/// Two normal ids of depth at most 256 pass the test of `disjoint` exactly where no point of 256
/// choices is owned by both.
pub fn disjoint_ids()
    ensures { (i j : Id) → IsValid i → IsValid j → IsTrue (are_disjoint i j) ↔ SharesNoPoint i j }
{}

/// The id that can't be divided within a depth is the one with a single 1, at that depth.
pub fn single_one()
    ensures ones { (i : Id) (at : ℕ) → IsNormal i → IsTrue (is_single i at) ↔ (ones i ≡ at ∷ []) }
    ensures deepest { (i : Id) (at : ℕ) → IsTrue (is_single i at) → depth i ≡ at }
{}
