//! Laws of stamps, for the proofs of those who keep them: each function ensures one, and does nothing.
ghost use Rattle.std.specs.Prelude.{◌≡◌, List, Bool};
ghost use Rattle.pana_event.specs.Event.{Event};
ghost use Rattle.pana_id.specs.Id.{Id};
ghost use Rattle.pana_stamp.specs.Grow.{IsGrowthPlace};

/// An event has at most one place at which it grows for an id.
pub fn growth_place_is_one()
    ensures { (i : Id) (e : Event) (p q : List Bool) → IsGrowthPlace i e p → IsGrowthPlace i e q → p ≡ q }
{}
