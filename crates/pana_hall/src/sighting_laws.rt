//! What holds of sightings: functions that do nothing, whose contracts are the laws, as in `laws`.

ghost use Rattle.std.specs.Prelude.{◌≡◌, ℕ, List, Option, Some, None, true, false, IsSome, option_map};
ghost use Rattle.pana_copies.specs.declared.place.Place.{Place};
ghost use Rattle.pana_journal.specs.{declared.entry.Entry.Entry, declared.report.Report.TheVariants.Remove};
ghost use Rattle.pana_family.specs.Table.{In};
ghost use Rattle.pana_calls.specs.declared.call.Call.TheVariants as calls;
ghost use Rattle.pana_calls.specs.declared.call.{Sighting.Sighting, Sighting.TheVariants.Found, Sighting.TheVariants.Missing};
ghost use Rattle.pana_hall.specs.declared.decision.Decision.TheVariants as decisions;
ghost use Rattle.pana_calls.specs.declared.reply.Reply.{Reply};
ghost use Rattle.pana_calls.specs.declared.reply.Reply.TheVariants as replies;
ghost use Rattle.pana_hall.specs.{Accepted.IsAccepted, Finding.copy_at, Finding.decision, Permit.Permits, Permit.journal_after, Queries.pair_of};
ghost use Rattle.pana_hall.specs.Living.{Copy, copy_in, living, number_of};
ghost use Rattle.pana_hall.specs.laws.Sightings.{IsHeir, IsKnown, is_changed, is_for_two, living_after, relates_anew};

/// A sighting that is answered by `Known` leaves the journal as it was, and that answer comes only where nothing is to be done.
pub fn known_changes_nothing()
    ensures same { (journal : List Entry) (by : List ℕ) (sighting : Sighting) (copy : Option ℕ) → journal_after journal by (calls.Sighting sighting) (replies.Known copy) ≡ journal }
    ensures decided { (journal : List Entry) (by : List ℕ) (sighting : Sighting) (copy : Option ℕ)
        → Permits journal by (calls.Sighting sighting) (replies.Known copy) → decision (living journal) sighting ≡ decisions.Known copy }
{}

/// After a sighting each copy that none of its reports changes or removes knows what it knew, is where it was and holds what it held;
/// and two such copies relate as they did.
pub fn others_are_left_alone_by_sightings()
    ensures copy { (journal : List Entry) (by : List ℕ) (sighting : Sighting) (reply : Reply) (number : ℕ) (copy : Copy)
        → copy_in (living journal) number ≡ Some copy → is_changed (decision (living journal) sighting) number ≡ false
        → copy_in (living_after journal by sighting reply) number ≡ Some copy }
    ensures pair { (journal : List Entry) (by : List ℕ) (sighting : Sighting) (reply : Reply) (a b : ℕ)
        → IsSome (copy_in (living journal) a) → IsSome (copy_in (living journal) b)
        → is_changed (decision (living journal) sighting) a ≡ false → is_changed (decision (living journal) sighting) b ≡ false
        → pair_of (living_after journal by sighting reply) a b ≡ pair_of (living journal) a b }
{}

/// After a `Missing` each copy that is left is as it was, whatever heir was taken, and any two of them relate as they did.
pub fn missing_changes_no_relation()
    ensures copy { (journal : List Entry) (by : List ℕ) (place : Place) (reply : Reply) (number : ℕ) (copy : Copy)
        → copy_in (living_after journal by (Missing place) reply) number ≡ Some copy → copy_in (living journal) number ≡ Some copy }
    ensures pair { (journal : List Entry) (by : List ℕ) (place : Place) (reply : Reply) (a b : ℕ)
        → IsSome (copy_in (living_after journal by (Missing place) reply) a) → IsSome (copy_in (living_after journal by (Missing place) reply) b)
        → pair_of (living_after journal by (Missing place) reply) a b ≡ pair_of (living journal) a b }
{}

/// A sighting changes no relation but those of the copies that relate anew; of a `Found`, unless two copies are merged or two reports
/// made, that is the copy at the place alone.
pub fn found_changes_own_relations()
    ensures pair { (journal : List Entry) (by : List ℕ) (sighting : Sighting) (reply : Reply) (a b : ℕ) → IsAccepted 8 journal
        → IsSome (copy_in (living journal) a) → IsSome (copy_in (living journal) b)
        → relates_anew (decision (living journal) sighting) a ≡ false → relates_anew (decision (living journal) sighting) b ≡ false
        → pair_of (living_after journal by sighting reply) a b ≡ pair_of (living journal) a b }
    ensures own { (copies : List Copy) (place : Place) (sum : List ℕ) (number : ℕ) → is_for_two (decision copies (Found place sum)) ≡ false
        → relates_anew (decision copies (Found place sum)) number ≡ true → option_map number_of (copy_at copies place) ≡ Some number }
{}

/// Where a `Found` comes to a known copy, that copy is at the place and holds the sum, and no copy of its family that holds the same
/// is newer or in conflict with it: it knows all that such a copy knows.
pub fn known_holds()
    ensures { (journal : List Entry) (place : Place) (sum : List ℕ) (number : ℕ) → IsAccepted 8 journal
        → decision (living journal) (Found place sum) ≡ decisions.Known (Some number) → IsKnown (living journal) place sum number }
{}

/// The heir that a `Missing` takes is another copy of the family, and knows all that the removed copy knew if any other of them does;
/// there is none only where the family has no other copy.
pub fn missing_takes_an_heir_that_knows_all()
    ensures heir { (journal : List Entry) (place : Place) (number heir : ℕ) → IsAccepted 8 journal
        → decision (living journal) (Missing place) ≡ decisions.One (Remove number (Some heir)) → IsHeir (living journal) number heir }
    ensures alone { (journal : List Entry) (place : Place) (number : ℕ) (copy other : Copy) → IsAccepted 8 journal
        → decision (living journal) (Missing place) ≡ decisions.One (Remove number None) → copy_in (living journal) number ≡ Some copy
        → In other (living journal) → other.family ≡ copy.family → other ≡ copy }
{}
