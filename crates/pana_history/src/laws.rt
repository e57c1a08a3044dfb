//! What a hall answers to `why_on` and `history_on`: functions that do nothing, whose contracts are the laws.
ghost use Rattle.std.specs.Prelude.{◌≡◌, ◌≤◌, ℕ, List, length};
ghost use Rattle.pana_copies.specs.declared.place.Place.{Place};
ghost use Rattle.pana_journal.specs.declared.entry.Entry.{Entry};
ghost use Rattle.pana_hall.specs.Step.{Replies};
ghost use Rattle.pana_history.specs.History.{Draws, IsDrawn};
ghost use Rattle.pana_history.specs.Why.{Explains, IsExplained};
ghost use Rattle.pana_history.specs.declared.history.Form.{Form};
ghost use Rattle.pana_history.specs.declared.history.History.{History};
ghost use Rattle.pana_history.specs.declared.why.Explanation.{Explanation};

/// Where a hall answers, what is said of two places is said by the hall's own journal, whole, and the hall stays as it is.
pub fn hall_is_asked_for_its_journal()
    ensures { (by : List ℕ) (first second : Place) (old new : List Entry) (explanation : Explanation) → length old ≤ 1000000
        → Explains Replies by first second old new explanation → IsExplained old first second explanation × (new ≡ old) }
{}

/// So it is with the history of a file.
pub fn hall_draws_its_journal()
    ensures { (by : List ℕ) (place : Place) (form : Form) (old new : List Entry) (history : History) → length old ≤ 1000000
        → Draws Replies by place form old new history → IsDrawn old place form history × (new ≡ old) }
{}
