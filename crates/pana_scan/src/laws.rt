//! What holds of all notices: functions that do nothing, whose contracts are the laws.
ghost use Rattle.std.specs.Prelude.{◌≡◌, ℕ, ◌+◌, Bool, List, [], map, filter_map, count_by};
ghost use Rattle.std.specs.List.Sorted.{IsStrictlySortedBy};
ghost use Rattle.pana_calls.specs.declared.holding.Holding.{Holding};
ghost use Rattle.pana_scan.specs.Order.{path_cmp};
ghost use Rattle.pana_scan.specs.Listing.{Contents};
ghost use Rattle.pana_scan.specs.Plan.{at_paths};
ghost use Rattle.pana_scan.specs.Notice.{File, files_of, left, renamed};
ghost use Rattle.pana_scan.specs.laws.Notices.{renamed_number, taken};

/// The paths of the files that are found rise, so none is found twice.
pub fn no_path_is_found_twice()
    ensures { (holdings : List Holding) (listing : Contents) → IsStrictlySortedBy path_cmp (map (λ file. file.path) (files_of (at_paths listing.rows [] holdings))) }
{}

/// Each absent copy is renamed or missing, and none is both: of the copies that a test passes, so many are renamed, and
/// all others are left.
pub fn each_absent_copy_is_renamed_or_missing()
    ensures renamed { (files : List File) (copies : List Holding) → filter_map renamed_number (renamed files copies) ≡ map (λ copy. copy.copy) (taken files copies) }
    ensures shared { (test : Holding → Bool) (files : List File) (copies : List Holding) → count_by test copies ≡ count_by test (taken files copies) + count_by test (left files copies) }
{}
