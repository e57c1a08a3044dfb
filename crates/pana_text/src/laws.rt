//! Laws of texts and faults, for the proofs of those who read stamps: each function ensures one, and does nothing.
ghost use Rattle.pana_text.specs.laws.Texts.{EachHasAFault, FaultsExcludeEachOther, IsOfOneStamp};

/// What a fault says holds of each text for some fault, where that of `OutOfMemory` is that the text is a stamp's.
pub fn each_has_a_fault()
    ensures { EachHasAFault }
{}

/// What two faults say doesn't hold of one text; so a text that is a stamp's has no other fault.
pub fn faults_exclude_each_other()
    ensures { FaultsExcludeEachOther }
{}

/// A text is that of one stamp at most.
pub fn is_of_one_stamp()
    ensures { IsOfOneStamp }
{}
