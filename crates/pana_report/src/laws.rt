//! Laws of the table: each function ensures one, and does nothing.
ghost use Rattle.pana_report.specs.laws.Fits.{FittedTextsFit, LinesFit};
ghost use Rattle.pana_report.specs.laws.Widths.{NumbersAreAsWideAsLong};

/// A number is as wide as it has digits: the column of numbers is as wide as the longest of them, and at least 4.
pub fn numbers_are_as_wide_as_long()
    ensures { NumbersAreAsWideAsLong }
{}

/// A text that takes at most so many columns of a terminal stays as it is, and any other is cut in the middle so that it takes no
/// more.
pub fn fitted_texts_fit()
    ensures { FittedTextsFit }
{}

/// In a terminal that leaves 24 columns or more for the two places of a line, no line of the table of what is obsolete or in
/// conflict takes more columns than there are.
pub fn lines_fit()
    ensures { LinesFit }
{}
