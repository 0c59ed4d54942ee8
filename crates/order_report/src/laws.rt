//! Laws of the lines.
ghost use Rattle.order_report.specs.Lines.{LinesAreWhole};

/// Each status but Done and a fault of `err` has a whole line: the program's name, words, and a line feed.
pub fn lines_are_whole()
    ensures { LinesAreWhole }
{}
