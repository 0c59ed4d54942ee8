//! Laws of job texts and of command lines. Each function does nothing; what is proved is its contract.
ghost use Rattle.std.specs.Prelude.{◌≡◌, ℕ, List, Result};
ghost use Rattle.job_text.specs.declared.command_line.Command.{Command};
ghost use Rattle.job_text.specs.declared.command_line.WordsFault.{WordsFault};
ghost use Rattle.job_text.specs.declared.cutting.CutFault.{CutFault};
ghost use Rattle.job_text.specs.declared.cutting.Sections.{Sections};
ghost use Rattle.job_text.specs.CommandLine.{WordsOf};
ghost use Rattle.job_text.specs.Cutting.{Cutting};

/// A text has one cutting into sections at most, or lacks one section line, and never both.
pub fn one_cutting()
    ensures { (text : List ℕ) (first second : Result Sections CutFault)
        → Cutting text first → Cutting text second → first ≡ second }
{}

/// Words say one command at most, or have one first fault, and never both.
pub fn one_command()
    ensures { (words : List (List ℕ)) (first second : Result Command WordsFault)
        → WordsOf words first → WordsOf words second → first ≡ second }
{}
