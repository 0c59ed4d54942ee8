//! The command that the words say, as far as commands are built.
ghost use Rattle.std.specs.Prelude.{◌≡◌, ◌∷◌, [], ◌↔◌, IsTrue, IfErr, map, string_bytes, codes};
ghost use Rattle.order_report.specs.declared.status.Status.{Status};
ghost use Rattle.order_report.specs.Lines.{IsNamed};
ghost use Rattle.lido_top.specs.Words.{SaidOf, BuiltOf, CommandOf};
ghost use Rattle.lido_top.specs.Endings.{GivesAs, plainly, no_memory};

use job_text::{Command, WordsFault, words};
use order_report::Status;
use std::alloc::Global;

/// The command of the words, or the status of the first fault in them.
fn said(alloc: Global, line: &[String]) -> Result<Command, Status>
    ensures gives { GivesAs (λ command. command) plainly (SaidOf (map string_bytes line.now)) no_memory result }
    ensures named { IfErr result (IsNamed []) }
{
    match words(alloc, line) {
        Ok(command) => Ok(command),
        Err(WordsFault::Words { index, kind }) => Err(Status::Words { index, kind }),
        Err(WordsFault::Memory) => Err(Status::Memory),
    }
}

/// The word is this text.
fn word_is(word: &String, text: &str) -> bool
    ensures { IsTrue result ↔ (string_bytes word.now ≡ text.now) }
{
    word.as_str() == text
}

/// The words are the one word `run`.
fn says_run(line: &[String]) -> bool
    ensures { IsTrue result ↔ (map string_bytes line.now ≡ codes "run" ∷ []) }
{
    match line {
        [word] => word_is(word, "run"),
        _ => false,
    }
}

/// The command, if it is built.
fn built(command: Command, line: &[String]) -> Result<Command, Status>
    ensures gives { GivesAs (λ command. command) plainly (BuiltOf (map string_bytes line.now) command) no_memory result }
    ensures named { IfErr result (IsNamed []) }
{
    if says_run(line) {
        Ok(command)
    } else {
        Err(Status::FirstPathOnly)
    }
}

/// The command of the words, or the status of words that say none, or none that is built.
#[tactic(auto, unfolding(crate::specs::Words::CommandOf))]
pub fn command_of(alloc: Global, line: &[String]) -> Result<Command, Status>
    ensures gives { GivesAs (λ command. command) plainly (CommandOf (map string_bytes line.now)) no_memory result }
    ensures named { IfErr result (IsNamed []) }
{
    let command = match said(alloc, line) {
        Ok(command) => command,
        Err(status) => return Err(status),
    };
    match built(command, line) {
        Ok(command) => Ok(command),
        Err(status) => Err(status),
    }
}
