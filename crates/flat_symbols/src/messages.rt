//! The texts of messages besides their own.
ghost use Rattle.std.specs.Prelude.{◌≡◌, IfOk};
ghost use Rattle.lido_base.specs.Environment.{Environment};
ghost use Rattle.lido_base.specs.Texts.{Gains};
ghost use Rattle.flat_symbols.specs.Messages.{id_for, AreMessageTexts};

use lido_base::{Memory, StrId, Strings};
use lido_syntax::Severity;

/// The ids of the labels of severities and of the line feed.
#[derive(Clone, Copy, Debug)]
pub struct MessageTexts {
    pub note: StrId,
    pub warning: StrId,
    pub error: StrId,
    pub line_feed: StrId,
}

impl MessageTexts {
    /// The label of the severity.
    pub fn label(&self, severity: Severity) -> StrId
        ensures { result.0 ≡ id_for self.now severity }
    {
        match severity {
            Severity::Note => self.note,
            Severity::Warning => self.warning,
            Severity::Error => self.error,
        }
    }
}

/// Adds the labels of severities and the line feed to the texts, and gives their ids. An `Err` is want of memory.
pub fn message_texts(strings: &mut Strings) -> Result<MessageTexts, Memory>
    ensures texts { IfOk result (λ texts. (env : Environment) → Gains strings.new env.texts → AreMessageTexts env texts) }
    ensures kept { Gains strings.old strings.new }
{
    let note = strings.intern(b"NOTE: ")?;
    let warning = strings.intern(b"WARNING: ")?;
    let error = strings.intern(b"ERROR: ")?;
    let line_feed = strings.intern(b"\n")?;
    Ok(MessageTexts {
        note,
        warning,
        error,
        line_feed,
    })
}
