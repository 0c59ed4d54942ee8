//! The three sections of a job text.
ghost use Rattle.std.specs.Prelude.{◌≡◌, ◌≤◌, ◌+◌, ℕ, length, IfSome, IfNone, IfOk};
ghost use Rattle.std.specs.Str.Lines.{strip_carriage_return};
ghost use Rattle.lido_base.specs.Inputs.{most};
ghost use Rattle.lido_base.specs.Phases.{IsThe};
ghost use Rattle.job_text.specs.Lines.{IsLineStart, EndsLine, Says, IsFirst};
ghost use Rattle.job_text.specs.Cutting.{Cutting};

/// The bytes of a text from the place `from` up to, and without, the place `to`.
#[derive(Clone, Copy, Debug, PartialEq, Eq)]
pub struct Span {
    pub from: u32,
    pub to: u32,
}

/// Where the parts of a job text stand in it: the specification in LIDO, the patterns in PTG, and the tree. The section lines
/// between them belong to none.
#[derive(Clone, Copy, Debug, PartialEq, Eq)]
pub struct Sections {
    pub spec: Span,
    pub ptg: Span,
    pub tree: Span,
}

/// The section line that is missing.
#[derive(Clone, Copy, Debug, PartialEq, Eq)]
pub enum CutFault {
    /// No line is `%%PTG`.
    NoPtg,
    /// No line behind the first `%%PTG` is `%%TREE`.
    NoTree,
}

/// Where the line ends that starts here.
fn line_end(bytes: &[u8], from: usize) -> usize
    requires { from ≤ length bytes.now }
    ensures ordered { from ≤ result }
    ensures ends { EndsLine bytes.now from result }
{
    let mut end = from;
    while end < bytes.len() && bytes[end] != b'\n' {
        end += 1;
    }
    end
}

/// The line without one carriage return at its end.
fn without_return(line: &[u8]) -> &[u8]
    ensures { result.now ≡ strip_carriage_return line.now }
{
    match line {
        [front @ .., b'\r'] => front,
        _ => line,
    }
}

/// The first line that says the name, among those that start at `start` or later.
fn section_line(bytes: &[u8], start: usize, name: &[u8]) -> Option<Span>
    requires few { length bytes.now ≤ most }
    requires there { start ≤ length bytes.now + 1 }
    requires line { IsLineStart bytes.now start }
    ensures found { IfSome result (λ line. IsFirst name.now bytes.now start line.from line.to) }
    ensures none { IfNone result ((from to : ℕ) → start ≤ from → ¬ Says name.now bytes.now from to) }
{
    let mut from = start;
    while from <= bytes.len() {
        let to = line_end(bytes, from);
        if without_return(&bytes[from..to]) == name {
            return Some(Span {
                from: from as u32,
                to: to as u32,
            });
        }
        from = to + 1;
    }
    None
}

/// Cuts a job text at its section lines: the first line that is `%%PTG`, and the first later line that is `%%TREE`. A line is
/// what stands between two line feeds, or from the start, or to the end of the text; one carriage return at its end doesn't
/// count. The specification is all before the first of the two lines, the patterns are all between them, and the tree is all
/// behind the second; the line feeds that end the two lines belong to no part. The text has at most 8,388,608 bytes. Takes no
/// memory, and time in proportion to the length.
pub fn cut(bytes: &[u8]) -> Result<Sections, CutFault>
    requires { length bytes.now ≤ most }
    ensures sections { IsThe (Cutting bytes.now) result }
    ensures spec { IfOk result (λ s. s.spec.from ≤ s.spec.to) }
    ensures ptg { IfOk result (λ s. s.ptg.from ≤ s.ptg.to) }
    ensures tree { IfOk result (λ s. s.tree.from ≤ s.tree.to) }
    ensures apart { IfOk result (λ s. (s.spec.to ≤ s.ptg.from) × (s.ptg.to ≤ s.tree.from)) }
    ensures within { IfOk result (λ s. s.tree.to ≡ length bytes.now) }
{
    let Some(ptg) = section_line(bytes, 0, b"%%PTG") else {
        return Err(CutFault::NoPtg);
    };
    let Some(tree) = section_line(bytes, ptg.to as usize + 1, b"%%TREE") else {
        return Err(CutFault::NoTree);
    };
    let length = bytes.len() as u32;
    Ok(Sections {
        spec: Span {
            from: 0,
            to: ptg.from,
        },
        ptg: Span {
            from: ptg.to + 1,
            to: tree.from,
        },
        tree: Span {
            from: length.min(tree.to + 1),
            to: length,
        },
    })
}
