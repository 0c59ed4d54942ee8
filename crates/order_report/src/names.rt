use lido_base::{List, StrId, SymId};

/// The names that lines about the flat grammar need.
#[derive(Clone, Debug, Drop)]
pub struct Names {
    /// The name of each symbol.
    pub symbols: List<StrId>,
    /// What lines name of each plain rule.
    pub rules: List<RuleNames>,
    /// The names of each symbol's attributes.
    pub attrs: List<List<StrId>>,
}

/// A plain rule as lines name it.
#[derive(Clone, Debug, Drop)]
pub struct RuleNames {
    pub name: StrId,
    /// The symbols of its occurrences, the left side first.
    pub occs: List<SymId>,
}
