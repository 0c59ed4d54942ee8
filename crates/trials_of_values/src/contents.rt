//! A small table of values.
use lido_base::{Contents, Desc, Origin, StrId};

/// One value of each kind, by the keys 0 to 5. No region stores the last.
#[derive(Clone, Copy)]
pub struct Sample {
    pub number: i64,
    pub text: StrId,
    pub built: Desc,
    pub fault: Origin,
    pub truth: bool,
}

impl Contents for Sample {
    ghost use Rattle.std.specs.Prelude.{[], ◌∷◌};
    ghost use Rattle.lido_base.specs.declared.value.Value.TheVariants as value;

    ghost contents = { λ s. value.Int s.number ∷ value.Str s.text ∷ value.Text s.built ∷ value.Bad s.fault ∷ value.Bool s.truth ∷ value.Void ∷ [] };

    ghost owners = { λ _. 1 ∷ 2 ∷ 1 ∷ 3 ∷ 2 ∷ 0 ∷ [] };

    fn keys(&self) -> u32 {
        // a number that is read is known to be in the range of its type
        let _number = self.number;
        let _text = self.text.0;
        let _room = self.built.room;
        let _place = self.built.node;
        let _len = self.built.len;
        let _node = self.fault.node;
        let _comp = self.fault.comp;
        6
    }
}
