//! The arguments of a pattern, point by point.
ghost use Rattle.std.specs.Prelude.{◌≡◌, ◌≢◌, false, ◌+◌, ◌-◌, ◌<◌, ◌^◌, ◌∷◌, [], ◌++◌, ℕ, Some, None};
ghost use Rattle.std.specs.Prelude.{List as Sequence, map, max, length, unwrap_or, IfOk, IfErr, OnOk, IsTrue, ◌⊎◌};
ghost use Rattle.std.specs.List.{range_with_len};
ghost use Rattle.ptg_patterns.specs.declared.written.Point.{Point as PointOf};
ghost use Rattle.ptg_patterns.specs.Clashes.{IsMixed};
ghost use Rattle.ptg_patterns.specs.Meaning.{argument_types, arguments};
ghost use Rattle.ptg_patterns.specs.Tables.{type_at, set_at, RecordsPoints};

use crate::PtgFault;
use crate::written::Point;
use lido_base::ValueType;
use std::alloc::Global;

/// What the points so far say of the arguments of their pattern.
#[derive(Drop)]
pub struct Arguments {
    /// How many points there are.
    count: u32,
    has_bare: bool,
    has_numbered: bool,
    /// The type of the first point for each argument, by its number; 0 is the number of none.
    types: Vec<Option<ValueType>>,
}

/// The type at this number.
fn type_at(types: &[Option<ValueType>], number: u32) -> Option<ValueType>
    ensures { result ≡ type_at types.now number }
{
    match types.get(number as usize) {
        Some(kind) => *kind,
        None => None,
    }
}

/// Makes room for this number.
fn grow(types: &mut Vec<Option<ValueType>>, number: u32) -> Result<(), PtgFault>
    ensures size { OnOk result (length types.new.items ≡ max (length types.old.items) (number + 1)) }
    ensures kept { (j : ℕ) → type_at types.new.items j ≡ type_at types.old.items j }
    ensures memory { IfErr result (λ e. e ≡ PtgFault.Memory) }
{
    while types.len() <= number as usize {
        types.push(None)?;
    }
    Ok(())
}

/// Puts a type at this number where there is none.
fn put(types: &mut Vec<Option<ValueType>>, number: u32, kind: ValueType) -> Result<(), PtgFault>
    ensures size { OnOk result (length types.new.items ≡ max (length types.old.items) (number + 1)) }
    ensures set { OnOk result ((j : ℕ) → type_at types.new.items j ≡ set_at (type_at types.old.items) number kind j) }
    ensures memory { IfErr result (λ e. e ≡ PtgFault.Memory) }
{
    match grow(types, number) {
        Ok(()) => {}
        Err(e) => return Err(e),
    }
    if type_at(types, number).is_none() {
        types[number as usize] = Some(kind);
    }
    Ok(())
}

/// The types from the first number on, that of a text where there is none.
fn types_from_one(alloc: Global, types: &[Option<ValueType>]) -> Result<Vec<ValueType>, PtgFault>
    ensures types { IfOk result (λ found. found.items
        ≡ map (λ j. unwrap_or (type_at types.now j) ValueType.Text) (range_with_len 1 (length types.now - 1))) }
    ensures memory { IfErr result (λ e. e ≡ PtgFault.Memory) }
{
    let mut found = Vec::new(alloc);
    for number in 1..types.len() {
        found.push(types[number].unwrap_or(ValueType::Text))?;
    }
    Ok(found)
}

impl Arguments {
    /// No points.
    pub fn new(alloc: Global) -> Result<Arguments, PtgFault>
        ensures none { IfOk result (λ arguments. RecordsPoints arguments []) }
        ensures memory { IfErr result (λ e. e ≡ PtgFault.Memory) }
    {
        let mut types = Vec::new(alloc);
        types.push(None)?;
        Ok(Arguments {
            count: 0,
            has_bare: false,
            has_numbered: false,
            types,
        })
    }

    /// Whether the point, whose argument has this number, does not agree with those so far.
    fn is_mixed(&self, point: Point, number: u32) -> bool
        ensures { (points : Sequence PointOf) → RecordsPoints self.now points → number ≡ unwrap_or point.number (length points + 1)
            → (IsTrue result → IsMixed points point) × (result ≡ false → ¬ IsMixed points point) }
    {
        let other_form = match point.number {
            None => self.has_numbered,
            Some(_) => self.has_bare,
        };
        let other_type = match type_at(&self.types, number) {
            Some(kind) => kind != point.kind,
            None => false,
        };
        other_form || other_type
    }

    /// Notes that there is one more point, whose argument has this number.
    fn note(&mut self, point: Point, number: u32) -> Result<(), PtgFault>
        requires { self.old.count + 1 < 2 ^ 32 }
        ensures kept { OnOk result ((points : Sequence PointOf) → RecordsPoints self.old points
            → number ≡ unwrap_or point.number (length points + 1)
            → RecordsPoints self.new (points ++ point ∷ [])) }
        ensures memory { IfErr result (λ e. e ≡ PtgFault.Memory) }
    {
        match put(&mut self.types, number, point.kind) {
            Ok(()) => {}
            Err(e) => return Err(e),
        }
        self.count += 1;
        match point.number {
            None => self.has_bare = true,
            Some(_) => self.has_numbered = true,
        }
        Ok(())
    }

    /// The number of the point's argument: its own, or its place among the points. The point does not agree with those so far where
    /// the answer is `PtgMixed`.
    pub fn insert(&mut self, point: Point) -> Result<u32, PtgFault>
        requires { self.old.count + 1 < 2 ^ 32 }
        ensures number { (points : Sequence PointOf) → RecordsPoints self.old points
            → IfOk result (λ number. number ≡ unwrap_or point.number (length points + 1)) }
        ensures kept { (points : Sequence PointOf) → RecordsPoints self.old points
            → OnOk result (RecordsPoints self.new (points ++ point ∷ []) × ¬ IsMixed points point) }
        ensures fault { (points : Sequence PointOf) → RecordsPoints self.old points
            → IfErr result (λ e. (e ≡ PtgFault.Memory) ⊎ ((e ≡ PtgFault.PtgMixed point.at) × IsMixed points point)) }
    {
        let number = match point.number {
            Some(number) => number,
            None => self.count + 1,
        };
        if self.is_mixed(point, number) {
            return Err(PtgFault::PtgMixed { at: point.at });
        }
        match self.note(point, number) {
            Ok(()) => Ok(number),
            Err(e) => Err(e),
        }
    }

    /// The types of the arguments, from the first on.
    pub fn types(&self, alloc: Global) -> Result<Vec<ValueType>, PtgFault>
        ensures types { (points : Sequence PointOf) → RecordsPoints self.now points
            → IfOk result (λ types. types.items ≡ argument_types (arguments 1 points)) }
        ensures memory { IfErr result (λ e. e ≡ PtgFault.Memory) }
    {
        types_from_one(alloc, &self.types)
    }
}
