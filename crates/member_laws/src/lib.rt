//! The members of partitioned sets stay whole over operations.
#![tactic(auto)]

ghost use Rattle.std.specs.Prelude.{List};
ghost use Rattle.vol_model.specs.declared.contents.Shelf.{Shelf};
ghost use Rattle.vol_model.specs.declared.requests.Op.{Op};
ghost use Rattle.vol_model.specs.Lawful.{IsLawful};
ghost use Rattle.member_laws.specs.Members.{KeepsMembers, StaysWhole};

/// From a lawful shelf on each member keeps its blocks until it is dropped or replaced, or its set is scratched: over
/// each operation, and over any number of them, whatever they ask for.
pub fn members_law()
    ensures each { (s : Shelf) (ops : List Op) → IsLawful s → KeepsMembers s ops }
    ensures whole { (s : Shelf) (ops : List Op) → IsLawful s → StaysWhole s ops }
{}
