//! What people rely on in a CHANGE and in numbers.
ghost use Rattle.update_forms.specs.Laws.{NothingChanges, NumbersRise, OthersStay};

/// A CHANGE without cards, DELETE and NUMBER copies records that rise as they are.
pub fn unchanged_law()
    ensures { NothingChanges }
{}

/// After a CHANGE every old record outside the deleted ranges and without a card of its sequence is there, in its order,
/// and there is no other one without a card of its sequence.
pub fn others_law()
    ensures { OthersStay }
{}

/// The records that NUMBER numbers have numbers that rise by its increment.
pub fn numbers_law()
    ensures { NumbersRise }
{}
