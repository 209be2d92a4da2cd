//! Laws of the index, over the definitions alone.

ghost use Rattle.index.specs.Laws.{KeysMayChangeElsewhere, EachPlaceOnce, PlansCanRelocate};

/// What happens to other places of the pool changes nothing of the index.
pub fn keys_may_change_elsewhere()
    ensures { KeysMayChangeElsewhere }
{}

/// No more slots are used than there are places of items.
pub fn each_place_once()
    ensures { EachPlaceOnce }
{}

/// A table of the live items' places can be relocated by the merge that was planned for them.
pub fn plans_can_relocate()
    ensures { PlansCanRelocate }
{}
