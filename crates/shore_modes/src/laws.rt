//! Laws over the modes, each stated as the contract of an empty function.
ghost use Rattle.std.specs.Prelude.{◌≡◌, IsTrue};
ghost use Rattle.shore_types.specs.declared.locking.Mode.{Mode};
ghost use Rattle.shore_model.specs.Modes.{coexist, grants, is_at_most, sup, IsLeastAbove};

/// Strength is an order.
pub fn strength_is_an_order()
    ensures reflexive { (a : Mode) → IsTrue (is_at_most a a) }
    ensures transitive { (a b c : Mode) → IsTrue (is_at_most a b) → IsTrue (is_at_most b c) → IsTrue (is_at_most a c) }
    ensures antisymmetric { (a b : Mode) → IsTrue (is_at_most a b) → IsTrue (is_at_most b a) → a ≡ b }
{}

/// A conversion asks for the least mode above what is held and what is asked.
pub fn sup_is_least_above()
    ensures { (a b : Mode) → IsLeastAbove a b (sup a b) }
{}

/// Which of two holders came first makes no difference to whether they are compatible.
pub fn standing_together_is_mutual()
    ensures { (a b : Mode) → IsTrue (coexist a b) → IsTrue (coexist b a) }
{}

/// What a held mode grants is compatible with it.
pub fn granted_modes_stand_together()
    ensures { (held asked : Mode) → IsTrue (grants held asked) → IsTrue (coexist held asked) }
{}
