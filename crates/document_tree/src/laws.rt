//! Laws of outlines. Each is the contract of a function that does nothing.

ghost use Rattle.std.specs.Prelude.{◌≡◌, ◌∷◌, ◌≤◌, ℕ, [], List, length, map};
ghost use Rattle.std.specs.List.{All};
ghost use Rattle.document_tree.specs.Documents.{DocumentState, Place};
ghost use Rattle.document_tree.specs.Outlines.{IsBelowPlace, IsBelowBy, deep_outline_of, outline_places};

/// An outline has at most as many places as its limit, and all but its first place are below it.
pub fn outlines_stay_below<T>()
    ensures within { (D : DocumentState T) (limit : ℕ) (waiting : List Place) →
        length (outline_places D limit waiting) ≤ limit }
    ensures below { (D : DocumentState T) (limit : ℕ) (top : Place) →
        All (IsBelowPlace D top) (outline_places D limit (top ∷ [])) }
{}

/// An outline with depths has the places of the outline, and each is as many steps below the first place
/// as its depth.
pub fn depths_are_steps<T>()
    ensures places { (D : DocumentState T) (limit : ℕ) (waiting : List (ℕ × Place)) →
        map (λ p. p.1) (deep_outline_of D limit waiting)
        ≡ outline_places D limit (map (λ p. p.1) waiting) }
    ensures depths { (D : DocumentState T) (limit : ℕ) (top : Place) →
        All (λ p. IsBelowBy D p.0 top p.1) (deep_outline_of D limit ((0, top) ∷ [])) }
{}
