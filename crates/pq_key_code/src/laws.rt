//! What the definitions promise by themselves.
ghost use Rattle.std.specs.Prelude.{◌≡◌, ◌≤◌, ◌&&◌, true, take, ℕ, List, [], ◌++◌, length};
ghost use Rattle.std.specs.Ordering.{nat_cmp, ordering_then, is_le, is_lt, is_eq};
ghost use Rattle.std.specs.declared.cmp.Ordering.TheVariants.{Less, Greater};
ghost use Rattle.std.specs.Cmp.Lexicographic.{slice_cmp};
ghost use Rattle.pq_base.specs.declared.value.Dir.{Dir};
ghost use Rattle.pq_base.specs.declared.value.Value.{Value};
ghost use Rattle.pq_base.specs.Order.{position_cmp};
ghost use Rattle.pq_base.specs.Values.{AreValues, IsValue, SameKind, SameKinds};
ghost use Rattle.pq_key_code.specs.KeyCode.{component, code_of, past_code};
ghost use Rattle.pq_key_code.specs.KeyOrder.{common_cmp};

/// The laws of the key code, over values in their ranges that are of one kind, or NULL, at each
/// place that two lists have.
pub fn key_code_laws()
    // The order of the bytes is the order of the lists.
    ensures order { (ds : List Dir) (xs ys : List Value) → AreValues xs → AreValues ys → SameKinds xs ys
        → length xs ≤ length ds → length ys ≤ length ds
        → slice_cmp nat_cmp (code_of ds xs) (code_of ds ys) ≡ position_cmp ds xs ys }

    // No component begins another one of its kind and direction.
    ensures prefix_free { (d : Dir) (x y : Value) (rest : List ℕ) → IsValue x → IsValue y → SameKind x y
        → component d y ≡ component d x ++ rest → rest ≡ [] }

    // A prefix and 20 is above each code that begins with the prefix,
    ensures above { (ds : List Dir) (ps xs : List Value) (rest : List ℕ) → AreValues ps → AreValues xs
        → SameKinds ps xs → code_of ds xs ≡ code_of ds ps ++ rest
        → slice_cmp nat_cmp (code_of ds xs) (past_code (code_of ds ps)) ≡ Less }

    // and below each greater code that does not.
    ensures below { (ds : List Dir) (ps xs : List Value) → AreValues ps → AreValues xs → SameKinds ps xs
        → ((rest : List ℕ) → code_of ds xs ≡ code_of ds ps ++ rest → ⊥)
        → slice_cmp nat_cmp (code_of ds ps) (code_of ds xs) ≡ Less
        → slice_cmp nat_cmp (past_code (code_of ds ps)) (code_of ds xs) ≡ Less }

    // A prefix's code against a code: by the values that both have, and then by the lengths.
    ensures prefix_order { (ds : List Dir) (ps xs : List Value) → AreValues ps → AreValues xs → SameKinds ps xs
        → length ps ≤ length ds → length xs ≤ length ds
        → slice_cmp nat_cmp (code_of ds ps) (code_of ds xs)
        ≡ ordering_then (common_cmp ds ps xs) (nat_cmp (length ps) (length xs)) }

    // A prefix and 20 against a code: where the values that both have agree, it is above.
    ensures past_order { (ds : List Dir) (ps xs : List Value) → AreValues ps → AreValues xs → SameKinds ps xs
        → slice_cmp nat_cmp (past_code (code_of ds ps)) (code_of ds xs)
        ≡ ordering_then (common_cmp ds ps xs) Greater }

    // Codes followed by anything are equal only where the lists are.
    ensures apart { (ds : List Dir) (xs ys : List Value) (r s : List ℕ) → AreValues xs → AreValues ys
        → SameKinds xs ys → length xs ≡ length ys → length xs ≤ length ds
        → code_of ds xs ++ r ≡ code_of ds ys ++ s → (xs ≡ ys) × (r ≡ s) }

    // A code lies from the prefix's code up to the prefix and 20 exactly where the list begins with
    // the prefix's values.
    ensures range { (ds : List Dir) (ps xs : List Value) → AreValues ps → AreValues xs → SameKinds ps xs
        → length ps ≤ length xs → length xs ≤ length ds
        → (is_le (slice_cmp nat_cmp (code_of ds ps) (code_of ds xs))
        && is_lt (slice_cmp nat_cmp (code_of ds xs) (past_code (code_of ds ps))))
        ≡ is_eq (common_cmp ds ps xs) }

    ensures in_range { (ds : List Dir) (ps xs : List Value) → AreValues ps → AreValues xs → SameKinds ps xs
        → length ps ≤ length xs → length xs ≤ length ds
        → (is_le (slice_cmp nat_cmp (code_of ds ps) (code_of ds xs))
        && is_lt (slice_cmp nat_cmp (code_of ds xs) (past_code (code_of ds ps)))) ≡ true
        → take (length ps) xs ≡ ps }
{}
