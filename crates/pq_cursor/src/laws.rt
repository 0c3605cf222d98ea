//! Laws of cursors and positions.
ghost use Rattle.std.specs.Prelude.{◌≡◌, ℕ, List, length, Some};
ghost use Rattle.pq_base.specs.Values.{AllFit};
ghost use Rattle.pq_base.specs.declared.value.ColType.{ColType};
ghost use Rattle.pq_base.specs.declared.value.Dir.{Dir};
ghost use Rattle.pq_base.specs.declared.value.Value.{Value};
ghost use Rattle.pq_cursor.specs.Cursors.{IsCursorOf, cursor_text, position_in};

/// The cursor of a position that fits is read as it, and no two positions have one cursor.
pub fn cursor_laws()
    ensures again { (number : ℕ) (types : List ColType) (dirs : List Dir) → length types ≡ length dirs
        → (position : List Value) → AllFit types position
        → position_in number types dirs (cursor_text number dirs position) ≡ Some position }
    ensures one { (number : ℕ) (types : List ColType) (dirs : List Dir) → length types ≡ length dirs
        → (text : List ℕ) (position other : List Value) → IsCursorOf number types dirs text position
        → IsCursorOf number types dirs text other → position ≡ other }
{}
