//! What the note of an admission promises of its list.

ghost use Rattle.std.specs.Prelude.{ℕ, List, IsTrue};
ghost use Rattle.rail_base.specs.declared.history.Note.{Note};
ghost use Rattle.rail_rules.specs.Moves.{Moves};
ghost use Rattle.rail_rules.specs.Places.{after, completes};
ghost use Rattle.rail_list.specs.Repairs.{IsNoted};

/// The list of an admission completes from the places after the move, whatever its note.
pub fn the_list_of_a_note_completes()
    ensures { (plan : Moves) (depth : ℕ) (s list : List ℕ) (t : ℕ) (note : Note) (new : List ℕ)
        → IsNoted plan depth s list t note new
        → IsTrue (completes plan (after s t) new) }
{}
