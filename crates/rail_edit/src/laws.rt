//! What an editor promises its readers.
ghost use Rattle.std.specs.Prelude.{◌≡◌, [], ◌∷◌, Some};
ghost use Rattle.rail_edit.specs.declared.edit.Edit.{Edit};
ghost use Rattle.rail_edit.specs.Editing.{Editing, after_edit, after_undo, after_redo, first_network};

/// An undo after an edit gives the network before it, each item where it stood, and a redo after that gives
/// the network before the undo.
pub fn an_undo_gives_the_network_before()
    ensures undone { (edit : Edit) (e : Editing) →
        after_undo (after_edit edit e) ≡ Some record { network = e.network; made = e.made; undone = edit ∷ [] } }
    ensures redone { (edit : Edit) (e : Editing) →
        after_redo (record { network = e.network; made = e.made; undone = edit ∷ [] }) ≡ Some (after_edit edit e) }
{}

/// Whatever is edited, undone and made again, an editor stands for the network that it began with.
#[tactic(auto, using(crate::proofs::Stacks::first_after_undo, crate::proofs::Stacks::first_after_redo))]
pub fn an_editor_stands_for_its_first_network()
    ensures edit { (edit : Edit) (e : Editing) → first_network (after_edit edit e) ≡ first_network e }
    ensures undo { (e new : Editing) → after_undo e ≡ Some new → first_network new ≡ first_network e }
    ensures redo { (e new : Editing) → after_redo e ≡ Some new → first_network new ≡ first_network e }
{}
