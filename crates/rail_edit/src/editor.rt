//! The editor: a network, the edits that led to it, and those that were undone.

ghost use Rattle.std.specs.Prelude.{◌≡◌, ◌↔◌, ◌⊎◌, [], None, Some, IsTrue, OnOk, OnErr, IfErr, Err};
ghost use Rattle.rail_track.specs.NetFaults.{Answers};

use crate::edit::{Edit, Kept};
use crate::making::make;
use crate::restoring::{make_again, take_back};
use rail_base::Reason;
use rail_base::limits::EDITS;
use rail_routes::Network;
use rail_track::NetFault;
use std::alloc::Global;
use std::marker::Model;
use thiserror::Error;

/// Why nothing is undone, or made again.
#[derive(Clone, Copy, Debug, PartialEq, Eq, Error)]
pub enum EditFault {
    #[error("nothing to undo")]
    NothingToUndo,
    #[error("nothing to redo")]
    NothingToRedo,
    #[error("out of memory")]
    OutOfMemory,
}

/// A network with the edits that led to it and those that were undone. Contracts see the edits each with the
/// network before it.
///
/// It stands at any time: its edits led to its network, and those that were undone can be made again.
pub struct Editor {
    network: Network,
    done: Vec<Kept>,
    undone: Vec<Edit>,
}

/// Written out, so that it is proved once, and not at each place where an editor is let go.
impl Drop for Editor {
    fn drop(self) {
        let Editor {
            network: _,
            done: _,
            undone: _,
        } = self;
    }
}

impl Model for Editor {
    ghost use Rattle.rail_edit.specs.Editing.{Editing};

    ghost Value = { Editing };

    ghost use Rattle.rail_edit.specs.EditorFields.{editing_of, IsEditorInside};

    ghost view = { editing_of };

    ghost invariant = { IsEditorInside };
}

impl Editor {
    ghost use Rattle.rail_edit.specs.Edits.{is_formed_edit};
    ghost use Rattle.rail_edit.specs.Editing.{editing, Stands, after_edit, after_undo, refusal};
    ghost use Rattle.rail_edit.specs.declared.editor.EditFault.TheVariants as fault;

    /// An editor of the network, without edits. It takes no memory.
    pub fn new(alloc: Global, network: Network) -> Editor
        ensures { result ≡ editing network }
    {
        let _sections = network.sections();
        Editor {
            network,
            done: Vec::new(alloc),
            undone: Vec::new(alloc),
        }
    }

    /// The network to which the edits led.
    pub fn network(&self) -> &Network
        ensures network { result.now ≡ self.now.network }
        ensures stands { Stands self.now }
    {
        &self.network
    }

    /// The network to which the edits led. It takes no memory.
    pub fn into_network(self) -> Network
        ensures { result ≡ self.network }
    {
        let Editor {
            network,
            done: _,
            undone: _,
        } = self;
        network
    }

    /// Makes an edit. What was undone before it can not be made again.
    ///
    /// It is refused as too many, at step 0, where 4,096 edits that are not undone are kept, and else as the
    /// call of the network is.
    pub fn apply(&mut self, alloc: Global, edit: Edit) -> Result<(), NetFault>
        requires { IsTrue (is_formed_edit edit) }
        ensures accepted { OnOk result (refusal edit self.old ≡ None) }
        ensures applied { OnOk result (self.new ≡ after_edit edit self.old) }
        ensures refused { IfErr result (Answers (refusal edit self.old)) }
        ensures unchanged { OnErr result (self.new ≡ self.old) }
    {
        if self.done.len() >= EDITS {
            return Err(NetFault::Refused {
                reason: Reason::TooMany,
                step: 0,
            });
        }
        self.done.reserve(1)?;
        match make(&mut self.network, alloc, edit) {
            Ok(kept) => {
                self.done.push_reserved(kept);
                self.undone.clear();
                Ok(())
            }
            Err(fault) => Err(fault),
        }
    }

    /// Takes the last edit back that is not undone: the network is the one before it, and each item stands
    /// where it stood. Exactly where there is no such edit there is nothing to undo.
    pub fn undo(&mut self, _alloc: Global) -> Result<(), EditFault>
        ensures undone { OnOk result (after_undo self.old ≡ Some self.new) }
        ensures nothing { (result ≡ Err fault.NothingToUndo) ↔ (after_undo self.old ≡ None) }
        ensures refused { IfErr result (λ why. (why ≡ fault.NothingToUndo) ⊎ (why ≡ fault.OutOfMemory)) }
        ensures unchanged { OnErr result (self.new ≡ self.old) }
    {
        if self.done.is_empty() {
            return Err(EditFault::NothingToUndo);
        }
        if self.undone.reserve(1).is_err() {
            return Err(EditFault::OutOfMemory);
        }
        let kept = self.done.pop().unwrap();
        match take_back(&mut self.network, kept) {
            Ok(edit) => {
                self.undone.push_reserved(edit);
                Ok(())
            }
            Err(kept) => {
                self.done.push_reserved(kept);
                Err(EditFault::OutOfMemory)
            }
        }
    }
}

impl Editor {
    ghost use Rattle.rail_edit.specs.Editing.{after_redo};
    ghost use Rattle.rail_edit.specs.declared.editor.EditFault.TheVariants as fault;

    /// Makes the last undone edit again: the network is the one before it was undone. Exactly where no edit
    /// was undone since the last new one there is nothing to redo.
    pub fn redo(&mut self, _alloc: Global) -> Result<(), EditFault>
        ensures redone { OnOk result (after_redo self.old ≡ Some self.new) }
        ensures nothing { (result ≡ Err fault.NothingToRedo) ↔ (after_redo self.old ≡ None) }
        ensures refused { IfErr result (λ why. (why ≡ fault.NothingToRedo) ⊎ (why ≡ fault.OutOfMemory)) }
        ensures unchanged { OnErr result (self.new ≡ self.old) }
    {
        if self.undone.is_empty() {
            return Err(EditFault::NothingToRedo);
        }
        if self.done.reserve(1).is_err() {
            return Err(EditFault::OutOfMemory);
        }
        let edit = self.undone.pop().unwrap();
        match make_again(&mut self.network, edit) {
            Ok(kept) => {
                self.done.push_reserved(kept);
                Ok(())
            }
            Err(edit) => {
                self.undone.push_reserved(edit);
                Err(EditFault::OutOfMemory)
            }
        }
    }
}
