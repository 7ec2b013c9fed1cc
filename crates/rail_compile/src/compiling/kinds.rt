//! Train kinds by name.

ghost use Rattle.std.specs.Prelude.{◌≡◌, map, IsTrue, IfOk};
ghost use Rattle.std.specs.List.{list_any};
ghost use Rattle.rail_base.specs.NameForms.{same_name};
ghost use Rattle.rail_base.specs.declared.plant.TrainKind.{TrainKind};
ghost use Rattle.rail_base.specs.Lists.{are_distinct};
ghost use Rattle.rail_scene.specs.Scenes.{is_one_kind};
ghost use Rattle.rail_compile.specs.Itineraries.{kind_of};

use indexmap::IndexSet;
use rail_base::{Name, TrainKind};
use std::alloc::{AllocError, Global};

/// The names of the kinds in their order.
pub fn kind_names(alloc: Global, kinds: &[TrainKind]) -> Result<IndexSet<Name>, AllocError>
    requires { IsTrue (are_distinct is_one_kind kinds.now) }
    ensures { IfOk result (λ names. names.keys ≡ map (λ (kind : TrainKind). kind.name) kinds.now) }
{
    let mut names = IndexSet::with_capacity(alloc, kinds.len())?;
    for kind in kinds {
        names.insert(kind.name)?;
    }
    Ok(names)
}

/// The kind of this name, which there is.
pub fn kind_of(kinds: &[TrainKind], names: &IndexSet<Name>, name: Name) -> TrainKind
    requires names { names.now.keys ≡ map (λ (kind : TrainKind). kind.name) kinds.now }
    requires known { IsTrue (list_any (λ (kind : TrainKind). same_name name kind.name) kinds.now) }
    ensures { result ≡ kind_of kinds.now name }
{
    kinds[names.get_index_of(&name).unwrap()]
}
