//! The tables that a scene spells.

ghost use Rattle.std.specs.Prelude.{◌≡◌, map, None, IsTrue, IfOk, IfErr, OnOk};
ghost use Rattle.std.specs.List.{list_all};
ghost use Rattle.rail_base.specs.declared.plant.SectionRow.{SectionRow};
ghost use Rattle.rail_base.specs.declared.plant.TrainKind.{TrainKind};
ghost use Rattle.rail_base.specs.FirstRefusals.{first_failing};
ghost use Rattle.rail_base.specs.Refusals.{AnswersFirst};
ghost use Rattle.rail_plan.specs.PlanFaults.{IsPlannable};
ghost use Rattle.rail_scene.specs.Scenes.{IsScene};
ghost use Rattle.rail_compile.specs.Itineraries.{section_row, tables_of, with_trains};
ghost use Rattle.rail_compile.specs.Refusals.{trains_tests};
ghost use Rattle.rail_compile.specs.RowTypes.{is_named_row};
ghost use Rattle.rail_compile.specs.Ways.{AreWays};

use crate::compiling::trains::train_rows;
use crate::compiling::ways::Ways;
use indexmap::IndexSet;
use rail_base::{Fault, Name, SectionRow, Seq, Tables};
use rail_scene::{Scene, SceneTrain};
use rail_track::Section;
use std::alloc::{AllocError, Global};

/// The tables of a scene with these trains in place of its own, or the first refusal of one. The names are those of the kinds.
pub fn tables_of(
    alloc: Global,
    scene: &Scene,
    kinds: &IndexSet<Name>,
    ways: &Ways,
    trains: &[SceneTrain],
) -> Result<Tables, Fault>
    requires scene { IsScene (with_trains scene.now trains.now) }
    requires kinds { kinds.now.keys ≡ map (λ (kind : TrainKind). kind.name) scene.now.kinds }
    requires ways { AreWays scene.now.network ways.now }
    ensures accepted { OnOk result (first_failing (trains_tests (with_trains scene.now trains.now) 1 trains.now) ≡ None) }
    ensures spelled { IfOk result (λ tables. tables ≡ tables_of (with_trains scene.now trains.now)) }
    ensures plannable { IfOk result (λ tables. IsPlannable tables) }
    ensures refused { IfErr result (AnswersFirst (first_failing (trains_tests (with_trains scene.now trains.now) 1 trains.now))) }
{
    let sections = section_rows(alloc, scene.network.sections())?;
    let trains = train_rows(alloc, scene, kinds, ways, trains)?;
    Ok(Tables {
        sections: Seq::from_vec(sections),
        release: scene.release,
        overlap_time: scene.overlap_time,
        depth: scene.depth,
        trains: Seq::from_vec(trains),
    })
}

/// The rows of the sections.
fn section_rows(alloc: Global, sections: &[Section]) -> Result<Vec<SectionRow>, AllocError>
    ensures rows { IfOk result (λ rows. rows.items ≡ map section_row sections.now) }
    ensures named { IfOk result (λ rows. IsTrue (list_all is_named_row rows.items)) }
{
    let mut rows = Vec::with_capacity(alloc, sections.len())?;
    for section in sections {
        rows.push(section_row(section))?;
    }
    Ok(rows)
}

/// The row of a section. Its name is a name by its type.
fn section_row(section: &Section) -> SectionRow
    ensures row { result ≡ section_row section.now }
    ensures named { IsTrue (is_named_row result) }
{
    prove!(!section.name.as_bytes().is_empty());
    SectionRow {
        name: section.name,
        length: section.length,
        speed: section.speed,
    }
}
