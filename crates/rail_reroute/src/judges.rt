//! What judges proposals: what is made once of a scene, and exchanged for the train of a proposal.

ghost use Rattle.std.specs.Prelude.{◌≡◌, ◌≤◌, ◌<◌, ℕ, Bool, false, IfErr, IfOk, IfSome, IsTrue, None, OnOk, get_or, length, set, slice_index};
ghost use Rattle.rail_base.specs.Refusals.{AnswersFirst};
ghost use Rattle.rail_compile.specs.Itineraries.{plant_of_scene, tables_of};
ghost use Rattle.rail_compile.specs.Refusals.{are_known, compile_refusal};
ghost use Rattle.rail_consequence.specs.AnalystStates.{IsAnalystFor};
ghost use Rattle.rail_consequence.specs.Cores.{IsCore};
ghost use Rattle.rail_consequence.specs.Needs.{AreRowsFor};
ghost use Rattle.rail_cores.specs.Alones.{IsAloneFor};
ghost use Rattle.rail_place.specs.PlaceStates.{IsMadeFor};
ghost use Rattle.rail_place.specs.Tables.{moves_in, no_lists};
ghost use Rattle.rail_rules.specs.Places.{is_valid_state};
ghost use Rattle.rail_rules.specs.Plant.{moves, moves_of};
ghost use Rattle.rail_scene.specs.Scenes.{IsScene};
ghost use Rattle.rail_sets.specs.TrainSets.{has_train};
ghost use Rattle.rail_reroute.specs.Judgements.{IsJudged, IsProposed, LeadsTo, rerouted};
ghost use Rattle.rail_reroute.specs.Judges.{IsJudgeFor, IsOfTables, IsRowFor, KnowsCore, moves_with};

use crate::judgements::{Judged, is_out_at, is_too_many, refused_for};
use crate::state::find_way;
use crate::trains::rerouted_train;
use rail_base::{Fault, Name, OutOfMemory, Reason, Tables, TrainNo};
use rail_compile::{Lookups, compile_moves, fault_for};
use rail_consequence::{Analyst, Rows, what_can_be_found_can_be_found_ahead};
use rail_cores::Alone;
use rail_place::{Moves, Places};
use rail_plan::{Plant, moves_over};
use rail_scene::Scene;
use rail_sets::TrainSet;
use std::alloc::Global;

/// So many legs may be tried for a core before a last search is begun.
const LEGS: u64 = 1 << 16;

/// What judges the proposals for a scene. Between two of them it stands for the scene; for a proposal the moves of its train
/// and their sets are exchanged, and then put back. The trains stand where they stood for the last proposal, and so long a
/// core that was found there says of all proposals for other trains that no list is found.
pub struct Judge {
    lookups: Lookups,
    tables: Tables,
    moves: Moves,
    analyst: Analyst,
    places: Places,
    /// What seeks a core that has not the train of a proposal.
    alone: Alone,
    /// Such a core, where the trains stand, if one was found.
    core: Option<TrainSet>,
    /// The trains of the proposals for which one was sought there.
    sought: TrainSet,
}

impl Drop for Judge {
    fn drop(self) {
        let Judge {
            lookups: _lookups,
            tables: _tables,
            moves: _moves,
            analyst: _analyst,
            places: _places,
            alone: _alone,
            core: _core,
            sought: _sought,
        } = self;
    }
}

impl Judge {
    /// A judge for the scene, whose plant this is.
    pub fn new(alloc: Global, scene: &Scene, plant: Plant) -> Result<Judge, OutOfMemory>
        requires kept { IsScene scene.now }
        requires plant { plant ≡ plant_of_scene scene.now }
        ensures { IfOk result (IsJudgeFor scene.now) }
    {
        let lookups = Lookups::of_scene(alloc, scene)?;
        let (tables, moves) = plant.into_parts();
        let analyst = Analyst::new(alloc, &moves)?;
        let places = Places::outside(alloc, &moves)?;
        let alone = Alone::new(alloc, &moves, &analyst)?;
        Ok(Judge {
            lookups,
            tables,
            moves,
            analyst,
            places,
            alone,
            core: None,
            sought: TrainSet::none(),
        })
    }

    /// What is looked up of the scene.
    pub fn lookups(&self) -> &Lookups
        ensures { result.now ≡ self.now.lookups }
    {
        &self.lookups
    }

    /// The answer to the proposal that the train takes these routes from where it stands.
    ///
    /// `positions` has how many moves each train has made. The scene is one that `compile` accepts, and the places are ones
    /// that `Places::new` accepts for its plant; the routes are some, and known to the scene. The judge stands for the scene
    /// afterwards, also where memory is not found. What it costs goes with the train's moves and with what the analysis
    /// looks at, and not with the moves of the other trains; but where the places are not those of the last call, they are
    /// made anew. Where no list was found for a proposal, and a core of other trains is found, it answers all further proposals
    /// for none of these trains: as long as the places are the same, nothing is searched for them.
    pub fn judge(
        &mut self,
        alloc: Global,
        scene: &Scene,
        positions: &[u16],
        train: TrainNo,
        routes: &[Name],
    ) -> Result<Judged, OutOfMemory>
        requires own { IsJudgeFor scene.now self.old }
        requires kept { IsScene scene.now }
        requires compiled { compile_refusal scene.now ≡ None }
        requires train { train < length scene.now.trains }
        requires long { length positions.now ≡ length scene.now.trains }
        requires within { (t : ℕ) → t < length scene.now.trains → slice_index positions.now t ≤ moves (plant_of_scene scene.now) t }
        requires valid { IsTrue (is_valid_state (moves_of (plant_of_scene scene.now)) positions.now) }
        requires some { 0 < length routes.now }
        requires known { IsTrue (are_known scene.now.network routes.now) }
        ensures own { IsJudgeFor scene.now self.new }
        ensures answer { IfOk result (IsJudged scene.now positions.now train routes.now) }
    {
        let place = positions[usize::from(train.0)];
        if is_out_at(scene, train, place) {
            return Ok(Judged::Out);
        }
        if is_too_many(place, routes) {
            return Ok(Judged::Refused {
                reason: Reason::TooMany,
                place: 0,
            });
        }
        self.stand_at(alloc, positions)?;
        let answer = self.judge_rerouted(alloc, scene, positions, train, routes)?;
        if let Judged::NoList = answer {
            self.seek_core(train);
        }
        Ok(answer)
    }

    /// Stands the trains at these places, which are valid: so nothing but memory may fail.
    fn stand_at(&mut self, alloc: Global, positions: &[u16]) -> Result<(), OutOfMemory>
        requires made { IsMadeFor self.old.moves self.old.places }
        requires long { length positions.now ≡ length self.old.moves }
        requires within { (t : ℕ) → t < length self.old.moves → slice_index positions.now t ≤ (moves_in self.old.moves).moves t }
        ensures made { IsMadeFor self.new.moves self.new.places }
        ensures lookups { self.new.lookups ≡ self.old.lookups }
        ensures tables { self.new.tables ≡ self.old.tables }
        ensures moves { self.new.moves ≡ self.old.moves }
        ensures analyst { self.new.analyst ≡ self.old.analyst }
        ensures alone { self.new.alone ≡ self.old.alone }
        ensures there { OnOk result (self.new.places.positions ≡ positions.now) }
        ensures known { KnowsCore self.old → KnowsCore self.new }
    {
        if self.places.positions() == positions {
            return Ok(());
        }
        let Ok(places) = Places::new(alloc, &self.moves, positions) else {
            return Err(OutOfMemory);
        };
        self.places = places;
        self.core = None;
        self.sought = TrainSet::none();
        Ok(())
    }

    /// The answer where the train is not out and the new itinerary has not too many routes.
    fn judge_rerouted(
        &mut self,
        alloc: Global,
        scene: &Scene,
        positions: &[u16],
        train: TrainNo,
        routes: &[Name],
    ) -> Result<Judged, OutOfMemory>
        requires own { IsJudgeFor scene.now self.old }
        requires proposed { IsProposed scene.now positions.now train routes.now }
        requires there { self.old.places.positions ≡ positions.now }
        ensures own { IsJudgeFor scene.now self.new }
        ensures answer { IfOk result (IsJudged scene.now positions.now train routes.now) }
    {
        match self.rerouted_moves(alloc, scene, positions, train, routes) {
            Ok(moves) => self.judge_moves(alloc, positions, train, moves),
            Err(fault) => refused_for(fault),
        }
    }

    /// The moves of the train with the new itinerary, or what the scene is refused for with it.
    fn rerouted_moves(
        &self,
        alloc: Global,
        scene: &Scene,
        positions: &[u16],
        train: TrainNo,
        routes: &[Name],
    ) -> Result<Moves, Fault>
        requires own { IsJudgeFor scene.now self.now }
        requires proposed { IsProposed scene.now positions.now train routes.now }
        ensures accepted { OnOk result (compile_refusal (rerouted scene.now positions.now train routes.now) ≡ None) }
        ensures moves { IfOk result (IsRowFor (tables_of scene.now) train (tables_of (rerouted scene.now positions.now train routes.now))) }
        ensures refused { IfErr result (AnswersFirst (compile_refusal (rerouted scene.now positions.now train routes.now))) }
    {
        // For its clauses alone: the network is sound.
        scene.network.sections();
        let index = usize::from(train.0);
        let before = &scene.trains.as_slice()[index];
        let after = rerouted_train(alloc, before, positions[index], routes)?;
        let item = u32::from(train.0) + 1;
        let rows = compile_moves(alloc, scene, &self.lookups, item, &after)?;
        match moves_over(alloc, &self.tables, train, rows.as_slice()) {
            Ok(moves) => Ok(moves),
            Err(fault) => Err(fault_for(fault)),
        }
    }

    /// What the state leads to where the train has these moves.
    fn judge_moves(
        &mut self,
        alloc: Global,
        positions: &[u16],
        train: TrainNo,
        row: Moves,
    ) -> Result<Judged, OutOfMemory>
        requires own { IsOfTables self.old.tables self.old }
        requires train { train < length self.old.moves }
        requires one { length row ≡ 1 }
        requires long { length positions.now ≡ length self.old.moves }
        requires within { (t : ℕ) → t < length self.old.moves → slice_index positions.now t ≤ (moves_with self.old.moves train row).moves t }
        requires there { self.old.places.positions ≡ positions.now }
        ensures lookups { self.new.lookups ≡ self.old.lookups }
        ensures tables { self.new.tables ≡ self.old.tables }
        ensures own { IsOfTables self.old.tables self.new }
        ensures answer { IfOk result (LeadsTo (moves_with self.old.moves train row) self.old.tables.depth positions.now) }
    {
        what_can_be_found_can_be_found_ahead();
        let mut moves = row;
        let mut sets = Rows::new(alloc, &moves)?;
        let fails = self.fails_without(train);
        self.places.put(&self.moves, train, 0);
        self.exchange(train, &mut moves, &mut sets);
        // For its clauses alone: the moves are a table within the limits.
        self.moves.trains();
        let answer = find_way(
            alloc,
            &self.moves,
            &mut self.analyst,
            self.tables.depth,
            &mut self.places,
            positions,
            train,
            fails,
        );
        self.exchange(train, &mut moves, &mut sets);
        let place = positions[usize::from(train.0)];
        self.places.put(&self.moves, train, place);
        answer
    }

    /// Whether a core is known that has not the train: then nothing is found, whatever moves the train has.
    fn fails_without(&self, train: TrainNo) -> bool
        requires train { train < length self.now.moves }
        requires known { KnowsCore self.now }
        ensures { IsTrue result → (core : ℕ → Bool) × (core train ≡ false)
            × IsCore (moves_in self.now.moves) self.now.tables.depth self.now.places.positions core }
    {
        // For its clauses alone: the moves are a table within the limits.
        self.moves.trains();
        match self.core {
            Some(core) => !core.has(train),
            None => false,
        }
    }

    /// Seeks a core that has not the train, for which no list is found: once for each train, among those that were left inside.
    /// Meanwhile the train stands outside.
    #[inline(never)]
    fn seek_core(&mut self, train: TrainNo)
        requires own { IsOfTables self.old.tables self.old }
        requires train { train < length self.old.moves }
        ensures own { IsOfTables self.old.tables self.new }
        ensures lookups { self.new.lookups ≡ self.old.lookups }
        ensures tables { self.new.tables ≡ self.old.tables }
    {
        // For its clauses alone: the moves are a table within the limits.
        self.moves.trains();
        if self.sought.has(train) || self.fails_without(train) {
            return;
        }
        self.sought.insert(train);
        let mut left = self.analyst.core();
        left.remove(train);
        let place = self.places.position(train);
        self.places.put(&self.moves, train, 0);
        let depth = self.tables.depth;
        let core = core_among(&self.moves, &mut self.alone, &self.places, depth, left);
        self.places.put(&self.moves, train, place);
        if let Some(core) = core {
            if !core.has(train) {
                self.core = Some(core);
            }
        }
    }

    /// Exchanges the moves of the train and their sets.
    fn exchange(&mut self, train: TrainNo, moves: &mut Moves, sets: &mut Rows)
        requires analyst { IsAnalystFor (moves_in self.old.moves) self.old.analyst }
        requires train { train < length self.old.moves }
        requires some { 0 < length moves.old }
        requires sets { AreRowsFor (moves_in (set self.old.moves train (get_or moves.old 0 no_lists))) train sets.old }
        ensures lookups { self.new.lookups ≡ self.old.lookups }
        ensures tables { self.new.tables ≡ self.old.tables }
        ensures places { self.new.places ≡ self.old.places }
        ensures alone { self.new.alone ≡ self.old.alone }
        ensures known { self.new.core ≡ self.old.core }
        ensures here { self.new.moves ≡ set self.old.moves train (get_or moves.old 0 no_lists) }
        ensures there { moves.new ≡ set moves.old 0 (get_or self.old.moves train no_lists) }
        ensures analyst { IsAnalystFor (moves_in self.new.moves) self.new.analyst }
        ensures back { AreRowsFor (moves_in self.old.moves) train sets.new }
    {
        // For its clauses alone: the moves are a table within the limits.
        self.moves.trains();
        self.analyst.set_aside(&self.moves, train);
        self.moves.exchange(train, moves);
        self.analyst.exchange(&self.moves, train, sets);
    }
}

/// A small core, where a search left these trains inside, grown from the first of them.
fn core_among(
    moves: &Moves,
    alone: &mut Alone,
    places: &Places,
    depth: u8,
    left: TrainSet,
) -> Option<TrainSet>
    requires made { IsMadeFor moves.now places.now }
    requires own { IsAloneFor (moves_in moves.now) alone.old }
    ensures own { IsAloneFor (moves_in moves.now) alone.new }
    ensures core { IfSome result (λ core. IsCore (moves_in moves.now) depth places.now.positions (has_train core)) }
{
    let first = left.first_from(0)?;
    alone.small_core(moves, places, depth, first, left, LEGS)
}
