//! That a proposal has one answer, and who is refused where one train takes other routes.

ghost use Rattle.std.specs.Prelude.{◌≡◌, ℕ, List as ListOf, Some};
ghost use Rattle.rail_base.specs.declared.refusals.Refusal.{Refusal};
ghost use Rattle.rail_compile.specs.Refusals.{compile_refusal};
ghost use Rattle.rail_scene.specs.declared.scene.Scene.{Scene};
ghost use Rattle.rail_reroute.specs.Judgements.{IsItineraryRefusal, IsJudged, IsProposed, rerouted, without_list};
ghost use Rattle.rail_reroute.specs.declared.judgements.Judged.{Judged};

/// Two right answers to a proposal are the same, but for which list they have: so no two kinds of answer are right, and a
/// refusal and an overlap are told in one way.
pub fn a_proposal_has_one_answer()
    ensures { (scene : Scene) (s : ListOf ℕ) (t : ℕ) (routes : ListOf (ListOf ℕ)) (one other : Judged)
        → IsJudged scene s t routes one → IsJudged scene s t routes other → without_list one ≡ without_list other }
{}

/// Where the scene with the new itinerary is refused, the rerouted train is, for its itinerary, at a place of it: no other
/// train and no unknown name is told.
pub fn a_refused_rerouting_is_refused_for_its_itinerary()
    ensures { (scene : Scene) (s : ListOf ℕ) (t : ℕ) (routes : ListOf (ListOf ℕ)) (refusal : Refusal) → IsProposed scene s t routes
        → compile_refusal (rerouted scene s t routes) ≡ Some refusal → IsItineraryRefusal t refusal }
{}
