//! A sound network is accepted item by item, in the order of its lists: sections, portals, signals, boards, turns, routes.

ghost use Rattle.std.specs.Prelude.{◌≡◌, ◌++◌, ◌∷◌, [], List, None};
ghost use Rattle.rail_track.specs.declared.section.Section.{Section};
ghost use Rattle.rail_routes.specs.declared.items.Post.{Post};
ghost use Rattle.rail_routes.specs.declared.items.Turn.{Turn};
ghost use Rattle.rail_routes.specs.declared.items.Route.{Route};
ghost use Rattle.rail_routes.specs.Net.{Net};
ghost use Rattle.rail_routes.specs.SectionRules.{net_section_refusal};
ghost use Rattle.rail_routes.specs.PostRules.{post_refusal};
ghost use Rattle.rail_routes.specs.TurnRules.{turn_refusal};
ghost use Rattle.rail_routes.specs.RouteRules.{route_refusal};
ghost use Rattle.rail_routes.specs.SoundNetworks.{IsSoundNetwork};

/// The sections, and then the posts of a sound network are accepted one after the other in their order, each beside the
/// items before it alone. So a network that was changed in any order may be written out list by list, and built again
/// from what was written.
#[tactic(auto, using(crate::proofs::SectionAcceptance::section_after, crate::proofs::PostAcceptance::portal_after, crate::proofs::PostAcceptance::signal_after, crate::proofs::PostAcceptance::board_after))]
pub fn the_sections_and_posts_of_a_sound_network_are_accepted_in_their_order()
    ensures sections { (net : Net) (before : List Section) (section : Section) (after : List Section)
        → IsSoundNetwork net → net.sections ≡ before ++ section ∷ after
        → net_section_refusal (record { sections = before; portals = []; signals = []; boards = []; turns = []; routes = [] }) section ≡ None }
    ensures portals { (net : Net) → IsSoundNetwork net → (before : List Post) (post : Post) (after : List Post)
        → net.portals ≡ before ++ post ∷ after
        → post_refusal (record net { portals = before; signals = []; boards = []; turns = []; routes = [] }) post ≡ None }
    ensures signals { (net : Net) → IsSoundNetwork net → (before : List Post) (post : Post) (after : List Post)
        → net.signals ≡ before ++ post ∷ after
        → post_refusal (record net { signals = before; boards = []; turns = []; routes = [] }) post ≡ None }
    ensures boards { (net : Net) → IsSoundNetwork net → (before : List Post) (post : Post) (after : List Post)
        → net.boards ≡ before ++ post ∷ after → post_refusal (record net { boards = before; turns = []; routes = [] }) post ≡ None }
{}

/// The turns and the routes of a sound network are accepted one after the other in their order, each beside the posts and
/// those before it.
#[tactic(auto, using(crate::proofs::WayAcceptance::turn_after, crate::proofs::WayAcceptance::route_after))]
pub fn the_turns_and_routes_of_a_sound_network_are_accepted_in_their_order()
    ensures turns { (net : Net) (before : List Turn) (turn : Turn) (after : List Turn)
        → IsSoundNetwork net → net.turns ≡ before ++ turn ∷ after → turn_refusal (record net { turns = before }) turn ≡ None }
    ensures routes { (net : Net) (before : List Route) (route : Route) (after : List Route)
        → IsSoundNetwork net → net.routes ≡ before ++ route ∷ after → route_refusal (record net { routes = before }) route ≡ None }
{}
