//! A sound track is accepted section by section.

ghost use Rattle.std.specs.Prelude.{◌≡◌, ◌++◌, ◌∷◌, List, None};
ghost use Rattle.rail_track.specs.declared.section.Section.{Section};
ghost use Rattle.rail_track.specs.SectionRules.{section_refusal};
ghost use Rattle.rail_track.specs.SoundTracks.{IsSoundTrack};

/// The sections of a sound track are accepted one after the other in their order. So a track that was changed may be
/// written out section by section, and built again from what was written.
#[tactic(auto, using(crate::proofs::SectionAcceptance::accepted_after))]
pub fn the_sections_of_a_sound_track_are_accepted_in_their_order()
    ensures { (before : List Section) (section : Section) (after : List Section)
        → IsSoundTrack (before ++ section ∷ after) → section_refusal before section ≡ None }
{}
