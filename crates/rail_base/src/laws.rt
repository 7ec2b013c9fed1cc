//! What the two calls on times as text promise together, as laws of the forms themselves, and what the limits are.

ghost use Rattle.std.specs.Prelude.{◌≡◌, ℕ, ◌<◌, ◌+◌, ◌*◌, ◌^◌, List};
ghost use Rattle.rail_base.specs.declared.limits.TheConstants as limit;
ghost use Rattle.rail_base.specs.Limits.{most, Sections, Posts, Turns, Routes, RouteSections, OverlapSections, Kinds, Trains, ItineraryRoutes, Depth, Policies, Commands, Edits, FreshTrains, FreshLines, FileBytes, HistoryBytes, NameBytes, HourDigits, SectionLength, TrainLength, Speed, InputTime, SettingTime, WatchingTime, ApproachTime, TurnTime, ReleaseTime, OverlapTime, StartSupplement, StopSupplement};
ghost use Rattle.rail_base.specs.Clock.{IsLenientTime, time_text};

/// A text in an input stands for one time at most. Whoever reads `00:02:00` or `00:02:00.0` in a
/// timetable reads the same two minutes as everyone else, and no reading of a text is a choice.
pub fn a_text_stands_for_one_time()
    ensures { (text : List ℕ) (a b : ℕ) → IsLenientTime text a → IsLenientTime text b → a ≡ b }
{}

/// Two times that are a tenth of a second or more apart are never written alike, so a time in a
/// history tells exactly when.
pub fn two_times_are_written_apart()
    ensures { (a b : ℕ) → a < 2 ^ 64 → b < 2 ^ 64 → time_text a ≡ time_text b → a ≡ b }
{}

/// A time of less than 1,000,000,000,000 hours that was written may stand in an input, where it
/// means itself: nothing is lost between what is written and what is read.
pub fn a_time_written_is_read_as_itself()
    ensures { (time : ℕ) → time < 36_000_000_000_000_000 → IsLenientTime (time_text time) time }
{}

/// The limits that the programs keep are those of the formats, and the counts made of them are right.
pub fn the_limits_are_those_of_the_formats()
    ensures sections { limit.SECTIONS ≡ most Sections }
    ensures posts { limit.POSTS ≡ most Posts }
    ensures turns { limit.TURNS ≡ most Turns }
    ensures routes { limit.ROUTES ≡ most Routes }
    ensures route_sections { limit.ROUTE_SECTIONS ≡ most RouteSections }
    ensures overlap_sections { limit.OVERLAP_SECTIONS ≡ most OverlapSections }
    ensures kinds { limit.KINDS ≡ most Kinds }
    ensures trains { limit.TRAINS ≡ most Trains }
    ensures itinerary_routes { limit.ITINERARY_ROUTES ≡ most ItineraryRoutes }
    ensures depth { limit.DEPTH ≡ most Depth }
    ensures policies { limit.POLICIES ≡ most Policies }
    ensures commands { limit.COMMANDS ≡ most Commands }
    ensures edits { limit.EDITS ≡ most Edits }
    ensures file_bytes { limit.FILE_BYTES ≡ most FileBytes }
    ensures history_bytes { limit.HISTORY_BYTES ≡ most HistoryBytes }
    ensures name_bytes { limit.NAME_BYTES ≡ most NameBytes }
    ensures hour_digits { limit.HOUR_DIGITS ≡ most HourDigits }
    ensures section_length { limit.SECTION_LENGTH ≡ most SectionLength }
    ensures train_length { limit.TRAIN_LENGTH ≡ most TrainLength }
    ensures speed { limit.SPEED ≡ most Speed }
    ensures input_time { limit.INPUT_TIME ≡ most InputTime }
    ensures setting { limit.SETTING ≡ most SettingTime }
    ensures watching { limit.WATCHING ≡ most WatchingTime }
    ensures approach { limit.APPROACH ≡ most ApproachTime }
    ensures turn_time { limit.TURN_TIME ≡ most TurnTime }
    ensures release { limit.RELEASE ≡ most ReleaseTime }
    ensures overlap { limit.OVERLAP ≡ most OverlapTime }
    ensures start { limit.START ≡ most StartSupplement }
    ensures stop { limit.STOP ≡ most StopSupplement }
    ensures move_lines { limit.MOVE_LINES ≡ 2 * most RouteSections + most OverlapSections + 3 }
    ensures train_lines { limit.TRAIN_LINES ≡ most ItineraryRoutes * limit.MOVE_LINES }
    ensures list_trains { limit.LIST_TRAINS ≡ most FreshTrains }
    ensures fresh_lines { limit.FRESH_LINES ≡ most FreshLines }
    ensures moves { (most FreshTrains ≡ most Trains * most ItineraryRoutes) × (most FreshLines ≡ most FreshTrains) }
{}
