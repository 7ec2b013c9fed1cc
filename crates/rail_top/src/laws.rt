//! What the forms promise together.

ghost use Rattle.std.specs.Prelude.{◌≡◌, ◌≤◌, ◌++◌, ℕ, List, Option, None, Some, codes, length};
ghost use Rattle.rail_base.specs.Limits.{most, HistoryBytes};
ghost use Rattle.rail_io.specs.Writes.{Adds, AddsPrefix};
ghost use Rattle.rail_policy.specs.Seats.{DeskSeat, handed_in, names_of};
ghost use Rattle.rail_forms.specs.Answers.{IsAnswer, Told};
ghost use Rattle.rail_forms.specs.Checks.{AnswersCheck};
ghost use Rattle.rail_forms.specs.Files.{told_of};
ghost use Rattle.rail_forms.specs.Runs.{AnswersRun};
ghost use Rattle.rail_forms.specs.Snapshots.{AnswersResume, AnswersSave, ResumesInput, ResumesInputInPart};
ghost use Rattle.rail_input.specs.Inputs.{input_in};
ghost use Rattle.rail_rules.specs.Fronts.{Line};
ghost use Rattle.rail_save.specs.Snapshots.{IsSnapshot};
ghost use Rattle.rail_command_line.specs.Forms.{Scenario};
ghost use Rattle.rail_forms.specs.declared.status.Status.{Status};
ghost use Rattle.rail_forms.specs.declared.status.Status.TheVariants as status;

/// What `run` printed is answered `yes` by `check` of the same files: where a `run` of a scenario ended `Done`, and what
/// it added is what the history file holds, within the size that such a file may have, a `check` of the same scenario with
/// that file, under the same deck, adds `yes` and ends `Done`, whatever the policies chose. Only a fault of reading or
/// writing, or want of memory, may stand in place of that.
pub fn a_printed_run_is_checked_with_yes()
    ensures { (scenario : Scenario) (deck : List DeskSeat) (told : Told) (bytes : List ℕ) (calls orders : Option (List ℕ))
        → told scenario.scene ≡ Some bytes → told_of told scenario.timetable ≡ Some calls
        → told_of told scenario.commands ≡ Some orders
        → (before printed : List ℕ) → AnswersRun scenario deck told (Some before) (Some (before ++ printed)) status.Done
        → (history : List ℕ) → told history ≡ Some printed → length printed ≤ most HistoryBytes
        → (out now : Option (List ℕ)) (end : Status)
        → AnswersCheck scenario history deck told out now end
        → IsAnswer None (Adds out now (codes "yes\n")) (AddsPrefix out now (codes "yes\n")) end }
{}

/// What `save` wrote is resumed by `resume` of the same files: where a `save` of a scenario ended `Done`, and what it added
/// is what the snapshot file holds, within the size that such a file may have, a `resume` of the same scenario with that
/// file, under the same deck, refuses nothing: it adds lines which, behind those of the snapshot, are a run to its end, and
/// ends `Done`, whatever the policies chose. Only a fault of reading or writing, or want of memory, may stand in place of
/// that.
pub fn a_saved_run_is_resumed()
    ensures { (scenario : Scenario) (deck : List DeskSeat) (told : Told) (bytes : List ℕ) (calls orders : Option (List ℕ))
        → told scenario.scene ≡ Some bytes → told_of told scenario.timetable ≡ Some calls
        → told_of told scenario.commands ≡ Some orders
        → (count : ℕ) (before saved : List ℕ) → AnswersSave count scenario deck told (Some before) (Some (before ++ saved)) status.Done
        → (file : List ℕ) → told file ≡ Some saved → length saved ≤ most HistoryBytes
        → (out now : Option (List ℕ)) (end : Status)
        → AnswersResume scenario file deck told out now end
        → let input = input_in bytes calls orders (names_of deck) in
        (lines : List Line) × IsSnapshot input.plant saved lines
        × IsAnswer None (ResumesInput lines input (handed_in deck) out now) (ResumesInputInPart lines input (handed_in deck) out now) end }
{}
