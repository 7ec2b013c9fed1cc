//! What holds of snapshots, and of lines behind a front of a run.

ghost use Rattle.std.specs.Prelude.{◌≡◌, ℕ, [], IsTrue, List, MatchOption, None, reverse};
ghost use Rattle.rail_rules.specs.Accepted.{is_accepted_input};
ghost use Rattle.rail_rules.specs.Fronts.{Front, Line};
ghost use Rattle.rail_rules.specs.Orders.{Input};
ghost use Rattle.rail_rules.specs.Plant.{Plant};
ghost use Rattle.rail_rules.specs.RunHistories.{Seat, is_run};
ghost use Rattle.rail_rules.specs.WritableLines.{IsNamed};
ghost use Rattle.rail_save.specs.RunLines.{AreFollowed, IsOtherAt, other_behind};
ghost use Rattle.rail_save.specs.Snapshots.{IsFirstUnread, IsSnapshot, snapshot};

/// What was saved of a run is a snapshot of its lines, and no line of it is one with which the run is another: with the same
/// plant, commands and policies it is resumed, whatever the policies chose. Only the size of the file is another matter.
pub fn a_saved_run_is_resumed()
    ensures { (input : Input) → IsTrue (is_accepted_input input) → (seats : List Seat) (front : Front)
        → IsTrue (is_run input seats front)
        → IsSnapshot input.plant (snapshot input.plant front) (reverse front) × (other_behind input seats [] 2 (reverse front) ≡ None) }
{}

/// Behind a front of a run either all lines are those of a run, or the one that is told is the first with which it is none.
pub fn lines_are_followed_or_one_is_the_first_other()
    ensures { (input : Input) (seats : List Seat) (front : Front) (n : ℕ) (lines : List Line) → IsTrue (is_run input seats front)
        → MatchOption (other_behind input seats front n lines) (AreFollowed input seats front lines) (IsOtherAt input seats front n lines) }
{}

/// The bytes of a snapshot are those of its lines alone.
pub fn a_snapshot_has_one_list_of_lines()
    ensures { (plant : Plant) → IsNamed plant → (bytes : List ℕ) (lines others : List Line)
        → IsSnapshot plant bytes lines → IsSnapshot plant bytes others → lines ≡ others }
{}

/// A file with a first line that is none of a snapshot is no snapshot, and has no other such line.
pub fn a_file_with_an_unread_line_is_no_snapshot()
    ensures none { (plant : Plant) → IsNamed plant → (bytes : List ℕ) (number : ℕ) (lines : List Line)
        → IsFirstUnread plant bytes number → IsSnapshot plant bytes lines → ⊥ }
    ensures one { (plant : Plant) → IsNamed plant → (bytes : List ℕ) (number other : ℕ)
        → IsFirstUnread plant bytes number → IsFirstUnread plant bytes other → number ≡ other }
{}
