//! Nobody is stuck: which trains are out at the end of a history, what keeps the others, and how many lines it has.

ghost use Rattle.std.specs.Prelude.{◌≡◌, ◌⊎◌, ℕ, ◌+◌, ◌-◌, ◌<◌, IsTrue, Bool, false, is_some, List, [], ◌∷◌, length, replicate};
ghost use Rattle.rail_laws_end.specs.Barred.{IsBarred, LeadsToBarred, Remains};
ghost use Rattle.rail_laws_end.specs.Remaining.{NobodyIsCancelled, NothingIsBarred};
ghost use Rattle.rail_rules.specs.Causes.{cause, place, waits};
ghost use Rattle.rail_rules.specs.Events.{due_lines};
ghost use Rattle.rail_rules.specs.Fronts.{Front, Line, has_ended, kept, lines_beside_holds, places};
ghost use Rattle.rail_rules.specs.Lawful.{is_complete, is_lawful, is_out};
ghost use Rattle.rail_rules.specs.LineCounts.{taken_over};
ghost use Rattle.rail_rules.specs.Moves.{Moves, is_valid};
ghost use Rattle.rail_rules.specs.Orders.{Input, is_cancelled, told};
ghost use Rattle.rail_rules.specs.Places.{after, completes, nobody_inside, place_of};
ghost use Rattle.rail_rules.specs.Plant.{bound, moves_of, trains};
ghost use Rattle.rail_laws_front.specs.Premises.{IsWellFormed};

/// A cancelled train has no admission, before its cancellation and after it.
pub fn a_cancelled_train_is_never_admitted()
    ensures { (input : Input) (front : Front) → IsTrue (is_lawful input front) → (t : ℕ)
        → IsTrue (is_cancelled t (told input.commands front)) → place front t ≡ 0 }
{}

/// Where nothing is due and no closure and no stop remains, the first train of the kept list waits and
/// has no cause: it can be admitted.
pub fn the_head_of_the_kept_list_waits_without_a_cause()
    ensures { (input : Input) → IsWellFormed input.plant → (front : Front)
        → IsTrue (is_lawful input front) → has_ended front ≡ false
        → length (due_lines input front) ≡ 0 → NothingIsBarred input front
        → (t : ℕ) (rest : List ℕ) → kept input.plant front ≡ t ∷ rest
        → IsTrue (waits input front t) × (is_some (cause input front t) ≡ false) }
{}

/// With nobody inside, a train that enters goes on alone to its exit.
pub fn with_nobody_inside_an_entering_train_completes_alone()
    ensures { (plan : Moves) → IsTrue (is_valid plan) → (s : List ℕ) → IsTrue (nobody_inside plan s)
        → (t : ℕ) → t < plan.trains → t < length s → place_of s t ≡ 0 → 0 < plan.moves t
        → IsTrue (completes plan (after s t) (replicate (plan.moves t - 1) t)) }
{}

/// At the end of a history every train is out or was cancelled, unless a closure or a stop remains.
pub fn at_the_end_every_train_is_out_or_cancelled()
    ensures { (input : Input) → IsWellFormed input.plant → (front : Front)
        → IsTrue (is_complete input front) → NothingIsBarred input front
        → (t : ℕ) → t < trains input.plant
        → IsTrue (is_out front t) ⊎ IsTrue (is_cancelled t (told input.commands front)) }
{}

/// The end line names nobody, unless a closure or a stop remains.
pub fn the_end_line_names_nobody()
    ensures { (input : Input) → IsWellFormed input.plant → (line : Line) (front : Front)
        → IsTrue (is_complete input (line ∷ front)) → NothingIsBarred input (line ∷ front)
        → line.trains ≡ [] }
{}

/// A history that is lawful to the end has exactly as many lines as the bound says, hold lines aside,
/// less one for each section of an overlap that was taken over, where nobody was cancelled and no closure
/// and no stop remains.
pub fn a_history_of_trains_that_all_leave_has_so_many_lines()
    ensures { (input : Input) → IsWellFormed input.plant → (front : Front)
        → IsTrue (is_complete input front) → NothingIsBarred input front → NobodyIsCancelled input front
        → lines_beside_holds front + taken_over input.plant front ≡ bound input.plant (length input.commands) }
{}

/// At the end of a history an order bars the first train of the kept list, by a stop or a closure. Where the list
/// is empty, so that nobody is inside, an order bars each train that remains.
pub fn at_the_end_the_first_of_the_kept_list_is_barred()
    ensures head { (input : Input) → IsWellFormed input.plant → (front : Front) → IsTrue (is_complete input front)
        → (t : ℕ) (rest : List ℕ) → kept input.plant front ≡ t ∷ rest → IsBarred input front t }
    ensures nobody { (input : Input) → IsWellFormed input.plant → (front : Front) → IsTrue (is_complete input front)
        → kept input.plant front ≡ [] → IsTrue (nobody_inside (moves_of input.plant) (places input.plant front)) }
    ensures each { (input : Input) → IsWellFormed input.plant → (front : Front) → IsTrue (is_complete input front)
        → kept input.plant front ≡ [] → (t : ℕ) → Remains input front t → IsBarred input front t }
{}

/// Whatever closures and stops remain: at the end of a history an order bars each train that remains, or the train
/// waits for one that an order bars, or for one that waits for one, and so on, in no more steps than there are trains.
/// The hold lines say so.
pub fn what_remains_waits_for_an_order()
    ensures { (input : Input) → IsWellFormed input.plant → (front : Front) → IsTrue (is_complete input front)
        → (t : ℕ) → Remains input front t → LeadsToBarred input front t (trains input.plant) }
{}
