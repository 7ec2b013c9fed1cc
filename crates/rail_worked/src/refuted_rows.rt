//! Histories that break a rule. Each is what a plain mistake of a program would print: up to its first wrong line it is
//! lawful, that line may not follow, and so the whole is no history.

ghost use Rattle.std.specs.Prelude.{◌≡◌, IsTrue, false};
ghost use Rattle.rail_rules.specs.Lawful.{is_complete, is_lawful, may_follow};
ghost use Rattle.rail_worked.specs.Cancelled as cancelled;
ghost use Rattle.rail_worked.specs.CauseToldLate as cause_told_late;
ghost use Rattle.rail_worked.specs.DeadlockAvoided as deadlock_avoided;
ghost use Rattle.rail_worked.specs.Following as following;
ghost use Rattle.rail_worked.specs.FreedByTheHead as freed_by_the_head;
ghost use Rattle.rail_worked.specs.NoNewRound as no_new_round;
ghost use Rattle.rail_worked.specs.OneTrain as one_train;
ghost use Rattle.rail_worked.specs.ReadyThoughCancelled as ready_though_cancelled;

/// A section is given free once the tail has cleared it and the release time has passed, and not as the head leaves it.
pub fn a_section_is_not_free_as_the_head_leaves_it()
    ensures lawful { IsTrue (is_lawful one_train.input freed_by_the_head.before) }
    ensures wrong { may_follow one_train.input freed_by_the_head.before freed_by_the_head.wrong ≡ false }
    ensures whole { is_complete one_train.input freed_by_the_head.front ≡ false }
{}

/// Once a section is given free for which a train waits, the trains that wait are looked at again before any other event.
pub fn a_release_begins_a_new_round()
    ensures lawful { IsTrue (is_lawful following.input no_new_round.before) }
    ensures wrong { may_follow following.input no_new_round.before no_new_round.wrong ≡ false }
    ensures whole { is_complete following.input no_new_round.front ≡ false }
{}

/// Where a section is taken before the one for which a train is held, the train is told its new cause at once.
pub fn a_new_cause_is_told_at_once()
    ensures lawful { IsTrue (is_lawful deadlock_avoided.input cause_told_late.before) }
    ensures wrong { may_follow deadlock_avoided.input cause_told_late.before cause_told_late.wrong ≡ false }
    ensures whole { is_complete deadlock_avoided.input cause_told_late.front ≡ false }
{}

/// A train that is cancelled before its first admission is never ready.
pub fn a_cancelled_train_is_never_ready()
    ensures lawful { IsTrue (is_lawful cancelled.input ready_though_cancelled.before) }
    ensures wrong { may_follow cancelled.input ready_though_cancelled.before ready_though_cancelled.wrong ≡ false }
    ensures whole { is_complete cancelled.input ready_though_cancelled.front ≡ false }
{}
