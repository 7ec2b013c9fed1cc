//! Worked insertions, on which the definitions of the text are evaluated.

ghost use Rattle.std.specs.Prelude.{◌≡◌, ◌++◌, flat_map};
ghost use Rattle.rail_worked_reports.specs.Insertions.{first_bars, second_bars, two_copies};
ghost use Rattle.rail_insert.specs.Texts.{bar_line, path_line, paths_line};
ghost use Rattle.rail_text.specs.Names.{names_of};
ghost use Rattle.rail_worked.specs.Loop as loop;

/// The printed text of two copies behind two trains that pass at a loop.
pub fn worked_insertions()
    ensures { let names = names_of loop.plant in
        flat_map (bar_line names 0) first_bars ++ path_line names 0 1 2496
        ++ flat_map (bar_line names 0) second_bars ++ path_line names 0 2 3492 ++ paths_line 2 ≡ two_copies }
{}
