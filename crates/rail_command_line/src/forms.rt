//! The forms of a command line: the word that each begins with, the words behind it and what it prints; and what the words
//! of a command line ask for, with the values that they spell.

ghost use Rattle.std.specs.Prelude.{◌≡◌, ◌≤◌, ℕ, ◌∷◌, [], List, MatchOption, length};
ghost use Rattle.std.specs.Option.{option_copied, option_map};
ghost use Rattle.rail_command_line.specs.declared.forms.Form.{Form as AnyForm};
ghost use Rattle.rail_command_line.specs.declared.forms.Form.TheVariants.{Capacity, Insert, Save};
ghost use Rattle.rail_command_line.specs.Files.{AreFiles, file_with};
ghost use Rattle.rail_command_line.specs.Forms.{ArePaths, IsAsked, IsOneNumber, IsPathCount, IsSaving, IsStudy, Lacks, Paths, Saving, SceneAnd, SceneAndTwo, Spells, Study, Values, files_in, form_in, form_named, scenario_and_named, scenario_files, scenario_in, scenario_named, scenario_of, values_in, verb_of};

use crate::files::{FileRole, RequestFiles, named_file};
use crate::numbers::read_number;
use rail_base::{Time, Word, read_time};

/// How many paths may be asked for at most.
pub const PATHS: u64 = 128;

/// A form of a command line.
#[derive(Clone, Copy, Debug, PartialEq, Eq)]
pub enum Form {
    Run,
    Infra,
    Play,
    Check,
    Stairs,
    Report,
    Capacity,
    Insert,
    Edit,
    Migrate,
    Reroute,
    Save,
    Resume,
    Scene,
    Gen,
}

/// The forms, in the order in which they are told.
pub const FORMS: [Form; 15] = [
    Form::Run,
    Form::Infra,
    Form::Play,
    Form::Check,
    Form::Stairs,
    Form::Report,
    Form::Capacity,
    Form::Insert,
    Form::Edit,
    Form::Migrate,
    Form::Reroute,
    Form::Save,
    Form::Resume,
    Form::Scene,
    Form::Gen,
];

impl Form {
    /// The word that a command line of the form begins with.
    pub fn verb(self) -> &'static str
        ensures text { result.now ≡ verb_of self }
        ensures short { length result.now ≤ 8 }
    {
        match self {
            Form::Run => "run",
            Form::Infra => "infra",
            Form::Play => "play",
            Form::Check => "check",
            Form::Stairs => "stairs",
            Form::Report => "report",
            Form::Capacity => "capacity",
            Form::Insert => "insert",
            Form::Edit => "edit",
            Form::Migrate => "migrate",
            Form::Reroute => "reroute",
            Form::Save => "save",
            Form::Resume => "resume",
            Form::Scene => "scene",
            Form::Gen => "gen",
        }
    }

    /// The words behind it, as they are typed: what stands in brackets may be left out.
    pub fn words(self) -> &'static str
        ensures short { length result.now ≤ 50 }
    {
        match self {
            Form::Run | Form::Stairs | Form::Report => "SCENE [TIMETABLE [COMMANDS]]",
            Form::Infra | Form::Migrate => "SCENE",
            Form::Play => "SCENE LIST",
            Form::Check => "SCENE TIMETABLE COMMANDS HISTORY",
            Form::Capacity => "LINE FROM TO SCENE [TIMETABLE [COMMANDS]]",
            Form::Insert => "TRAIN FROM TO COUNT SCENE [TIMETABLE [COMMANDS]]",
            Form::Edit => "SCENE EDITS",
            Form::Reroute => "SCENE LIST PROPOSALS",
            Form::Save => "COUNT SCENE TIMETABLE COMMANDS",
            Form::Resume => "SCENE TIMETABLE COMMANDS SNAPSHOT",
            Form::Scene | Form::Gen => "NUMBER",
        }
    }

    /// What is to be known of its words beside their order; nothing at most forms.
    pub fn hint(self) -> &'static str
        ensures short { length result.now ≤ 70 }
    {
        match self {
            Form::Check | Form::Resume => ", with - for no timetable or no commands",
            Form::Save => ", where COUNT is below 2^64 with no leading zeros; - is for no file",
            Form::Capacity => ", where FROM and TO are times as 01:30:00",
            Form::Insert => ", where FROM and TO are times as 01:30:00, and COUNT is 1 to 128",
            Form::Scene | Form::Gen => ", where NUMBER is below 2^64 and has no leading zeros",
            Form::Run
            | Form::Infra
            | Form::Play
            | Form::Stairs
            | Form::Report
            | Form::Edit
            | Form::Migrate
            | Form::Reroute => "",
        }
    }

    /// What it prints.
    pub fn sentence(self) -> &'static str
        ensures short { length result.now ≤ 80 }
    {
        match self {
            Form::Run => "the history of the scene, line by line",
            Form::Infra => "counts, and routes with their lengths",
            Form::Play => "whether a list of moves brings every train inside to its exit",
            Form::Check => "whether a history is lawful to its end, or its first wrong line",
            Form::Stairs =>
                "blocking intervals of the trains, and how long each section is occupied",
            Form::Report => "how late the trains are, and for which causes they are held",
            Form::Capacity => "the trains pushed together on a line, and how full it is",
            Form::Insert => "where further trains like one fit, and what is in the way of each",
            Form::Edit => "the scene after the edits, as a scene file",
            Form::Migrate => "the scene, as a scene file of the newest version",
            Form::Reroute => "whether trains could take other routes from where they stand",
            Form::Save => "a snapshot of the run after so many of its lines",
            Form::Resume => "the lines of a run that follow those of a snapshot",
            Form::Scene => "the made-up scene of the number, as a scene file",
            Form::Gen => "a run of that scene, told in one line",
        }
    }
}

/// The form that begins with this word.
pub fn form_named(verb: &str) -> Option<Form>
    ensures { result ≡ form_named verb.now }
{
    FORMS.iter().copied().find(|form| form.verb() == verb)
}

/// The files of a run, by their names; a timetable or commands may be missing.
#[derive(Clone, Copy, Debug, PartialEq, Eq)]
pub struct Scenario<'w> {
    pub scene: &'w str,
    pub timetable: Option<&'w str>,
    pub commands: Option<&'w str>,
}

/// Paths that are asked for: so many copies of a train, between the trains of a run, that begin in a window.
#[derive(Clone, Copy, Debug, PartialEq, Eq)]
pub struct PathRequest<'w> {
    /// The name of the train, which is not looked up.
    pub train: &'w str,
    pub from: Time,
    pub to: Time,
    /// From 1 to 128.
    pub count: u16,
    pub scenario: Scenario<'w>,
}

/// What a command line asks for.
#[derive(Clone, Copy, Debug, PartialEq, Eq)]
pub enum Request<'w> {
    Run(Scenario<'w>),
    Infra {
        scene: &'w str,
    },
    Play {
        scene: &'w str,
        list: &'w str,
    },
    Check {
        scenario: Scenario<'w>,
        history: &'w str,
    },
    Stairs(Scenario<'w>),
    Report(Scenario<'w>),
    /// The line is the names of its sections with commas between them, which are not looked up.
    Capacity {
        line: &'w str,
        from: Time,
        to: Time,
        scenario: Scenario<'w>,
    },
    Insert(PathRequest<'w>),
    Edit {
        scene: &'w str,
        edits: &'w str,
    },
    Migrate {
        scene: &'w str,
    },
    Reroute {
        scene: &'w str,
        list: &'w str,
        proposals: &'w str,
    },
    /// So many lines of the run, at most, are saved.
    Save {
        count: u64,
        scenario: Scenario<'w>,
    },
    Resume {
        scenario: Scenario<'w>,
        snapshot: &'w str,
    },
    Scene {
        number: u64,
    },
    Gen {
        number: u64,
    },
}

impl<'w> Request<'w> {
    /// The form of the request.
    pub fn form(&self) -> Form
        ensures { result ≡ form_in self.now }
    {
        match self {
            Request::Run(_) => Form::Run,
            Request::Infra { .. } => Form::Infra,
            Request::Play { .. } => Form::Play,
            Request::Check { .. } => Form::Check,
            Request::Stairs(_) => Form::Stairs,
            Request::Report(_) => Form::Report,
            Request::Capacity { .. } => Form::Capacity,
            Request::Insert(_) => Form::Insert,
            Request::Edit { .. } => Form::Edit,
            Request::Migrate { .. } => Form::Migrate,
            Request::Reroute { .. } => Form::Reroute,
            Request::Save { .. } => Form::Save,
            Request::Resume { .. } => Form::Resume,
            Request::Scene { .. } => Form::Scene,
            Request::Gen { .. } => Form::Gen,
        }
    }

    /// The files that the request reads, in this order. A timetable or commands have their place there where they are missing
    /// too; a made-up scene stands in no file.
    pub fn files(&self) -> RequestFiles<'w>
        ensures { AreFiles result (files_in self.now) }
    {
        match self {
            Request::Run(scenario) | Request::Stairs(scenario) | Request::Report(scenario) => {
                scenario.files()
            }
            Request::Capacity { scenario, .. } | Request::Save { scenario, .. } => scenario.files(),
            Request::Insert(paths) => paths.scenario.files(),
            Request::Infra { scene } | Request::Migrate { scene } => RequestFiles {
                roles: &[FileRole::Scene],
                names: [Some(*scene), None, None, None],
            },
            Request::Play { scene, list } => RequestFiles {
                roles: &[FileRole::Scene, FileRole::List],
                names: [Some(*scene), Some(*list), None, None],
            },
            Request::Edit { scene, edits } => RequestFiles {
                roles: &[FileRole::Scene, FileRole::Edits],
                names: [Some(*scene), Some(*edits), None, None],
            },
            Request::Reroute {
                scene,
                list,
                proposals,
            } => RequestFiles {
                roles: &[FileRole::Scene, FileRole::List, FileRole::Proposals],
                names: [Some(*scene), Some(*list), Some(*proposals), None],
            },
            Request::Check { scenario, history } => RequestFiles {
                roles: &[
                    FileRole::Scene,
                    FileRole::Timetable,
                    FileRole::Commands,
                    FileRole::History,
                ],
                names: [
                    Some(scenario.scene),
                    scenario.timetable,
                    scenario.commands,
                    Some(*history),
                ],
            },
            Request::Resume { scenario, snapshot } => RequestFiles {
                roles: &[
                    FileRole::Scene,
                    FileRole::Timetable,
                    FileRole::Commands,
                    FileRole::Snapshot,
                ],
                names: [
                    Some(scenario.scene),
                    scenario.timetable,
                    scenario.commands,
                    Some(*snapshot),
                ],
            },
            Request::Scene { .. } | Request::Gen { .. } => RequestFiles {
                roles: &[],
                names: [None; 4],
            },
        }
    }

    /// The name of the file of the role that the request reads, where it reads one.
    pub fn file(&self, role: FileRole) -> Option<&'w str>
        ensures { option_copied result ≡ file_with role (files_in self.now) }
    {
        self.files().name_of(role)
    }
}

impl<'w> Scenario<'w> {
    /// The files of the scenario, in the order in which they are read.
    fn files(&self) -> RequestFiles<'w>
        ensures { AreFiles result (scenario_files (scenario_in self.now)) }
    {
        RequestFiles {
            roles: &[FileRole::Scene, FileRole::Timetable, FileRole::Commands],
            names: [Some(self.scene), self.timetable, self.commands, None],
        }
    }
}

/// What the words ask for: `None` exactly where they are not in the table of words.
pub fn request_of<'w>(words: &'w [Word]) -> Option<Request<'w>>
    ensures { MatchOption result
        ((form : AnyForm) (values : Values form) → IsAsked form values words.now → ⊥)
        (λ request. IsAsked (form_in request) (values_in request) words.now) }
{
    match words {
        [verb, words @ ..] => request_behind(verb, words),
        [] => None,
    }
}

/// What the words behind a verb ask for.
fn request_behind<'w>(verb: &Word, words: &'w [Word]) -> Option<Request<'w>>
    ensures { MatchOption result
        ((form : AnyForm) (values : Values form) → IsAsked form values (verb.now ∷ words.now) → ⊥)
        (λ request. IsAsked (form_in request) (values_in request) (verb.now ∷ words.now)) }
{
    let form = form_named(verb.as_str())?;
    request_with(form, words)
}

/// What the words behind the verb of the form ask for.
fn request_with<'w>(form: Form, words: &'w [Word]) -> Option<Request<'w>>
    ensures { MatchOption result (Lacks form words.now)
        (λ request. (form_in request ≡ form) × Spells (form_in request) (values_in request) words.now) }
{
    match form {
        Form::Run => Some(Request::Run(scenario_of(words)?)),
        Form::Stairs => Some(Request::Stairs(scenario_of(words)?)),
        Form::Report => Some(Request::Report(scenario_of(words)?)),
        Form::Infra => Some(Request::Infra {
            scene: one_file(words)?,
        }),
        Form::Play => {
            let (scene, list) = two_files(words)?;
            Some(Request::Play { scene, list })
        }
        Form::Check => {
            let (scenario, history) = scenario_and_file(words)?;
            Some(Request::Check { scenario, history })
        }
        Form::Capacity => study_of(words),
        Form::Insert => paths_of(words),
        Form::Edit => {
            let (scene, edits) = two_files(words)?;
            Some(Request::Edit { scene, edits })
        }
        Form::Migrate => Some(Request::Migrate {
            scene: one_file(words)?,
        }),
        Form::Reroute => {
            let (scene, list, proposals) = three_files(words)?;
            Some(Request::Reroute {
                scene,
                list,
                proposals,
            })
        }
        Form::Save => saving_of(words),
        Form::Resume => {
            let (scenario, snapshot) = scenario_and_file(words)?;
            Some(Request::Resume { scenario, snapshot })
        }
        Form::Scene => Some(Request::Scene {
            number: number_in(words)?,
        }),
        Form::Gen => Some(Request::Gen {
            number: number_in(words)?,
        }),
    }
}

/// The scenario that words name: a word that is not there stands for no file, and so does `-`.
fn scenario_of<'w>(words: &'w [Word]) -> Option<Scenario<'w>>
    ensures { option_map scenario_in result ≡ scenario_named words.now }
{
    let (scene, timetable, commands) = match words {
        [scene] => (scene, None, None),
        [scene, timetable] => (scene, named_file(timetable), None),
        [scene, timetable, commands] => (scene, named_file(timetable), named_file(commands)),
        _ => return None,
    };
    Some(Scenario {
        scene: scene.as_str(),
        timetable,
        commands,
    })
}

/// The one file that words name.
fn one_file<'w>(words: &'w [Word]) -> Option<&'w str>
    ensures { MatchOption result ((scene : List ℕ) → words.now ≡ scene ∷ [] → ⊥) (λ scene. words.now ≡ scene.now ∷ []) }
{
    match words {
        [scene] => Some(scene.as_str()),
        _ => None,
    }
}

/// The two files that words name.
fn two_files<'w>(words: &'w [Word]) -> Option<(&'w str, &'w str)>
    ensures { MatchOption result
        ((files : SceneAnd) → words.now ≡ files.scene ∷ files.other ∷ [] → ⊥)
        (λ files. words.now ≡ files.0.now ∷ files.1.now ∷ []) }
{
    match words {
        [scene, other] => Some((scene.as_str(), other.as_str())),
        _ => None,
    }
}

/// The three files that words name.
fn three_files<'w>(words: &'w [Word]) -> Option<(&'w str, &'w str, &'w str)>
    ensures { MatchOption result
        ((files : SceneAndTwo) → words.now ≡ files.scene ∷ files.list ∷ files.proposals ∷ [] → ⊥)
        (λ files. words.now ≡ files.0.now ∷ files.1.now ∷ files.2.now ∷ []) }
{
    match words {
        [scene, list, proposals] => Some((scene.as_str(), list.as_str(), proposals.as_str())),
        _ => None,
    }
}

/// The scenario and the file behind it that words name, all of which are there.
fn scenario_and_file<'w>(words: &'w [Word]) -> Option<(Scenario<'w>, &'w str)>
    ensures { option_map (λ read. record { scenario = scenario_in read.0; other = read.1.now }) result ≡ scenario_and_named words.now }
{
    match words {
        [scene, timetable, commands, other] => {
            Some((whole_scenario(scene, timetable, commands), other.as_str()))
        }
        _ => None,
    }
}

/// The scenario that three words name, of which `-` stands for no file.
fn whole_scenario<'w>(scene: &'w Word, timetable: &'w Word, commands: &'w Word) -> Scenario<'w>
    ensures { scenario_in result ≡ scenario_of scene.now timetable.now commands.now }
{
    Scenario {
        scene: scene.as_str(),
        timetable: named_file(timetable),
        commands: named_file(commands),
    }
}

/// The lines of a run that words ask to save.
fn saving_of<'w>(words: &'w [Word]) -> Option<Request<'w>>
    ensures { MatchOption result ((saving : Saving) → IsSaving saving words.now → ⊥)
        (λ request. (form_in request ≡ Save) × Spells (form_in request) (values_in request) words.now) }
{
    match words {
        [count, scene, timetable, commands] => {
            let count = read_number(count.as_str().as_bytes())?;
            let scenario = whole_scenario(scene, timetable, commands);
            Some(Request::Save { count, scenario })
        }
        _ => None,
    }
}

/// The capacity study that words spell.
fn study_of<'w>(words: &'w [Word]) -> Option<Request<'w>>
    ensures { MatchOption result ((study : Study) → IsStudy study words.now → ⊥)
        (λ request. (form_in request ≡ Capacity) × Spells (form_in request) (values_in request) words.now) }
{
    match words {
        [line, from, to, files @ ..] => study_with(line, from, to, files),
        _ => None,
    }
}

/// The capacity study that the words for a line, the two times of a window and the files of a run spell.
fn study_with<'w>(line: &'w Word, from: &Word, to: &Word, files: &'w [Word]) -> Option<Request<'w>>
    ensures { MatchOption result ((study : Study) → IsStudy study (line.now ∷ from.now ∷ to.now ∷ files.now) → ⊥)
        (λ request. (form_in request ≡ Capacity)
        × Spells (form_in request) (values_in request) (line.now ∷ from.now ∷ to.now ∷ files.now)) }
{
    let from = read_time(from.as_str().as_bytes())?;
    let to = read_time(to.as_str().as_bytes())?;
    let scenario = scenario_of(files)?;
    let line = line.as_str();
    Some(Request::Capacity {
        line,
        from,
        to,
        scenario,
    })
}

/// The paths that words ask for.
fn paths_of<'w>(words: &'w [Word]) -> Option<Request<'w>>
    ensures { MatchOption result ((paths : Paths) → ArePaths paths words.now → ⊥)
        (λ request. (form_in request ≡ Insert) × Spells (form_in request) (values_in request) words.now) }
{
    match words {
        [train, from, to, count, files @ ..] => paths_with(train, from, to, count, files),
        _ => None,
    }
}

/// The paths that the words for a train, the two times of a window, a count and the files of a run ask for.
fn paths_with<'w>(
    train: &'w Word,
    from: &Word,
    to: &Word,
    count: &Word,
    files: &'w [Word],
) -> Option<Request<'w>>
    ensures { let words = train.now ∷ from.now ∷ to.now ∷ count.now ∷ files.now in
        MatchOption result ((paths : Paths) → ArePaths paths words → ⊥)
        (λ request. (form_in request ≡ Insert) × Spells (form_in request) (values_in request) words) }
{
    let from = read_time(from.as_str().as_bytes())?;
    let to = read_time(to.as_str().as_bytes())?;
    let count = path_count(count.as_str().as_bytes())?;
    let scenario = scenario_of(files)?;
    let train = train.as_str();
    Some(Request::Insert(PathRequest {
        train,
        from,
        to,
        count,
        scenario,
    }))
}

/// How many paths the word asks for.
fn path_count(word: &[u8]) -> Option<u16>
    ensures { MatchOption result ((count : ℕ) → IsPathCount word.now count → ⊥) (λ count. IsPathCount word.now count) }
{
    let count = read_number(word)?;
    if count < 1 || PATHS < count {
        return None;
    }
    Some(count as u16)
}

/// The number that the one word spells.
fn number_in(words: &[Word]) -> Option<u64>
    ensures { MatchOption result ((number : ℕ) → IsOneNumber number words.now → ⊥) (λ number. IsOneNumber number words.now) }
{
    match words {
        [number] => read_number(number.as_str().as_bytes()),
        _ => None,
    }
}
