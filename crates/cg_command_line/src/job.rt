//! What a line asks for.

ghost use Rattle.std.specs.Prelude.{◌≡◌, ◌∷◌, ◌++◌, [], map, unwrap_or, IfOk};
ghost use Rattle.std.specs.Option.{option_and_then, option_map, option_to_list};
ghost use Rattle.std.specs.String.{string_bytes};
ghost use Rattle.clap.specs.Words.{found_of, rows_of};
ghost use Rattle.cg_run.specs.Names.{file_seen, files_of};
ghost use Rattle.cg_command_line.specs.Jobs.{demo_job, gate_files, gate_job, job_in, job_of, job_of_options, job_with, job_words, lrat_job, named};
ghost use Rattle.cg_command_line.specs.Jobs.{sim_by_option, sim_files, sim_job, sim_with};
ghost use Rattle.cg_command_line.specs.Options.{are_different, gate_options, option_files};
ghost use Rattle.cg_command_line.specs.Seen.{values_of};

use crate::command::command_line;
use crate::options::{
    Options, are_different, gate_options, has_options, no_options, number_in, push_files,
    sim_options, stimulus,
};
use crate::values::{OptionWords, given};
use cg_limit::{LEAST_DEMO_SIZE, MOST_DEMO_SIZE};
use cg_run::{NamedFile, Names, Role};
use cg_source::stimulus::StimulusForm;
use clap::ArgMatches;
use clap::error::ErrorKind;
use std::alloc::{AllocError, Global};

/// What is to be done.
#[derive(Clone, Copy, Debug, PartialEq, Eq)]
pub enum Mode {
    /// Read a netlist, gate its clock, and write it.
    Gate,
    /// Play a stimulus of this form on a netlist.
    Sim(StimulusForm),
    /// Check a proof against a formula.
    Lrat,
    /// Gate a generated pipeline of this size.
    Demo(u32),
}

/// A mode, the files that it is done with, and what the options say.
#[derive(Debug, Drop)]
pub struct Job<'a> {
    pub mode: Mode,
    pub names: Names<'a>,
    pub options: Options,
}

/// Reads the words of a command line, of which the first is the program's name and is not looked at, where there are watchers
/// of these names.
///
/// Answers `None` exactly where the words are none that the program takes, or ask for help.
pub fn read_words<'a>(
    alloc: Global,
    words: &'a [String],
    watchers: &[&str],
) -> Result<Option<Job<'a>>, AllocError>
    ensures { IfOk result (λ job. option_map job_words job ≡ job_of (map (λ name. name.now) watchers.now) (map string_bytes words.entry.now)) }
{
    let command = command_line(alloc)?;
    match command.try_get_matches_from(words) {
        Ok(matches) => read_job(alloc, &matches, watchers),
        Err(error) => {
            if error.kind() == ErrorKind::OutOfMemory {
                return Err(AllocError);
            }
            Ok(None)
        }
    }
}

/// The job that the matches of the command ask for.
fn read_job<'a>(
    alloc: Global,
    matches: &ArgMatches<'a>,
    watchers: &[&str],
) -> Result<Option<Job<'a>>, AllocError>
    ensures { IfOk result (λ job. option_map job_words job ≡ job_in (map (λ name. name.now) watchers.now) (rows_of (found_of matches.now))) }
{
    let given = given(matches);
    match matches.get_str("MODE") {
        None => Ok(None),
        Some(word) => job_named(alloc, word, matches.get_strs("FILES"), &given, watchers),
    }
}

fn job_named<'a>(
    alloc: Global,
    word: &str,
    files: Option<&[&'a str]>,
    given: &OptionWords<'a>,
    watchers: &[&str],
) -> Result<Option<Job<'a>>, AllocError>
    ensures { IfOk result (λ job. option_map job_words job ≡ job_with (map (λ name. name.now) watchers.now)
        (unwrap_or (option_map (λ s. map (λ v. v.now) s.now) files.entry) []) (values_of given.now) word.now) }
{
    match files {
        None => job_with(alloc, word, &[], given, watchers),
        Some(files) => job_with(alloc, word, files, given, watchers),
    }
}

#[tactic(auto, using(crate::proofs::ModeWords::no_word, crate::proofs::ModeWords::no_mode))]
fn job_with<'a>(
    alloc: Global,
    word: &str,
    files: &[&'a str],
    given: &OptionWords<'a>,
    watchers: &[&str],
) -> Result<Option<Job<'a>>, AllocError>
    ensures { IfOk result
        (λ job. option_map job_words job ≡ job_with (map (λ name. name.now) watchers.now) (map (λ file. file.now) files.now) (values_of given.now) word.now) }
{
    match word {
        "gate" => gate_job(alloc, files, given, watchers),
        "sim" => sim_job(alloc, files, given, watchers),
        "lrat" => lrat_job(alloc, files, given),
        "demo" => demo_job(alloc, files, given),
        _ => Ok(None),
    }
}

/// `gate LIB NETLIST OUT`, where all files are different.
fn gate_job<'a>(
    alloc: Global,
    files: &[&'a str],
    given: &OptionWords<'a>,
    watchers: &[&str],
) -> Result<Option<Job<'a>>, AllocError>
    ensures { IfOk result
        (λ job. option_map job_words job ≡ gate_job (map (λ name. name.now) watchers.now) (map (λ file. file.now) files.now) (values_of given.now)) }
{
    let [library, netlist, out] = files else {
        return Ok(None);
    };
    if !gate_files_differ(alloc, files, given)? {
        return Ok(None);
    }
    let files = GateFiles {
        library,
        netlist,
        out,
    };
    gate_with(alloc, &files, given, watchers)
}

/// The files of `gate` that have to be given.
#[derive(Clone, Copy, Debug)]
pub struct GateFiles<'a> {
    pub library: &'a str,
    pub netlist: &'a str,
    pub out: &'a str,
}

/// `gate` with these files.
fn gate_with<'a>(
    alloc: Global,
    files: &GateFiles<'a>,
    given: &OptionWords<'a>,
    watchers: &[&str],
) -> Result<Option<Job<'a>>, AllocError>
    ensures { IfOk result
        (λ job. option_map job_words job ≡ job_of_options Mode.Gate (gate_files files.now.library.now files.now.netlist.now files.now.out.now (values_of given.now))
        (gate_options (map (λ name. name.now) watchers.now) files.now.netlist.now (values_of given.now))) }
{
    let Some(options) = gate_options(alloc, watchers, files.netlist, given)? else {
        return Ok(None);
    };
    Ok(Some(Job {
        mode: Mode::Gate,
        names: gate_files(alloc, files, given)?,
        options,
    }))
}

/// Whether no two of these files and those of the options have one name.
fn gate_files_differ<'a>(
    alloc: Global,
    files: &[&'a str],
    given: &OptionWords<'a>,
) -> Result<bool, AllocError>
    ensures { IfOk result (λ differ. differ ≡ are_different (map (λ file. file.now) files.now ++ option_files (values_of given.now))) }
{
    let mut all = Vec::from_slice(alloc, files)?;
    push_files(&mut all, given)?;
    Ok(are_different(&all))
}

/// The files of `gate`, those of its options among them.
fn gate_files<'a>(
    alloc: Global,
    files: &GateFiles<'a>,
    given: &OptionWords<'a>,
) -> Result<Names<'a>, AllocError>
    ensures { IfOk result
        (λ names. files_of names ≡ gate_files files.now.library.now files.now.netlist.now files.now.out.now (values_of given.now)) }
{
    Names::of(
        alloc,
        &[
            named(Role::Library, files.library),
            named(Role::Netlist, files.netlist),
            named(
                Role::Stimulus,
                given.stim.unwrap_or(given.vcd.unwrap_or("")),
            ),
            named(Role::Hints, given.hints.unwrap_or("")),
            named(Role::Out, files.out),
            named(Role::Proof, given.proof.unwrap_or("")),
            named(Role::Report, given.report.unwrap_or("")),
            named(Role::Verilog, given.verilog.unwrap_or("")),
            named(Role::Registers, given.registers.unwrap_or("")),
        ],
    )
}

/// `sim LIB NETLIST STIM`, or `sim LIB NETLIST` with `--vcd` or `--random`.
fn sim_job<'a>(
    alloc: Global,
    files: &[&'a str],
    given: &OptionWords<'a>,
    watchers: &[&str],
) -> Result<Option<Job<'a>>, AllocError>
    ensures { IfOk result
        (λ job. option_map job_words job ≡ sim_job (map (λ name. name.now) watchers.now) (map (λ file. file.now) files.now) (values_of given.now)) }
{
    match files {
        [library, netlist] => match stimulus(given) {
            None => Ok(None),
            Some(asked) => sim_by_option(alloc, library, netlist, given, asked, watchers),
        },
        [library, netlist, rows] => {
            if given.vcd.is_some() || given.random.is_some() {
                return Ok(None);
            }
            let files = SimFiles {
                library,
                netlist,
                stimulus: Some(rows),
            };
            sim_with(alloc, StimulusForm::Rows, &files, given, watchers)
        }
        _ => Ok(None),
    }
}

/// `sim` with the stimulus that an option asks for.
fn sim_by_option<'a>(
    alloc: Global,
    library: &'a str,
    netlist: &'a str,
    given: &OptionWords<'a>,
    asked: Option<StimulusForm>,
    watchers: &[&str],
) -> Result<Option<Job<'a>>, AllocError>
    ensures { IfOk result
        (λ job. option_map job_words job ≡ sim_by_option (map (λ name. name.now) watchers.now) library.entry.now netlist.entry.now (values_of given.now) asked) }
{
    match asked {
        None => Ok(None),
        Some(StimulusForm::Rows) => Ok(None),
        Some(StimulusForm::Dump) => {
            let files = SimFiles {
                library,
                netlist,
                stimulus: given.vcd,
            };
            sim_with(alloc, StimulusForm::Dump, &files, given, watchers)
        }
        Some(StimulusForm::Random(rows)) => {
            let files = SimFiles {
                library,
                netlist,
                stimulus: None,
            };
            sim_with(alloc, StimulusForm::Random(rows), &files, given, watchers)
        }
    }
}

/// The files of `sim`; rows by chance are of none.
#[derive(Clone, Copy, Debug)]
pub struct SimFiles<'a> {
    pub library: &'a str,
    pub netlist: &'a str,
    pub stimulus: Option<&'a str>,
}

/// `sim` with a stimulus of this form, where all files are different.
fn sim_with<'a>(
    alloc: Global,
    form: StimulusForm,
    files: &SimFiles<'a>,
    given: &OptionWords<'a>,
    watchers: &[&str],
) -> Result<Option<Job<'a>>, AllocError>
    ensures { IfOk result
        (λ job. option_map job_words job ≡ sim_with (map (λ name. name.now) watchers.now) form files.now.library.now files.now.netlist.now
        (option_map (λ word. word.now) files.now.stimulus) (values_of given.now)) }
{
    if !sim_files_differ(files) {
        return Ok(None);
    }
    let Some(options) = sim_options(alloc, watchers, files.netlist, given)? else {
        return Ok(None);
    };
    Ok(Some(Job {
        mode: Mode::Sim(form),
        names: sim_files(alloc, files)?,
        options,
    }))
}

/// Whether no two files of `sim` have one name.
fn sim_files_differ(files: &SimFiles<'_>) -> bool
    ensures { result ≡ are_different (files.now.library.now ∷ files.now.netlist.now ∷ option_to_list (option_map (λ word. word.now) files.now.stimulus)) }
{
    match files.stimulus {
        None => are_different(&[files.library, files.netlist]),
        Some(stimulus) => are_different(&[files.library, files.netlist, stimulus]),
    }
}

/// The files of `sim`.
fn sim_files<'a>(alloc: Global, files: &SimFiles<'a>) -> Result<Names<'a>, AllocError>
    ensures { IfOk result (λ names. files_of names ≡ sim_files files.now.library.now files.now.netlist.now (option_map (λ word. word.now) files.now.stimulus)) }
{
    let library = named(Role::Library, files.library);
    let netlist = named(Role::Netlist, files.netlist);
    match files.stimulus {
        None => Names::of(alloc, &[library, netlist]),
        Some(stimulus) => Names::of(alloc, &[library, netlist, named(Role::Stimulus, stimulus)]),
    }
}

/// `lrat CNF PROOF`, with two different files and no option.
fn lrat_job<'a>(
    alloc: Global,
    files: &[&'a str],
    given: &OptionWords<'a>,
) -> Result<Option<Job<'a>>, AllocError>
    ensures { IfOk result (λ job. option_map job_words job ≡ lrat_job (map (λ file. file.now) files.now) (values_of given.now)) }
{
    let [formula, log] = files else {
        return Ok(None);
    };
    if !are_different(files) || has_options(given) {
        return Ok(None);
    }
    Ok(Some(Job {
        mode: Mode::Lrat,
        names: Names::of(
            alloc,
            &[named(Role::Formula, formula), named(Role::Log, log)],
        )?,
        options: no_options(alloc)?,
    }))
}

/// `demo N`, with a number from 1 to 4,096 and no option.
fn demo_job<'a>(
    alloc: Global,
    files: &[&'a str],
    given: &OptionWords<'a>,
) -> Result<Option<Job<'a>>, AllocError>
    ensures { IfOk result (λ job. option_map job_words job ≡ demo_job (map (λ file. file.now) files.now) (values_of given.now)) }
{
    let [size] = files else {
        return Ok(None);
    };
    let Some(size) = number_in(LEAST_DEMO_SIZE, MOST_DEMO_SIZE, size) else {
        return Ok(None);
    };
    if has_options(given) {
        return Ok(None);
    }
    Ok(Some(Job {
        mode: Mode::Demo(size),
        names: Names::of(alloc, &[])?,
        options: no_options(alloc)?,
    }))
}

/// The file of a role.
fn named<'a>(role: Role, name: &'a str) -> NamedFile<'a>
    ensures { file_seen result ≡ named role name.entry.now }
{
    NamedFile { role, name }
}
