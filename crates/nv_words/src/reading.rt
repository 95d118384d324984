//! Reads the words of the command line.
ghost use Rattle.std.specs.Prelude.{◌≡◌, ◌⊎◌, ◌≤◌, [], Err, IfErr, IfOk, OnOk, Some, None, map, IfSome, codes, false};
ghost use Rattle.std.specs.Option.{option_map};
ghost use Rattle.clap.specs.Words.{IsAmong, app_of, fault_of, first_of, found_of, one_of, rows_of, rule_of, subcommand_of, subcommand_rows_of};
ghost use Rattle.nv_words.specs.Commands.{AreWords, HasFairNumbers, buffer_rule, check_rule, command_asked, command_of_name, command_of_rows, embed_app, follow_app, follow_of_rows, generate_app, is_flagged, notice_of_kind, number_rule, number_spelled, outbox_rule, plain_command, program_app, replay_app, replay_of_rows, serve_app, serve_of_rows, sessions_rule, shows, text_given, version_rule};
ghost use Rattle.nv_words.specs.declared.command.Notice.{Notice};

use crate::command::{Command, Notice, Refusal};
use clap::error::ErrorKind;
use clap::{Arg, ArgAction, ArgMatches, value_parser};
use std::alloc::{AllocError, Global};

// `--outbox N`, as `clap` builds it.
fn outbox<'a>(alloc: Global) -> Arg<'a>
    ensures rule { rule_of result ≡ outbox_rule }
    ensures local { result.global ≡ false }
{
    Arg::new(alloc, "outbox")
        .long("outbox")
        .value_parser(value_parser!(u64).range(16..1_048_577))
        .default_value("4096")
}

// `--sessions N`, as `clap` builds it.
fn sessions<'a>(alloc: Global) -> Arg<'a>
    ensures rule { rule_of result ≡ sessions_rule }
    ensures local { result.global ≡ false }
{
    Arg::new(alloc, "sessions")
        .long("sessions")
        .value_parser(value_parser!(u64).range(1..257))
        .default_value("64")
}

// `--check`, as `clap` builds it.
fn check<'a>(alloc: Global) -> Arg<'a>
    ensures rule { rule_of result ≡ check_rule }
    ensures local { result.global ≡ false }
{
    Arg::new(alloc, "check")
        .long("check")
        .action(ArgAction::SetTrue)
}

// The `N` of `generate`, as `clap` builds it.
fn number<'a>(alloc: Global) -> Arg<'a>
    ensures rule { rule_of result ≡ number_rule }
    ensures local { result.global ≡ false }
{
    Arg::new(alloc, "number")
        .value_parser(value_parser!(u64))
        .required(true)
}

// The `B` of `follow`, as `clap` builds it.
fn buffer<'a>(alloc: Global) -> Arg<'a>
    ensures rule { rule_of result ≡ buffer_rule }
    ensures local { result.global ≡ false }
{
    Arg::new(alloc, "buffer")
        .value_parser(value_parser!(u64).range(1..4_611_686_018_427_387_905))
        .required(true)
}

// `--version`, as `clap` builds it.
fn version<'a>(alloc: Global) -> Arg<'a>
    ensures rule { rule_of result ≡ version_rule }
    ensures local { result.global ≡ false }
{
    Arg::new(alloc, "version")
        .long("version")
        .action(ArgAction::Version)
}

// `embed`, as `clap` builds it.
fn embed<'a>(alloc: Global) -> Result<clap::Command<'a>, AllocError>
    ensures { IfOk result (λ command. app_of command ≡ embed_app) }
{
    clap::Command::new(alloc, "embed").arg(outbox(alloc))
}

// `serve`, as `clap` builds it.
fn serve<'a>(alloc: Global) -> Result<clap::Command<'a>, AllocError>
    ensures { IfOk result (λ command. app_of command ≡ serve_app) }
{
    let listen = Arg::new(alloc, "listen").long("listen").required(true);
    let book = Arg::new(alloc, "book").long("book");
    clap::Command::new(alloc, "serve")
        .arg(listen)?
        .arg(sessions(alloc))?
        .arg(outbox(alloc))?
        .arg(book)
}

// `replay`, as `clap` builds it.
fn replay<'a>(alloc: Global) -> Result<clap::Command<'a>, AllocError>
    ensures { IfOk result (λ command. app_of command ≡ replay_app) }
{
    let file = Arg::new(alloc, "file").required(true);
    clap::Command::new(alloc, "replay")
        .arg(file)?
        .arg(check(alloc))
}

// `generate`, as `clap` builds it.
fn generate<'a>(alloc: Global) -> Result<clap::Command<'a>, AllocError>
    ensures { IfOk result (λ command. app_of command ≡ generate_app) }
{
    clap::Command::new(alloc, "generate").arg(number(alloc))
}

// `follow`, as `clap` builds it.
fn follow<'a>(alloc: Global) -> Result<clap::Command<'a>, AllocError>
    ensures { IfOk result (λ command. app_of command ≡ follow_app) }
{
    let address = Arg::new(alloc, "address").required(true);
    clap::Command::new(alloc, "follow")
        .arg(address)?
        .arg(buffer(alloc))
}

// The command line of the program, as `clap` builds it.
fn program<'a>(alloc: Global) -> Result<clap::Command<'a>, AllocError>
    ensures { IfOk result (λ command. app_of command ≡ program_app) }
{
    let whole = clap::Command::new(alloc, "nvimd")
        .arg(version(alloc))?
        .subcommand(embed(alloc)?)?
        .subcommand(serve(alloc)?)?
        .subcommand(replay(alloc)?)?
        .subcommand(generate(alloc)?)?
        .subcommand(follow(alloc)?)?
        .subcommand(clap::Command::new(alloc, "help"))?;
    let ours = whole.no_binary_name(true).disable_help_subcommand(true);
    Ok(ours.subcommand_required(true))
}

// What `clap` makes of the words, or the kind of its answer.
fn matches_of<'a>(alloc: Global, words: &'a [&'a str]) -> Result<ArgMatches<'a>, ErrorKind>
    ensures taken { OnOk result (fault_of program_app (map (λ word. word.now) words.now) ≡ []) }
    ensures command { IfOk result (λ matches. subcommand_rows_of matches
        ≡ subcommand_of program_app (map (λ word. word.now) words.now)) }
    ensures kind { IfErr result (λ kind. (kind ≡ ErrorKind.OutOfMemory)
        ⊎ IsAmong kind (fault_of program_app (map (λ word. word.now) words.now))) }
{
    let Ok(mut program) = program(alloc) else {
        return Err(ErrorKind::OutOfMemory);
    };
    match program.try_get_matches_from_mut(words) {
        Ok(matches) => Ok(matches),
        Err(error) => Err(error.kind()),
    }
}

// What `clap` is asked for by words that it answers itself.
fn notice_of(kind: ErrorKind) -> Option<Notice>
    ensures { result ≡ notice_of_kind kind }
{
    match kind {
        ErrorKind::DisplayHelp => Some(Notice::Help),
        ErrorKind::DisplayVersion => Some(Notice::Version),
        _ => None,
    }
}

// What words ask for to which `clap` has an answer of a kind.
fn answer_of<'a>(kind: ErrorKind) -> Result<Command<'a>, Refusal>
    ensures command { IfOk result (λ command.
        (notice : Notice) × (notice_of_kind kind ≡ Some notice)
        × (plain_command command ≡ shows notice)) }
    ensures range { IfOk result (λ command. HasFairNumbers (plain_command command)) }
    ensures refused { result ≡ Err Refusal.BadWords
        → (notice_of_kind kind ≡ None) × (kind ≡ ErrorKind.OutOfMemory → ⊥) }
{
    if let Some(notice) = notice_of(kind) {
        return Ok(Command::Show { notice });
    }
    if kind == ErrorKind::OutOfMemory {
        Err(Refusal::NoMemory)
    } else {
        Err(Refusal::BadWords)
    }
}

// The capacity of an outbox. `clap` has let through numbers from 16 to 1,048,576 alone.
fn outbox_of(matches: &ArgMatches<'_>) -> Option<u32>
    ensures value { IfSome result (λ outbox. outbox
        ≡ number_spelled (one_of (codes "outbox") (rows_of (found_of matches.now)))) }
    ensures range { IfSome result (λ outbox. (16 ≤ outbox) × (outbox ≤ 1048576)) }
{
    let number = matches.get_one::<u64>("outbox")?;
    if number < 16 || number > 1_048_576 {
        return None;
    }
    Some(number as u32)
}

// How many sessions run at once. `clap` has let through numbers from 1 to 256 alone.
fn sessions_of(matches: &ArgMatches<'_>) -> Option<usize>
    ensures value { IfSome result (λ sessions. sessions
        ≡ number_spelled (one_of (codes "sessions") (rows_of (found_of matches.now)))) }
    ensures range { IfSome result (λ sessions. (1 ≤ sessions) × (sessions ≤ 256)) }
{
    let number = matches.get_one::<u64>("sessions")?;
    if number < 1 || number > 256 {
        return None;
    }
    Some(number as usize)
}

// The number of a script.
fn number_of(matches: &ArgMatches<'_>) -> Option<u64>
    ensures { IfSome result (λ number. number
        ≡ number_spelled (one_of (codes "number") (rows_of (found_of matches.now)))) }
{
    matches.get_one::<u64>("number")
}

// The address to listen on.
fn address_of<'a>(matches: &ArgMatches<'a>) -> Option<&'a str>
    ensures { IfSome result (λ address. address.now
        ≡ text_given (first_of (codes "listen") (rows_of (found_of matches.now)))) }
{
    matches.get_str("listen")
}

// The address to connect to.
fn server_of<'a>(matches: &ArgMatches<'a>) -> Option<&'a str>
    ensures { IfSome result (λ address. address.now
        ≡ text_given (first_of (codes "address") (rows_of (found_of matches.now)))) }
{
    matches.get_str("address")
}

// The number of a buffer. `clap` has let through numbers from 1 to 2^62 alone.
fn buffer_of(matches: &ArgMatches<'_>) -> Option<u64>
    ensures value { IfSome result (λ buffer. buffer
        ≡ number_spelled (one_of (codes "buffer") (rows_of (found_of matches.now)))) }
    ensures range { IfSome result (λ buffer. (1 ≤ buffer) × (buffer ≤ 4611686018427387904)) }
{
    let number = matches.get_one::<u64>("buffer")?;
    if number < 1 || number > 4_611_686_018_427_387_904 {
        return None;
    }
    Some(number)
}

// The file that holds the book.
fn file_of<'a>(matches: &ArgMatches<'a>) -> Option<&'a str>
    ensures { IfSome result (λ file. file.now
        ≡ text_given (first_of (codes "file") (rows_of (found_of matches.now)))) }
{
    matches.get_str("file")
}

// The file that the book goes to, where one is named.
fn book_of<'a>(matches: &ArgMatches<'a>) -> Option<&'a str>
    ensures { option_map (λ name. name.now) result
        ≡ first_of (codes "book") (rows_of (found_of matches.now)) }
{
    matches.get_str("book")
}

// Whether `--check` is among the words.
fn has_check(matches: &ArgMatches<'_>) -> bool
    ensures { result ≡ is_flagged (first_of (codes "check") (rows_of (found_of matches.now))) }
{
    match matches.get_str("check") {
        Some(text) => text == "true",
        None => false,
    }
}

// `serve` with its values.
fn serve_of<'a>(found: &ArgMatches<'a>) -> Option<Command<'a>>
    ensures command { IfSome result (λ command.
        plain_command command ≡ serve_of_rows (rows_of (found_of found.now))) }
    ensures range { IfSome result (λ command. HasFairNumbers (plain_command command)) }
{
    let address = address_of(found)?;
    let sessions = sessions_of(found)?;
    let outbox = outbox_of(found)?;
    Some(Command::Serve {
        address,
        sessions,
        outbox,
        book: book_of(found),
    })
}

// `replay` with its values.
fn replay_of<'a>(found: &ArgMatches<'a>) -> Option<Command<'a>>
    ensures command { IfSome result (λ command.
        plain_command command ≡ replay_of_rows (rows_of (found_of found.now))) }
    ensures range { IfSome result (λ command. HasFairNumbers (plain_command command)) }
{
    Some(Command::Replay {
        file: file_of(found)?,
        check: has_check(found),
    })
}

// `follow` with its values.
fn follow_of<'a>(found: &ArgMatches<'a>) -> Option<Command<'a>>
    ensures command { IfSome result (λ command.
        plain_command command ≡ follow_of_rows (rows_of (found_of found.now))) }
    ensures range { IfSome result (λ command. HasFairNumbers (plain_command command)) }
{
    let address = server_of(found)?;
    let buffer = buffer_of(found)?;
    Some(Command::Follow { address, buffer })
}

// The command of a subcommand's name with its values.
fn command_of<'a>(name: &str, found: &ArgMatches<'a>) -> Option<Command<'a>>
    ensures command { IfSome result (λ command.
        command_of_name name.now (rows_of (found_of found.now)) ≡ Some (plain_command command)) }
    ensures range { IfSome result (λ command. HasFairNumbers (plain_command command)) }
{
    if name == "embed" {
        let outbox = outbox_of(found)?;
        return Some(Command::Embed { outbox });
    }
    if name == "serve" {
        return serve_of(found);
    }
    if name == "replay" {
        return replay_of(found);
    }
    if name == "generate" {
        let number = number_of(found)?;
        return Some(Command::Generate { number });
    }
    if name == "follow" {
        return follow_of(found);
    }
    if name == "help" {
        let notice = Notice::Help;
        return Some(Command::Show { notice });
    }
    None
}

// The command of the subcommand that `clap` found.
fn command_in<'a>(matches: &ArgMatches<'a>) -> Result<Command<'a>, Refusal>
    ensures command { IfOk result (λ command.
        command_of_rows (subcommand_rows_of matches.now) ≡ Some (plain_command command)) }
    ensures range { IfOk result (λ command. HasFairNumbers (plain_command command)) }
    ensures refused { result ≡ Err Refusal.BadWords → ⊥ }
{
    let Some((name, found)) = matches.subcommand() else {
        return Err(Refusal::NoMemory);
    };
    match command_of(name, found) {
        Some(command) => Ok(command),
        None => Err(Refusal::NoMemory),
    }
}

/// The command that the words ask for; they are without the program's name. Where `clap` would show
/// its help or version, that is the command. Words that it refuses for another cause than want of
/// memory are `BadWords`.
pub fn read_words<'a>(alloc: Global, words: &'a [&'a str]) -> Result<Command<'a>, Refusal>
    ensures taken { OnOk result (AreWords (map (λ word. word.now) words.now)) }
    ensures command { IfOk result (λ command.
        command_asked (map (λ word. word.now) words.now) ≡ Some (plain_command command)) }
    ensures range { IfOk result (λ command. HasFairNumbers (plain_command command)) }
    ensures refused { result ≡ Err Refusal.BadWords
        → AreWords (map (λ word. word.now) words.now) → ⊥ }
{
    match matches_of(alloc, words) {
        Ok(matches) => command_in(&matches),
        Err(kind) => answer_of(kind),
    }
}
