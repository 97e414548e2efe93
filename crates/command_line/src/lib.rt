//! The command line of `spand`.
#![tactic(auto)]

use clap::error::ErrorKind;
use clap::{Arg, ArgMatches, Command, Error, value_parser};
use std::alloc::{AllocError, Global};
use std::io;
use std::rt::Env;
use std::str::FromStr;

/// The version of the program, and the logic of the toolchain that proved it, as `rt version` names it.
const VERSION: &str = "0.3.0 (logic dac8208d650f15bf)";

/// The file of a parameter set, DIR/NAME.csv.
#[derive(Drop)]
pub struct SetPath {
    /// The folder of the sets.
    pub dir: String,
    /// The name of the set, as it was given.
    pub set: String,
}

/// What a server is to serve, and where.
#[derive(Drop)]
pub struct ServerOptions {
    /// The file of its first set.
    pub file: SetPath,
    /// The port that it listens on, from 1.
    pub port: u16,
    /// How many sessions it serves, 1 to 16.
    pub sessions: u8,
}

/// What the command line asks for.
#[derive(Drop)]
pub enum Invocation {
    /// `script`: lines on standard input are answered on standard output, under a set.
    Script(SetPath),
    /// `serve`: the lines of several connections are answered, each a session.
    Serve(ServerOptions),
    /// `check`: what a set has is told, or why its file is none.
    Check(SetPath),
}

// An option that each command must be given, with a value.
fn needed<'a>(alloc: Global, name: &'a str, value: &'a str, help: &'a str) -> Arg<'a> {
    Arg::new(alloc, name)
        .long(name)
        .value_name(value)
        .help(help)
        .required(true)
}

// A command over the file of a set.
fn over_a_set<'a>(alloc: Global, name: &'a str, about: &'a str) -> Result<Command<'a>, AllocError> {
    Command::new(alloc, name)
        .about(about)
        .arg(needed(alloc, "dir", "DIR", "The folder of the parameter sets"))?
        .arg(needed(
            alloc,
            "set",
            "NAME",
            "The parameter set, the file DIR/NAME.csv",
        ))
}

fn serve_command<'a>(alloc: Global) -> Result<Command<'a>, AllocError> {
    let port = needed(
        alloc,
        "port",
        "N",
        "The port to listen on, of this machine alone",
    )
    .value_parser(value_parser!(u16).range(1..));
    let sessions = needed(
        alloc,
        "sessions",
        "K",
        "How many sessions to serve, 1 to 16",
    )
    .value_parser(value_parser!(u8).range(1..=16));
    over_a_set(
        alloc,
        "serve",
        "Answers the commands of several connections, a session each, and ends with the last",
    )?
    .arg(port)?
    .arg(sessions)
}

fn command<'a>(alloc: Global) -> Result<Command<'a>, AllocError> {
    let script = over_a_set(
        alloc,
        "script",
        "Answers the commands on standard input, a line each, on standard output",
    )?;
    let check = over_a_set(
        alloc,
        "check",
        "Tells what a parameter set has, or why its file is none",
    )?;
    Command::new(alloc, "spand")
        .about("Margin and order credit for clearing members")
        .version(VERSION)
        .subcommand_required(true)
        .subcommand(script)?
        .subcommand(serve_command(alloc)?)?
        .subcommand(check)
}

// An error of the command line, with its text.
fn error_of(alloc: Global, kind: ErrorKind, text: &str) -> Result<Error, AllocError> {
    let mut command = command(alloc)?;
    command.error(kind, text)
}

fn text_of(alloc: Global, matches: &ArgMatches<'_>, id: &str) -> Result<String, AllocError> {
    String::from_str(alloc, matches.get_str(id).unwrap_or(""))
}

fn set_path(alloc: Global, matches: &ArgMatches<'_>) -> Result<SetPath, AllocError> {
    let dir = text_of(alloc, matches, "dir")?;
    let set = text_of(alloc, matches, "set")?;
    Ok(SetPath { dir, set })
}

// The number of an option, which the parser has found within its range.
fn number_of<T: FromStr>(alloc: Global, matches: &ArgMatches<'_>, id: &str) -> Result<T, Error>
where
    T::Err: Drop,
{
    match matches.get_one(id) {
        Some(number) => Ok(number),
        None => Err(error_of(alloc, ErrorKind::InvalidValue, "a number is missing")?),
    }
}

fn server_options(alloc: Global, found: &ArgMatches<'_>) -> Result<ServerOptions, Error> {
    Ok(ServerOptions {
        file: set_path(alloc, found)?,
        port: number_of(alloc, found, "port")?,
        sessions: number_of(alloc, found, "sessions")?,
    })
}

// What the words that were found ask for.
fn invocation_in(alloc: Global, matches: &ArgMatches<'_>) -> Result<Invocation, Error> {
    match matches.subcommand() {
        Some(("script", found)) => Ok(Invocation::Script(set_path(alloc, found)?)),
        Some(("serve", found)) => Ok(Invocation::Serve(server_options(alloc, found)?)),
        Some(("check", found)) => Ok(Invocation::Check(set_path(alloc, found)?)),
        _ => Err(error_of(alloc, ErrorKind::MissingSubcommand, "no command is given")?),
    }
}

fn invocation_of(alloc: Global, words: &[String]) -> Result<Invocation, Error> {
    let matches = command(alloc)?.try_get_matches_from(words)?;
    invocation_in(alloc, &matches)
}

// The words of the command line. Words that are no text are a wrong command line.
fn words<R: Env + AllocGlobal>(rt: &R) -> Result<Vec<String>, Error> {
    match std::env::args(rt) {
        Ok(args) => Ok(args.collect::<Vec<String>>(rt.alloc())?),
        Err(error) if error.kind() == io::ErrorKind::OutOfMemory => Err(Error::from(AllocError)),
        Err(_) => Err(error_of(rt.alloc(), ErrorKind::InvalidValue, "a word is no text")?),
    }
}

/// What the command line asks for. An error of kind `OutOfMemory` says that memory could not be had; any other is told
/// to the caller of the program.
pub fn read<R: Env + AllocGlobal>(rt: &R) -> Result<Invocation, Error> {
    let words = words(rt)?;
    invocation_of(rt.alloc(), words.as_slice())
}
