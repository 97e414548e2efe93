//! The command line.

use clap::error::ErrorKind;
use clap::{Arg, ArgMatches, Command, Error, value_parser};
use command_line::SetPath;
use std::alloc::{AllocError, Global};
use std::io;
use std::rt::Env;
use std::str::FromStr;

/// What is answered, and how.
#[derive(Drop)]
pub(crate) struct Options {
    /// The file of the first set.
    pub(crate) file: SetPath,
    /// How many workers on threads of their own share the units of a switch, up to 64; none where it is worked out on
    /// the thread of the session.
    pub(crate) workers: u8,
}

fn command<'a>(alloc: Global) -> Result<Command<'a>, AllocError> {
    let workers = Arg::new(alloc, "workers")
        .long("workers")
        .value_name("N")
        .help("How many workers share the units of a switch, 0 to 64")
        .value_parser(value_parser!(u8).range(0..=64));
    let script = Command::new(alloc, "script")
        .about("Answers the commands on standard input, a line each, on standard output")
        .arg(
            Arg::new(alloc, "dir")
                .long("dir")
                .value_name("DIR")
                .required(true),
        )?
        .arg(
            Arg::new(alloc, "set")
                .long("set")
                .value_name("NAME")
                .required(true),
        )?
        .arg(workers)?;
    Command::new(alloc, "seat_script")
        .about("Answers a script by one seat of a service")
        .subcommand_required(true)
        .subcommand(script)
}

// An error of the command line, with its text.
fn error_of(alloc: Global, kind: ErrorKind, text: &str) -> Result<Error, AllocError> {
    let mut command = command(alloc)?;
    command.error(kind, text)
}

fn text_of(alloc: Global, matches: &ArgMatches<'_>, id: &str) -> Result<String, AllocError> {
    String::from_str(alloc, matches.get_str(id).unwrap_or(""))
}

fn options_of(alloc: Global, words: &[String]) -> Result<Options, Error> {
    let matches = command(alloc)?.try_get_matches_from(words)?;
    let Some((_, found)) = matches.subcommand() else {
        return Err(error_of(alloc, ErrorKind::MissingSubcommand, "no command is given")?);
    };
    Ok(Options {
        file: SetPath {
            dir: text_of(alloc, found, "dir")?,
            set: text_of(alloc, found, "set")?,
        },
        workers: found.get_one("workers").unwrap_or(0),
    })
}

// The words of the command line. Words that are no text are a wrong command line.
fn words<R: Env + AllocGlobal>(rt: &R) -> Result<Vec<String>, Error> {
    match std::env::args(rt) {
        Ok(args) => Ok(args.collect::<Vec<String>>(rt.alloc())?),
        Err(error) if error.kind() == io::ErrorKind::OutOfMemory => Err(Error::from(AllocError)),
        Err(_) => Err(error_of(rt.alloc(), ErrorKind::InvalidValue, "a word is no text")?),
    }
}

/// What the command line asks for. An error of kind `OutOfMemory` says that memory could not be had.
pub(crate) fn read<R: Env + AllocGlobal>(rt: &R) -> Result<Options, Error> {
    let words = words(rt)?;
    options_of(rt.alloc(), words.as_slice())
}
