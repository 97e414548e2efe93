//! Measures what single calls cost: those on lots by the word `lists`, the parts of a desk by `parts`, stages and credits by
//! `stages`. Does nothing without one of these words.
#![tactic(auto)]

mod costs;
mod credit_run;
mod lists;
mod lots_run;
mod nets;
mod option_run;
mod parts;
mod plain_run;
mod runs;
mod scan_run;
mod side;
mod stages;
mod tier_run;

use anyhow::Result;
use std::env;

fn main(rt: HostRuntime) -> Result<()> {
    for word in env::args(&rt)? {
        if word.as_str() == "lists" {
            lists::run(&rt)?;
        } else if word.as_str() == "parts" {
            parts::run(&rt)?;
        } else if word.as_str() == "stages" {
            stages::run(&rt)?;
        }
    }
    Ok(())
}
