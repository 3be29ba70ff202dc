//! Trip books from the command line.
#![tactic(auto)]

mod checks;
mod days;

use anyhow::anyhow;
use checks::check_file;
use days::refile_day;
use std::env;

const USAGE: &str = "usage: tripbook refile IN OUT, or tripbook check FILE [--order author|number]";

// `check FILE`, or `check FILE --order ORDER`.
fn check(rt: &HostRuntime, words: &[String]) -> anyhow::Result<()> {
    match words {
        [file] => check_file(rt, file.as_str(), None),
        [file, flag, order] if flag.as_str() == "--order" => check_file(
            rt,
            file.as_str(),
            Some(order.as_str()),
        ),
        _ => Err(anyhow!(USAGE)),
    }
}

// What the program is asked to do: the first word is its own name.
fn run(rt: &HostRuntime) -> anyhow::Result<()> {
    let words: Vec<String> = env::args(rt)?.collect(rt.alloc())?;
    match words.as_slice() {
        [_, command, from, to] if command.as_str() == "refile" => refile_day(
            rt,
            from.as_str(),
            to.as_str(),
        ),
        [_, command, rest @ ..] if command.as_str() == "check" => check(rt, rest),
        _ => Err(anyhow!(USAGE)),
    }
}

fn main(rt: HostRuntime) -> anyhow::Result<()> {
    run(&rt)
}
