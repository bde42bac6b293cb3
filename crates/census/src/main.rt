//! The program `census`: its arguments, its standard streams and its exit status, and what people see at a terminal in addition
//! to the output of a command.
#![tactic(auto)]

mod announced;
mod line;
mod pace;
mod progress;
mod screen;
mod short_name;
mod shown;
mod slots;

use announced::Announced;
use census_command::{Streams, program};
use progress::Progress;
use screen::Screen;
use shown::Shown;
use std::io::IsTerminal;
use std::process::ExitCode;
use std::{env, io};

fn main(rt: HostRuntime) -> ExitCode {
    let is_terminal = rt.stderr().is_terminal();
    let screen = Screen::new(&rt, is_terminal);
    let input = Announced::new(rt.reader(), rt.stdin().is_terminal(), &screen);
    let output = Shown::new(io::writer(&rt), rt.stdout().is_terminal(), &screen);
    let errors = Shown::new(rt.stderr(), is_terminal, &screen);
    let status = program(
        &rt,
        &rt,
        rt.alloc(),
        env::args(&rt),
        &mut Progress::new(&screen),
        is_terminal,
        &mut Streams::new(input, output, errors),
    );
    screen.wipe();
    status
}
