//! What all programs do at the console: answer a program text, and say why they end with an error.
#![tactic(auto)]

ghost use Rattle.std.specs.Prelude.{◌≡◌, if◌then◌else◌, is_ok};
ghost use Rattle.std.specs.Process.{exit_status};

use programs::threads::Program;
use std::io;
use std::io::Read;
use std::process::ExitCode;

/// The text on standard input, or as much of it as shows that it is too long. No contract can say what is read.
pub fn input(rt: &HostRuntime) -> io::Result<Vec<u8>> {
    let mut text = Vec::new(rt.alloc());
    let limit = reader::MAX_TEXT as u64 + 1;
    rt.stdin().take(limit).read_to_end(&mut text)?;
    Ok(text)
}

/// Hands a program's result on; an error is printed on standard error behind the program's name.
pub fn ended(rt: &HostRuntime, program: &str, outcome: anyhow::Result<()>) -> anyhow::Result<()>
    ensures { result ≡ outcome }
{
    if let Err(error) = &outcome {
        let _ = eprintln!(rt; "{program}: {error}");
    }
    outcome
}

/// Answers the text on standard input: by what is printed of its program, or by the line of its refusal. No contract can say what is printed.
pub fn answer<F: FnOnce(&Program) -> io::Result<()>>(rt: &HostRuntime, print: F) -> io::Result<()>
    requires { F.IsAlwaysCallable print }
{
    let text = input(rt)?;
    match reader::read(text.as_slice()) {
        Ok(program) => print(&program),
        Err(fault) => println!(rt; "{fault}"),
    }
}

/// The exit status of a program that ends with this result.
pub fn status(rt: &HostRuntime, program: &str, outcome: anyhow::Result<()>) -> ExitCode
    ensures { exit_status result ≡ (if is_ok outcome then 0 else 1) }
{
    match ended(rt, program, outcome) {
        Ok(()) => ExitCode::SUCCESS,
        Err(_) => ExitCode::FAILURE,
    }
}
