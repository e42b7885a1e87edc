// varc: the command line. What matters is in the libraries; here are arguments, files and messages.
#![tactic(auto)]

mod encode_lines;
mod sum;

use std::process::ExitCode;
use std::{env, fmt, io};

const USAGE: &str = "varc: variable composites of OpenType fonts (the VARC table)

usage: varc sum FILE...    the checksum and the length of each file, as a font's table directory has them
       varc encode         the bytes of each line of standard input, in hex: 'number N', 'packed V V ...', or
                           'index HEX HEX ...' where '-' is an empty item
       varc --help         this text

varc ends with status 0 where everything was done, and with 1 where anything was refused.";

// Why varc ends with status 1.
#[derive(Debug, Drop)]
enum Failure {
    // Something was refused, and standard error says what.
    Refused,
    Arguments(io::Error),
    Input(io::Error),
    Output(io::Error),
}

impl fmt::Display for Failure {
    fn fmt<W: fmt::Write>(&self, f: &mut fmt::Formatter<W>) -> fmt::Result {
        match self {
            Failure::Refused => write!(f, "refused"),
            Failure::Arguments(e) => write!(f, "the arguments cannot be read: {e}"),
            Failure::Input(e) => write!(f, "standard input cannot be read: {e}"),
            Failure::Output(e) => write!(f, "the output cannot be written: {e}"),
        }
    }
}

impl From<io::Error> for Failure {
    fn from(error: io::Error) -> Failure {
        Failure::Output(error)
    }
}

fn run(rt: &HostRuntime) -> Result<(), Failure> {
    let mut args = env::args(rt).map_err(Failure::Arguments)?;
    let _ = args.next();
    let Some(command) = args.next() else {
        return Ok(println!(rt; "{USAGE}")?);
    };
    match command.as_str() {
        "sum" => sum::sum(rt, args),
        "encode" => {
            if let Some(word) = args.next() {
                eprintln!(rt; "varc: encode reads standard input and takes no '{word}'")?;
                return Err(Failure::Refused);
            }
            encode_lines::encode(rt)
        }
        "--help" | "-h" | "help" => Ok(println!(rt; "{USAGE}")?),
        other => {
            eprintln!(rt; "varc: no command '{other}'; 'varc --help' lists them")?;
            Err(Failure::Refused)
        }
    }
}

// A refusal is said where it is met, so that only what cannot be read or written is left to say here.
fn main(rt: HostRuntime) -> ExitCode {
    match run(&rt) {
        Ok(()) => ExitCode::SUCCESS,
        Err(Failure::Refused) => ExitCode::FAILURE,
        Err(failure) => {
            let _ = eprintln!(rt; "varc: {failure}");
            ExitCode::FAILURE
        }
    }
}
