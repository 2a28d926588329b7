//! The program's commands.

ghost use Rattle.std.specs.Prelude.{◌≡◌, IfOk, fold};
ghost use Rattle.clap.specs.Words.{app_of};
ghost use Rattle.cut_command_line.specs.options.Options.{program_app};
ghost use Rattle.cut_command_line.specs.options.inside.Options.{bare_app, with_command};

use crate::options::arguments::{Argument, PLAN_HELP};
use clap::Command;
use std::alloc::{AllocError, Global};

/// What `--version` prints after the program's name: its version, and that of the kit that it is proved with.
const VERSION: &str = "0.9.0 (proved with rattle-kit-13f)";

/// What follows the help of the program: where a plan is read from, and where to read more.
const GUIDE: &str =
    "A plan is read from a file that is named, or from standard input. See docs/GUIDE.md.";

const RUN_EXAMPLE: &str =
    "Example: cutlab run --workers 4 --checkpoint study.cut plan.json\nWithout PLAN it is awaited on standard input, also where that is a terminal: Ctrl-D ends it.\nSee docs/GUIDE.md.";

const CHECK_EXAMPLE: &str = "Example: cutlab check plan.json\nSee docs/GUIDE.md.";

const EXPLAIN_EXAMPLE: &str = "Example: cutlab explain plan.json\nSee docs/GUIDE.md.";

const CANONICAL_EXAMPLE: &str =
    "Example: cutlab canonical plan.json > canonical.json\nSee docs/GUIDE.md.";

const STATUS_EXAMPLE: &str = "Example: cutlab status study.cut\nSee docs/GUIDE.md.";

const SERVE_EXAMPLE: &str =
    "Example: cutlab serve cutlab.sock --workers 4 --sessions 2 --studies 2 --dir studies\nSee docs/GUIDE.md.";

const ASK_EXAMPLE: &str = "Example: cutlab ask cutlab.sock --plan plan.json\nSee docs/GUIDE.md.";

const MIGRATE_EXAMPLE: &str =
    "Example: cutlab migrate study.cut study2.cut --plan plan.json\nSee docs/GUIDE.md.";

const SHARE_EXAMPLE: &str =
    "Example: cutlab share 2/8 --workers 4 share2.cut --plan plan.json\nAll shares of a study take one and the same --piece.\nSee docs/GUIDE.md.";

const JOIN_EXAMPLE: &str =
    "Example: cutlab join study.cut share1.cut share2.cut --plan plan.json\nAll shares of a study take one and the same --piece.\nSee docs/GUIDE.md.";

/// What the help says of the flag `--progress`.
const PROGRESS_HELP: &str =
    "Say on standard error, at most once a second, how many trials are done";

/// What the help says of the word `SOCKET`.
const SOCKET_HELP: &str = "The path of the server's socket";

/// The option that names the file of a plan.
const PLAN_OPTION: Argument<'static> = Argument::Value {
    name: "plan",
    value_name: "FILE",
    help: PLAN_HELP,
};

/// How `share` is used.
pub const SHARE_USAGE: &str = "cutlab share [OPTIONS] <I/N> <FILE>";

/// How `join` is used.
pub const JOIN_USAGE: &str = "cutlab join [OPTIONS] <NEW> <OLD>...";

/// A command: its name, how it is used, what its help says before its arguments and after them, and these arguments.
#[derive(Clone, Copy)]
struct Described<'a> {
    name: &'a str,
    usage: &'a str,
    about: &'a str,
    example: &'a str,
    args: &'a [Argument<'a>],
}

/// The command `run`.
const RUN: Described<'static> = Described {
    name: "run",
    usage: "cutlab run [OPTIONS] [PLAN]",
    about: "Read a plan and print its table",
    example: RUN_EXAMPLE,
    args: &[
        Argument::Piece,
        Argument::Workers,
        Argument::Value {
            name: "checkpoint",
            value_name: "FILE",
            help: "Keep the study in this file, and go on from what it holds",
        },
        Argument::Flag {
            name: "progress",
            help: PROGRESS_HELP,
        },
        Argument::Plan,
    ],
};

/// The command `check`.
const CHECK: Described<'static> = Described {
    name: "check",
    usage: "cutlab check [PLAN]",
    about: "Read a plan and print its cells, its trials and the quorum",
    example: CHECK_EXAMPLE,
    args: &[Argument::Plan],
};

/// The command `explain`.
const EXPLAIN: Described<'static> = Described {
    name: "explain",
    usage: "cutlab explain [PLAN]",
    about: "Read a plan and say in words what is right or wrong with it",
    example: EXPLAIN_EXAMPLE,
    args: &[Argument::Plan],
};

/// The command `canonical`.
const CANONICAL: Described<'static> = Described {
    name: "canonical",
    usage: "cutlab canonical [PLAN]",
    about: "Read a plan and print its canonical text",
    example: CANONICAL_EXAMPLE,
    args: &[Argument::Plan],
};

/// The command `status`.
const STATUS: Described<'static> = Described {
    name: "status",
    usage: "cutlab status <FILE>",
    about: "Print what a checkpoint holds, also while a study writes it",
    example: STATUS_EXAMPLE,
    args: &[Argument::Word {
        name: "file",
        value_name: "FILE",
        help: "The checkpoint, which is only read",
    }],
};

/// The command `serve`.
const SERVE: Described<'static> = Described {
    name: "serve",
    usage: "cutlab serve [OPTIONS] --workers <COUNT> --sessions <COUNT> --studies <COUNT> <SOCKET>",
    about: "Serve clients at a socket, and print how many trials were accepted",
    example: SERVE_EXAMPLE,
    args: &[
        Argument::Word {
            name: "socket",
            value_name: "SOCKET",
            help: SOCKET_HELP,
        },
        Argument::Count {
            name: "workers",
            help: "How many threads work on the studies, from 1 to 64",
        },
        Argument::Count {
            name: "sessions",
            help: "How many connections are taken, from 1 to 64",
        },
        Argument::Count {
            name: "studies",
            help: "For how many studies there is room, from 1 to 64",
        },
        Argument::Value {
            name: "dir",
            value_name: "DIR",
            help: "Keep each study in a file of this folder, and go on from what it holds",
        },
    ],
};

/// The command `ask`.
const ASK: Described<'static> = Described {
    name: "ask",
    usage: "cutlab ask [OPTIONS] <SOCKET>",
    about: "Read a plan, ask a server for its table and print it",
    example: ASK_EXAMPLE,
    args: &[
        Argument::Word {
            name: "socket",
            value_name: "SOCKET",
            help: SOCKET_HELP,
        },
        PLAN_OPTION,
    ],
};

/// The command `migrate`.
const MIGRATE: Described<'static> = Described {
    name: "migrate",
    usage: "cutlab migrate [OPTIONS] <OLD> <NEW>",
    about: "Move a checkpoint of version 1 to a new one of version 2",
    example: MIGRATE_EXAMPLE,
    args: &[
        Argument::Word {
            name: "old",
            value_name: "OLD",
            help: "The checkpoint of version 1, which stays as it is",
        },
        Argument::Word {
            name: "new",
            value_name: "NEW",
            help: "The file of the new checkpoint, which holds no study",
        },
        PLAN_OPTION,
    ],
};

/// The command `share`.
const SHARE: Described<'static> = Described {
    name: "share",
    usage: SHARE_USAGE,
    about: "Run a share of a plan's study, and print how many trials it has",
    example: SHARE_EXAMPLE,
    args: &[
        Argument::Word {
            name: "share",
            value_name: "I/N",
            help: "Which share, from 1, and how many there are, at most 100000",
        },
        Argument::Word {
            name: "file",
            value_name: "FILE",
            help: "Keep the share in this file, and go on from what it holds",
        },
        Argument::Piece,
        Argument::Workers,
        Argument::Flag {
            name: "progress",
            help: PROGRESS_HELP,
        },
        PLAN_OPTION,
    ],
};

/// The command `join`.
const JOIN: Described<'static> = Described {
    name: "join",
    usage: JOIN_USAGE,
    about: "Join the checkpoints of a plan's study in a new one, and print how many slips it has",
    example: JOIN_EXAMPLE,
    args: &[
        Argument::Word {
            name: "new",
            value_name: "NEW",
            help: "The file of the new checkpoint, which holds no study",
        },
        Argument::Files,
        Argument::Flag {
            name: "which",
            help: "Say which of the old files is refused, on standard error",
        },
        PLAN_OPTION,
    ],
};

/// The commands, in the order in which help lists them.
const COMMANDS: [Described<'static>; 10] = [
    RUN, CHECK, EXPLAIN, CANONICAL, STATUS, SERVE, ASK, MIGRATE, SHARE, JOIN,
];

/// The program's commands, as clap reads them.
pub fn program_commands<'a>(alloc: Global) -> Result<Command<'a>, AllocError>
    ensures { IfOk result (λ command. app_of command ≡ program_app) }
{
    add_all(alloc, bare_program(alloc)?, &COMMANDS)
}

/// The program without its commands.
fn bare_program<'a>(alloc: Global) -> Result<Command<'a>, AllocError>
    ensures { IfOk result (λ program. app_of program ≡ bare_app) }
{
    let program = Command::new(alloc, "cutlab").bin_name("cutlab")?;
    Ok(
        program
            .about(
                "How often processes propose a cut that misses failed ones, for each K, H, L and F",
            )
            .version(VERSION)
            .after_help(GUIDE)
            .subcommand_required(true)
            .arg_required_else_help(true),
    )
}

/// Adds commands, in their order, to the program that has none.
fn add_all<'a>(
    alloc: Global,
    program: Command<'a>,
    commands: &[Described<'a>],
) -> Result<Command<'a>, AllocError>
    requires { app_of program ≡ bare_app }
    ensures { IfOk result (λ r. app_of r ≡ fold with_command bare_app commands.now) }
{
    let mut program = program;
    for described in commands {
        program = add(alloc, program, described)?;
    }
    Ok(program)
}

/// Adds a command to the program.
fn add<'a>(
    alloc: Global,
    program: Command<'a>,
    described: &Described<'a>,
) -> Result<Command<'a>, AllocError>
    ensures { IfOk result (λ r. app_of r ≡ with_command (app_of program.entry) described.now) }
{
    let mut command = Command::new(alloc, described.name)
        .override_usage(described.usage)
        .about(described.about)
        .after_help(described.example);
    for arg in described.args {
        command = command.arg(arg.in_clap(alloc))?;
    }
    program.subcommand(command)
}
