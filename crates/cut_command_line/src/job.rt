//! What a command line asks for: a command of the program, with its options.
ghost use Rattle.std.specs.Prelude.{◌≤◌, length};
ghost use Rattle.cut_command_line.specs.declared.options.limits.TheConstants.{LARGEST_PIECE, MOST_CHECKPOINTS};
ghost use Rattle.cut_command_line.specs.declared.options.limits.TheConstants.{MOST_OF_EACH, MOST_SHARES};
ghost use Rattle.cut_command_line.specs.declared.options.limits.TheConstants.{MOST_WORKERS};

/// A command of the program, with its values.
#[derive(Debug, Drop)]
pub enum Job<'a> {
    /// Read a plan and print its table.
    Run(RunOptions<'a>),
    /// Read a plan and print how many cells and trials it has, and the quorum of its processes.
    Check {
        /// The file that the plan is read from, if it is not the program's input.
        plan: Option<&'a str>,
    },
    /// Read a plan and say in words what is right or wrong with it.
    Explain {
        /// The file that the plan is read from, if it is not the program's input.
        plan: Option<&'a str>,
    },
    /// Read a plan and print its canonical text.
    Canonical {
        /// The file that the plan is read from, if it is not the program's input.
        plan: Option<&'a str>,
    },
    /// Print what a checkpoint holds.
    Status {
        /// The file of the checkpoint, which is only read.
        file: &'a str,
    },
    /// Serve clients at a socket, and print how many trials were accepted.
    Serve(ServeOptions<'a>),
    /// Read a plan and print the table that a server has for it.
    Ask(AskOptions<'a>),
    /// Read a plan of version 1, move its study to a new checkpoint of version 2, and print how many slips it has.
    Migrate(MigrateOptions<'a>),
    /// Read a plan, run a share of its study, and print how many trials the share has.
    Share(ShareOptions<'a>),
    /// Read a plan, join the checkpoints of its study in a new one, and print how many slips it has.
    Join(JoinOptions<'a>),
}

/// The options of `run`: pieces of 1 to 1,000,000 trials, and 1 to 64 workers.
#[derive(Clone, Copy, Debug)]
pub struct RunOptions<'a> {
    /// How many trials the pieces have that the study is cut into, the last of a cell fewer.
    pub piece: u32,
    /// How many threads work on the study.
    pub workers: u32,
    /// The file that the study is kept in and goes on from, if there is one.
    pub checkpoint: Option<&'a str>,
    /// Whether lines on standard error say how many trials are done.
    pub progress: bool,
    /// The file that the plan is read from, if it is not the program's input.
    pub plan: Option<&'a str>,
    pub ghost size: { (1 ≤ piece) × (piece ≤ LARGEST_PIECE) },
    pub ghost few: { (1 ≤ workers) × (workers ≤ MOST_WORKERS) },
}

/// The options of `serve`: where its socket is, and how many it serves, 1 to 64 of each.
#[derive(Clone, Copy, Debug)]
pub struct ServeOptions<'a> {
    /// The path of the server's socket.
    pub socket: &'a str,
    /// How many threads work on its studies, from 1 to 64.
    pub workers: u32,
    /// How many connections it takes, from 1 to 64.
    pub sessions: u32,
    /// For how many studies it has room, from 1 to 64.
    pub studies: u32,
    /// The folder that the studies are kept in, if there is one.
    pub folder: Option<&'a str>,
    pub ghost workers_are: { (1 ≤ workers) × (workers ≤ MOST_OF_EACH) },
    pub ghost sessions_are: { (1 ≤ sessions) × (sessions ≤ MOST_OF_EACH) },
    pub ghost studies_are: { (1 ≤ studies) × (studies ≤ MOST_OF_EACH) },
}

/// The options of `ask`: which server is asked, and for which plan.
#[derive(Clone, Copy, Debug)]
pub struct AskOptions<'a> {
    /// The path of the server's socket.
    pub socket: &'a str,
    /// The file that the plan is read from, if it is not the program's input.
    pub plan: Option<&'a str>,
}

/// The options of `migrate`: from which file to which.
#[derive(Clone, Copy, Debug)]
pub struct MigrateOptions<'a> {
    /// The file that the study is kept in.
    pub old: &'a str,
    /// The file that it is moved to, which holds no study.
    pub new: &'a str,
    /// The file that the plan is read from, if it is not the program's input.
    pub plan: Option<&'a str>,
}

/// The options of `share`: one of at most 100,000 shares, in blocks of 1 to 1,000,000 trials, by 1 to 64 workers.
#[derive(Clone, Copy, Debug)]
pub struct ShareOptions<'a> {
    /// Which share it is, from 1.
    pub index: u32,
    /// How many shares there are, at most 100,000.
    pub shares: u32,
    /// The file that the share is kept in and goes on from.
    pub file: &'a str,
    /// How many trials the blocks have that the cells are cut into, the last of a cell fewer.
    pub piece: u32,
    /// How many threads work on the share.
    pub workers: u32,
    /// Whether lines on standard error say how many trials are done.
    pub progress: bool,
    /// The file that the plan is read from, if it is not the program's input.
    pub plan: Option<&'a str>,
    pub ghost bounds: { (1 ≤ index) × (index ≤ shares) × (shares ≤ MOST_SHARES) },
    pub ghost size: { (1 ≤ piece) × (piece ≤ LARGEST_PIECE) },
    pub ghost few: { (1 ≤ workers) × (workers ≤ MOST_WORKERS) },
}

/// The options of `join`: at most 1,000 checkpoints, and the file in which they are joined.
#[derive(Debug, Drop)]
pub struct JoinOptions<'a> {
    /// The file of the new checkpoint, which holds no study.
    pub new: &'a str,
    /// The files that are joined, which are only read.
    pub old: Vec<&'a str>,
    /// Whether a line on standard error says which of them is refused, if one is.
    pub which: bool,
    /// The file that the plan is read from, if it is not the program's input.
    pub plan: Option<&'a str>,
    pub ghost few: { length old.items ≤ MOST_CHECKPOINTS },
}
