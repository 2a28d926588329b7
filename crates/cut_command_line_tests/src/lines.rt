//! What no contract says: the texts of help and of mistakes, and that words name the jobs that a user expects.

use cut_command_line::{Job, LineFault, parse_line};
use std::alloc::{AllocError, Global};
use std::test::Fail;

/// Command lines, and below each the job that it names, as a program would write it for its developers.
const JOBS: &str = r#"cutlab run
Run(RunOptions { piece: 16, workers: 1, checkpoint: None, progress: false, plan: None })

cutlab run --piece 1
Run(RunOptions { piece: 1, workers: 1, checkpoint: None, progress: false, plan: None })

cutlab run --piece=7
Run(RunOptions { piece: 7, workers: 1, checkpoint: None, progress: false, plan: None })

cutlab run --piece +20
Run(RunOptions { piece: 20, workers: 1, checkpoint: None, progress: false, plan: None })

cutlab run --piece 1000000
Run(RunOptions { piece: 1000000, workers: 1, checkpoint: None, progress: false, plan: None })

cutlab run --workers 1
Run(RunOptions { piece: 16, workers: 1, checkpoint: None, progress: false, plan: None })

cutlab run --workers 64
Run(RunOptions { piece: 16, workers: 64, checkpoint: None, progress: false, plan: None })

cutlab run --workers=3 --piece 2
Run(RunOptions { piece: 2, workers: 3, checkpoint: None, progress: false, plan: None })

cutlab run --checkpoint a.cut
Run(RunOptions { piece: 16, workers: 1, checkpoint: Some("a.cut"), progress: false, plan: None })

cutlab run --checkpoint=
Run(RunOptions { piece: 16, workers: 1, checkpoint: Some(""), progress: false, plan: None })

cutlab run --progress --workers 2
Run(RunOptions { piece: 16, workers: 2, checkpoint: None, progress: true, plan: None })

cutlab check
Check { plan: None }

cutlab explain
Explain { plan: None }

cutlab canonical
Canonical { plan: None }

cutlab run plan.json
Run(RunOptions { piece: 16, workers: 1, checkpoint: None, progress: false, plan: Some("plan.json") })

cutlab run plan.json --checkpoint a.cut
Run(RunOptions { piece: 16, workers: 1, checkpoint: Some("a.cut"), progress: false, plan: Some("plan.json") })

cutlab run -- --plan
Run(RunOptions { piece: 16, workers: 1, checkpoint: None, progress: false, plan: Some("--plan") })

cutlab check plan.json
Check { plan: Some("plan.json") }

cutlab explain plan.json
Explain { plan: Some("plan.json") }

cutlab canonical plan.json
Canonical { plan: Some("plan.json") }

cutlab ask --plan plan.json a.sock
Ask(AskOptions { socket: "a.sock", plan: Some("plan.json") })

cutlab migrate a.cut b.cut --plan plan.json
Migrate(MigrateOptions { old: "a.cut", new: "b.cut", plan: Some("plan.json") })

cutlab share 1/1 --plan=plan.json a.cut
Share(ShareOptions { index: 1, shares: 1, file: "a.cut", piece: 16, workers: 1, progress: false, plan: Some("plan.json") })

cutlab status a.cut
Status { file: "a.cut" }

cutlab ask a.sock
Ask(AskOptions { socket: "a.sock", plan: None })

cutlab migrate a.cut b.cut
Migrate(MigrateOptions { old: "a.cut", new: "b.cut", plan: None })

cutlab serve a.sock --workers=64 --studies=3 --sessions=1 --dir=kept
Serve(ServeOptions { socket: "a.sock", workers: 64, sessions: 1, studies: 3, folder: Some("kept") })

cutlab share 1/1 a.cut
Share(ShareOptions { index: 1, shares: 1, file: "a.cut", piece: 16, workers: 1, progress: false, plan: None })

cutlab share 3/8 a.cut --progress
Share(ShareOptions { index: 3, shares: 8, file: "a.cut", piece: 16, workers: 1, progress: true, plan: None })

cutlab share --piece 2 100000/100000 --workers=64 a.cut
Share(ShareOptions { index: 100000, shares: 100000, file: "a.cut", piece: 2, workers: 64, progress: false, plan: None })

cutlab join new.cut a.cut b.cut
Join(JoinOptions { new: "new.cut", old: ["a.cut", "b.cut"], which: false, plan: None })

cutlab join --which new.cut a.cut
Join(JoinOptions { new: "new.cut", old: ["a.cut"], which: true, plan: None })

cutlab join new.cut a.cut --which b.cut --plan plan.json c.cut
Join(JoinOptions { new: "new.cut", old: ["a.cut", "b.cut", "c.cut"], which: true, plan: Some("plan.json") })"#;

/// The words of a line, between blanks.
fn words_of<'a>(alloc: Global, line: &'a str) -> Result<Vec<&'a str>, AllocError> {
    line.split(' ').collect(alloc)
}

/// Whether words name this job.
fn is_read_as(alloc: Global, words: &[&str], wanted: &str) -> Result<bool, AllocError> {
    match parse_line(alloc, words) {
        Ok(job) => Ok(format!(in alloc; "{job:?}")?.as_str() == wanted),
        Err(_) => Ok(false),
    }
}

/// Whether the line of a row names the job below it.
fn is_job(alloc: Global, row: &str) -> Result<bool, AllocError> {
    let (line, wanted) = row.split_once('\n').unwrap_or((row, ""));
    is_read_as(alloc, &words_of(alloc, line)?, wanted)
}

#[test]
fn jobs_are_named(rt: HostRuntime) -> Result<(), Fail> {
    for row in JOBS.split("\n\n") {
        assert!(rt; is_job(rt.alloc(), row)?, "{row}");
    }
    Ok(())
}

/// How many files are joined by these words, none where they name another job or none.
fn files_joined(alloc: Global, words: &[&str]) -> usize {
    match parse_line(alloc, words) {
        Ok(Job::Join(options)) => options.old.len(),
        _ => 0,
    }
}

/// The words of a join of as many files, with a flag after the first of them.
fn join_of(alloc: Global, files: usize) -> Result<Vec<&'static str>, AllocError> {
    let mut words = Vec::from_slice(alloc, &["cutlab", "join", "new.cut", "a.cut", "--which"])?;
    for _ in 1..files {
        words.push("b.cut")?;
    }
    Ok(words)
}

// With as many files as are joined at most, and with one more.
#[test]
fn joins_have_a_thousand_files(rt: HostRuntime) -> Result<(), Fail> {
    let most = join_of(rt.alloc(), 1_000)?;
    assert!(rt; files_joined(rt.alloc(), &most) == 1_000);
    let more = join_of(rt.alloc(), 1_001)?;
    let text = "too many|at most 1000|Usage: cutlab join [OPTIONS] <NEW> <OLD>...";
    assert!(rt; is_reported(rt.alloc(), &more, "2", text));
    Ok(())
}

/// Whether a text has all of these parts, between lines.
fn has_parts(text: &str, parts: &str) -> bool {
    parts.split('|').all(|part| text.contains(part))
}

/// Whether the words name no job and end the program with this status, by a text with these parts.
fn is_reported(alloc: Global, words: &[&str], wanted: &str, parts: &str) -> bool {
    match parse_line(alloc, words) {
        Ok(_) => false,
        Err(LineFault { status, text }) => {
            wanted.parse::<u8>() == Ok(status) && has_parts(&text, parts)
        }
    }
}

/// Statuses, command lines that name no job and end the program with it, and parts of the texts that are printed.
const REPORTS: &str = "2|cutlab share 3-8 a.cut|the value for '<I/N>' is none|as in 2/8
2|cutlab share 0/3 a.cut|the value for '<I/N>' is none|as in 2/8
2|cutlab share 4/3 a.cut|the value for '<I/N>' is none|as in 2/8|Usage: cutlab share [OPTIONS] <I/N> <FILE>
2|cutlab share 1/100001 a.cut|the value for '<I/N>' is none|as in 2/8
2|cutlab share 1/0 a.cut|the value for '<I/N>' is none|as in 2/8
2|cutlab share /3 a.cut|the value for '<I/N>' is none|as in 2/8
2|cutlab share 1/ a.cut|the value for '<I/N>' is none|as in 2/8
2|cutlab share 1/2/3 a.cut|the value for '<I/N>' is none|as in 2/8
2|cutlab share x/3 a.cut|the value for '<I/N>' is none|as in 2/8
2|cutlab share +1/2 a.cut|the value for '<I/N>' is none|as in 2/8
2|cutlab share 1/+2 a.cut|the value for '<I/N>' is none|as in 2/8
2|cutlab share -1/2 a.cut|unexpected argument '-1' found
2|cutlab share  a.cut|the value for '<I/N>' is none|as in 2/8
0|cutlab --help|Usage: cutlab|docs/GUIDE.md
0|cutlab --help|Usage: cutlab|Move a checkpoint of version 1
0|cutlab help|Usage: cutlab|docs/GUIDE.md
0|cutlab run --help|Usage: cutlab|Example: cutlab run
0|cutlab check --help|Usage: cutlab|Example: cutlab check
0|cutlab explain --help|Usage: cutlab|Example: cutlab explain
0|cutlab canonical --help|Usage: cutlab|Example: cutlab canonical
0|cutlab status --help|Usage: cutlab|Example: cutlab status
0|cutlab serve --help|Usage: cutlab|Example: cutlab serve
0|cutlab ask --help|Usage: cutlab|Example: cutlab ask
0|cutlab migrate --help|Usage: cutlab|Example: cutlab migrate
0|cutlab share --help|Usage: cutlab|Example: cutlab share 2/8
0|cutlab join --help|Usage: cutlab|Example: cutlab join
0|cutlab --version|cutlab 0.9.0 (proved with rattle-kit-
0|cutlab -V|cutlab 0.9.0 (proved with rattle-kit-
2|cutlab ask|required arguments were not provided
2|cutlab share 1/2|required arguments were not provided
2|cutlab join new.cut|required arguments were not provided
2|cutlab share 1/2 a.cut b.cut|unexpected argument 'b.cut' found
2|cutlab status|required arguments were not provided
2|cutlab migrate|required arguments were not provided
2|cutlab migrate a.cut|required arguments were not provided
2|cutlab migrate a.cut b.cut c.cut|unexpected argument 'c.cut' found
2|cutlab serve a.sock --workers 1|required arguments were not provided
2|cutlab serve a.sock --sessions 65|65 is not in 1..=64
2|cutlab run --piece 0|0 is not in 1..=1000000
2|cutlab run --piece 1000001|1000001 is not in 1..=1000000
2|cutlab run --piece few|invalid value 'few' for '--piece <TRIALS>'
2|cutlab run --workers 0|0 is not in 1..=64
2|cutlab run --workers 65|65 is not in 1..=64
2|cutlab run --workers x|invalid value 'x' for '--workers <COUNT>'
2|cutlab check --workers 1|unexpected argument '--workers' found
2|cutlab check --piece 1|unexpected argument '--piece' found
2|cutlab run --progress=true|unexpected value 'true' for '--progress' found
2|cutlab|Usage: cutlab <COMMAND>
2|cutlab frob|unrecognized subcommand 'frob'
2|cutlab run plan.json other.json|unexpected argument 'other.json' found|Usage: cutlab run [OPTIONS] [PLAN]
2|cutlab check plan.json --plan plan.json|unexpected argument '--plan' found|Usage: cutlab check [PLAN]
2|cutlab ask a.sock plan.json|unexpected argument 'plan.json' found|Usage: cutlab ask [OPTIONS] <SOCKET>
2|cutlab share 1/2 a.cut --plan a.json --plan b.json|cannot be used multiple times
2|cutlab check --all|unexpected argument '--all' found
2|cutlab --frob|unexpected argument '--frob' found";

/// Whether the line of a row is answered by the row's status and by a text with its parts.
fn is_row(alloc: Global, row: &str) -> Result<bool, AllocError> {
    let (status, rest) = row.split_once('|').unwrap_or((row, ""));
    let (line, parts) = rest.split_once('|').unwrap_or((rest, ""));
    Ok(is_reported(alloc, &words_of(alloc, line)?, status, parts))
}

#[test]
fn help_versions_and_mistakes_are_reported(rt: HostRuntime) -> Result<(), Fail> {
    for row in REPORTS.lines() {
        assert!(rt; is_row(rt.alloc(), row)?, "{row}");
    }
    Ok(())
}
