//! The words of the command line.

use bop_words::{Request, WordFault, read_words};
use std::alloc::Global;
use std::test::Fail;

/// What the words of a line ask for. Between two of them is one blank.
fn read(alloc: Global, line: &str) -> Result<Result<Request, WordFault>, Fail> {
    let mut words = Vec::new(alloc);
    for word in line.split(' ') {
        words.push(word.to_string(alloc)?)?;
    }
    Ok(read_words(alloc, &words))
}

#[test]
fn no_words_ask_for_nothing(rt: HostRuntime) -> Result<(), Fail> {
    assert_eq!(rt; read_words(rt.alloc(), &[]), Err(WordFault::BadWords));
    Ok(())
}

#[test]
fn right_words_are_their_request(rt: HostRuntime) -> Result<(), Fail> {
    let alloc = rt.alloc();
    let wants: [(&str, &str); 33] = [
        ("check p.c", r#"Plain(Check { program: "p.c" })"#),
        ("check check", r#"Plain(Check { program: "check" })"#),
        (
            "seq p.c",
            r#"Plain(Seq { program: "p.c", budget: 1000000000 })"#,
        ),
        (
            "seq p.c --budget 1",
            r#"Plain(Seq { program: "p.c", budget: 1 })"#,
        ),
        (
            "seq p.c --budget 1000000000000",
            r#"Plain(Seq { program: "p.c", budget: 1000000000000 })"#,
        ),
        (
            "seq p.c --budget 0000000000007",
            r#"Plain(Seq { program: "p.c", budget: 7 })"#,
        ),
        (
            "seq a-b=c --budget 12",
            r#"Plain(Seq { program: "a-b=c", budget: 12 })"#,
        ),
        (
            "mean p.c",
            r#"Plain(Mean { program: "p.c", budget: 1000000000 })"#,
        ),
        (
            "mean p.c --budget 99",
            r#"Plain(Mean { program: "p.c", budget: 99 })"#,
        ),
        (
            "source --seed 0 --regions 1",
            "Plain(Text { seed: 0, regions: 1 })",
        ),
        (
            "source --regions 10000 --seed 4294967295",
            "Plain(Text { seed: 4294967295, regions: 10000 })",
        ),
        (
            "source --seed 00007 --regions 0002",
            "Plain(Text { seed: 7, regions: 2 })",
        ),
        (
            "replay p.c --schedule s",
            r#"Plain(Replay { program: "p.c", schedule: "s", group: 4, budget: 1000000000 })"#,
        ),
        (
            "replay p.c --group 16 --budget 5 --schedule s",
            r#"Plain(Replay { program: "p.c", schedule: "s", group: 16, budget: 5 })"#,
        ),
        (
            "replay p.c --schedule s --budget 5 --group 1",
            r#"Plain(Replay { program: "p.c", schedule: "s", group: 1, budget: 5 })"#,
        ),
        (
            "run p.c",
            r#"Race(RaceRequest { program: File("p.c"), workers: 4, group: 4, budget: 1000000000, journal: None, confirm: false })"#,
        ),
        (
            "run p.c --workers 1",
            r#"Race(RaceRequest { program: File("p.c"), workers: 1, group: 4, budget: 1000000000, journal: None, confirm: false })"#,
        ),
        (
            "run p.c --workers 16",
            r#"Race(RaceRequest { program: File("p.c"), workers: 16, group: 4, budget: 1000000000, journal: None, confirm: false })"#,
        ),
        (
            "run p.c --group 1",
            r#"Race(RaceRequest { program: File("p.c"), workers: 4, group: 1, budget: 1000000000, journal: None, confirm: false })"#,
        ),
        (
            "run p.c --group 16",
            r#"Race(RaceRequest { program: File("p.c"), workers: 4, group: 16, budget: 1000000000, journal: None, confirm: false })"#,
        ),
        (
            "run p.c --budget 1000",
            r#"Race(RaceRequest { program: File("p.c"), workers: 4, group: 4, budget: 1000, journal: None, confirm: false })"#,
        ),
        (
            "run p.c --journal j",
            r#"Race(RaceRequest { program: File("p.c"), workers: 4, group: 4, budget: 1000000000, journal: Some("j"), confirm: false })"#,
        ),
        (
            "run p.c --confirm",
            r#"Race(RaceRequest { program: File("p.c"), workers: 4, group: 4, budget: 1000000000, journal: None, confirm: true })"#,
        ),
        (
            "run p.c --journal j --confirm",
            r#"Race(RaceRequest { program: File("p.c"), workers: 4, group: 4, budget: 1000000000, journal: Some("j"), confirm: true })"#,
        ),
        (
            "run p.c --confirm --journal j",
            r#"Race(RaceRequest { program: File("p.c"), workers: 4, group: 4, budget: 1000000000, journal: Some("j"), confirm: true })"#,
        ),
        (
            "run p.c --workers 2 --group 3 --budget 5 --journal j --confirm",
            r#"Race(RaceRequest { program: File("p.c"), workers: 2, group: 3, budget: 5, journal: Some("j"), confirm: true })"#,
        ),
        (
            "run p.c --confirm --journal j --budget 5 --group 3 --workers 2",
            r#"Race(RaceRequest { program: File("p.c"), workers: 2, group: 3, budget: 5, journal: Some("j"), confirm: true })"#,
        ),
        (
            "demo --seed 7 --regions 2000",
            "Race(RaceRequest { program: Made(7, 2000), workers: 4, group: 4, budget: 1000000000, journal: None, confirm: false })",
        ),
        (
            "demo --seed 7 --regions 2000 --workers 4",
            "Race(RaceRequest { program: Made(7, 2000), workers: 4, group: 4, budget: 1000000000, journal: None, confirm: false })",
        ),
        (
            "demo --seed 1 --regions 2 --workers 3 --group 5 --budget 6",
            "Race(RaceRequest { program: Made(1, 2), workers: 3, group: 5, budget: 6, journal: None, confirm: false })",
        ),
        (
            "demo --budget 6 --group 5 --workers 3 --regions 2 --seed 1",
            "Race(RaceRequest { program: Made(1, 2), workers: 3, group: 5, budget: 6, journal: None, confirm: false })",
        ),
        (
            "demo --seed 0 --regions 1",
            "Race(RaceRequest { program: Made(0, 1), workers: 4, group: 4, budget: 1000000000, journal: None, confirm: false })",
        ),
        (
            "demo --seed 4294967295 --regions 10000",
            "Race(RaceRequest { program: Made(4294967295, 10000), workers: 4, group: 4, budget: 1000000000, journal: None, confirm: false })",
        ),
    ];
    for (line, want) in wants {
        let request = read(alloc, line)?;
        let told = format!(in alloc; "{request:?}")?;
        assert_eq!(rt;
            told.as_str(),
            format!(in alloc; "Ok({want})")?.as_str(),
            "{line}"
        );
    }
    Ok(())
}

#[test]
fn all_other_words_are_bad(rt: HostRuntime) -> Result<(), Fail> {
    let alloc = rt.alloc();
    let lines = [
        // the command
        "",
        "-",
        "runs p.c",
        "ru p.c",
        "Seq p.c",
        "seq=p.c",
        "p.c",
        "--budget 5 seq p.c",
        // the program
        "seq",
        "check",
        "run",
        "seq ",
        "seq -",
        "seq -p.c",
        "seq --budget 5",
        "check p.c q.c",
        "demo p.c --seed 1 --regions 1",
        // options of other commands
        "check p.c --budget 5",
        "seq p.c --workers 4",
        "mean p.c --confirm",
        "run p.c --seed 1",
        "run p.c --schedule s",
        "demo --seed 1 --regions 1 --journal j",
        "demo --seed 1 --regions 1 --confirm",
        "replay p.c --schedule s --workers 2",
        "source --seed 1 --regions 1 --budget 5",
        // options that must be given
        "demo",
        "demo --seed 1",
        "demo --regions 1",
        "source --seed 1",
        "source --regions 1",
        "replay p.c",
        "replay p.c --group 4",
        // options that are none, and without a value
        "seq p.c --budget=5",
        "seq p.c --budge 5",
        "seq p.c --Budget 5",
        "seq p.c -budget 5",
        "seq p.c --",
        "seq p.c -- --budget 5",
        "seq p.c --budget",
        "run p.c --journal",
        "run p.c --confirm yes",
        "run p.c --journal -j",
        "run p.c --journal ",
        "replay p.c --schedule --group",
        "run p.c --journal --confirm",
        // options that are given twice
        "seq p.c --budget 5 --budget 5",
        "run p.c --confirm --confirm",
        "run p.c --workers 2 --group 3 --workers 2",
        "demo --seed 1 --regions 1 --seed 1",
        // numbers
        "seq p.c --budget 0",
        "seq p.c --budget 1000000000001",
        "seq p.c --budget 00000000000005",
        "seq p.c --budget 5x",
        "seq p.c --budget +5",
        "seq p.c --budget -5",
        "seq p.c --budget ",
        "seq p.c --budget 0x5",
        "seq p.c --budget 1_000",
        "run p.c --workers 0",
        "run p.c --workers 17",
        "run p.c --group 0",
        "run p.c --group 17",
        "source --seed 4294967296 --regions 1",
        "source --seed 1 --regions 0",
        "source --seed 1 --regions 10001",
    ];
    for line in lines {
        assert_eq!(rt; read(alloc, line)?, Err(WordFault::BadWords), "{line}");
    }
    Ok(())
}
