// Plain words of the command line, and their settings.
use command_line::{Command, CoreSize, Read, plain_words};
use deck_punch::DeckForm;
use outside_io::Unit;
use std::alloc::{AllocError, Global};
use std::test::Fail;

// The words of a command line.
fn words_from(alloc: Global, texts: &[&str]) -> Result<Vec<String>, AllocError> {
    let mut words = Vec::new(alloc);
    for text in texts {
        words.push(String::from_str(alloc, text)?)?;
    }
    Ok(words)
}

#[test]
fn plain_words_name_files_and_numbers(rt: HostRuntime) -> Result<(), Fail> {
    let texts = [
        "load",
        "--limit",
        "000000000000005",
        "--deck",
        "one.txt",
        "--typed",
        "typed.txt",
    ];
    let words = words_from(rt.alloc(), &texts)?;
    let plain = plain_words(rt.alloc(), &words)?.ok_or("not plain")?;
    assert!(rt; matches!(plain.command, Command::Load));
    assert!(rt; plain.settings.limit == 5);
    assert!(rt; plain.names.get(Unit::Deck) == Some("one.txt"));
    assert!(rt; plain.names.get(Unit::Typed) == Some("typed.txt"));
    assert!(rt; plain.names.get(Unit::Data).is_none());
    let read = Read::of(rt.alloc(), &words);
    assert!(rt; read.file(Unit::Deck) == Some("one.txt"));
    assert!(rt; read.file(Unit::Report).is_none());
    Ok(())
}

#[test]
fn words_give_a_limit_or_the_standard_one_holds(rt: HostRuntime) -> Result<(), Fail> {
    let words = words_from(rt.alloc(), &["run", "--source", "payroll.txt"])?;
    let plain = plain_words(rt.alloc(), &words)?.ok_or("not plain")?;
    assert!(rt; matches!(plain.command, Command::Run));
    assert!(rt; plain.settings.limit == 1_000_000);
    let words = words_from(
        rt.alloc(),
        &["trial", "--number", "999999", "--statements", "1600"],
    )?;
    let plain = plain_words(rt.alloc(), &words)?.ok_or("not plain")?;
    assert!(rt; matches!(plain.command, Command::Trial));
    assert!(rt; (plain.settings.statements, plain.settings.number) == (1600, 999_999));
    Ok(())
}

#[test]
fn a_deck_has_the_form_of_the_words(rt: HostRuntime) -> Result<(), Fail> {
    for (texts, form) in [
        (["run", "--source", "a", "--form", "dense"], DeckForm::Dense),
        (
            ["run", "--form", "self", "--source", "a"],
            DeckForm::SelfLoading,
        ),
        (
            ["assemble", "--source", "a", "--form", "dense"],
            DeckForm::Dense,
        ),
        (
            ["run", "--source", "a", "--limit", "5"],
            DeckForm::SelfLoading,
        ),
    ] {
        let words = words_from(rt.alloc(), &texts)?;
        let plain = plain_words(rt.alloc(), &words)?.ok_or("not plain")?;
        assert!(rt; plain.settings.form == form);
    }
    Ok(())
}

#[test]
fn a_core_has_the_size_of_the_words(rt: HostRuntime) -> Result<(), Fail> {
    for (texts, core) in [
        (
            ["run", "--source", "a", "--core", "60000"],
            CoreSize::ThreeModules,
        ),
        (
            ["load", "--core", "40000", "--deck", "a"],
            CoreSize::TwoModules,
        ),
        (
            ["assemble", "--source", "a", "--core", "20000"],
            CoreSize::OneModule,
        ),
        (
            ["run", "--source", "a", "--limit", "5"],
            CoreSize::OneModule,
        ),
    ] {
        let words = words_from(rt.alloc(), &texts)?;
        let plain = plain_words(rt.alloc(), &words)?.ok_or("not plain")?;
        assert!(rt; plain.core == core);
    }
    Ok(())
}

// Each row breaks the grammar in one way only.
const OTHERS: [&[&str]; 35] = [
    &["load", "--deck", "a", "--core", "30000"],
    &["load", "--deck", "a", "--core", "020000"],
    &["load", "--deck", "a", "--core", "20000", "--core", "20000"],
    &[
        "generate",
        "--statements",
        "8",
        "--number",
        "0",
        "--core",
        "20000",
    ],
    &["run", "--source", "a", "--form", "DENSE"],
    &["run", "--source", "a", "--form", "self", "--form", "self"],
    &["load", "--deck", "a", "--form", "self"],
    &[],
    &["lo"],
    &["Load", "--deck", "a"],
    &["help"],
    &["--help"],
    &["--version"],
    &["load"],
    &["load", "--help"],
    &["load", "--deck"],
    &["load", "--deck", ""],
    &["load", "--deck", "-"],
    &["load", "--deck", "-a"],
    &["load", "--deck=a"],
    &["load", "--dec", "a"],
    &["load", "-d", "a"],
    &["load", "--deck", "a", "b"],
    &["load", "--deck", "a", "--"],
    &["load", "--", "--deck", "a"],
    &["load", "--deck", "a", "--deck", "b"],
    &["load", "--deck", "a", "--object", "b"],
    &["load", "--typed", "a"],
    &["load", "--deck", "a", "--limit", "+5"],
    &["load", "--deck", "a", "--limit", "5 "],
    &["load", "--deck", "a", "--limit", "1000000000000000"],
    &["trial", "--statements", "7", "--number", "0"],
    &["trial", "--statements", "1601", "--number", "0"],
    &["trial", "--statements", "8", "--number", "1000000"],
    &["load", "load", "--deck", "a"],
];

#[test]
fn other_words_are_not_plain(rt: HostRuntime) -> Result<(), Fail> {
    for texts in OTHERS {
        let words = words_from(rt.alloc(), texts)?;
        assert!(rt; plain_words(rt.alloc(), &words)?.is_none());
        assert!(rt; Read::of(rt.alloc(), &words).file(Unit::Deck).is_none());
    }
    Ok(())
}
