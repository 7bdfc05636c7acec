use gribi_words::{Wish, Words, WordsFault, read_words};
use std::alloc::Global;
use std::test::Fail;

fn words(alloc: Global, all: &[&str]) -> Result<Vec<String>, Fail> {
    let mut words = Vec::new(alloc);
    for word in all {
        words.push(String::from_str(alloc, word)?)?;
    }
    Ok(words)
}

// Whether these are the names, joined by commas.
fn are_names(found: &Words, wanted: &str) -> bool {
    let mut place: u16 = 0;
    for name in wanted.split(',') {
        if place >= found.count() || found.name(place) != name {
            return false;
        }
        place += 1;
    }
    place == found.count()
}

fn is_apply(wish: &Wish, names: &str) -> bool {
    match wish {
        Wish::Apply { instances } => are_names(instances, names),
        _ => false,
    }
}

fn is_serve(wish: &Wish, address: &str, names: &str, numbers: (u64, u32, u32)) -> bool {
    match wish {
        Wish::Serve {
            listen,
            connections,
            instances,
            workers,
            reactors,
        } => {
            listen.as_str() == address
                && are_names(instances, names)
                && (*connections, *workers, *reactors) == numbers
        }
        _ => false,
    }
}

fn apply(alloc: Global, all_words: &[&str], names: &str) -> Result<bool, Fail> {
    let words = words(alloc, all_words)?;
    Ok(match read_words(alloc, &words) {
        Ok(wish) => is_apply(&wish, names),
        Err(_) => false,
    })
}

fn serve(
    alloc: Global,
    all_words: &[&str],
    address: &str,
    names: &str,
    numbers: (u64, u32, u32),
) -> Result<bool, Fail> {
    let words = words(alloc, all_words)?;
    Ok(match read_words(alloc, &words) {
        Ok(wish) => is_serve(&wish, address, names, numbers),
        Err(_) => false,
    })
}

fn refused(alloc: Global, all_words: &[&str]) -> Result<bool, Fail> {
    let words = words(alloc, all_words)?;
    Ok(match read_words(alloc, &words) {
        Ok(_wish) => false,
        Err(fault) => fault == WordsFault::NotInGrammar,
    })
}

#[test]
fn words_are_read(rt: HostRuntime) -> Result<(), Fail> {
    let alloc = rt.alloc();
    assert!(rt; apply(alloc, &["apply"], "DEFAULT")?);
    assert!(rt;
        apply(
            alloc,
            &["apply", "--instances", "RED,DEFAULT"],
            "RED,DEFAULT"
        )?
    );
    assert!(rt; apply(alloc, &["apply", "--instances=a=b"], "a=b")?);
    let serves: [(&[&str], &str, &str, (u64, u32, u32)); 5] = [
        (
            &["serve", "--listen", "a"],
            "a",
            "DEFAULT",
            (1_000_000, 1, 1),
        ),
        (
            &["serve", "--listen=a=b"],
            "a=b",
            "DEFAULT",
            (1_000_000, 1, 1),
        ),
        (
            &[
                "serve",
                "--workers",
                "16",
                "--connections=1",
                "--listen",
                "[::1]:9339",
                "--reactors=2",
                "--instances",
                "A,B",
            ],
            "[::1]:9339",
            "A,B",
            (1, 16, 2),
        ),
        (
            &["serve", "--connections", "1000000", "--listen=a"],
            "a",
            "DEFAULT",
            (1_000_000, 1, 1),
        ),
        (
            &["serve", "--listen", "serve", "--connections=7"],
            "serve",
            "DEFAULT",
            (7, 1, 1),
        ),
    ];
    for (words, address, names, numbers) in serves {
        assert!(rt; serve(alloc, words, address, names, numbers)?, "{words:?}");
    }
    Ok(())
}

#[test]
fn other_words_are_refused(rt: HostRuntime) -> Result<(), Fail> {
    let cases: [&[&str]; 28] = [
        &[],
        &[""],
        &["apply", "now"],
        &["help"],
        &["--help"],
        &["-h"],
        &["appl"],
        &["apply", "--"],
        &["apply", "--instances"],
        &["apply", "--instances="],
        &["apply", "--instances", "-A"],
        &["apply", "--instances=-A"],
        &["apply", "--instances", ""],
        &["apply", "--instances", "A,A"],
        &["apply", "--instances", "A,"],
        &["apply", "--instance", "A"],
        &["apply", "--instances", "A", "--instances", "A"],
        &["apply", "--workers", "1"],
        &["serve"],
        &["serve", "--listen", "a", "b"],
        &["serve", "--listen", "--workers=1"],
        &["serve", "--listen=a", "--workers=0"],
        &["serve", "--listen=a", "--workers=17"],
        &["serve", "--listen=a", "--workers=01"],
        &["serve", "--listen=a", "--workers=+1"],
        &["serve", "--listen=a", "--connections=1000001"],
        &["serve", "--listen=a", "--connections=18446744073709551617"],
        &["serve", "--listen=a", "--target=b"],
    ];
    for words in cases {
        assert!(rt; refused(rt.alloc(), words)?, "{words:?}");
    }
    Ok(())
}
