use cp_line::{Order, read_words};
use std::alloc::Global;
use std::test::Fail;

// The words of a line, which a space parts.
fn words_in(alloc: Global, line: &str) -> Result<Vec<String>, Fail> {
    let mut words = Vec::new(alloc);
    for word in line.split(' ') {
        words.push(String::from_str(alloc, word)?)?;
    }
    Ok(words)
}

#[test]
fn orders_are_read(rt: HostRuntime) -> Result<(), Fail> {
    let most = u64::MAX;
    for (line, wanted) in [
        (
            "step 1 0",
            Order::Step {
                workers: 1,
                choices: 0,
            },
        ),
        (
            "step 16 18446744073709551615",
            Order::Step {
                workers: 16,
                choices: most,
            },
        ),
        ("serve 4", Order::Serve { workers: 4 }),
        (
            "make 0 0",
            Order::Make {
                seed: 0,
                commands: 0,
            },
        ),
        (
            "make 18446744073709551615 8192",
            Order::Make {
                seed: most,
                commands: 8192,
            },
        ),
        ("asm", Order::Asm),
        ("dis", Order::Dis),
        ("upgrade", Order::Upgrade),
        ("check", Order::Check),
    ] {
        let words = words_in(rt.alloc(), line)?;
        assert_eq!(rt; read_words(words.as_slice()), Some(wanted), "at {line:?}");
    }
    Ok(())
}

#[test]
fn other_words_are_refused(rt: HostRuntime) -> Result<(), Fail> {
    let none: [String; 0] = [];
    assert_eq!(rt; read_words(&none), None);
    for line in [
        "",
        "step 0 0",
        "step 1",
        "step 1 00",
        "step 01 0",
        "step -- 1 0",
        "step 17 0",
        "step 1 0 0",
        "Step 1 0",
        "step 1 18446744073709551616",
        "serve",
        "serve 0",
        "serve 17",
        "serve 1 0",
        "make 0 8193",
        "make 18446744073709551616 1",
        "make 7",
        "make -1 1",
        "help",
        "--help",
        "-h",
        "asm x",
        "dis ",
        "upgrade 1",
        "check 1",
    ] {
        let words = words_in(rt.alloc(), line)?;
        assert_eq!(rt; read_words(words.as_slice()), None, "at {line:?}");
    }
    Ok(())
}
