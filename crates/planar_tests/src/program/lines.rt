use script_lines::LineError;
use std::test::Fail;

#[test]
fn errors_have_their_numbers(rt: HostRuntime) {
    let rows = [
        (LineError::Word, 1),
        (LineError::Count, 2),
        (LineError::Number, 3),
        (LineError::Range, 4),
        (LineError::Long, 5),
        (LineError::Byte, 6),
    ];
    for (error, number) in rows {
        assert!(rt; error.number() == number);
    }
}

#[test]
fn errors_have_their_words(rt: HostRuntime) -> Result<(), Fail> {
    let rows = [
        (
            LineError::Word,
            "the first word isn't a command, or a fixed word isn't spelt so",
        ),
        (
            LineError::Count,
            "the count of words isn't one that the command has",
        ),
        (
            LineError::Number,
            "a word in a number's place isn't a number",
        ),
        (LineError::Range, "a number is out of its range"),
        (LineError::Long, "the line has more than 300 bytes"),
        (LineError::Byte, "a byte of the line is outside 32 to 126"),
    ];
    for (error, words) in rows {
        let text = format!(in rt.alloc(); "{error}")?;
        assert!(rt; text.as_str() == words);
    }
    Ok(())
}
