use super::*;
use std::test::*;

/// Texts and what they are read as: the places of characters are shown by no command.
const TEXTS: [(&str, Result<Decimal, DecimalFault>); 6] = [
    ("", Err(DecimalFault::Empty)),
    ("1e", Err(DecimalFault::BadCharacter { at: 2 })),
    ("12a", Err(DecimalFault::BadCharacter { at: 2 })),
    ("-0.0000009", Ok(Decimal { millionths: 0 })),
    (
        "1000.",
        Ok(Decimal {
            millionths: 1_000_000_000,
        }),
    ),
    ("1e99", Err(DecimalFault::TooLarge)),
];

#[test]
fn reads_and_puts(rt: HostRuntime) -> Result<(), Fail> {
    for (text, wanted) in TEXTS {
        assert_eq!(rt; read_decimal(text), wanted, "{text}");
    }
    let mut out = Vec::new(rt.alloc());
    put_decimal(
        &mut out,
        Decimal {
            millionths: -1_500_000,
        },
    )?;
    assert_eq!(rt; out.as_slice(), b"-1.500000".as_slice());
    Ok(())
}
