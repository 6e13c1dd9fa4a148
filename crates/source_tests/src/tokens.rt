//! The tokens of a text, and the bytes where they begin.
use aegis_num::Name;
use c_token::{Kind, Sign, Token, Word, tokens};
use std::test::Fail;

#[test]
fn reads_a_text(rt: HostRuntime) -> Result<(), Fail> {
    let text = "/***/int\ta>>=0X1F//*\r\n<<=> =_b//";
    let found = tokens(rt.alloc(), text.as_bytes())?;
    let kinds = [
        (Kind::Word(Word::Int), 5),
        (Kind::Name(Name::new(b"a")), 9),
        (Kind::Sign(Sign::ShiftRight), 10),
        (Kind::Sign(Sign::Assign), 12),
        (
            Kind::Number {
                value: 31,
                unsigned: false,
            },
            13,
        ),
        (Kind::Sign(Sign::ShiftLeft), 22),
        (Kind::Sign(Sign::Assign), 24),
        (Kind::Sign(Sign::GreaterThan), 25),
        (Kind::Sign(Sign::Assign), 27),
        (Kind::Name(Name::new(b"_b")), 28),
    ];
    assert_eq!(rt; found.len(), kinds.len());
    for (token, (kind, at)) in found.iter().zip(kinds) {
        assert_eq!(rt; *token, Token { kind, at });
    }
    Ok(())
}
