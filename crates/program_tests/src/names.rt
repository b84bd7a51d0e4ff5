//! Tests of names.
use std::test::Fail;
use topology::Name;

#[test]
fn names(rt: HostRuntime) -> Result<(), Fail> {
    let name = Name::new(b"client_a").ok_or("a name")?;
    assert!(rt; name.as_slice() == b"client_a".as_slice());
    assert!(rt; Name::new(b"client_a") == Some(name) && Name::new(b"client_b") != Some(name));
    for (text, is_name) in [
        ("0123456789abcdef", true),
        ("0123456789abcdefg", false),
        ("", false),
    ] {
        assert!(rt;
            Name::new(text.as_bytes()).is_some() == is_name,
            "at {text}"
        );
    }
    Ok(())
}
