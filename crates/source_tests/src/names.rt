//! Names that hide others, and come back.
use aegis_num::Name;
use c_scopes::{Names, local};
use std::test::Fail;

#[test]
fn a_hidden_name_comes_back(rt: HostRuntime) -> Result<(), Fail> {
    let mut names = Names::new(rt.alloc());
    let name = Name::new(b"a");
    names.declare(local(false, &name, 3))?;
    names.declare(local(true, &name, 7))?;
    assert_eq!(rt; names.binding(&name).map(|b| b.token), Some(7));
    assert!(rt; names.is_declared_from(1, &name));
    names.forget(1)?;
    assert_eq!(rt; names.binding(&name).map(|b| b.token), Some(3));
    assert!(rt; !names.is_declared_from(1, &name));
    Ok(())
}
