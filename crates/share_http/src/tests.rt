//! The texts of logins.

use crate::login::{login_of, token_of};
use std::test::Fail;

#[test]
fn a_login_is_two_lines(rt: HostRuntime) -> Result<(), Fail> {
    let alloc = rt.alloc();
    let Some(login) = login_of(alloc, b"host\nse\"cret\n")? else {
        return Err(Fail::from("no login"));
    };
    assert_eq!(rt;
        login.body.as_slice(),
        b"{\"name\":\"host\",\"password\":\"se\\\"cret\"}".as_slice()
    );
    assert!(rt; login_of(alloc, b"host\n")?.is_none());
    assert!(rt; login_of(alloc, b"\nsecret\n")?.is_none());
    assert!(rt; login_of(alloc, b"host\nsecret\nmore\n")?.is_none());
    assert!(rt; login_of(alloc, b"h\xff\nsecret\n")?.is_none());
    Ok(())
}

#[test]
fn a_token_is_read(rt: HostRuntime) -> Result<(), Fail> {
    let alloc = rt.alloc();
    let Some(token) = token_of(alloc, b"{\"header\":{},\"token\":\"ab.12\"}")? else {
        return Err(Fail::from("no token"));
    };
    assert_eq!(rt; token.as_slice(), b"ab.12".as_slice());
    assert!(rt; token_of(alloc, b"{\"error\":\"authentication failed\",\"code\":3}")?.is_none());
    assert!(rt; token_of(alloc, b"no json")?.is_none());
    Ok(())
}
