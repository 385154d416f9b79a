//! Cookies by Python's hmac.

use hex::FromHex;
use share_cookies::{Cookie, PERIOD_MILLIS, Secret, Secrets};
use std::test::Fail;

/// The bytes 0 to 31.
const FIRST: Secret = [
    0, 1, 2, 3, 4, 5, 6, 7, 8, 9, 10, 11, 12, 13, 14, 15, 16, 17, 18, 19, 20, 21, 22, 23, 24, 25,
    26, 27, 28, 29, 30, 31,
];

/// The bytes 100 to 131.
const SECOND: Secret = [
    100, 101, 102, 103, 104, 105, 106, 107, 108, 109, 110, 111, 112, 113, 114, 115, 116, 117, 118,
    119, 120, 121, 122, 123, 124, 125, 126, 127, 128, 129, 130, 131,
];

/// 127.0.0.1, and ::1.
const FOUR: [u8; 4] = [127, 0, 0, 1];

const SIX: [u8; 16] = [0, 0, 0, 0, 0, 0, 0, 0, 0, 0, 0, 0, 0, 0, 0, 1];

fn cookie_in(text: &str) -> Result<Cookie, Fail> {
    match <[u8; 8] as FromHex>::from_hex(text) {
        Ok(cookie) => Ok(cookie),
        Err(_) => Err(Fail::from("a cookie isn't read")),
    }
}

#[test]
fn cookies_of_places(rt: HostRuntime) -> Result<(), Fail> {
    let secrets = Secrets::new(FIRST);
    assert!(rt; secrets.cookie(&FOUR, 4000, 3) == cookie_in("b2568e934af414fe")?);
    assert!(rt; secrets.cookie(&SIX, 4000, 3) == cookie_in("9ad6fd24b2907c95")?);
    assert!(rt; secrets.cookie(&FOUR, 4001, 3) == cookie_in("098b668088153f4f")?);
    assert!(rt; secrets.cookie(&FOUR, 4000, 4) == cookie_in("5b2c44475d8793b6")?);
    Ok(())
}

#[test]
fn is_known_for_two_periods(rt: HostRuntime) -> Result<(), Fail> {
    let cookie = cookie_in("b2568e934af414fe")?;
    let mut secrets = Secrets::new(FIRST);
    assert!(rt; secrets.is_known(&cookie, &FOUR, 4000, 3));
    assert!(rt; !secrets.is_known(&cookie, &FOUR, 4000, 4));
    secrets.pass(PERIOD_MILLIS - 1, SECOND);
    assert!(rt; secrets.cookie(&FOUR, 4000, 3) == cookie);
    secrets.pass(1, SECOND);
    assert!(rt; secrets.cookie(&FOUR, 4000, 3) == cookie_in("571292acbb9c5114")?);
    assert!(rt; secrets.is_known(&cookie, &FOUR, 4000, 3));
    secrets.pass(PERIOD_MILLIS, SECOND);
    assert!(rt; !secrets.is_known(&cookie, &FOUR, 4000, 3));
    Ok(())
}

#[test]
fn a_long_time_forgets_both(rt: HostRuntime) -> Result<(), Fail> {
    let mut secrets = Secrets::new(FIRST);
    secrets.pass(2 * PERIOD_MILLIS, SECOND);
    assert!(rt; !secrets.is_known(&cookie_in("b2568e934af414fe")?, &FOUR, 4000, 3));
    assert!(rt; secrets.is_known(&cookie_in("571292acbb9c5114")?, &FOUR, 4000, 3));
    Ok(())
}
