//! A user's name and password.

use serde_json::Value;
use std::alloc::{AllocError, Global};

/// The user of etcd whose rights a host has.
#[derive(Drop)]
pub struct Login {
    /// The body of the request that logs in.
    pub(crate) body: Vec<u8>,
}

/// Appends a text as JSON has it.
fn push_quoted(text: &str, into: &mut Vec<u8>, alloc: Global) -> Result<(), AllocError> {
    let mut owned = String::new(alloc);
    owned.push_str(text)?;
    let quoted = Value::String(owned).to_vec(alloc)?;
    into.extend_from_slice(quoted.as_slice())
}

/// Returns the login of a file, whose first line is the name of a user and whose second is the
/// password; or `None` if it has something else. Fails if memory is refused.
pub fn login_of(alloc: Global, file: &[u8]) -> Result<Option<Login>, AllocError> {
    let Ok(text) = str::from_utf8(file) else {
        return Ok(None);
    };
    let mut lines = text.lines();
    let (Some(user), Some(password), None) = (lines.next(), lines.next(), lines.next()) else {
        return Ok(None);
    };
    if user.is_empty() {
        return Ok(None);
    }
    let mut body = Vec::new(alloc);
    body.extend_from_slice(b"{\"name\":")?;
    push_quoted(user, &mut body, alloc)?;
    body.extend_from_slice(b",\"password\":")?;
    push_quoted(password, &mut body, alloc)?;
    body.extend_from_slice(b"}")?;
    Ok(Some(Login { body }))
}

/// Returns the token that an answer to a login has, if it has one.
pub(crate) fn token_of(alloc: Global, answer: &[u8]) -> Result<Option<Vec<u8>>, AllocError> {
    let value = match Value::from_slice(alloc, answer) {
        Ok(value) => value,
        Err(error) if error.is_memory() => return Err(AllocError),
        Err(_) => return Ok(None),
    };
    let Some(token) = value.get("token").and_then(|it| it.as_str()) else {
        drop(value);
        return Ok(None);
    };
    let mut bytes = Vec::new(alloc);
    bytes.extend_from_slice(token.as_bytes())?;
    drop(value);
    Ok(Some(bytes))
}
