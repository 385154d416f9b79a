//! The names of worlds, and of their files.

use crate::end::End;
use app_words::OrderFault;
use share_session::WorldName;
use std::alloc::Global;

/// Returns the text of a name.
pub fn text_of(name: &WorldName) -> &str {
    match std::str::from_utf8(name.text()) {
        Ok(text) => text,
        Err(_) => "",
    }
}

/// Returns the world whose job is a file of this name: one that ends in `.job` after the name of a
/// world, which isn't empty.
pub fn name_of_job(file: &str) -> Option<WorldName> {
    let text = file.as_bytes().strip_suffix(b".job".as_slice())?;
    if text.is_empty() {
        return None;
    }
    WorldName::new(text)
}

/// Returns the path of a world's file with this ending. Fails with `Memory`.
pub fn path_of(alloc: Global, folder: &str, name: &WorldName, ending: &str) -> Result<String, End> {
    match format!(in alloc; "{folder}/{}{ending}", text_of(name)) {
        Ok(path) => Ok(path),
        Err(_) => Err(End::from(OrderFault::Memory)),
    }
}
