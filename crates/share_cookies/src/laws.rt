//! What holds of cookies.

ghost use Rattle.share_cookies.specs.Cookies.{TextsTell};
ghost use Rattle.share_cookies.specs.Secrets.{SecretsChange};

/// The text that a cookie is made of tells the address, the port and the viewer.
pub fn texts_tell_places_apart()
    ensures { TextsTell }
{}

/// A cookie is known for two minutes, whatever times pass, and after four minutes no more: only
/// secrets that were fresh since make cookies that are known.
pub fn secrets_change()
    ensures { SecretsChange }
{}
