//! Joins the texts of an entry to keys and translations, as in MO files.
ghost use Rattle.std.specs.Prelude.{◌≡◌, IfOk, OnOk, string_bytes, option_map, ◌++◌, ◌∷◌, if◌then◌else◌};
ghost use Rattle.mo_image.specs.Entry.{key_bytes};

use std::alloc::{AllocError, Global};

/// Appends a key: the msgid or, if there is a context, the context, byte 4 and the msgid.
pub fn push_key(text: &mut String, context: Option<&str>, id: &str) -> Result<(), AllocError>
    ensures { OnOk result (string_bytes text.new ≡ string_bytes text.old
        ++ key_bytes (option_map (λ c. c.now) context.entry) id.now) }
{
    if let Some(context) = context {
        text.push_str(context)?;
        text.push('\u{4}')?;
    }
    text.push_str(id)
}

/// Returns a key as `push_key` appends it. The only error is a failed allocation.
pub fn joined_key(alloc: Global, context: Option<&str>, id: &str) -> Result<String, AllocError>
    ensures { IfOk result (λ key. string_bytes key ≡ key_bytes (option_map (λ c. c.now) context.entry) id.now) }
{
    let mut key = String::new(alloc);
    push_key(&mut key, context, id)?;
    Ok(key)
}

/// Appends a form, after a NUL unless it is the first one.
pub fn push_form(text: &mut String, form: &str, is_first: bool) -> Result<(), AllocError>
    ensures { OnOk result (string_bytes text.new ≡ (if is_first then string_bytes text.old
        ++ form.now else string_bytes text.old ++ 0 ∷ form.now)) }
{
    if !is_first {
        text.push('\0')?;
    }
    text.push_str(form)
}
