//! Parts of a text that stand in lists, and the lists of them.
ghost use Rattle.std.specs.Prelude.{◌≡◌, ℕ, ◌++◌, OnOk, string_bytes};
ghost use Rattle.std.specs.Prelude as prelude;
ghost use Rattle.pq_print.specs.Lists.{each_after, separate_texts, clause};

use std::alloc::AllocError;

/// What has a text of its own in a scope, which says what its numbers stand for.
pub trait Part<S> {
    ghost text: { S → Self → prelude.List ℕ };

    /// Puts its text behind what is there.
    fn put(&self, scope: &S, out: &mut String) -> Result<(), AllocError>
        ensures { OnOk result (string_bytes out.new ≡ string_bytes out.old ++ text scope.now self.now) };
}

/// Puts each part, with a text before it.
pub fn put_each<S, P: Part<S>>(
    parts: &[P],
    scope: &S,
    before: &str,
    out: &mut String,
) -> Result<(), AllocError>
    ensures { OnOk result (string_bytes out.new
        ≡ string_bytes out.old ++ each_after before.now (P.text scope.now) parts.now) }
{
    for part in parts {
        out.push_str(before)?;
        part.put(scope, out)?;
    }
    Ok(())
}

/// Puts the parts, with a text between them.
pub fn put_separated<S, P: Part<S>>(
    parts: &[P],
    scope: &S,
    between: &str,
    out: &mut String,
) -> Result<(), AllocError>
    ensures { OnOk result (string_bytes out.new
        ≡ string_bytes out.old ++ separate_texts between.now (P.text scope.now) parts.now) }
{
    let Some((first, rest)) = parts.split_first() else {
        return Ok(());
    };
    first.put(scope, out)?;
    put_each(rest, scope, between, out)
}

/// Puts a keyword and then the parts with a text between them; nothing without parts.
pub fn put_clause<S, P: Part<S>>(
    parts: &[P],
    scope: &S,
    keyword: &str,
    between: &str,
    out: &mut String,
) -> Result<(), AllocError>
    ensures { OnOk result (string_bytes out.new
        ≡ string_bytes out.old ++ clause keyword.now between.now (P.text scope.now) parts.now) }
{
    if parts.is_empty() {
        return Ok(());
    }
    out.push_str(keyword)?;
    put_separated(parts, scope, between, out)
}
