//! Laws of the definitions, the contracts of functions that do nothing.
ghost use Rattle.dw_page.specs.EscapingLaws.{TextsAreEscaped};

/// An escaped text has no `<`, `>`, `"` or `'`, each `&` begins an entity, and a browser reads the original text.
pub fn texts_are_escaped()
    ensures { TextsAreEscaped }
{}
