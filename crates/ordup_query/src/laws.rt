ghost use Rattle.ordup_query.specs.Imports.{ChargesAreImports};

// promise: as Query::read imported
/// A law: what is charged for a read is what it imports, where the marks are those of a reference on a history of which the
/// site applied a prefix.
///
/// So a read is refused `OverImport` exactly where its import would bring the total over the limit.
pub fn charges_are_imports()
    ensures { ChargesAreImports }
{}
