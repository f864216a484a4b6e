ghost use Rattle.model.specs.Laws.{Laws};

/// The laws of the definitions: escapes, newly loaded trees, documents and their printing, changes of one child list, and what each edit keeps.
pub fn laws_stand()
    ensures { Laws }
{}
