ghost use Rattle.model.specs.Accounted.{AccountLaws};

/// The laws of the account: after an edit, value and comments of the whole document are what the account of the history says.
pub fn account_laws_stand()
    ensures { AccountLaws }
{}
