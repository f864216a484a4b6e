ghost use Rattle.model.specs.Promise.{ThePromise};

/// The promise: after any calls on a newly loaded document its bytes are a sentence with one reading, value and comments are those of the account, and handles answer as the account has them.
pub fn promise_stands()
    ensures { ThePromise }
{}
