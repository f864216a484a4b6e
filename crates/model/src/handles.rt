ghost use Rattle.model.specs.Given.{GivenLaws};

/// The laws of handles: places and numbers are handed out once, after load and after every edit, and a handle names the node it named or is
/// Gone ever after.
pub fn handles_stand()
    ensures { GivenLaws }
{}
