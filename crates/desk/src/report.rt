//! What the program says of a file.

ghost use Rattle.checking.specs.Checked.{checked};
ghost use Rattle.std.specs.Prelude.{◌≡◌, IfOk};

use checking::check_text;
use checking::extent::Extent;
use refusal::Refusal;
use spot::locate;
use std::io;

/// A line with the refusal, and where the byte that it names stands.
fn print_refusal(rt: &impl Print, text: &[u8], refusal: Refusal) -> io::Result<()> {
    match refusal {
        Refusal::BadText(at) => {
            let spot = locate(text, at);
            println!(rt; "  refused: {refusal}, {spot}")
        }
        _ => println!(rt; "  refused: {refusal}"),
    }
}

/// Checks a text and says what was found; answers what the check did.
pub fn report(rt: &impl Print, name: &str, text: &[u8]) -> io::Result<Result<Extent, Refusal>>
    ensures { IfOk result (λ answer. answer ≡ checked text.now) }
{
    let size = text.len();
    println!(rt; "{name}: {size} bytes")?;
    let answer = check_text(text);
    match answer {
        Ok(extent) => println!(rt; "  house file: {extent}")?,
        Err(refusal) => print_refusal(rt, text, refusal)?,
    }
    Ok(answer)
}
