//! The cases of a script, one line after the other.

use crate::script::{between_bars, unescaped};
use crate::shape::Shape;
use crate::tally::Tally;
use checking::check_text;
use refusal::Refusal;
use std::alloc::{AllocError, Global};
use std::io;
use text::values::read_text;

/// What a load would make of the text, as scripts write it.
fn outcome(heap: Global, text: &[u8]) -> Result<String, AllocError> {
    match check_text(text) {
        Ok(_) => String::from_str(heap, "ok"),
        Err(Refusal::BadText(at)) => format!(in heap; "BadText {at}"),
        Err(Refusal::TooDeep) => String::from_str(heap, "TooDeep"),
        Err(other) => {
            let number = other.number();
            format!(in heap; "refusal {number}")
        }
    }
}

/// The shape of the text's tree.
fn shape_of(heap: Global, text: &[u8]) -> Result<String, AllocError> {
    let mut shape = Shape::new(heap);
    let _ = read_text(text, &mut shape);
    shape.finish()
}

/// Replays a script; what it has that is about calls on a document is passed over.
pub fn replay(rt: &HostRuntime, script: &str) -> io::Result<Tally> {
    let heap = rt.alloc();
    let mut tally = Tally::default();
    let mut text = Vec::new(heap);
    let mut question = "";
    for line in script.lines() {
        // an empty line, or `end`
        let Some((word, rest)) = line.split_once(' ') else {
            continue;
        };
        match word {
            "case" => tally.add_case(),
            "text" => text = unescaped(heap, between_bars(rest.as_bytes()))?,
            "load" => tally.add_load(outcome(heap, &text)?.as_str() == rest),
            "ask" => question = rest,
            "ans" if question == "shape" => {
                tally.add_shape(shape_of(heap, &text)?.as_str() == rest);
            }
            _ => {}
        }
    }
    Ok(tally)
}
